//! The verdict on a hand, and its all-in.

use crate::cause::Cause;
use crate::settlement::Settlement;
use hand_events::{Names, Street};
use showdown_tally::Table;

/// The moment from which a hand is played out with no more acts, with cards still to come.
#[derive(Clone, Copy)]
pub enum AllIn {
    /// The hand has none.
    None,
    /// It has one, but the cards of a contender at it aren't known.
    Unknown,
    /// Where it lies, and what was known there.
    Known {
        /// The street on which it lies.
        street: Street,
        /// The seats of the table's hands, hand by hand and rising, and 0 after them.
        seats: [u8; 10],
        /// The known cards, and the pots of the whole hand.
        table: Table,
    },
}

/// The verdict on a hand.
#[derive(Drop)]
pub enum HandAudit {
    /// A line departs from the rules.
    Rejected {
        /// The number of the first line that departs.
        line: u32,
        /// Why it does.
        cause: Cause,
        /// Whether a unit is a hundredth, or else a chip; false if the first line doesn't have the form of a header.
        hundredths: bool,
    },
    /// No line departs.
    Accepted {
        /// What became of the chips.
        settlement: Settlement,
        /// The all-in.
        all_in: AllIn,
        /// The seats and names of all seat lines before the first street, in their order.
        names: Names,
        /// Who plays: bit s for seat s.
        players: u16,
    },
}
