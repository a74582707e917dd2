//! The later streets of a hand that is played out.

use hand_events::Street;
use showdown_tally::Table;

/// What is known on a street after the all-in point of a hand.
#[derive(Clone, Copy)]
pub struct StreetState {
    /// The street.
    pub street: Street,
    /// The cards known on it, of the contenders at the point, and the pots of the whole hand. None where
    /// the cards of a contender aren't known on it.
    pub table: Option<Table>,
}
