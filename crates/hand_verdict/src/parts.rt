//! What the winners of each side of each part of a pot get.

use crate::settlement::Settlement;
use crate::verdicts::HandAudit;
use card_sets::{Items, Side};
use hand_events::Names;

/// What a winner gets of a side of a part of a pot.
#[derive(Clone, Copy)]
pub struct PartShare {
    /// The board that the part goes by, 1 or 2; 1 in a game without a board.
    pub board: u8,
    /// The side.
    pub side: Side,
    /// The winner's seat.
    pub seat: u8,
    /// What he gets of it, in units.
    pub units: u64,
    /// Whether one of them is an odd unit: one of those that are left over when the side is shared in equal parts.
    pub odd: bool,
}

/// The shares of the parts of a pot: board by board, the first side of each before the second, and the winners of
/// a side by rising seat. Clauses see the list of them.
pub type PartShares = Items<PartShare>;

/// What became of the chips of a hand that is rejected for its payments alone.
#[derive(Drop)]
pub struct SplitHand {
    /// What became of them.
    pub settlement: Settlement,
    /// The seats and names of all seat lines before the first street, in their order.
    pub names: Names,
    /// Who plays: bit s for seat s.
    pub players: u16,
}

/// The verdict on a hand, and the settlement of a hand that is rejected for its payments alone.
#[derive(Drop)]
pub struct Verdict {
    /// The verdict.
    pub audit: HandAudit,
    /// The settlement of a hand that is rejected for its payments alone; `None` for any other hand.
    pub split: Option<SplitHand>,
}
