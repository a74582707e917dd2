//! What each seat of a hand had, and what it put in.

use crate::verdicts::HandAudit;

/// What a seat had, and what it put in, in units.
#[derive(Clone, Copy)]
pub struct SeatChips {
    /// The chips that its seat line gives; 0 where it has none.
    pub had: u64,
    /// What it put in: antes, posts, dead chips, calls and bets, less what came back to it.
    pub put: u64,
}

/// A verdict on a hand, and the chips of its seats.
#[derive(Drop)]
pub struct AuditedChips {
    /// The verdict.
    pub audit: HandAudit,
    /// What each seat had and put in, by its number, 0 being no seat. Of a rejected hand nothing.
    pub chips: [SeatChips; 11],
}
