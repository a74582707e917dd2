//! The moment after which a hand is played out without acts, and its showdowns.

use hand_events::Street;

/// An all-in point: two or more players are in the hand, at most one of them has chips left, nobody
/// owes an act, and cards are to come.
#[derive(Clone, Copy)]
pub struct Point {
    /// The street of the point.
    pub street: Street,
    /// The players who hadn't folded at the point: bit s for seat s.
    pub contenders: u16,
}

/// The showdown markers so far.
#[derive(Clone, Copy)]
pub struct Showdowns {
    /// Whether there was one of the only board.
    pub plain: bool,
    /// Whether there was one of the first of two boards.
    pub first: bool,
    /// Whether there was one of the second board.
    pub second: bool,
}
