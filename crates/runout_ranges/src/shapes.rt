//! Who lacks how many cards.

ghost use Rattle.std.specs.Prelude.{◌≤◌, take, length, sum};
ghost use Rattle.runout_ranges.specs.Slots.{counts_of};

use card_sets::CardSet;

/// A receiver of cards.
#[derive(Clone, Copy, PartialEq, Eq)]
pub enum Receiver {
    /// The board.
    Board,
    /// The hand with this number, from 0.
    Hand(u8),
}

/// Cards to come for a receiver.
#[derive(Clone, Copy, PartialEq, Eq)]
pub struct Slot {
    /// The receiver of the cards.
    pub receiver: Receiver,
    /// The number of cards.
    pub count: u8,
}

/// The cards still to be dealt: the cards that may come, and the slots that they fill.
#[derive(Clone, Copy)]
pub struct Shape {
    /// The cards that may come.
    pub unseen: CardSet,
    /// The slots. Only the first `used` of them count.
    pub slots: [Slot; 11],
    /// The number of slots.
    pub used: u8,
    /// There is at most one slot for the board and one for each of ten hands.
    pub ghost few: { used ≤ 11 },
    /// Enough cards may come.
    pub ghost enough: { sum (counts_of (take used slots)) ≤ length unseen },
}
