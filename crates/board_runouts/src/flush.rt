//! Flushes with some cards of one suit on the board.

ghost use Rattle.std.specs.Prelude.{◌≡◌, ℕ, ◌<◌, slice_index, IsTrue};

use card_sets::CardSet;

/// The suit that a full board has more than two cards of.
#[derive(Clone, Copy)]
pub(crate) struct Suited {
    /// The board.
    pub(crate) board: CardSet,
    /// Its cards of the suit.
    pub(crate) cards: CardSet,
    /// The suit.
    pub(crate) suit: u8,
    /// The ranks of these cards as bits, by which a kept flush is found.
    pub(crate) tag: u32,
}

/// The best flush of each pot with some cards of one suit on the board.
#[derive(Clone, Copy)]
pub(crate) struct Flush {
    /// The cards of the suit on the board.
    pub(crate) cards: CardSet,
    /// The number of the deal.
    pub(crate) stamp: u32,
    /// The suit, from 0.
    pub(crate) suit: u8,
    /// By the pot, the hands that have the best flush, as the number with their bits. Only right if somebody has a flush.
    pub(crate) sets: [u16; 10],
    /// By the pot, the number of the best flush, 0 if nobody has one.
    pub(crate) tops: [u32; 10],
    /// A set is of up to ten hands.
    pub(crate) ghost few: { (pot : ℕ) → slice_index sets pot < 1024 },
}

impl Flush {
    /// Makes the flush of no deal.
    pub(crate) fn none() -> Flush
        ensures { result.stamp ≡ 0 }
    {
        Flush {
            cards: CardSet::empty(),
            stamp: 0,
            suit: 0,
            sets: [0; 10],
            tops: [0; 10],
        }
    }

    /// Returns whether this is the flush of a deal with some cards of a suit on the board.
    #[inline]
    pub(crate) fn is_of(&self, stamp: u32, part: &Suited) -> bool
        ensures stamp { IsTrue result → self.now.stamp ≡ stamp }
        ensures cards { IsTrue result → self.now.cards ≡ part.now.cards }
        ensures suit { IsTrue result → self.now.suit ≡ part.now.suit }
    {
        self.cards == part.cards && self.stamp == stamp && self.suit == part.suit
    }
}
