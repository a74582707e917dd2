//! A hand of two cards with its weight in a range.

ghost use Rattle.std.specs.Prelude.{◌≡◌, [], ◌∷◌};
ghost use Rattle.spot_text.specs.Parts.{set_of};
ghost use Rattle.range_lines.specs.Hands.{hand_of};

use crate::spot::Weighted;
use card_sets::{Card, CardSet};

/// The hand of two cards, the lower first, and how much it weighs.
#[derive(Clone, Copy)]
pub(crate) struct Pair {
    /// The lower card.
    pub(crate) low: Card,
    /// The higher card.
    pub(crate) high: Card,
    /// The weight, 0 to 100.
    pub(crate) weight: u8,
}

impl Pair {
    /// The set of its cards.
    fn cards(&self) -> CardSet
        ensures { result ≡ set_of (self.now.low ∷ self.now.high ∷ []) }
    {
        CardSet::empty().with(self.low).with(self.high)
    }

    /// The hand with its weight, if it has one and meets neither the board nor the dead cards.
    pub(crate) fn hand(&self, board: CardSet, dead: CardSet) -> Option<Weighted>
        ensures { result ≡ hand_of board dead self.now }
    {
        let hand = self.cards();
        if self.weight > 0 && hand.is_apart(board) && hand.is_apart(dead) {
            Some(Weighted {
                hand,
                weight: self.weight,
            })
        } else {
            None
        }
    }
}
