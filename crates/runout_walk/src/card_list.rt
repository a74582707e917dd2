//! The cards of a set as a list.

ghost use Rattle.std.specs.Prelude.{◌≡◌, ◌≤◌, length, take};

use card_sets::{Card, CardSet};
use std::marker::Model;

/// How many cards a deck has.
pub const DECK: usize = 52;

/// Some cards as a list, on the stack. Clauses see it as that list.
#[derive(Drop)]
pub struct CardList {
    /// The cards, and others after them.
    cards: [Card; DECK],
    /// How many they are.
    used: usize,
}

impl Model for CardList {
    ghost use Rattle.std.specs.Prelude.{ℕ, List, take, ◌≤◌};

    ghost Value = { List ℕ };

    ghost view = { λ l. take l.used l.cards };

    ghost invariant = { λ l. l.used ≤ 52 };
}

/// Puts the cards of a set at the front.
#[inline]
fn put_cards(cards: &mut [Card], set: CardSet)
    requires { length set ≤ length cards.old }
    ensures { take (length set) cards.new ≡ set }
{
    let mut used = 0;
    let mut rest = set;
    while let Some(card) = rest.first() {
        rest = rest.without(card);
        cards[used] = card;
        used += 1;
    }
}

/// Some card.
#[inline]
fn any_card() -> Card {
    let Some(card) = Card::new(0, 0) else {
        unreachable!();
    };
    card
}

impl CardList {
    /// The cards of a set, rising.
    #[inline]
    pub fn of(set: CardSet) -> CardList
        ensures cards { result ≡ set }
        ensures few { length set ≤ 52 }
    {
        let mut cards = [any_card(); DECK];
        let used = set.count() as usize;
        put_cards(&mut cards, set);
        CardList { cards, used }
    }

    /// The cards as a slice.
    #[inline]
    pub fn as_slice(&self) -> &[Card]
        ensures { result.now ≡ self.now }
    {
        &self.cards[..self.used]
    }
}
