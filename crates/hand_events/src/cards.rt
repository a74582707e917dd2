//! The cards of a bracket.

ghost use Rattle.std.specs.Prelude.{◌≡◌, ◌<◌, ◌≤◌, [], ◌∷◌, ◌++◌, length, SomeIff};

use card_sets::Card;
use std::marker::Model;

/// The cards in a bracket, in order: at most ten. Clauses see the list of them.
#[derive(Drop)]
pub struct Cards {
    /// The number of cards.
    count: u8,
    /// The cards, followed by unused ones.
    list: [Card; 10],
}

impl Model for Cards {
    ghost use Rattle.std.specs.Prelude.{List, ℕ, ◌≤◌, take};

    ghost Value = { List ℕ };

    ghost view = { λ c. take c.count c.list };

    ghost invariant = { λ c. c.count ≤ 10 };
}

impl Cards {
    /// Returns the list without cards.
    pub fn none() -> Cards
        ensures { result ≡ [] }
    {
        Cards {
            count: 0,
            list: [Card::new(0, 0).unwrap(); 10],
        }
    }

    /// Returns the list of the given cards, in order. `None` exactly if there are more than ten.
    ///
    /// An example is an event in which a player shows two aces:
    ///
    /// ```
    /// let aces = Cards::of(&[Card::read(*b"As")?, Card::read(*b"Ah")?])?;
    /// let event = Event::Show { seat: 4, cards: aces };
    /// ```
    pub fn of(cards: &[Card]) -> Option<Cards>
        ensures { SomeIff result (length cards.now ≤ 10) cards.now }
    {
        if cards.len() > 10 {
            return None;
        }
        let mut all = Cards::none();
        for card in cards {
            all.push(*card);
        }
        Some(all)
    }

    /// Adds a card at the end.
    pub fn push(&mut self, card: Card)
        requires { length self.old < 10 }
        ensures { self.new ≡ self.old ++ card ∷ [] }
    {
        self.list[self.count as usize] = card;
        self.count += 1;
    }

    /// Returns the number of cards.
    pub fn count(&self) -> usize
        ensures value { result ≡ length self.now }
        ensures few { result ≤ 10 }
    {
        self.items().len()
    }

    /// Returns the cards, in order.
    pub fn items(&self) -> &[Card]
        ensures value { result.now ≡ self.now }
        ensures few { length self.now ≤ 10 }
    {
        &self.list[..self.count as usize]
    }
}
