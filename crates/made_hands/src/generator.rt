//! The generator of made hands.

ghost use Rattle.std.specs.Prelude.{◌≡◌, ◌+◌, ◌<◌, ◌≤◌, length, slice_index};
ghost use Rattle.made_hands.specs.Deals.{card_drawn, cards_drawn, left_after, left_behind, stack_drawn};
ghost use Rattle.made_hands.specs.Generator.{drawn, next_state, state_after};

use card_sets::{Card, CardSet};

/// A linear congruential generator of 64 bits.
#[derive(Clone, Copy)]
pub(crate) struct Generator {
    /// The seed, or the state after the last draw.
    pub(crate) state: u64,
}

/// Returns the card at a place of a set, from 0.
fn card_at(cards: CardSet, place: usize) -> Card
    requires { place < length cards }
    ensures { result ≡ slice_index cards place }
{
    let Some(card) = cards.iter().nth(place) else {
        unreachable!();
    };
    card
}

impl Generator {
    /// Moves to the next state, and draws a number below m.
    fn draw(&mut self, m: u64) -> u64
        requires { 0 < m }
        ensures state { self.new.state ≡ next_state self.old.state }
        ensures value { result ≡ drawn m self.old.state }
        ensures below { result < m }
    {
        self.state = self
            .state
            .wrapping_mul(6_364_136_223_846_793_005)
            .wrapping_add(1_442_695_040_888_963_407);
        (self.state >> 33) % m
    }

    /// Draws a card from the cards left, and removes it.
    fn card(&mut self, left: &mut CardSet) -> Card
        requires { 0 < length left.old }
        ensures state { self.new.state ≡ next_state self.old.state }
        ensures value { result ≡ card_drawn left.old self.old.state }
        ensures left { left.new ≡ left_behind left.old self.old.state }
        ensures fewer { length left.new + 1 ≡ length left.old }
    {
        left.rising();
        let place = self.draw(u64::from(left.count()));
        let card = card_at(*left, place as usize);
        *left = left.without(card);
        card
    }

    /// Draws a player's two cards.
    pub(crate) fn hole_cards(&mut self, left: &mut CardSet) -> [Card; 2]
        requires { 2 ≤ length left.old }
        ensures state { self.new.state ≡ state_after 2 self.old.state }
        ensures value { result ≡ cards_drawn 2 left.old self.old.state }
        ensures left { left.new ≡ left_after 2 left.old self.old.state }
        ensures fewer { length left.new + 2 ≡ length left.old }
    {
        [self.card(left), self.card(left)]
    }

    /// Draws the five cards of a board.
    pub(crate) fn board(&mut self, left: &mut CardSet) -> [Card; 5]
        requires { 5 ≤ length left.old }
        ensures state { self.new.state ≡ state_after 5 self.old.state }
        ensures value { result ≡ cards_drawn 5 left.old self.old.state }
    {
        [
            self.card(left),
            self.card(left),
            self.card(left),
            self.card(left),
            self.card(left),
        ]
    }

    /// Draws a stack, in whole dollars.
    pub(crate) fn stack(&mut self) -> u64
        ensures state { self.new.state ≡ next_state self.old.state }
        ensures value { result ≡ stack_drawn self.old.state }
    {
        10 + self.draw(191)
    }
}
