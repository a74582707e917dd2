//! The known cards of the players: at the end of the hand, and on a street of it.

ghost use Rattle.std.specs.Prelude.{◌≡◌, ℕ, ◌<◌, []};
ghost use Rattle.card_sets.specs.Cards.{union, minus};
ghost use Rattle.betting_replay.specs.Known.{final_drawn, final_held, final_with, final_in, final_by, first_outside, with_down, with_first, so_many, known_stud, draws_openly, kept, known_drawn, draws_last_openly, kept_last, known_triple, known_in, known_by};
ghost use Rattle.betting_replay.specs.Table.{holding_by, final_at, known_at};

use crate::hands::if_many;
use crate::replay::Replay;
use crate::seats::{LastDraw, SeatState};
use card_sets::{Card, CardSet, Family};
use hand_events::Street;

/// Returns a set with the first two cards of a bracket that aren't among others.
fn with_two(cards: CardSet, others: CardSet, row: &[Card]) -> CardSet
    ensures { result ≡ union cards (first_outside 2 others row.now) }
{
    let mut all = cards;
    let mut left: u8 = 2;
    for card in row {
        if left == 0 {
            continue;
        }
        if others.has(*card) {
            continue;
        }
        all = all.with(*card);
        left -= 1;
    }
    // They are a set of cards, so adding no card changes nothing.
    all.rising();
    all
}

/// Returns the cards with the two that are face down, by a bracket of seven.
fn with_down(cards: CardSet, up: CardSet, row: Option<[Card; 7]>) -> Option<CardSet>
    ensures { result ≡ with_down cards up row }
{
    match row {
        Some(row) => Some(with_two(cards, up, &row)),
        None => None,
    }
}

impl LastDraw {
    /// Returns whether the text has the five cards with which a player came to the last draw, and all
    /// their discards on it.
    fn draws_openly(&self) -> bool
        ensures { result ≡ draws_last_openly self.now }
    {
        self.held.count() == 5 && !self.hidden_before && !self.hidden
    }
}

impl SeatState {
    /// Returns the last whole hand that the seat showed, or otherwise its dealt cards if there are `count`
    /// of them.
    fn final_with(&self, count: u32) -> Option<CardSet>
        ensures { result ≡ final_with count (holding_by self.now []) }
    {
        self.shown.or(if_many(count, self.dealt))
    }

    /// Returns the final cards of a draw game, given the cards discarded face up.
    fn final_drawn(&self, thrown: CardSet) -> Option<CardSet>
        ensures { result ≡ final_drawn (holding_by self.now thrown) }
    {
        if let Some(cards) = self.shown {
            return Some(cards);
        }
        if self.draws.hidden {
            return None;
        }
        if_many(5, self.dealt.minus(thrown))
    }

    /// Returns the final cards of a game with several draws.
    fn final_held(&self) -> Option<CardSet>
        ensures { result ≡ final_held (holding_by self.now []) }
    {
        if let Some(cards) = self.shown {
            return Some(cards);
        }
        if self.draws.hidden {
            return None;
        }
        if_many(5, self.held)
    }

    /// Returns some dealt cards with those that are face down, if there are `count` of them.
    fn so_many(&self, count: u32, cards: CardSet) -> Option<CardSet>
        ensures { result ≡ so_many count (with_first (holding_by self.now []) cards) }
    {
        if self.deals.down {
            return if_many(count, cards);
        }
        match with_down(cards, self.deals.up, self.seven_shown) {
            Some(cards) => if_many(count, cards),
            None => None,
        }
    }

    /// Returns the cards of the streets up to a street, in a stud game.
    fn known_stud(&self, street: Street) -> Option<CardSet>
        ensures { result ≡ known_stud (holding_by self.now []) street }
    {
        let fourth = self.deals.first.union(self.deals.fourth);
        let fifth = fourth.union(self.deals.fifth);
        match street {
            Street::First => self.so_many(3, self.deals.first),
            Street::Fourth => self.so_many(4, fourth),
            Street::Fifth => self.so_many(5, fifth),
            Street::Sixth => self.so_many(6, fifth.union(self.deals.sixth)),
            _ => if_many(7, self.own),
        }
    }

    /// Returns whether five cards were dealt in the text, and all discards are shown and are of these.
    fn draws_openly(&self, thrown: CardSet) -> bool
        ensures { result ≡ draws_openly (holding_by self.now thrown) }
    {
        let given = self.deals.given;
        given.count() == 5 && !self.draws.hidden && self.own.minus(given).is_apart(thrown)
    }

    /// Returns the cards that a player keeps in the draw.
    fn kept_cards(&self, thrown: CardSet) -> Option<CardSet>
        ensures { result ≡ kept (holding_by self.now thrown) }
    {
        if self.draws_openly(thrown) {
            return Some(self.deals.given.minus(thrown));
        }
        if self.draws.pat && self.own.is_apart(thrown) {
            return self.final_drawn(thrown);
        }
        if self.draws.five {
            return Some(CardSet::empty());
        }
        None
    }

    /// Returns the cards of a draw game on a street.
    fn known_drawn(&self, thrown: CardSet, street: Street) -> Option<CardSet>
        ensures { result ≡ known_drawn (holding_by self.now thrown) street }
    {
        match street {
            Street::First => self.kept_cards(thrown),
            _ => self.final_drawn(thrown),
        }
    }

    /// Returns the cards that a player keeps in the last draw.
    fn last_kept_cards(&self) -> Option<CardSet>
        ensures { result ≡ kept_last (holding_by self.now []) }
    {
        let last = &self.last_draw;
        if last.pat {
            return self.final_held();
        }
        if last.five {
            return Some(CardSet::empty());
        }
        if last.draws_openly() {
            return Some(last.held.minus(last.thrown));
        }
        None
    }

    /// Returns the cards on a street of a game with three draws.
    fn known_triple(&self, street: Street) -> Option<CardSet>
        ensures { result ≡ known_triple (holding_by self.now []) street }
    {
        match street {
            Street::First | Street::FirstDraw => None,
            Street::SecondDraw => self.last_kept_cards(),
            _ => self.final_held(),
        }
    }
}

impl Replay {
    /// Returns a seat's final cards. `None` exactly if they are unknown.
    ///
    /// With a board they are the last whole hand that the seat showed or the summary gives, or otherwise
    /// its dealt cards if these are a whole hand. In a stud game they are all seven cards. In a draw game
    /// they are the last whole hand shown after the last discard, or otherwise the cards dealt and drawn
    /// without the discards, if these are five and each discard was shown.
    #[tactic(auto, unfolding(crate::specs::Table::final_at))]
    pub fn final_cards(&self, seat: u8) -> Option<CardSet>
        requires { seat < 11 }
        ensures { result ≡ final_at self.now seat }
    {
        let game = self.header.game;
        let state = &self.seats[seat as usize];
        match game.family() {
            Family::Board => state.final_with(game.own_size()),
            Family::Stud => if_many(7, state.own),
            Family::Draw => state.final_drawn(self.thrown),
            Family::TripleDraw => state.final_held(),
        }
    }

    /// Returns a seat's cards on a street, by the whole text. `None` exactly if they are unknown.
    ///
    /// With a board, and on the last street, they are the final cards. On an earlier street of a stud game
    /// they are the cards dealt on the streets up to it, if these are all that the streets deal; if the
    /// two cards face down weren't dealt in the text, a later bracket of seven gives them. In a game with
    /// one draw they are the cards that the player keeps. In a game with three draws they are the cards
    /// kept on the last draw, and before the second draw they are unknown.
    #[tactic(auto, unfolding(crate::specs::Table::known_at))]
    pub fn cards_at(&self, seat: u8, street: Street) -> Option<CardSet>
        requires { seat < 11 }
        ensures { result ≡ known_at self.now seat street }
    {
        let game = self.header.game;
        let state = &self.seats[seat as usize];
        match game.family() {
            Family::Board => state.final_with(game.own_size()),
            Family::Stud => state.known_stud(street),
            Family::Draw => state.known_drawn(self.thrown, street),
            Family::TripleDraw => state.known_triple(street),
        }
    }
}
