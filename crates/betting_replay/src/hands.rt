//! The cards that events deal to the players, and the hands that they show.

ghost use Rattle.std.specs.Prelude.{◌≡◌, ℕ, ◌<◌, length};
ghost use Rattle.betting_replay.specs.Hands.{dealt_by, held_after, shown_by, if_many, whole, is_discard, shown_after, row_by};
ghost use Rattle.betting_replay.specs.Table.{own_at};

use crate::places::{cards_thrown, with_cards, without_cards};
use crate::replay::Replay;
use card_sets::{Card, CardSet, Game};
use hand_events::Event;

/// Returns the cards that an event deals.
pub(crate) fn cards_dealt(e: &Event) -> &[Card]
    ensures { result.now ≡ dealt_by e.now }
{
    match e {
        Event::Deal { cards, .. } => cards.items(),
        _ => &[],
    }
}

/// Returns the cards that a seat holds by the text, after an event about it.
pub(crate) fn held_after(e: &Event, cards: CardSet) -> CardSet
    ensures { result ≡ held_after e.now cards }
{
    without_cards(with_cards(cards, cards_dealt(e)), cards_thrown(e))
}

/// Returns the cards that an event shows.
pub(crate) fn cards_shown(e: &Event) -> &[Card]
    ensures { result.now ≡ shown_by e.now }
{
    match e {
        Event::Show { cards, .. } | Event::SeatCards { cards, .. } => cards.items(),
        Event::Act { shown, .. } => shown.items(),
        _ => &[],
    }
}

/// Returns the cards if there are exactly `count` of them.
pub(crate) fn if_many(count: u32, cards: CardSet) -> Option<CardSet>
    ensures { result ≡ if_many count cards }
{
    if cards.count() == count {
        Some(cards)
    } else {
        None
    }
}

/// Returns the set of a bracket's cards if they are a whole hand.
fn whole(game: Game, cards: &[Card]) -> Option<CardSet>
    ensures { result ≡ whole game cards.now }
{
    if_many(game.own_size(), with_cards(CardSet::empty(), cards))
}

/// Returns whether an event is a discard.
fn is_discard(e: &Event) -> bool
    ensures { result ≡ is_discard e.now }
{
    matches!(e, Event::Discard { .. })
}

/// Returns the last whole hand that a seat showed, after an event about it.
pub(crate) fn shown_after(game: Game, e: &Event, before: Option<CardSet>) -> Option<CardSet>
    ensures { result ≡ shown_after game e.now before }
{
    if is_discard(e) {
        return None;
    }
    whole(game, cards_shown(e)).or(before)
}

/// Returns the cards in their order if there are exactly seven.
fn row_of(cards: &[Card]) -> Option<[Card; 7]>
    ensures { result ≡ if_many 7 cards.now }
{
    <[Card; 7]>::try_from(cards).ok()
}

/// Returns the seven cards that an event shows in one bracket.
pub(crate) fn row_by(e: &Event) -> Option<[Card; 7]>
    ensures { result ≡ row_by e.now }
{
    row_of(cards_shown(e))
}

impl Replay {
    /// Returns all cards of the board, or of the first board if there are two.
    pub fn board(&self) -> CardSet
        ensures { result ≡ own_at self.now 0 }
    {
        self.seats[0].own
    }
}
