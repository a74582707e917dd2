//! Cards, sets of cards and sets of players.

use crate::rows::deals::cards;
use crate::rows::row_text;
use card_sets::{Card, CardSet, PlayerSet};
use std::test::Fail;

/// Cards, each with its number, rank and suit.
const NAMED: &[([u8; 2], u8, u8, u8)] = &[
    (*b"2c", 0, 0, 0),
    (*b"Th", 34, 8, 2),
    (*b"As", 51, 12, 3),
];

/// Letters that name no card.
const NAMELESS: &[[u8; 2]] = &[*b"1s", *b"AS", *b"as", *b"sA", *b"  ", *b"10"];

/// A set of three cards, one of which is added twice.
const MIXED: &[u8] = b"Ah2dTc2d";

/// The three cards, rising.
const RISING: &[[u8; 2]] = &[*b"2d", *b"Tc", *b"Ah"];

/// The first two of the cards.
const LEAST: &[[u8; 2]] = &[*b"2d", *b"Tc"];

/// Four players, one of whom is added twice.
const PLAYERS: &[u8] = &[9, 2, 14, 0, 2];

/// Returns whether a card has this number, rank, suit and text.
fn is_card(card: Card, text: [u8; 2], number: u8, rank: u8, suit: u8) -> bool {
    card.number() == number && card.rank() == rank && card.suit() == suit && card.text() == text
}

/// Returns whether a text, and a rank and a suit, name the card of a number.
fn is_named(text: [u8; 2], number: u8, rank: u8, suit: u8) -> bool {
    match (Card::read(text), Card::new(rank, suit)) {
        (Some(card), Some(other)) => {
            is_card(card, text, number, rank, suit) && is_card(other, text, number, rank, suit)
        }
        _ => false,
    }
}

/// Returns the first of these texts that doesn't name its card.
fn wrong_name(table: &'static [([u8; 2], u8, u8, u8)]) -> Option<&'static str> {
    for (text, number, rank, suit) in table {
        if !is_named(*text, *number, *rank, *suit) {
            return Some(row_text(text));
        }
    }
    None
}

/// Returns the first of these texts that names a card.
fn first_named(texts: &'static [[u8; 2]]) -> Option<&'static str> {
    for text in texts {
        if Card::read(*text).is_some() {
            return Some(row_text(text));
        }
    }
    None
}

#[test]
fn letters_name_cards(rt: HostRuntime) {
    assert_eq!(rt; wrong_name(NAMED), None);
    assert_eq!(rt; first_named(NAMELESS), None);
}

/// Returns whether the cards of a set are these, each after the one before it.
fn rises(set: CardSet, texts: &[[u8; 2]]) -> bool {
    let mut next = set.first();
    for text in texts {
        let Some(card) = next else {
            return false;
        };
        if card.text() != *text {
            return false;
        }
        next = set.after(card);
    }
    next.is_none() && set.count() as usize == texts.len()
}

/// Returns whether a set gives these cards, one after the other.
fn gives(set: CardSet, texts: &[[u8; 2]]) -> bool {
    let mut left = texts;
    for card in set.iter() {
        let [first, rest @ ..] = left else {
            return false;
        };
        if card.text() != *first {
            return false;
        }
        left = rest;
    }
    left.is_empty()
}

/// Returns whether the least cards of a set are these.
fn has_least(set: CardSet, count: u32, texts: &[[u8; 2]]) -> bool {
    set.count() >= count && rises(set.least(count), texts)
}

/// Returns whether a set has a card, doesn't have it once it is removed, and has `count` cards once
/// it is added again.
fn gives_up(set: CardSet, card: Card, count: u32) -> bool {
    let without = set.without(card);
    set.has(card)
        && !without.has(card)
        && without.union(CardSet::empty().with(card)).count() == count
}

/// Returns the number of the first card of a set for which `gives_up` is false.
fn kept(set: CardSet, count: u32) -> Option<u8> {
    for card in set.iter() {
        if !gives_up(set, card, count) {
            return Some(card.number());
        }
    }
    None
}

#[test]
fn a_set_gives_its_cards_rising(rt: HostRuntime) -> Result<(), Fail> {
    let set = cards(MIXED).ok_or("no cards")?;
    assert!(rt;
        rises(set, RISING),
        "each card comes after the one before it"
    );
    assert!(rt; gives(set, RISING), "the set gives its three cards, rising");
    assert!(rt;
        has_least(set, 2, LEAST),
        "the two least cards are 2d and Tc"
    );
    assert_eq!(rt; kept(set, 3), None);
    Ok(())
}

/// Returns the set of some players below 16.
fn players_of(players: &[u8]) -> PlayerSet {
    let mut set = PlayerSet::empty();
    for player in players {
        if *player < 16 {
            set = set.with(*player);
        }
    }
    set
}

/// Returns whether a set gives these players, one after the other.
fn gives_players(set: PlayerSet, players: &[u8]) -> bool {
    let mut left = players;
    for player in set.each() {
        let [first, rest @ ..] = left else {
            return false;
        };
        if player != *first {
            return false;
        }
        left = rest;
    }
    left.is_empty()
}

/// Returns whether a number is odd.
fn is_odd(number: u8) -> bool {
    number % 2 == 1
}

#[test]
fn a_set_gives_its_players_rising(rt: HostRuntime) {
    let set = players_of(PLAYERS);
    assert_eq!(rt;
        set.bits(),
        0b100_0010_0000_0101,
        "a bit for each of the players 0, 2, 9, and 14"
    );
    assert_eq!(rt; set.count(), 4, "a player who is added twice counts once");
    assert!(rt;
        gives_players(set, &[0, 2, 9, 14]),
        "the set gives its players, rising"
    );
    assert!(rt; set.has(9), "player 9 is in the set");
    assert!(rt;
        !set.without(9).has(9),
        "player 9 isn't in the set without player 9"
    );
    assert!(rt; !set.has(3), "player 3 isn't in the set");
}

#[test]
fn players_are_chosen_by_seat_by_number_and_by_a_test(rt: HostRuntime) {
    let set = players_of(PLAYERS);
    assert_eq!(rt;
        set.seats().bits(),
        0b10_0000_0100,
        "of the players, 2 and 9 are seats"
    );
    assert_eq!(rt;
        set.below(9).bits(),
        0b101,
        "the players 0 and 2 are below 9"
    );
    assert_eq!(rt;
        PlayerSet::passing(5, is_odd).bits(),
        0b1010,
        "below 5, 1 and 3 are odd"
    );
}
