//! Hands that are run twice.

use super::{DOLLARS, THREE_NAMES, all_stand, card, is_refused, refused_line};
use crate::rows::histories::names::names_of;
use betting_replay::{BetFault, Replay};
use card_sets::{Card, CardSet};
use history_text::{Names, Street};
use std::test::Fail;

/// Two seats that are all-in before the flop.
const ALL_IN: [&[u8]; 7] = [
    b"Seat 1: ann ($50 in chips)",
    b"Seat 2: bob ($50 in chips)",
    b"ann: posts small blind $0.50",
    b"bob: posts big blind $1",
    b"*** HOLE CARDS ***",
    b"ann: raises $49 to $50 and is all-in",
    b"bob: calls $49 and is all-in",
];

/// Two boards, and both showdowns.
const BOARDS: [&[u8]; 9] = [
    b"*** FIRST FLOP *** [2c 7d 9h]",
    b"*** FIRST TURN *** [2c 7d 9h] [4s]",
    b"*** FIRST RIVER *** [2c 7d 9h 4s] [Jc]",
    b"*** SECOND FLOP *** [3c 8d Th]",
    b"*** SECOND TURN *** [3c 8d Th] [5s]",
    b"*** SECOND RIVER *** [3c 8d Th 5s] [Qc]",
    b"*** FIRST SHOW DOWN ***",
    b"*** SECOND SHOW DOWN ***",
    b"*** SUMMARY ***",
];

/// Returns whether a set has five cards, with this one and without that one.
fn is_board(board: CardSet, one: Card, other: Card) -> bool {
    board.count() == 5 && board.has(one) && !board.has(other)
}

/// Returns whether there is a second board of five cards, with this one and without that one.
fn is_second_board(replay: &Replay, one: Card, other: Card) -> bool {
    match replay.second_board() {
        Some(second) => is_board(second, one, other),
        None => false,
    }
}

/// Returns whether a hand is run twice from before the flop, with a jack and a queen on the rivers.
fn has_two_boards(replay: &Replay) -> bool {
    replay.is_twice()
        && replay.all_in_point() == Some(Street::First)
        && is_board(replay.board(), card(36), card(40))
        && is_second_board(replay, card(40), card(36))
}

#[test]
fn two_whole_boards_are_dealt(rt: HostRuntime) -> Result<(), Fail> {
    let names = names_of(rt.alloc(), THREE_NAMES).ok_or("no memory")?;
    let mut replay = Replay::new(&DOLLARS, 6);
    assert_eq!(rt; refused_line(&mut replay, &names, &ALL_IN), None);
    assert!(rt;
        !replay.is_twice(),
        "the hand isn't run twice before its boards"
    );
    assert_eq!(rt; refused_line(&mut replay, &names, &BOARDS), None);
    assert!(rt;
        has_two_boards(&replay),
        "Jc is on the first river, and Qc on the second"
    );
    Ok(())
}

/// A river that is dealt twice, with one showdown.
const RIVERS: [&[u8]; 6] = [
    b"*** FLOP *** [2c 7d 9h]",
    b"*** TURN *** [2c 7d 9h] [4s]",
    b"*** FIRST RIVER *** [2c 7d 9h 4s] [Jc]",
    b"*** SECOND RIVER *** [2c 7d 9h 4s] [Qc]",
    b"*** SHOW DOWN ***",
    b"*** SUMMARY ***",
];

/// Returns whether the second board has the first card of the flop, and a queen and no jack on the
/// river.
fn shares_the_flop(replay: &Replay) -> bool {
    match replay.second_board() {
        Some(second) => second.has(card(0)) && is_board(second, card(40), card(36)),
        None => false,
    }
}

#[test]
fn two_boards_share_the_cards_before(rt: HostRuntime) -> Result<(), Fail> {
    let names = names_of(rt.alloc(), THREE_NAMES).ok_or("no memory")?;
    let mut replay = Replay::new(&DOLLARS, 6);
    assert_eq!(rt; refused_line(&mut replay, &names, &ALL_IN), None);
    assert_eq!(rt; refused_line(&mut replay, &names, &RIVERS), None);
    assert!(rt;
        shares_the_flop(&replay),
        "the second board has the flop and its own river"
    );
    Ok(())
}

/// Returns whether the last of some lines is refused after the all-in.
fn is_refused_behind(names: &Names, lines: &[&[u8]], fault: &BetFault) -> bool {
    let mut replay = Replay::new(&DOLLARS, 6);
    all_stand(&mut replay, names, &ALL_IN) && is_refused(&mut replay, names, lines, fault)
}

/// Returns the place of the first of these lists whose last line isn't refused for its order.
fn wrong_order(names: &Names, table: &[&[&[u8]]]) -> Option<usize> {
    for (place, lines) in table.iter().enumerate() {
        if !is_refused_behind(names, lines, &BetFault::StreetOrder) {
            return Some(place);
        }
    }
    None
}

/// Lines, the last of which is out of order.
const DISORDERED: &[&[&[u8]]] = &[
    // a plain street after one of a first board
    &[
        b"*** FIRST FLOP *** [2c 7d 9h]",
        b"*** TURN *** [2c 7d 9h] [4s]",
    ],
    // the second board before the first is whole
    &[
        b"*** FIRST FLOP *** [2c 7d 9h]",
        b"*** SECOND FLOP *** [3c 8d Th]",
    ],
    // a second board with no first
    &[b"*** SECOND FLOP *** [3c 8d Th]"],
    // a showdown before the second board is whole
    &[
        b"*** FLOP *** [2c 7d 9h]",
        b"*** TURN *** [2c 7d 9h] [4s]",
        b"*** FIRST RIVER *** [2c 7d 9h 4s] [Jc]",
        b"*** SHOW DOWN ***",
    ],
    // a showdown of two boards in a hand that has one
    &[
        b"*** FLOP *** [2c 7d 9h]",
        b"*** TURN *** [2c 7d 9h] [4s]",
        b"*** RIVER *** [2c 7d 9h 4s] [Jc]",
        b"*** FIRST SHOW DOWN ***",
    ],
    // the second showdown without one before it
    &[
        b"*** FLOP *** [2c 7d 9h]",
        b"*** TURN *** [2c 7d 9h] [4s]",
        b"*** FIRST RIVER *** [2c 7d 9h 4s] [Jc]",
        b"*** SECOND RIVER *** [2c 7d 9h 4s] [Qc]",
        b"*** SECOND SHOW DOWN ***",
    ],
];

/// A card that both boards share comes again on the second.
const SHARED: [&[u8]; 4] = [
    b"*** FLOP *** [2c 7d 9h]",
    b"*** TURN *** [2c 7d 9h] [4s]",
    b"*** FIRST RIVER *** [2c 7d 9h 4s] [Jc]",
    b"*** SECOND RIVER *** [2c 7d 9h 4s] [4s]",
];

/// A card of the first board alone comes on the second.
const OF_THE_FIRST: [&[u8]; 4] = [
    b"*** FLOP *** [2c 7d 9h]",
    b"*** TURN *** [2c 7d 9h] [4s]",
    b"*** FIRST RIVER *** [2c 7d 9h 4s] [Jc]",
    b"*** SECOND RIVER *** [2c 7d 9h 4s] [Jc]",
];

#[test]
fn markers_of_two_boards_come_in_their_order(rt: HostRuntime) -> Result<(), Fail> {
    let names = names_of(rt.alloc(), THREE_NAMES).ok_or("no memory")?;
    assert_eq!(rt; wrong_order(&names, DISORDERED), None);
    assert!(rt;
        is_refused_behind(&names, &SHARED, &BetFault::CardTwice(card(11))),
        "a card of both boards is refused on the second"
    );
    assert!(rt;
        is_refused_behind(&names, &OF_THE_FIRST, &BetFault::CardTwice(card(36))),
        "a card of the first board is refused on the second"
    );
    Ok(())
}

/// Two seats with chips left.
const CALLED: [&[u8]; 8] = [
    b"Seat 1: ann ($50 in chips)",
    b"Seat 2: bob ($50 in chips)",
    b"ann: posts small blind $0.50",
    b"bob: posts big blind $1",
    b"*** HOLE CARDS ***",
    b"ann: calls $0.50",
    b"bob: checks",
    b"*** FIRST FLOP *** [2c 7d 9h]",
];

#[test]
fn no_hand_is_run_twice_while_two_have_chips(rt: HostRuntime) -> Result<(), Fail> {
    let names = names_of(rt.alloc(), THREE_NAMES).ok_or("no memory")?;
    let mut replay = Replay::new(&DOLLARS, 6);
    assert!(rt;
        is_refused(&mut replay, &names, &CALLED, &BetFault::StreetOrder),
        "the marker of a first board is refused"
    );
    assert!(rt;
        !replay.is_twice(),
        "the hand has one board after the refusal"
    );
    Ok(())
}
