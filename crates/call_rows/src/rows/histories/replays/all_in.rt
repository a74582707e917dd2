//! All-in points and the cards known there, of hands worked out by hand.

use super::{DOLLARS, THREE_NAMES, refused_in, refused_line};
use crate::rows::histories::names::names_of;
use crate::rows::row_text;
use betting_replay::Replay;
use card_sets::{Card, CardSet, Game};
use history_text::{Header, Limit, Names, Part, Street};
use std::test::Fail;

/// Returns the set of some cards.
fn cards(texts: &[[u8; 2]]) -> Option<CardSet> {
    let mut set = CardSet::empty();
    for text in texts {
        set = set.with(Card::read(*text)?);
    }
    Some(set)
}

/// Returns whether the cards that are known are these.
fn is_known(found: Option<CardSet>, texts: &[[u8; 2]]) -> bool {
    match (found, cards(texts)) {
        (Some(found), Some(wanted)) => {
            found.count() == wanted.count() && found.minus(wanted).count() == 0
        }
        _ => false,
    }
}

/// Three seats. The third is all-in, and the first folds.
const BEFORE_CALL: [&[u8]; 9] = [
    b"Seat 1: ann ($50 in chips)",
    b"Seat 2: bob ($50 in chips)",
    b"Seat 3: cat ($2.50 in chips)",
    b"ann: posts small blind $0.50",
    b"bob: posts big blind $1",
    b"*** HOLE CARDS ***",
    b"Dealt to ann [As Ks]",
    b"cat: raises $1.50 to $2.50 and is all-in",
    b"ann: folds",
];

const AFTER_CALL: [&[u8]; 7] = [
    b"bob: calls $1.50",
    b"*** FLOP *** [2c 7d 9h]",
    b"*** TURN *** [2c 7d 9h] [4s]",
    b"*** RIVER *** [2c 7d 9h 4s] [Jc]",
    b"*** SHOW DOWN ***",
    b"cat: shows [Qs Qh]",
    b"bob: mucks hand",
];

/// Returns whether no all-in point is known.
fn has_no_point(replay: &Replay) -> bool {
    replay.all_in_point().is_none() && replay.all_in_contenders() == 0 && replay.dead().count() == 0
}

/// Returns whether the point is before the flop, with the cards of the folded first seat and of the third.
fn has_first_point(replay: &Replay) -> bool {
    replay.all_in_point() == Some(Street::First)
        && replay.all_in_contenders() == 12
        && is_known(Some(replay.dead()), &[*b"As", *b"Ks"])
        && is_known(replay.cards_at(3, Street::First), &[*b"Qs", *b"Qh"])
        && replay.cards_at(2, Street::First).is_none()
}

#[test]
fn the_first_point_is_kept(rt: HostRuntime) -> Result<(), Fail> {
    let names = names_of(rt.alloc(), THREE_NAMES).ok_or("no memory")?;
    let mut replay = Replay::new(&DOLLARS, 14);
    assert_eq!(rt; refused_line(&mut replay, &names, &BEFORE_CALL), None);
    assert!(rt;
        has_no_point(&replay),
        "there is no all-in point before the call"
    );
    assert_eq!(rt; refused_line(&mut replay, &names, &AFTER_CALL), None);
    assert!(rt;
        has_first_point(&replay),
        "the all-in point is before the flop"
    );
    Ok(())
}

/// Stakes of 50 and 100 chips.
const FIFTY: Header = Header {
    game: Game::Holdem,
    limit: Limit::NoLimit,
    hundredths: false,
    big: 100,
};

/// A call of a big blind with fewer chips than the call takes.
const SHORT_CALL: [&[u8]; 8] = [
    b"Seat 1: ann (4000 in chips)",
    b"Seat 2: bob (99 in chips)",
    b"Seat 3: cat (1500 in chips)",
    b"bob: posts small blind 50",
    b"cat: posts big blind 100",
    b"*** HOLE CARDS ***",
    b"ann: calls 100",
    b"bob: calls 49 and is all-in",
];

#[test]
fn a_player_may_call_with_fewer_chips_than_are_due(rt: HostRuntime) -> Result<(), Fail> {
    let names = names_of(rt.alloc(), THREE_NAMES).ok_or("no memory")?;
    let mut replay = Replay::new(&FIFTY, 14);
    assert_eq!(rt;
        refused_in(&mut replay, &names, &FIFTY, Part::Preamble, &SHORT_CALL),
        None
    );
    assert_eq!(rt; replay.paid(2).live, 99, "Bob has all chips in the pot");
    assert_eq!(rt; replay.stack(2), 0, "Bob has no chips left");
    Ok(())
}

/// Stakes of 10 and 20 chips.
fn chips(game: Game) -> Header {
    Header {
        game,
        limit: Limit::NoLimit,
        hundredths: false,
        big: 20,
    }
}

/// The names of two seats.
const TWO_NAMES: &[(u8, &[u8])] = &[(1, b"x"), (2, b"y")];

/// A hand of razz in which the second player's cards face down are shown only at the end.
const RAZZ: [&[u8]; 22] = [
    b"Seat 1: x (31 in chips)",
    b"Seat 2: y (500 in chips)",
    b"x: posts the ante 1",
    b"y: posts the ante 1",
    b"*** 3rd STREET ***",
    b"Dealt to x [As 2d 3h]",
    b"Dealt to y [Kc]",
    b"y: brings in for 3",
    b"x: raises 7 to 10",
    b"y: calls 7",
    b"*** 4th STREET ***",
    b"Dealt to x [As 2d 3h] [4c]",
    b"Dealt to y [Kc] [Kd]",
    b"x: checks",
    b"y: checks",
    b"*** 5th STREET ***",
    b"Dealt to x [As 2d 3h 4c] [5s]",
    b"Dealt to y [Kc Kd] [Qc]",
    b"x: bets 20 and is all-in",
    b"y: calls 20",
    b"*** 6th STREET ***",
    b"Dealt to y [Kc Kd Qc] [Qd]",
];

const RAZZ_END: [&[u8]; 4] = [
    b"*** RIVER ***",
    b"*** SHOW DOWN ***",
    b"y: mucks hand",
    b"*** SUMMARY ***",
];

const RAZZ_SHOWN: [&[u8]; 1] = [b"Seat 2: y mucked [8c 8d Kc Kd Qc Qd 9h]"];

/// Returns whether the point is on fifth street, with only the cards of the first seat known.
fn has_one_hand(replay: &Replay) -> bool {
    replay.all_in_point() == Some(Street::Fifth)
        && is_known(
            replay.cards_at(1, Street::Fifth),
            &[*b"As", *b"2d", *b"3h", *b"4c", *b"5s"],
        )
        && replay.cards_at(2, Street::Fifth).is_none()
        && replay.final_cards(2).is_none()
}

/// Returns whether the cards of the second seat are known on fifth street, on third street, and at the
/// end.
fn has_shown_hand(replay: &Replay) -> bool {
    is_known(
        replay.cards_at(2, Street::Fifth),
        &[*b"8c", *b"8d", *b"Kc", *b"Kd", *b"Qc"],
    ) && is_known(replay.cards_at(2, Street::First), &[*b"8c", *b"8d", *b"Kc"])
        && replay.dead().count() == 0
        && replay.final_cards(2).is_some()
        && replay.final_cards(1).is_none()
}

#[test]
fn cards_face_down_are_those_of_a_later_bracket(rt: HostRuntime) -> Result<(), Fail> {
    let names = names_of(rt.alloc(), TWO_NAMES).ok_or("no memory")?;
    let header = chips(Game::Razz);
    let mut replay = Replay::new(&header, 6);
    assert_eq!(rt;
        refused_in(&mut replay, &names, &header, Part::Preamble, &RAZZ),
        None
    );
    assert_eq!(rt;
        refused_in(&mut replay, &names, &header, Part::Play, &RAZZ_END),
        None
    );
    assert!(rt;
        has_one_hand(&replay),
        "before the summary only the first hand is known"
    );
    assert_eq!(rt;
        refused_in(&mut replay, &names, &header, Part::Summary, &RAZZ_SHOWN),
        None
    );
    assert!(rt;
        has_shown_hand(&replay),
        "after the summary the second hand is known too"
    );
    Ok(())
}

/// Returns the number of the known cards.
fn count(cards: Option<CardSet>) -> Option<u32> {
    Some(cards?.count())
}

/// The cards that y shows at the end.
const SHOWN: [&[u8]; 2] = [b"*** SHOW DOWN ***", b"y: shows [8d 6h 5s 4c 2d]"];

/// The acts of the two players on a draw, how many cards each keeps, and how many are dead.
type Drawn = ([&'static [u8]; 2], Option<u32>, Option<u32>, u32);

/// Returns whether the lines of a hand and of a draw leave these numbers of cards known on the street of
/// the all-in, and dead.
fn is_kept(
    names: &Names,
    header: &Header,
    lines: &[&'static [u8]],
    at: Street,
    drawn: &Drawn,
) -> bool {
    let mut replay = Replay::new(header, 6);
    refused_in(&mut replay, names, header, Part::Preamble, lines).is_none()
        && replay.all_in_point() == Some(at)
        && refused_in(&mut replay, names, header, Part::Play, &drawn.0).is_none()
        && refused_in(&mut replay, names, header, Part::Play, &SHOWN).is_none()
        && count(replay.cards_at(1, at)) == drawn.1
        && count(replay.cards_at(2, at)) == drawn.2
        && count(replay.final_cards(2)) == Some(5)
        && replay.dead().count() == drawn.3
}

/// Returns the first act of the first of these draws that doesn't leave its numbers of cards, in a game.
fn wrong_draw(
    names: &Names,
    game: Game,
    lines: &[&'static [u8]],
    at: Street,
    table: &[Drawn],
) -> Option<&'static str> {
    let header = chips(game);
    for drawn in table {
        if !is_kept(names, &header, lines, at, drawn) {
            return Some(row_text(drawn.0[0]));
        }
    }
    None
}

/// A draw before which both players are all-in.
const DRAW: [&[u8]; 8] = [
    b"Seat 1: x (100 in chips)",
    b"Seat 2: y (100 in chips)",
    b"x: posts small blind 10",
    b"y: posts big blind 20",
    b"*** DEALING HANDS ***",
    b"Dealt to x [7c 5d 4h 3s 2c]",
    b"x: raises 80 to 100 and is all-in",
    b"y: calls 80 and is all-in",
];

/// Each rule of the cards that a player keeps.
const WAYS_TO_DRAW: &[Drawn] = &[
    (
        [b"x: stands pat on [7c 5d 4h 3s 2c]", b"y: stands pat"],
        Some(5),
        Some(5),
        0,
    ),
    (
        [b"x: discards 1 card [7c]", b"y: discards 1 card"],
        Some(4),
        None,
        1,
    ),
    (
        [b"x: discards 1 card", b"y: discards 5 cards"],
        None,
        Some(0),
        0,
    ),
    (
        [b"x: stands pat", b"y: discards 1 card [Kh]"],
        Some(5),
        None,
        1,
    ),
];

#[test]
fn what_is_kept_goes_by_the_discards(rt: HostRuntime) -> Result<(), Fail> {
    let names = names_of(rt.alloc(), TWO_NAMES).ok_or("no memory")?;
    let at = Street::First;
    assert_eq!(rt;
        wrong_draw(&names, Game::Lowball27, &DRAW, at, WAYS_TO_DRAW),
        None
    );
    assert_eq!(rt;
        wrong_draw(&names, Game::Draw5, &DRAW, at, WAYS_TO_DRAW),
        None
    );
    Ok(())
}

/// Two draws, after which both players are all-in. A card that x discarded on the first draw is dealt to x
/// on the second.
const TWO_DRAWS: [&[u8]; 21] = [
    b"Seat 1: x (100 in chips)",
    b"Seat 2: y (100 in chips)",
    b"x: posts small blind 10",
    b"y: posts big blind 20",
    b"*** DEALING HANDS ***",
    b"Dealt to x [7c 5d 4h 3s Kc]",
    b"x: calls 10",
    b"y: checks",
    b"*** FIRST DRAW ***",
    b"y: discards 3 cards",
    b"x: discards 1 card [Kc]",
    b"Dealt to x [7c 5d 4h 3s] [Qd]",
    b"y: checks",
    b"x: checks",
    b"*** SECOND DRAW ***",
    b"y: stands pat",
    b"x: discards 1 card [Qd]",
    b"Dealt to x [7c 5d 4h 3s] [Kc]",
    b"y: bets 80 and is all-in",
    b"x: calls 80 and is all-in",
    b"*** THIRD DRAW ***",
];

/// Each rule of the cards kept on the third draw. The queen is dead in all of them, and the king if it is
/// discarded again.
const WAYS_TO_DRAW_LAST: &[Drawn] = &[
    (
        [b"y: stands pat", b"x: discards 1 card [Kc]"],
        Some(4),
        Some(5),
        2,
    ),
    (
        [b"y: discards 5 cards", b"x: discards 1 card"],
        None,
        Some(0),
        1,
    ),
    (
        [b"y: discards 1 card [2h]", b"x: stands pat"],
        Some(5),
        None,
        2,
    ),
    ([b"y: discards 1 card", b"x says nothing"], Some(5), None, 1),
];

#[test]
fn what_is_kept_on_the_last_of_three_draws(rt: HostRuntime) -> Result<(), Fail> {
    let names = names_of(rt.alloc(), TWO_NAMES).ok_or("no memory")?;
    let at = Street::SecondDraw;
    assert_eq!(rt;
        wrong_draw(&names, Game::Triple27, &TWO_DRAWS, at, WAYS_TO_DRAW_LAST),
        None
    );
    Ok(())
}
