//! Deals, draws, and markers of each game.

use crate::rows::histories::names::{SEATED, names_of};
use card_sets::Game;
use history_text::*;
use std::test::Fail;

/// Returns the event of a line of play in a game.
fn played(names: &Names, game: Game, line: &[u8]) -> Result<Event, TextFault> {
    let header = Header {
        game,
        limit: Limit::Fixed,
        hundredths: false,
        big: 10,
    };
    read_line(names, &header, Part::Play, line)
}

/// Returns the seat of a deal, a discard, a stand-pat, or a post, and the number of its cards.
fn cards_of(e: &Event) -> Option<(u8, usize)> {
    match e {
        Event::Deal { seat, cards, .. } | Event::Discard { seat, cards, .. } => {
            Some((*seat, cards.count()))
        }
        Event::Pat { seat } | Event::Post { seat, .. } => Some((*seat, 0)),
        _ => None,
    }
}

/// Returns whether a line has this seat and this number of cards, or this fault.
fn is_dealt(
    names: &Names,
    game: Game,
    line: &[u8],
    wanted: &Result<(u8, usize), TextFault>,
) -> bool {
    match (played(names, game, line), wanted) {
        (Ok(e), Ok(cards)) => cards_of(&e) == Some(*cards),
        (Err(fault), Err(other)) => fault == *other,
        _ => false,
    }
}

/// A line of a game, and its seat and number of cards, or its fault.
type Dealt = (Game, &'static [u8], Result<(u8, usize), TextFault>);

/// Returns the place of the first of these lines that doesn't have its seat and its number of cards, or
/// its fault.
fn wrong_deal(names: &Names, table: &[Dealt]) -> Option<usize> {
    for (place, row) in table.iter().enumerate() {
        let (game, line, wanted) = row;
        if !is_dealt(names, *game, line, wanted) {
            return Some(place);
        }
    }
    None
}

const DEALS: &[Dealt] = &[
    (Game::Omaha, b"Dealt to carl [As Ks Qs Js]", Ok((3, 4))),
    (
        Game::Omaha,
        b"Dealt to carl [As Ks]",
        Err(TextFault::BadCards),
    ),
    (
        Game::Omaha,
        b"Dealt to carl [As Ks Qs Js] [Ts]",
        Err(TextFault::BadCards),
    ),
    (
        Game::Omaha,
        b"carl: discards 1 card [As]",
        Err(TextFault::BadAction),
    ),
    (Game::Stud8, b"Dealt to carl [As Ks Qs]", Ok((3, 3))),
    (Game::Stud8, b"Dealt to dora [As]", Ok((4, 1))),
    (Game::Stud8, b"Dealt to carl [As Ks Qs] [Js]", Ok((3, 1))),
    (Game::Stud8, b"carl: brings in for 3", Ok((3, 0))),
    (
        Game::Stud8,
        b"Dealt to carl [As Ks]",
        Err(TextFault::BadCards),
    ),
    (Game::Stud8, b"carl: stands pat", Err(TextFault::BadAction)),
    (Game::Draw5, b"Dealt to carl [As Ks Qs Js Ts]", Ok((3, 5))),
    (Game::Draw5, b"Dealt to carl [As Ks Qs] [Js Ts]", Ok((3, 2))),
    (
        Game::Draw5,
        b"carl: discards 3 cards [2c 3c 4c]",
        Ok((3, 3)),
    ),
    (
        Game::Draw5,
        b"carl: discards 3 cards [2c 3c]",
        Err(TextFault::BadCards),
    ),
    (
        Game::Draw5,
        b"carl: discards 6 cards",
        Err(TextFault::BadAction),
    ),
    (
        Game::Draw5,
        b"carl: brings in for 3",
        Err(TextFault::BadAction),
    ),
    (
        Game::Triple27,
        b"Dealt to carl [7c 5d 4h] [3s 2c]",
        Ok((3, 2)),
    ),
    (Game::Triple27, b"carl: discards 2 cards", Ok((3, 0))),
    (Game::Triple27, b"dora: stands pat", Ok((4, 0))),
    (
        Game::Triple27,
        b"Dealt to carl [7c 5d 4h 3s]",
        Err(TextFault::BadCards),
    ),
    (
        Game::Triple27,
        b"carl: brings in for 3",
        Err(TextFault::BadAction),
    ),
];

#[test]
fn each_game_has_its_deals_and_draws(rt: HostRuntime) -> Result<(), Fail> {
    let names = names_of(rt.alloc(), SEATED).ok_or("no memory")?;
    assert_eq!(rt; wrong_deal(&names, DEALS), None);
    Ok(())
}

/// Returns the street that a marker begins in a game, or `None` if the line isn't a marker of the
/// game.
fn street_in(names: &Names, game: Game, line: &[u8]) -> Option<Street> {
    match played(names, game, line) {
        Ok(Event::Street { street, .. }) => Some(street),
        _ => None,
    }
}

/// Returns whether a line begins this street, or none.
fn is_marked(names: &Names, game: Game, line: &[u8], wanted: Option<Street>) -> bool {
    match (street_in(names, game, line), wanted) {
        (Some(found), Some(street)) => found == street,
        (None, None) => true,
        _ => false,
    }
}

/// Returns the place of the first of these markers that doesn't begin its street.
fn wrong_marker(names: &Names, table: &[(Game, &[u8], Option<Street>)]) -> Option<usize> {
    for (place, row) in table.iter().enumerate() {
        let (game, line, wanted) = row;
        if !is_marked(names, *game, line, *wanted) {
            return Some(place);
        }
    }
    None
}

const MARKERS: &[(Game, &[u8], Option<Street>)] = &[
    (Game::Omaha, b"*** HOLE CARDS ***", Some(Street::First)),
    (Game::Omaha, b"*** FLOP *** [2s 9s Jd]", Some(Street::Flop)),
    (
        Game::Omaha,
        b"*** SECOND RIVER *** [2s 9s Jd 5h] [3c]",
        Some(Street::River),
    ),
    (
        Game::Omaha,
        b"*** FIRST SHOW DOWN ***",
        Some(Street::ShowDown),
    ),
    (Game::Omaha, b"*** 3rd STREET ***", None),
    (Game::Stud8, b"*** 3rd STREET ***", Some(Street::First)),
    (Game::Stud8, b"*** 6th STREET ***", Some(Street::Sixth)),
    (Game::Stud8, b"*** RIVER ***", Some(Street::River)),
    (Game::Stud8, b"*** FIRST RIVER ***", None),
    (Game::Draw5, b"*** DEALING HANDS ***", Some(Street::First)),
    (Game::Draw5, b"*** DRAW ***", Some(Street::Draw)),
    (Game::Draw5, b"*** FIRST DRAW ***", None),
    (
        Game::Triple27,
        b"*** DEALING HANDS ***",
        Some(Street::First),
    ),
    (
        Game::Triple27,
        b"*** FIRST DRAW ***",
        Some(Street::FirstDraw),
    ),
    (
        Game::Triple27,
        b"*** SECOND DRAW ***",
        Some(Street::SecondDraw),
    ),
    (
        Game::Triple27,
        b"*** THIRD DRAW ***",
        Some(Street::ThirdDraw),
    ),
    (Game::Triple27, b"*** SUMMARY ***", Some(Street::Summary)),
    (Game::Triple27, b"*** DRAW ***", None),
    (Game::Triple27, b"*** HOLE CARDS ***", None),
];

#[test]
fn each_game_has_its_markers(rt: HostRuntime) -> Result<(), Fail> {
    let names = names_of(rt.alloc(), SEATED).ok_or("no memory")?;
    assert_eq!(rt; wrong_marker(&names, MARKERS), None);
    Ok(())
}
