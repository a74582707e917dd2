//! Header lines as a site writes them.

use crate::rows::row_text;
use card_sets::Game;
use history_text::*;

const CASH_TITLE: &[u8] =
    b"PokerStars Hand #240000000001: Hold'em No Limit ($0.50/$1.00 USD) - 2023/01/15 20:11:05 ET";

/// Returns whether a line is a header line with this header.
fn says_header(line: &[u8], wanted: &Header) -> bool {
    if !is_header(line) {
        return false;
    }
    match read_header(line) {
        Ok(found) => found == *wanted,
        Err(_) => false,
    }
}

/// Returns a header.
fn of(game: Game, limit: Limit, hundredths: bool, big: u64) -> Header {
    Header {
        game,
        limit,
        hundredths,
        big,
    }
}

/// Returns the first of these lines that doesn't have its header.
fn wrong_header(table: &[(&'static [u8], Game, Limit, bool, u64)]) -> Option<&'static str> {
    for (line, game, limit, hundredths, big) in table {
        if !says_header(line, &of(*game, *limit, *hundredths, *big)) {
            return Some(row_text(*line));
        }
    }
    None
}

/// Returns whether a line is no header line.
fn is_no_header(line: &[u8]) -> bool {
    !is_header(line)
}

const HEADERS: &[(&[u8], Game, Limit, bool, u64)] = &[
    (CASH_TITLE, Game::Holdem, Limit::NoLimit, true, 100),
    (
        b"PokerStars Hand #88: Tournament #7, $4.40+$0.60 USD Hold'em No Limit - Level V (50/100)",
        Game::Holdem,
        Limit::NoLimit,
        false,
        100,
    ),
    (
        b"PokerStars Zoom Hand #5: 8-Game (Hold'em Pot Limit, 20/40) - 2023/01/15",
        Game::Holdem,
        Limit::PotLimit,
        false,
        40,
    ),
    (
        b"PokerStars Game #5: Hold'em Limit (5/10)",
        Game::Holdem,
        Limit::Fixed,
        false,
        5,
    ),
    (
        b"PokerStars Hand #6: Omaha Pot Limit ($1/$2 USD) - 2026/06/06 20:31:17 ET",
        Game::Omaha,
        Limit::PotLimit,
        true,
        200,
    ),
    (
        b"PokerStars Hand #6: Omaha Hi/Lo Pot Limit (1/2)",
        Game::Omaha8,
        Limit::PotLimit,
        false,
        2,
    ),
    (
        b"PokerStars Hand #6: 7 Card Stud Limit (1/2)",
        Game::Stud,
        Limit::Fixed,
        false,
        1,
    ),
    (
        b"PokerStars Hand #6: HORSE (7 Card Stud Hi/Lo Limit, 1/2)",
        Game::Stud8,
        Limit::Fixed,
        false,
        1,
    ),
    (
        b"PokerStars Hand #90: Tournament #9, Freeroll  Razz Limit - Level I (10/20)",
        Game::Razz,
        Limit::Fixed,
        false,
        10,
    ),
    (
        b"PokerStars Hand #6: 5 Card Draw No Limit (1/2)",
        Game::Draw5,
        Limit::NoLimit,
        false,
        2,
    ),
    (
        b"PokerStars Hand #6: Single Draw 2-7 Lowball No Limit (1/2)",
        Game::Lowball27,
        Limit::NoLimit,
        false,
        2,
    ),
    (
        b"PokerStars Hand #6: Triple Draw 2-7 Lowball Limit ($0.02/$0.04)",
        Game::Triple27,
        Limit::Fixed,
        true,
        2,
    ),
];

#[test]
fn headers_are_read(rt: HostRuntime) {
    assert_eq!(rt; wrong_header(HEADERS), None);
    assert!(rt;
        is_no_header(b"PokerStars Hand #x"),
        "a header line has digits after the #"
    );
}

/// Returns whether a line is a header line with the number of the hand at this place.
fn is_numbered(line: &[u8], place: (usize, usize)) -> bool {
    is_header(line) && hand_number(line) == place
}

#[test]
fn the_number_of_a_hand_is_found(rt: HostRuntime) {
    assert!(rt;
        is_numbered(CASH_TITLE, (17, 29)),
        "the number begins at 17 and ends before 29"
    );
}

/// Returns whether a header line has a fault.
fn has_header_fault(line: &[u8], fault: TextFault) -> bool {
    if !is_header(line) {
        return false;
    }
    match read_header(line) {
        Ok(_) => false,
        Err(found) => found == fault,
    }
}

/// Returns the first of these header lines that doesn't have its fault.
fn wrong_fault(table: &[(&'static [u8], TextFault)]) -> Option<&'static str> {
    for (line, fault) in table {
        if !has_header_fault(line, *fault) {
            return Some(row_text(*line));
        }
    }
    None
}

const HEADER_FAULTS: &[(&[u8], TextFault)] = &[
    (
        b"PokerStars Home Game Hand #1: Hold'em No Limit (1/2)",
        TextFault::BadHeader,
    ),
    (
        b"PokerStars Hand #1 Hold'em No Limit (1/2)",
        TextFault::BadHeader,
    ),
    (
        b"PokerStars Hand #12345678901234567890: Hold'em No Limit (1/2)",
        TextFault::BadHeader,
    ),
    (b"PokerStars Hand #1: Hold'em (1/2)", TextFault::UnknownGame),
    (
        b"PokerStars Hand #1: 6+ Hold'em No Limit (1/2)",
        TextFault::UnknownGame,
    ),
    (
        b"PokerStars Hand #1: 5 Card Omaha Pot Limit (1/2)",
        TextFault::UnknownGame,
    ),
    (
        b"PokerStars Hand #1: Badugi Limit (1/2)",
        TextFault::UnknownGame,
    ),
    (
        b"PokerStars Hand #1: Hold'em No Limit",
        TextFault::BadHeader,
    ),
    (
        b"PokerStars Hand #1: Hold'em No Limit (0/2)",
        TextFault::BadHeader,
    ),
    (
        b"PokerStars Hand #1: Hold'em No Limit (1/1000000000000000)",
        TextFault::AmountTooLarge,
    ),
];

#[test]
fn headers_have_four_faults(rt: HostRuntime) {
    assert_eq!(rt; wrong_fault(HEADER_FAULTS), None);
}
