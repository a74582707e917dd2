//! Lines of a hand as a site writes them, and their faults.

use crate::rows::histories::names::{SEATED, names_of};
use crate::rows::row_text;
use card_sets::Game;
use history_text::*;
use std::test::Fail;

const CASH: Header = Header {
    game: Game::Holdem,
    limit: Limit::NoLimit,
    hundredths: true,
    big: 100,
};

/// Returns whether a line has a fault, in a hand with these names.
fn has_fault(names: &Names, part: Part, line: &[u8], fault: TextFault) -> bool {
    match read_line(names, &CASH, part, line) {
        Ok(_) => false,
        Err(found) => found == fault,
    }
}

/// Returns the first of these lines that doesn't have its fault, in a hand with these names.
fn wrong_fault(names: &Names, table: &[(Part, &'static [u8], TextFault)]) -> Option<&'static str> {
    for (part, line, fault) in table {
        if !has_fault(names, *part, line, *fault) {
            return Some(row_text(*line));
        }
    }
    None
}

const LINE_FAULTS: &[(Part, &[u8], TextFault)] = &[
    (
        Part::Preamble,
        b"Seat 11: x ($5 in chips)",
        TextFault::BadHeader,
    ),
    (
        Part::Preamble,
        b"Seat 1: carl ($5 in chips)",
        TextFault::BadHeader,
    ),
    (
        Part::Preamble,
        b"Seat 1: ($5 in chips)",
        TextFault::BadHeader,
    ),
    (
        Part::Preamble,
        b"Seat 1: x ($. in chips)",
        TextFault::BadAmount,
    ),
    (
        Part::Preamble,
        b"Seat 1: x ($10000000000000 in chips)",
        TextFault::AmountTooLarge,
    ),
    (Part::Play, b"carl: straddles $2", TextFault::BadAction),
    (Part::Play, b"carl: brings in for $2", TextFault::BadAction),
    (Part::Play, b"carl: calls $2 more", TextFault::BadAmount),
    (Part::Play, b"carl: calls $0", TextFault::BadAmount),
    (Part::Play, b"carl: raises $2 to 1.5", TextFault::BadAmount),
    (
        Part::Play,
        b"carl: bets $10000000000000 and so on",
        TextFault::AmountTooLarge,
    ),
    (Part::Play, b"carl: shows [Jh Jx]", TextFault::BadCards),
    (Part::Play, b"Dealt to carl [Jh]", TextFault::BadCards),
    (Part::Play, b"Dealt to nobody [Jh Jc]", TextFault::BadAction),
    (
        Part::Play,
        b"Uncalled bet ($2) returned to nobody",
        TextFault::BadAction,
    ),
    (
        Part::Play,
        b"carl collected $2 from the pot",
        TextFault::BadAction,
    ),
    (Part::Play, b"carl collected $2", TextFault::BadAmount),
    (Part::Play, b"*** FLOP *** [2s 9s]", TextFault::BadCards),
    (Part::Play, b"*** FLOP ***", TextFault::BadCards),
    (Part::Play, b"*** 3rd STREET ***", TextFault::BadMarker),
    (
        Part::Play,
        b"*** FIRST HOLE CARDS ***",
        TextFault::BadMarker,
    ),
    (Part::Play, b"*** SECOND FLOP ***", TextFault::BadCards),
    (Part::Play, b"Hand cancelled", TextFault::Cancelled),
    (Part::Summary, b"Total pot $121", TextFault::BadAmount),
    (
        Part::Summary,
        b"Seat 3: carl showed [Jh",
        TextFault::BadCards,
    ),
];

#[test]
fn lines_have_their_first_fault(rt: HostRuntime) -> Result<(), Fail> {
    let names = names_of(rt.alloc(), SEATED).ok_or("no memory")?;
    assert_eq!(rt; wrong_fault(&names, LINE_FAULTS), None);
    Ok(())
}

/// Returns whether an event is this act of a seat.
fn is_act(names: &Names, line: &[u8], of: u8, wanted: Act, last: bool) -> bool {
    match read_line(names, &CASH, Part::Play, line) {
        Ok(
            Event::Act {
                seat,
                act,
                all_in,
                ..
            },
        ) => seat == of && act == wanted && all_in == last,
        _ => false,
    }
}

/// Returns whether a line is the marker of a street on a board, with this number of new cards.
fn is_marker(names: &Names, line: &[u8], at: Street, on: BoardNumber, new: usize) -> bool {
    match read_line(names, &CASH, Part::Play, line) {
        Ok(
            Event::Street {
                street,
                board,
                cards,
            },
        ) => { street == at && board == on && cards.count() == new }
        _ => false,
    }
}

/// Returns whether a line seats a player with these chips, and the name is at this place.
fn is_seat(names: &Names, line: &[u8], of: u8, chips: u64, place: (usize, usize)) -> bool {
    match read_line(names, &CASH, Part::Preamble, line) {
        Ok(
            Event::Seat {
                seat,
                units,
                name_first,
                name_end,
            },
        ) => seat == of && units == chips && (name_first, name_end) == place,
        _ => false,
    }
}

/// Returns whether a line is the total line with this pot and rake.
fn is_total(names: &Names, line: &[u8], pot: u64, taken: u64) -> bool {
    match read_line(names, &CASH, Part::Summary, line) {
        Ok(Event::Total { units, rake }) => units == pot && rake == taken,
        _ => false,
    }
}

/// Returns the first of these lines that isn't this act of a seat.
fn wrong_act(names: &Names, table: &[(&'static [u8], u8, Act, bool)]) -> Option<&'static str> {
    for (line, seat, act, last) in table {
        if !is_act(names, line, *seat, *act, *last) {
            return Some(row_text(*line));
        }
    }
    None
}

/// Returns the first of these lines that isn't this marker.
fn wrong_marker(
    names: &Names,
    table: &[(&'static [u8], Street, BoardNumber, usize)],
) -> Option<&'static str> {
    for (line, street, board, new) in table {
        if !is_marker(names, line, *street, *board, *new) {
            return Some(row_text(*line));
        }
    }
    None
}

const ACTS: &[(&[u8], u8, Act, bool)] = &[
    (
        b"carl: raises $2 to $3",
        3,
        Act::Raise { by: 200, to: 300 },
        false,
    ),
    (b"dora: bets $53 and is all-in", 4, Act::Bet(5300), true),
];

const BOARDS: &[(&[u8], Street, BoardNumber, usize)] = &[
    (
        b"*** FLOP *** [2s 9s Jd]",
        Street::Flop,
        BoardNumber::Only,
        3,
    ),
    (
        b"*** SECOND TURN *** [2s 9s Jd] [5h]",
        Street::Turn,
        BoardNumber::Second,
        1,
    ),
];

const SEAT: &[u8] = b"Seat 5: emil ($100 in chips)";

const TOTAL: &[u8] = b"Total pot $121 | Rake $2.50";

#[test]
fn lines_are_read(rt: HostRuntime) -> Result<(), Fail> {
    let names = names_of(rt.alloc(), SEATED).ok_or("no memory")?;
    assert_eq!(rt; wrong_act(&names, ACTS), None);
    assert_eq!(rt; wrong_marker(&names, BOARDS), None);
    assert!(rt;
        is_seat(&names, SEAT, 5, 10000, (8, 12)),
        "a seat line has a seat, chips, and a name"
    );
    assert!(rt;
        is_total(&names, TOTAL, 12100, 250),
        "a total line has the pot and the rake"
    );
    Ok(())
}
