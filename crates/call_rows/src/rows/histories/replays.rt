//! Hands in text, with verdicts worked out by hand.

ghost use Rattle.std.specs.Prelude.{◌<◌, ◌≤◌, ◌^◌, IsTrue};
ghost use Rattle.betting_replay.specs.Events.{SeatFits};
ghost use Rattle.betting_replay.specs.Limits.{ActFits, AmountsFit};

use crate::rows::histories::names::names_of;
use crate::rows::row_text;
use betting_replay::{BetFault, Replay};
use card_sets::{Card, Game};
use history_text::{Act, Event, Header, Limit, Names, Part, Street, read_line};
use std::test::Fail;

mod all_in;
mod boards;
mod posts;

/// Stakes of a half and a dollar.
const DOLLARS: Header = Header {
    game: Game::Holdem,
    limit: Limit::NoLimit,
    hundredths: true,
    big: 100,
};

/// The names of three seats.
const THREE_NAMES: &[(u8, &[u8])] = &[(1, b"ann"), (2, b"bob"), (3, b"cat")];

/// Returns whether an amount is within the limit.
fn is_amount(units: u64) -> bool
    ensures { IsTrue result → units < 10 ^ 15 }
{
    units < 1_000_000_000_000_000
}

/// Returns whether the amounts of an act are within the limit.
fn act_fits(act: Act) -> bool
    ensures { IsTrue result → ActFits act }
{
    match act {
        Act::Fold | Act::Check => true,
        Act::Call(units) | Act::Bet(units) => is_amount(units),
        Act::Raise { by, to } => is_amount(by) && is_amount(to),
    }
}

/// Returns whether the amounts of an event are within the limit.
fn amounts_fit(e: &Event) -> bool
    ensures { IsTrue result → AmountsFit e.now }
{
    match *e {
        Event::Seat { units, .. }
        | Event::Post { units, .. }
        | Event::Uncalled { units, .. }
        | Event::Collect { units, .. } => is_amount(units),
        Event::Act { act, .. } => act_fits(act),
        Event::Total { units, rake } => is_amount(units) && is_amount(rake),
        _ => true,
    }
}

/// Returns whether a seat is one of the ten.
fn is_seat(seat: u8) -> bool
    ensures first { IsTrue result → 1 ≤ seat }
    ensures last { IsTrue result → seat ≤ 10 }
{
    seat >= 1 && seat <= 10
}

/// Returns whether the seat of an event is one of the ten.
fn seat_fits(e: &Event) -> bool
    ensures { IsTrue result → SeatFits e.now }
{
    match *e {
        Event::Button { seat } | Event::Muck { seat } | Event::Pat { seat } => is_seat(seat),
        Event::Seat { seat, .. }
        | Event::Post { seat, .. }
        | Event::Deal { seat, .. }
        | Event::Act { seat, .. }
        | Event::Uncalled { seat, .. }
        | Event::Collect { seat, .. }
        | Event::Show { seat, .. }
        | Event::SeatCards { seat, .. }
        | Event::Discard { seat, .. } => is_seat(seat),
        Event::Street { .. } | Event::Total { .. } | Event::Remark => true,
    }
}

/// Applies a line of a part of a hand. Returns `None` if it can't be read.
fn step_line(
    replay: &mut Replay,
    names: &Names,
    header: &Header,
    part: Part,
    line: &[u8],
) -> Option<Result<(), BetFault>> {
    match read_line(names, header, part, line) {
        Ok(e) => {
            if seat_fits(&e) && amounts_fit(&e) {
                Some(replay.step(&e))
            } else {
                None
            }
        }
        Err(_) => None,
    }
}

/// Returns how many of some lines are accepted, and why the next one is refused.
fn step_lines(
    replay: &mut Replay,
    names: &Names,
    lines: &[&[u8]],
) -> Option<(usize, Option<BetFault>)> {
    for (place, line) in lines.iter().enumerate() {
        if let Err(fault) = step_line(replay, names, &DOLLARS, Part::Preamble, *line)? {
            return Some((place, Some(fault)));
        }
    }
    Some((lines.len(), None))
}

/// Applies the lines of a part. Returns the first line that isn't accepted.
fn refused_in(
    replay: &mut Replay,
    names: &Names,
    header: &Header,
    part: Part,
    lines: &[&'static [u8]],
) -> Option<&'static str> {
    for line in lines {
        match step_line(replay, names, header, part, *line) {
            Some(Ok(())) => {}
            _ => return Some(row_text(*line)),
        }
    }
    None
}

/// Applies lines of a hand with stakes of a half and a dollar. Returns the first line that isn't accepted.
fn refused_line(
    replay: &mut Replay,
    names: &Names,
    lines: &[&'static [u8]],
) -> Option<&'static str> {
    refused_in(replay, names, &DOLLARS, Part::Preamble, lines)
}

/// Returns whether all of some lines are accepted.
fn all_stand(replay: &mut Replay, names: &Names, lines: &[&'static [u8]]) -> bool {
    refused_line(replay, names, lines).is_none()
}

/// Returns whether all of some lines are accepted except the last, which is refused for this fault.
fn is_refused(replay: &mut Replay, names: &Names, lines: &[&[u8]], fault: &BetFault) -> bool {
    step_lines(replay, names, lines) == Some((lines.len().saturating_sub(1), Some(*fault)))
}

/// Returns the card of a number.
fn card(number: u8) -> Card
    requires { number < 52 }
{
    Card::new(number / 4, number % 4).unwrap()
}

/// Two seats, and the cards before the flop.
const TWO_SEATS: [&[u8]; 8] = [
    b"Table 'T' 2-max Seat #1 is the button",
    b"Seat 1: ann ($50 in chips)",
    b"Seat 2: bob ($50 in chips)",
    b"ann: posts small blind $0.50",
    b"bob: posts big blind $1",
    b"*** HOLE CARDS ***",
    b"ann: calls $0.50",
    b"bob: checks",
];

const FLOP: [&[u8]; 5] = [
    b"*** FLOP *** [2c 7d 9h]",
    b"bob: bets $2",
    b"ann: calls $2",
    b"*** TURN *** [2c 7d 9h] [4s]",
    b"bob: checks",
];

const REST: [&[u8]; 9] = [
    b"ann: checks",
    b"*** RIVER *** [2c 7d 9h 4s] [Jc]",
    b"bob: checks",
    b"ann: checks",
    b"*** SHOW DOWN ***",
    b"bob: shows [Ks Kh]",
    b"ann: shows [As Ah]",
    b"ann collected $6 from pot",
    b"*** SUMMARY ***",
];

/// Returns whether this is the state of the hand before its flop.
fn is_before_the_flop(replay: &Replay) -> bool {
    replay.owes().is_none() && replay.button() == 1
}

/// Returns whether this is the state of the hand after its flop.
fn is_behind_the_flop(replay: &Replay) -> bool {
    replay.owes() == Some(1) && replay.street() == Some(Street::Turn) && replay.stack(1) == 4700
}

/// Returns whether the board has this many cards on its streets.
fn has_boards(replay: &Replay) -> bool {
    replay.board_at(Street::First).count() == 0
        && replay.board_at(Street::Flop).count() == 3
        && replay.board_at(Street::Turn).count() == 4
        && !replay.board_at(Street::Turn).has(card(37))
        && replay.board_at(Street::River).has(card(36))
}

/// Returns whether two have shown, and the first of them aces.
fn has_shown(replay: &Replay) -> bool {
    let Some(shown) = replay.final_cards(1) else {
        return false;
    };
    replay.contenders() == 6
        && replay.paid(2).live == 300
        && shown.count() == 2
        && shown.has(card(50))
}

#[test]
fn a_hand_of_two_is_stepped_through(rt: HostRuntime) -> Result<(), Fail> {
    let names = names_of(rt.alloc(), THREE_NAMES).ok_or("no memory")?;
    let mut replay = Replay::new(&DOLLARS, 6);
    assert_eq!(rt; refused_line(&mut replay, &names, &TWO_SEATS), None);
    assert!(rt;
        is_before_the_flop(&replay),
        "before the flop nobody owes an act, and Ann has the button"
    );
    assert_eq!(rt; refused_line(&mut replay, &names, &FLOP), None);
    assert!(rt;
        is_behind_the_flop(&replay),
        "on the turn Ann owes an act and has 47 dollars"
    );
    assert_eq!(rt; refused_line(&mut replay, &names, &REST), None);
    assert!(rt;
        has_shown(&replay),
        "Ann and Bob have shown, and Ann has aces"
    );
    assert!(rt;
        has_boards(&replay),
        "the flop has 3 cards, the turn has 4, and Jc is the river"
    );
    Ok(())
}

/// Three seats, the third with little, and the cards before the flop.
const THREE_SEATS: [&[u8]; 6] = [
    b"Seat 1: ann ($50 in chips)",
    b"Seat 2: bob ($50 in chips)",
    b"Seat 3: cat ($2.50 in chips)",
    b"ann: posts small blind $0.50",
    b"bob: posts big blind $1",
    b"*** HOLE CARDS ***",
];

/// Returns the place of the first of these lists whose last line isn't refused for its fault after the
/// lines of three seats.
fn wrong_refusal(names: &Names, table: &[(&[&[u8]], BetFault)]) -> Option<usize> {
    for (place, row) in table.iter().enumerate() {
        let (lines, fault) = row;
        let mut replay = Replay::new(&DOLLARS, 14);
        if !all_stand(&mut replay, names, &THREE_SEATS)
            || !is_refused(&mut replay, names, lines, fault)
        {
            return Some(place);
        }
    }
    None
}

#[test]
fn each_refusal_comes_with_what_it_carries(rt: HostRuntime) -> Result<(), Fail> {
    let names = names_of(rt.alloc(), THREE_NAMES).ok_or("no memory")?;
    assert_eq!(rt; wrong_refusal(&names, &refusals()), None);
    Ok(())
}

/// Returns each refusal once.
fn refusals() -> [(&'static [&'static [u8]], BetFault); 16] {
    [
        (&[b"cat: folds", b"cat: calls $1"], BetFault::NotInHand),
        (&[b"cat: calls $1", b"bob: checks"], BetFault::OutOfTurn(1)),
        (
            &[
                b"cat: calls $1",
                b"ann: calls $0.50",
                b"bob: checks",
                b"cat: checks",
            ],
            BetFault::NothingOwed,
        ),
        (&[b"cat: checks"], BetFault::CheckFacingBet(100)),
        (&[b"cat: calls $0.50"], BetFault::CallAmount(100)),
        (&[b"cat: bets $2"], BetFault::BetFacingBet),
        (&[b"cat: raises $1 to $3"], BetFault::RaiseAmount(100)),
        (&[b"cat: raises $2 to $3"], BetFault::AboveStack(250)),
        (&[b"cat: raises $1.50 to $2.50"], BetFault::AllInWord),
        (&[b"*** FLOP *** [2c 7d 9h]"], BetFault::StreetEarly(1)),
        (
            &[
                b"cat: calls $1",
                b"ann: calls $0.50",
                b"bob: checks",
                b"*** TURN *** [2c 7d 9h] [4s]",
            ],
            BetFault::StreetOrder,
        ),
        (
            &[
                b"cat: folds",
                b"ann: folds",
                b"Uncalled bet ($1) returned to bob",
            ],
            BetFault::UncalledAmount(50),
        ),
        (&[b"bob: posts the ante $1"], BetFault::PostLate),
        (&[b"Seat 3: dan ($5 in chips)"], BetFault::SeatTwice),
        (
            &[b"Dealt to ann [As Ks]", b"ann: shows [Qs Js]"],
            BetFault::TooManyCards(1),
        ),
        (
            &[b"Dealt to ann [As Ks]", b"Dealt to bob [Qs As]"],
            BetFault::CardTwice(card(51)),
        ),
    ]
}
