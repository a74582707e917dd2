//! Changed hands in each mode and form: each line dropped, doubled, or exchanged with the next; many
//! seats; odd names. The verdicts are worked out by hand.

use crate::histories::{Hand, TWICE_REPORT};
use crate::reports::checks::SIDE_POTS_REPORT;
use crate::reports::forms::{
    ACCEPTED_SUMS, HAND_MODES, NO_SUMS, REJECTED_SUMS, Verdict, mode_tells,
};
use crate::runs::{LAST, Part, input_of};
use std::alloc::{AllocError, Global};
use std::process::Abort;
use std::sync::Wait;
use std::test::Fail;
use std::thread::Threads;

/// The reports of `check` if a line is dropped, is there twice, and is exchanged with the next one.
type Verdicts = (&'static str, &'static str, &'static str);

/// The pot is unseen if nobody shows one of the hands.
const UNSEEN: &str = "hand 2 accepted holdem rake 0 twice
pot 0 gross 200 rake 0 unseen
paid 100 x
paid 100 y
";

/// The first is a hand of its header line alone.
const TWO_HANDS: &str = "hand 2 rejected line 1 Unfinished
hand 2 accepted holdem rake 0 twice
pot 0 gross 200 rake 0 checked
paid 100 x
paid 100 y
";

/// The verdicts for each line of the hand that is run twice. They are those of the hand itself if the line
/// has no part in the play or may come later.
const VERDICTS: &[Verdicts] = &[
    ("", TWO_HANDS, TWICE_REPORT),
    (TWICE_REPORT, TWICE_REPORT, TWICE_REPORT),
    (
        "hand 2 rejected line 6 StreetOrder\n",
        "hand 2 rejected line 4 SeatTwice\n",
        TWICE_REPORT,
    ),
    (
        "hand 2 rejected line 6 StreetOrder\n",
        "hand 2 rejected line 5 SeatTwice\n",
        TWICE_REPORT,
    ),
    (
        "hand 2 rejected line 7 CallAmount 10\n",
        "hand 2 rejected line 16 AboveStack 85\n",
        TWICE_REPORT,
    ),
    (
        "hand 2 rejected line 8 CheckFacingBet 10\n",
        "hand 2 rejected line 9 CallAmount 15\n",
        "hand 2 rejected line 7 PostLate\n",
    ),
    (
        "hand 2 rejected line 7 NothingOwed\n",
        "hand 2 rejected line 8 StreetEarly seat 1\n",
        "hand 2 rejected line 7 NothingOwed\n",
    ),
    (
        "hand 2 rejected line 9 StreetEarly seat 1\n",
        "hand 2 rejected line 9 OutOfTurn seat 2\n",
        TWICE_REPORT,
    ),
    (
        "hand 2 rejected line 9 StreetEarly seat 2\n",
        "hand 2 rejected line 10 NothingOwed\n",
        "hand 2 rejected line 9 StreetEarly seat 2\n",
    ),
    (
        "hand 2 rejected line 10 NothingOwed\n",
        "hand 2 rejected line 11 StreetEarly seat 1\n",
        "hand 2 rejected line 10 NothingOwed\n",
    ),
    (
        "hand 2 rejected line 12 StreetEarly seat 2\n",
        "hand 2 rejected line 12 OutOfTurn seat 1\n",
        TWICE_REPORT,
    ),
    (
        "hand 2 rejected line 12 StreetEarly seat 1\n",
        "hand 2 rejected line 13 NothingOwed\n",
        "hand 2 rejected line 12 StreetEarly seat 1\n",
    ),
    (
        "hand 2 rejected line 13 NothingOwed\n",
        "hand 2 rejected line 14 StreetEarly seat 1\n",
        "hand 2 rejected line 13 NothingOwed\n",
    ),
    (
        "hand 2 rejected line 14 CallAmount 0\n",
        "hand 2 rejected line 15 NotInHand\n",
        "hand 2 rejected line 14 CallAmount 0\n",
    ),
    (
        "hand 2 rejected line 15 StreetEarly seat 1\n",
        "hand 2 rejected line 16 NotInHand\n",
        "hand 2 rejected line 15 StreetEarly seat 1\n",
    ),
    (
        "hand 2 rejected line 16 StreetOrder\n",
        "hand 2 rejected line 17 StreetOrder\n",
        "hand 2 rejected line 16 StreetOrder\n",
    ),
    (
        "hand 2 rejected line 17 StreetOrder\n",
        "hand 2 rejected line 18 StreetOrder\n",
        "hand 2 rejected line 17 StreetOrder\n",
    ),
    (
        TWICE_REPORT,
        "hand 2 rejected line 19 StreetOrder\n",
        TWICE_REPORT,
    ),
    (UNSEEN, TWICE_REPORT, TWICE_REPORT),
    (UNSEEN, TWICE_REPORT, TWICE_REPORT),
    (
        "hand 2 rejected line 23 Chips 200 100\n",
        "hand 2 rejected line 25 Chips 200 300\n",
        TWICE_REPORT,
    ),
    (
        "hand 2 rejected line 23 Chips 200 100\n",
        "hand 2 rejected line 25 Chips 200 300\n",
        "hand 2 rejected line 24 Chips 200 100\n",
    ),
    (
        "hand 2 rejected line 23 Unfinished\n",
        TWICE_REPORT,
        "hand 2 rejected line 24 Unfinished\n",
    ),
    (
        "hand 2 rejected line 23 Unfinished\n",
        TWICE_REPORT,
        TWICE_REPORT,
    ),
];

/// Returns the sums with which `totals` begins, for no hand, one, or two.
fn sums_of(report: &str) -> &'static [u8] {
    if report.is_empty() {
        NO_SUMS
    } else if report == TWO_HANDS {
        b"totals hands 2 accepted 1 rejected 1\n"
    } else if report.contains(" rejected ") {
        REJECTED_SUMS
    } else {
        ACCEPTED_SUMS
    }
}

/// Returns what must be reported of an input of which `check` reports this.
fn verdict_of(report: &str) -> Verdict<'_> {
    let status = if report.contains(" rejected ") { 1 } else { 0 };
    Verdict {
        status,
        report: report.as_bytes(),
        sums: sums_of(report),
    }
}

/// Each mode must report this of the input.
fn is_told_so<R: Threads + Wait + Sync + Abort>(
    rt: &R,
    alloc: Global,
    input: &[u8],
    verdict: &Verdict,
) -> Result<(), Fail> {
    for mode in HAND_MODES {
        mode_tells(rt, alloc, mode, input, 7, verdict)?;
    }
    Ok(())
}

/// Each mode must report this of the input of these parts.
fn is_judged<R: Threads + Wait + Sync + Abort>(
    rt: &R,
    alloc: Global,
    parts: &[Part],
    report: &str,
) -> Result<(), Fail> {
    let input = input_of(alloc, parts)?;
    is_told_so(rt, alloc, &input, &verdict_of(report))
}

/// The line of this number, from 1, is dropped, doubled, and exchanged with the next.
fn is_judged_without<R: Threads + Wait + Sync + Abort>(
    rt: &R,
    alloc: Global,
    hand: Hand,
    number: usize,
    verdicts: &Verdicts,
) -> Result<(), Fail> {
    let (dropped, doubled, exchanged) = verdicts;
    let before = number.saturating_sub(1);
    let next = number.saturating_add(1);
    let behind = number.saturating_add(2);
    let parts = [Part::Lines(hand, 1, before), Part::Lines(hand, next, LAST)];
    is_judged(rt, alloc, &parts, dropped)?;
    let parts = [
        Part::Lines(hand, 1, number),
        Part::Lines(hand, number, LAST),
    ];
    is_judged(rt, alloc, &parts, doubled)?;
    let parts = [
        Part::Lines(hand, 1, before),
        Part::Lines(hand, next, next),
        Part::Lines(hand, number, number),
        Part::Lines(hand, behind, LAST),
    ];
    is_judged(rt, alloc, &parts, exchanged)
}

#[test]
fn any_line_may_be_another(rt: HostRuntime) -> Result<(), Fail> {
    for (at, verdicts) in VERDICTS.iter().enumerate() {
        is_judged_without(&rt, rt.alloc(), Hand::Twice, at.saturating_add(1), verdicts)?;
    }
    Ok(())
}

/// The hand with a first player whose name ends like a seat line.
const ODD_NAME: &[Part] = &[
    Part::Lines(Hand::SidePots, 1, 2),
    Part::Whole("Seat 1: a (9 in chips) (4000 in chips)\n"),
    Part::Lines(Hand::SidePots, 4, 8),
    Part::Whole("a (9 in chips): calls 100\n"),
    Part::Lines(Hand::SidePots, 10, 14),
    Part::Whole("a (9 in chips): checks\n"),
    Part::Lines(Hand::SidePots, 16, 18),
    Part::Whole("a (9 in chips): raises 2500 to 3900 and is all-in\n"),
    Part::Whole("Uncalled bet (2500) returned to a (9 in chips)\n"),
    Part::Lines(Hand::SidePots, 21, 22),
    Part::Whole("a (9 in chips): shows [As Ad] (a pair of Aces)\n"),
    Part::Lines(Hand::SidePots, 24, 24),
    Part::Whole("a (9 in chips) collected 2000 from side pot\n"),
    Part::Lines(Hand::SidePots, 26, 26),
    Part::Whole("a (9 in chips) collected 1500 from main pot\n"),
    Part::Lines(Hand::SidePots, 28, 30),
    Part::Whole(
        "Seat 1: a (9 in chips) (button) showed [As Ad] and won (3500) with a pair of Aces\n",
    ),
    Part::Lines(Hand::SidePots, 32, LAST),
];

const ODD_NAME_REPORT: &str = "hand 88 accepted holdem rake 0
pot 0 gross 1500 rake 0 checked
paid 1500 a (9 in chips)
pot 1 gross 2000 rake 0 checked
paid 2000 a (9 in chips)
";

/// Inputs of parts, with what `check` reports of them.
const OTHERS: &[(&[Part], &str)] = &[
    // A blank line before the last one.
    (
        &[
            Part::Lines(Hand::Twice, 1, 23),
            Part::Whole("\n"),
            Part::Lines(Hand::Twice, 24, LAST),
        ],
        TWICE_REPORT,
    ),
    // The flop before the cards are dealt.
    (
        &[
            Part::Lines(Hand::SidePots, 1, 7),
            Part::Lines(Hand::SidePots, 12, 12),
            Part::Lines(Hand::SidePots, 9, 11),
            Part::Lines(Hand::SidePots, 8, 8),
            Part::Lines(Hand::SidePots, 13, LAST),
        ],
        "hand 88 rejected line 8 StreetOrder\n",
    ),
    (ODD_NAME, ODD_NAME_REPORT),
    // A stack of the greatest amount, with some chips left at the end.
    (
        &[
            Part::Lines(Hand::SidePots, 1, 2),
            Part::Whole("Seat 1: a (999999999999999 in chips)\n"),
            Part::Lines(Hand::SidePots, 4, 18),
            Part::Whole("a: raises 2500 to 3900\n"),
            Part::Lines(Hand::SidePots, 20, LAST),
        ],
        SIDE_POTS_REPORT,
    ),
];

#[test]
fn other_hands_are_changed(rt: HostRuntime) -> Result<(), Fail> {
    for (parts, report) in OTHERS {
        is_judged(&rt, rt.alloc(), parts, report)?;
    }
    Ok(())
}

/// Returns the seat lines of `count` players.
fn seats(alloc: Global, count: u32) -> Result<String, AllocError> {
    let mut lines = String::new(alloc);
    for seat in 1..=count {
        write!(lines, "Seat {seat}: p{seat} (5 in chips)\n")?;
    }
    Ok(lines)
}

/// In a hand of 200 seats the eleventh is one too many.
#[test]
fn hands_may_have_many_seats(rt: HostRuntime) -> Result<(), Fail> {
    let lines = seats(rt.alloc(), 200)?;
    let parts = [Part::Lines(Hand::Twice, 1, 1), Part::Whole(&lines)];
    is_judged(
        &rt,
        rt.alloc(),
        &parts,
        "hand 2 rejected line 12 BadHeader\n",
    )
}
