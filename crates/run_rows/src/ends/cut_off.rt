//! Hands, spots, and ranges that are cut off at any byte, in each mode and form, at once and in pieces.

use crate::ends::faults::SPOT;
use crate::histories::{Hand, TWICE_REPORT};
use crate::reports::forms::{
    ACCEPTED_SUMS, NO_SUMS, REJECTED_SUMS, Verdict, goes_so, line_count, mode_tells,
};
use crate::runs::{AMPLE, LAST, Part, Ran, front, holds, input_of, run};
use std::alloc::{AllocError, Global};
use std::process::Abort;
use std::sync::Wait;
use std::test::Fail;
use std::thread::Threads;

/// A hand whose number has one digit.
struct Cut {
    parts: &'static [Part<'static>],
    number: u8,
    /// The report of `check` on the hand.
    report: &'static str,
    /// The line of its stated pot. From this line on it may be accepted.
    total: usize,
    /// The size of a piece, if the hand comes in pieces.
    piece: usize,
}

/// Returns whether a report is that of a hand rejected in this line.
fn departs_in(alloc: Global, hand: u8, line: usize, report: &[u8]) -> Result<bool, AllocError> {
    let rejected = format!(in alloc; "hand {hand} rejected line {line} ")?;
    Ok(report.starts_with(rejected.as_bytes()))
}

/// Returns whether a report is that of a hand that ends after this line, before its pot is stated.
fn is_unfinished(alloc: Global, hand: u8, line: usize, report: &[u8]) -> Result<bool, AllocError> {
    let rejected = format!(in alloc; "hand {hand} rejected line {line} Unfinished\n")?;
    Ok(report == rejected.as_bytes())
}

/// Returns what must be reported of the hand if it is cut off in this line and `check` writes this report.
/// Before its header line has the form of a header line there is no hand.
fn told_in<'a>(whole: &Cut, line: usize, departs: bool, written: &'a [u8]) -> Verdict<'a> {
    let (status, report, sums) = if departs {
        (1, written, REJECTED_SUMS)
    } else if line == 1 {
        (0, b"".as_slice(), NO_SUMS)
    } else {
        (0, whole.report.as_bytes(), ACCEPTED_SUMS)
    };
    Verdict {
        status,
        report,
        sums,
    }
}

/// A mode must report that the hand, cut off after this byte, is rejected in this line. Before the line of
/// its stated pot it can't be accepted. If the byte ends such a line, the cause is that the hand is
/// unfinished.
fn is_cut_behind<R: Threads + Wait + Sync + Abort>(
    rt: &R,
    alloc: Global,
    mode: &str,
    whole: &Cut,
    text: &[u8],
    place: usize,
) -> Result<(), Fail> {
    let line = line_count(front(text, place)).saturating_add(1);
    let cut = front(text, place.saturating_add(1));
    let checked = run(rt, alloc, &["check"], cut, AMPLE)?;
    let departs = departs_in(alloc, whole.number, line, &checked.written)?;
    holds(rt, departs || line == 1 || line >= whole.total, mode);
    if cut.ends_with(b"\n") && line < whole.total {
        let unfinished = is_unfinished(alloc, whole.number, line, &checked.written)?;
        holds(rt, unfinished, "unfinished");
    }
    let verdict = told_in(whole, line, departs, &checked.written);
    mode_tells(rt, alloc, mode, cut, whole.piece, &verdict)
}

/// Tries `is_cut_behind` at each byte.
fn is_cut_at_each_byte<R: Threads + Wait + Sync + Abort>(
    rt: &R,
    alloc: Global,
    mode: &str,
    whole: &Cut,
) -> Result<(), Fail> {
    let text = input_of(alloc, whole.parts)?;
    for place in 0..text.len() {
        is_cut_behind(rt, alloc, mode, whole, &text, place)?;
    }
    Ok(())
}

/// The hand with side pots, with a number of one digit.
const EIGHT: Cut = Cut {
    parts: &[
        Part::Whole(
            "PokerStars Hand #8: Tournament #7, $4.40+$0.60 USD Hold'em No Limit - Level V (50/100) - 2023/01/15 21:00:00 ET\n",
        ),
        Part::Lines(Hand::SidePots, 2, LAST),
    ],
    number: 8,
    report: "hand 8 accepted holdem rake 0
pot 0 gross 1500 rake 0 checked
paid 1500 a
pot 1 gross 2000 rake 0 checked
paid 2000 a
",
    total: 29,
    piece: 7,
};

#[test]
fn a_hand_with_side_pots_may_be_cut_at_any_byte(rt: HostRuntime) -> Result<(), Fail> {
    is_cut_at_each_byte(&rt, rt.alloc(), "check", &EIGHT)
}

/// The hand that is run twice.
const TWO: Cut = Cut {
    parts: &[Part::All(Hand::Twice)],
    number: 2,
    report: TWICE_REPORT,
    total: 24,
    piece: 1,
};

#[test]
fn a_hand_may_be_cut_at_any_byte_for_check(rt: HostRuntime) -> Result<(), Fail> {
    is_cut_at_each_byte(&rt, rt.alloc(), "check", &TWO)
}

#[test]
fn a_hand_may_be_cut_at_any_byte_for_audit(rt: HostRuntime) -> Result<(), Fail> {
    is_cut_at_each_byte(&rt, rt.alloc(), "audit", &TWO)
}

#[test]
fn a_hand_may_be_cut_at_any_byte_for_streets(rt: HostRuntime) -> Result<(), Fail> {
    is_cut_at_each_byte(&rt, rt.alloc(), "streets", &TWO)
}

#[test]
fn a_hand_may_be_cut_at_any_byte_for_results(rt: HostRuntime) -> Result<(), Fail> {
    is_cut_at_each_byte(&rt, rt.alloc(), "results", &TWO)
}

#[test]
fn a_hand_may_be_cut_at_any_byte_for_settle(rt: HostRuntime) -> Result<(), Fail> {
    is_cut_at_each_byte(&rt, rt.alloc(), "settle", &TWO)
}

#[test]
fn a_hand_may_be_cut_at_any_byte_for_balance(rt: HostRuntime) -> Result<(), Fail> {
    is_cut_at_each_byte(&rt, rt.alloc(), "balance", &TWO)
}

#[test]
fn a_hand_may_be_cut_at_any_byte_for_totals(rt: HostRuntime) -> Result<(), Fail> {
    is_cut_at_each_byte(&rt, rt.alloc(), "totals", &TWO)
}

/// Returns whether a run over one spot counted or rejected it.
fn is_spot(ran: &Ran, counted: &[u8]) -> bool {
    if ran.status == 0 {
        ran.written.starts_with(counted)
    } else {
        ran.status == 1 && ran.written.starts_with(b"spot 1 rejected line 1 ")
    }
}

/// A prefix of a line must be a spot, counted or rejected, in both forms, and byte by byte.
fn is_spot_so<R: Threads + Wait + Sync + Abort>(
    rt: &R,
    alloc: Global,
    mode: &str,
    cut: &[u8],
    counted: &str,
) -> Result<(), Fail> {
    let ran = run(rt, alloc, &[mode], cut, AMPLE)?;
    holds(rt, is_spot(&ran, counted.as_bytes()), mode);
    goes_so(rt, alloc, mode, cut, 1, &ran)
}

/// Tries `is_spot_so` after each byte.
fn is_spot_at_each_byte<R: Threads + Wait + Sync + Abort>(
    rt: &R,
    alloc: Global,
    mode: &str,
    line: &str,
    counted: &str,
) -> Result<(), Fail> {
    for place in 0..line.len() {
        let cut = front(line.as_bytes(), place.saturating_add(1));
        is_spot_so(rt, alloc, mode, cut, counted)?;
    }
    Ok(())
}

/// A mode, a line for it, and how the report begins if the line is counted.
const LINES: &[(&str, &str, &str)] = &[
    ("spots", SPOT, "spot 1 holdem runouts "),
    (
        "ranges",
        "holdem AsAh - KsKh:2 -- 2c 7d 9h 4s\n",
        "spot 1 holdem choices ",
    ),
];

#[test]
fn a_spot_may_be_cut_at_any_byte(rt: HostRuntime) -> Result<(), Fail> {
    for (mode, line, counted) in LINES {
        is_spot_at_each_byte(&rt, rt.alloc(), mode, line, counted)?;
    }
    Ok(())
}
