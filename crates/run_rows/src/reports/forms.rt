//! The modes and the forms compared: their reports of an input agree.

use crate::runs::{AMPLE, Edges, Ran, did, holds, run};
use std::alloc::{AllocError, Global};
use std::process::Abort;
use std::sync::Wait;
use std::test::Fail;
use std::thread::Threads;

/// Returns records as lines of text: the fields that aren't empty, with a space between them. No field has
/// a comma or a quote.
fn as_text(alloc: Global, records: &[u8]) -> Result<Vec<u8>, AllocError> {
    let mut text = Vec::new(alloc);
    let mut is_apart = false;
    for byte in records {
        if *byte == b',' {
            is_apart = true;
            continue;
        }
        if is_apart && *byte != b'\n' {
            text.push(b' ')?;
        }
        is_apart = false;
        text.push(*byte)?;
    }
    Ok(text)
}

/// Returns whether each record has thirteen fields.
fn has_thirteen_each(records: &[u8]) -> bool {
    let mut commas = 0u32;
    for byte in records {
        if *byte == b',' {
            commas = commas.saturating_add(1);
        } else if *byte == b'\n' {
            if commas != 12 {
                return false;
            }
            commas = 0;
        }
    }
    commas == 0
}

/// Returns the result of a run of a mode over this input, between these ends, in the form of records, with
/// the records as text.
fn told_by_records<R: Threads + Wait + Sync + Abort>(
    rt: &R,
    alloc: Global,
    mode: &str,
    input: &[u8],
    edges: Edges,
) -> Result<Ran, Fail> {
    let ran = run(rt, alloc, &[mode, "--format=csv"], input, edges)?;
    holds(rt, has_thirteen_each(&ran.written), mode);
    Ok(Ran {
        status: ran.status,
        written: as_text(alloc, &ran.written)?,
    })
}

/// Returns the result of a run in this form.
pub(crate) fn told<R: Threads + Wait + Sync + Abort>(
    rt: &R,
    alloc: Global,
    mode: &str,
    is_csv: bool,
    input: &[u8],
    edges: Edges,
) -> Result<Ran, Fail> {
    if is_csv {
        told_by_records(rt, alloc, mode, input, edges)
    } else {
        run(rt, alloc, &[mode], input, edges)
    }
}

/// Returns ends whose reads give at most `piece` bytes.
pub(crate) fn pieces(piece: usize) -> Edges {
    Edges { piece, ..AMPLE }
}

/// The runs of a mode over this input in both forms, in pieces of this size, must have this result.
pub(crate) fn goes_so<R: Threads + Wait + Sync + Abort>(
    rt: &R,
    alloc: Global,
    mode: &str,
    input: &[u8],
    piece: usize,
    ran: &Ran,
) -> Result<(), Fail> {
    for is_csv in [false, true] {
        let other = told(rt, alloc, mode, is_csv, input, pieces(piece))?;
        did(rt, &other, ran.status, &ran.written, mode);
    }
    Ok(())
}

/// Returns how many lines a text has.
pub(crate) fn line_count(text: &[u8]) -> usize {
    let mut count = 0usize;
    for byte in text {
        if *byte == b'\n' {
            count = count.saturating_add(1);
        }
    }
    count
}

/// What must be reported of an input of hands: the status, the report of `check`, and the sums with which
/// `totals` begins.
#[derive(Drop)]
pub(crate) struct Verdict<'a> {
    pub(crate) status: u8,
    pub(crate) report: &'a [u8],
    pub(crate) sums: &'a [u8],
}

/// Returns the lines of a report that say of a hand whether it is accepted.
fn hand_lines(alloc: Global, report: &[u8]) -> Result<Vec<u8>, AllocError> {
    let mut kept = Vec::new(alloc);
    let mut line = Vec::new(alloc);
    for byte in report {
        line.push(*byte)?;
        if *byte == b'\n' {
            if line.starts_with(b"hand ") {
                kept.extend_from_slice(&line)?;
            }
            line.clear();
        }
    }
    Ok(kept)
}

/// Returns the text after the first word of a report.
fn behind<'a>(report: &'a [u8], word: &str) -> &'a [u8] {
    &report[word.len().min(report.len())..]
}

/// Returns whether the report of a mode agrees: `check` writes this report, `audit` and `streets` extend
/// it, `results` and `settle` have its line for each hand, and `totals` and `balance` begin with these
/// sums.
fn is_told(
    alloc: Global,
    mode: &str,
    verdict: &Verdict,
    written: &[u8],
) -> Result<bool, AllocError> {
    let told = match mode {
        "check" => written == verdict.report,
        "totals" => written.starts_with(verdict.sums),
        "balance" => {
            written.starts_with(b"balance ")
                && behind(written, "balance").starts_with(behind(verdict.sums, "totals"))
        }
        "results" | "settle" => hand_lines(alloc, written)? == hand_lines(alloc, verdict.report)?,
        _ => written.starts_with(verdict.report),
    };
    Ok(told)
}

/// Returns whether the report of a mode has no more than that of `check` if no hand is accepted.
fn ends_there(mode: &str, verdict: &Verdict, written: &[u8]) -> bool {
    mode == "totals"
        || mode == "balance"
        || line_count(verdict.report) > 1
        || written == verdict.report
}

/// A mode must report this of the input, in both forms, and if the input comes in pieces.
pub(crate) fn mode_tells<R: Threads + Wait + Sync + Abort>(
    rt: &R,
    alloc: Global,
    mode: &str,
    input: &[u8],
    piece: usize,
    verdict: &Verdict,
) -> Result<(), Fail> {
    let ran = run(rt, alloc, &[mode], input, AMPLE)?;
    holds(rt, ran.status == verdict.status, mode);
    holds(rt, is_told(alloc, mode, verdict, &ran.written)?, mode);
    holds(rt, ends_there(mode, verdict, &ran.written), mode);
    goes_so(rt, alloc, mode, input, piece, &ran)
}

/// The sums of no hand, and of one hand with this verdict.
pub(crate) const NO_SUMS: &[u8] = b"totals hands 0 accepted 0 rejected 0\n";

pub(crate) const REJECTED_SUMS: &[u8] = b"totals hands 1 accepted 0 rejected 1\n";

pub(crate) const ACCEPTED_SUMS: &[u8] = b"totals hands 1 accepted 1 rejected 0\n";

/// The modes that read hands.
pub(crate) const HAND_MODES: [&str; 7] = [
    "check", "audit", "streets", "results", "settle", "totals", "balance",
];
