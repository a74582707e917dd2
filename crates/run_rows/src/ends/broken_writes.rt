//! Writes that fail at any place, in each mode and form: the bytes taken are a prefix of the report, and
//! nothing is read or written after them.

use crate::ends::broken_ends::{HANDS, RANGES, SPOTS, TWELVE_REPORT};
use crate::ends::faults::SPOT;
use crate::histories::{CUT_AND_WHOLE, Hand};
use crate::reports::checks::SIDE_POTS_REPORT;
use crate::runs::{
    AMPLE, Case, Edges, Part, Ran, did, each_ends, front, holds, input_of, owned, run, sink_of,
    source_of,
};
use byte_ends::{MemorySink, MemorySource, Source};
use run_engine::{run as run_shared, run_alone};
use std::alloc::Global;
use std::process::Abort;
use std::sync::Wait;
use std::test::Fail;
use std::thread::Threads;
use steal_pool::OpenGate;

/// Words, an input, the most bytes of a write, and how many writes are tried.
type Writes = (
    &'static [&'static str],
    &'static [Part<'static>],
    usize,
    usize,
);

/// Returns the status of a run that wrote these bytes of its whole report.
fn status_of(written: &[u8], whole: &Ran) -> u8 {
    if written.len() == whole.written.len() {
        whole.status
    } else {
        4
    }
}

/// If the write of this number fails, with writes of at most `taken` bytes, the run must end with status 4
/// and with the prefix of its report that was taken.
fn write_fails<R: Threads + Wait + Sync + Abort>(
    rt: &R,
    alloc: Global,
    words: &[&str],
    input: &[u8],
    whole: &Ran,
    taken: usize,
    write: usize,
) -> Result<(), Fail> {
    let edges = Edges {
        taken,
        write_fault: Some(write as u64),
        ..AMPLE
    };
    let ran = run(rt, alloc, words, input, edges)?;
    let written = front(&whole.written, write.saturating_mul(taken));
    did(rt, &ran, status_of(written, whole), written, "a write");
    Ok(())
}

/// Tries `write_fails` for each of the writes.
fn all_writes_fail<R: Threads + Wait + Sync + Abort>(
    rt: &R,
    alloc: Global,
    words: &[&str],
    taken: usize,
    each: usize,
    input: &[u8],
    whole: &Ran,
) -> Result<(), Fail> {
    let writes = whole.written.len() / each.max(1);
    for number in 0..writes.saturating_add(1) {
        let write = number.saturating_mul(each);
        write_fails(rt, alloc, words, input, whole, taken, write)?;
    }
    Ok(())
}

/// Tries the writes of a row over its input.
fn each_write_fails<R: Threads + Wait + Sync + Abort>(
    rt: &R,
    alloc: Global,
    row: &Writes,
) -> Result<(), Fail> {
    let input = input_of(alloc, row.1)?;
    let whole = run(rt, alloc, row.0, &input, AMPLE)?;
    all_writes_fail(rt, alloc, row.0, row.2, row.3, &input, &whole)
}

/// Each mode of a command, with an input for it.
pub(crate) const MODES: &[(&str, &[Part])] = &[
    ("audit", HANDS),
    ("streets", HANDS),
    ("check", HANDS),
    ("results", HANDS),
    ("settle", HANDS),
    ("spots", SPOTS),
    ("ranges", RANGES),
    ("totals", HANDS),
    ("balance", HANDS),
    ("made", HANDS),
];

/// Tries every seventh write of one byte as the one that fails, in a mode and a form.
fn each_seventh_fails<R: Threads + Wait + Sync + Abort>(
    rt: &R,
    alloc: Global,
    mode: &str,
    form: &str,
    parts: &[Part],
) -> Result<(), Fail> {
    let input = input_of(alloc, parts)?;
    let words = [mode, form, "--hands=3"];
    let whole = run(rt, alloc, &words, &input, AMPLE)?;
    all_writes_fail(rt, alloc, &words, 1, 7, &input, &whole)
}

#[test]
fn any_write_may_fail(rt: HostRuntime) -> Result<(), Fail> {
    for (mode, parts) in MODES {
        each_seventh_fails(&rt, rt.alloc(), mode, "--format=text", parts)?;
        each_seventh_fails(&rt, rt.alloc(), mode, "--format=csv", parts)?;
    }
    Ok(())
}

const ALL_WRITES: &[Writes] = &[
    (&["check"], HANDS, 1, 1),
    (&["check", "--format=csv"], HANDS, 1, 1),
    (&["--help"], &[], 1, 1),
    (&["spots"], &[Part::Whole(SPOT)], 5, 1),
];

#[test]
fn the_write_of_any_byte_may_fail(rt: HostRuntime) -> Result<(), Fail> {
    for row in ALL_WRITES {
        each_write_fails(&rt, rt.alloc(), row)?;
    }
    Ok(())
}

/// Ends with at most 64 bytes for each read and each write.
const BY_64: Edges = Edges {
    piece: 64,
    taken: 64,
    ..AMPLE
};

/// A hand that is cut off and one that isn't. The report of the first has 36 bytes, and that of the second
/// 119.
const WRITES_OF_64: &[Case] = &[
    (
        &["check"],
        Edges {
            write_fault: Some(0),
            ..BY_64
        },
        CUT_AND_WHOLE,
        4,
        &[],
    ),
    (
        &["check"],
        Edges {
            write_fault: Some(1),
            ..BY_64
        },
        CUT_AND_WHOLE,
        4,
        &[TWELVE_REPORT],
    ),
    (
        &["check"],
        Edges {
            write_fault: Some(2),
            ..BY_64
        },
        CUT_AND_WHOLE,
        4,
        &[
            TWELVE_REPORT,
            "hand 88 accepted holdem rake 0\npot 0 gross 1500 rake 0 checked\np",
        ],
    ),
    (
        &["check"],
        Edges {
            write_fault: Some(3),
            ..BY_64
        },
        CUT_AND_WHOLE,
        1,
        &[TWELVE_REPORT, SIDE_POTS_REPORT],
    ),
];

#[test]
fn any_write_of_64_bytes_may_fail(rt: HostRuntime) -> Result<(), Fail> {
    each_ends(&rt, rt.alloc(), WRITES_OF_64)
}

/// A mode, its input, the most bytes of a read, and writes by their number, each with the number of bytes
/// left unread if it fails. Each hand or line has one write, and no piece closes two. Such a hand has
/// 1,063 bytes, 113 of them in its header line, and such a line has 36.
type Unread = (
    &'static str,
    &'static [Part<'static>],
    usize,
    &'static [(u64, usize)],
);

const HUNDRED: &[Part] = &[Part::Hands(Hand::SidePots, 100)];

const UNREAD: &[Unread] = &[
    (
        "check",
        HUNDRED,
        100,
        &[(0, 105_100), (1, 104_000), (49, 53_000), (98, 900), (99, 0)],
    ),
    ("audit", HUNDRED, 100, &[(0, 105_100), (49, 53_000)]),
    ("streets", HUNDRED, 100, &[(0, 105_100), (49, 53_000)]),
    ("results", HUNDRED, 100, &[(0, 105_100), (49, 53_000)]),
    ("settle", HUNDRED, 100, &[(0, 105_100), (49, 53_000)]),
    (
        "spots",
        &[Part::Times(SPOT, 50)],
        20,
        &[(0, 1760), (1, 1720), (24, 900), (48, 20), (49, 0)],
    ),
];

/// Returns the number of bytes that a source still gives.
fn bytes_left(source: &mut MemorySource) -> usize {
    let mut piece = [0u8; 128];
    let mut left = 0usize;
    for _ in 0..u64::MAX {
        match source.read(&mut piece) {
            Ok(count) if count > 0 => left = left.saturating_add(count),
            _ => return left,
        }
    }
    left
}

/// Returns whether a run stopped at the write of this number, and left `unread` bytes. Before the first
/// write nothing is taken.
fn is_stopped(
    status: u8,
    write: u64,
    sink: &MemorySink,
    source: &mut MemorySource,
    left: usize,
) -> bool {
    status == 4 && (write > 0 || sink.bytes().is_empty()) && bytes_left(source) == left
}

/// If the write of this number fails, these bytes must be left unread, with one thread and with workers.
fn leaves_unread<R: Threads + Wait + Sync + Abort>(
    rt: &R,
    alloc: Global,
    mode: &str,
    input: &[u8],
    piece: usize,
    write: u64,
    left: usize,
) -> Result<(), Fail> {
    let edges = Edges {
        piece,
        write_fault: Some(write),
        ..AMPLE
    };
    let words = owned(alloc, &[mode])?;
    let mut source = source_of(alloc, input, edges)?;
    let mut sink = sink_of(alloc, edges)?;
    let status = run_alone(alloc, &words, &mut source, &mut sink);
    holds(
        rt,
        is_stopped(status, write, &sink, &mut source, left),
        mode,
    );
    let mut source = source_of(alloc, input, edges)?;
    let mut sink = sink_of(alloc, edges)?;
    let status = run_shared(rt, alloc, &words, &mut source, &mut sink, &OpenGate);
    holds(
        rt,
        is_stopped(status, write, &sink, &mut source, left),
        mode,
    );
    Ok(())
}

/// Tries the writes of a row.
fn each_leaves_unread<R: Threads + Wait + Sync + Abort>(
    rt: &R,
    alloc: Global,
    row: &Unread,
) -> Result<(), Fail> {
    let (mode, parts, piece, writes) = row;
    let input = input_of(alloc, parts)?;
    for (write, left) in *writes {
        leaves_unread(rt, alloc, mode, &input, *piece, *write, *left)?;
    }
    Ok(())
}

/// A block is written as soon as its hand or line is closed. If its write fails, all bytes after the piece
/// that closed it are left.
#[test]
fn a_failed_write_leaves_bytes_unread(rt: HostRuntime) -> Result<(), Fail> {
    for row in UNREAD {
        each_leaves_unread(&rt, rt.alloc(), row)?;
    }
    Ok(())
}
