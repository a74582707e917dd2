//! Runs over memory, and their expected results.

ghost use Rattle.std.specs.Prelude.{◌<◌, IfOk};
ghost use Rattle.std.specs.List.Sorted.{IsStrictlyIncreasing};

use crate::histories::{Hand, text_of};
use byte_ends::{MemorySink, MemorySource};
use card_sets::Memory;
use run_engine::{run as run_shared, run_alone};
use std::alloc::{AllocError, Global};
use std::process::Abort;
use std::sync::Wait;
use std::test::Fail;
use std::thread::Threads;
use steal_pool::OpenGate;

/// The result of a run.
#[derive(Drop)]
pub(crate) struct Ran {
    pub(crate) status: u8,
    pub(crate) written: Vec<u8>,
}

/// The ends of a run: the most bytes of a read and of a write, the calls that fail, and the room of the
/// sink.
#[derive(Clone, Copy)]
pub(crate) struct Edges {
    pub(crate) piece: usize,
    pub(crate) taken: usize,
    pub(crate) read_fault: Option<u64>,
    pub(crate) write_fault: Option<u64>,
    pub(crate) room: usize,
}

/// Ends without a fault, with enough room.
pub(crate) const AMPLE: Edges = Edges {
    piece: 4096,
    taken: 4096,
    read_fault: None,
    write_fault: None,
    room: 65_536,
};

/// Ends whose second read fails. The input has at most one piece.
pub(crate) const ONE_READ: Edges = Edges {
    read_fault: Some(1),
    ..AMPLE
};

/// Ends whose first write fails.
pub(crate) const NO_WRITE: Edges = Edges {
    write_fault: Some(0),
    ..AMPLE
};

/// Returns the list of one call, or of none.
fn listed(alloc: Global, call: Option<u64>) -> Result<Vec<u64>, AllocError>
    ensures { IfOk result (λ calls. IsStrictlyIncreasing calls.items) }
{
    let mut calls = Vec::new(alloc);
    if let Some(call) = call {
        calls.push(call)?;
    }
    Ok(calls)
}

/// Returns the first bytes: at most `most` of them.
pub(crate) fn front(bytes: &[u8], most: usize) -> &[u8] {
    &bytes[..most.min(bytes.len())]
}

/// Returns the words of a command.
pub(crate) fn owned(alloc: Global, words: &[&str]) -> Result<Vec<String>, AllocError> {
    let mut owned = Vec::new(alloc);
    for word in words {
        owned.push(String::from_str(alloc, word)?)?;
    }
    Ok(owned)
}

/// Returns a source of this input.
pub(crate) fn source_of(
    alloc: Global,
    input: &[u8],
    edges: Edges,
) -> Result<MemorySource, AllocError> {
    let calls = listed(alloc, edges.read_fault)?;
    Ok(MemorySource::new(input.to_vec(alloc)?, edges.piece.max(1), calls))
}

/// Returns a sink.
pub(crate) fn sink_of(alloc: Global, edges: Edges) -> Result<MemorySink, AllocError> {
    let calls = listed(alloc, edges.write_fault)?;
    match MemorySink::new(alloc, edges.room, edges.taken.max(1), calls) {
        Ok(sink) => Ok(sink),
        Err(Memory) => Err(AllocError),
    }
}

/// Returns the result of a run that ended with this status.
fn ran_so(alloc: Global, status: u8, sink: &MemorySink) -> Result<Ran, AllocError> {
    Ok(Ran {
        status,
        written: sink.bytes().to_vec(alloc)?,
    })
}

/// Runs these words between these ends.
fn between(
    alloc: Global,
    words: &[String],
    mut source: MemorySource,
    mut sink: MemorySink,
) -> Result<Ran, AllocError> {
    let status = run_alone(alloc, words, &mut source, &mut sink);
    ran_so(alloc, status, &sink)
}

/// Runs these words over this input on one thread.
fn run_by_one(alloc: Global, words: &[&str], input: &[u8], edges: Edges) -> Result<Ran, Fail> {
    let owned = owned(alloc, words)?;
    let source = source_of(alloc, input, edges)?;
    let sink = sink_of(alloc, edges)?;
    Ok(between(alloc, &owned, source, sink)?)
}

/// Runs these words between these ends, with several workers.
fn between_by_workers<R: Threads + Wait + Sync>(
    rt: &R,
    alloc: Global,
    words: &[String],
    mut source: MemorySource,
    mut sink: MemorySink,
) -> Result<Ran, AllocError> {
    let status = run_shared(rt, alloc, words, &mut source, &mut sink, &OpenGate);
    ran_so(alloc, status, &sink)
}

/// Runs these words over this input with the number of workers in the words.
pub(crate) fn run_by_workers<R: Threads + Wait + Sync>(
    rt: &R,
    alloc: Global,
    words: &[&str],
    input: &[u8],
    edges: Edges,
) -> Result<Ran, Fail> {
    let owned = owned(alloc, words)?;
    let source = source_of(alloc, input, edges)?;
    let sink = sink_of(alloc, edges)?;
    Ok(between_by_workers(rt, alloc, &owned, source, sink)?)
}

/// Returns the text of a row, which a failed assert prints.
pub(crate) fn row_text(row: &[u8]) -> &str {
    match std::str::from_utf8(row) {
        Ok(text) => text,
        Err(_) => "a row that isn't UTF-8",
    }
}

/// The condition must hold. Otherwise the test program ends and prints this name.
pub(crate) fn holds(rt: &impl Abort, is_so: bool, name: &str) {
    assert!(rt; is_so, "{name}");
}

/// Returns whether the run ended with this status and wrote this.
fn is_so(ran: &Ran, status: u8, written: &[u8]) -> bool {
    ran.status == status && ran.written.as_slice() == written
}

/// The run must have ended with this status and written this.
pub(crate) fn did(rt: &impl Abort, ran: &Ran, status: u8, written: &[u8], name: &str) {
    holds(rt, is_so(ran, status, written), name);
}

/// Runs these words over this input, on one thread and with the number of workers in the words. Both runs
/// must have the same result.
pub(crate) fn run<R: Threads + Wait + Sync + Abort>(
    rt: &R,
    alloc: Global,
    words: &[&str],
    input: &[u8],
    edges: Edges,
) -> Result<Ran, Fail> {
    let one = run_by_one(alloc, words, input, edges)?;
    let several = run_by_workers(rt, alloc, words, input, edges)?;
    did(rt, &several, one.status, &one.written, "by workers");
    Ok(one)
}

/// The run of these words over this input, between these ends, must end with this status and write these
/// texts.
pub(crate) fn ends<R: Threads + Wait + Sync + Abort>(
    rt: &R,
    alloc: Global,
    words: &[&str],
    edges: Edges,
    input: &[u8],
    status: u8,
    texts: &[&str],
) -> Result<(), Fail> {
    let report = joined(alloc, texts)?;
    let ran = run(rt, alloc, words, input, edges)?;
    did(rt, &ran, status, report.as_bytes(), &report);
    Ok(())
}

/// Returns the texts joined.
pub(crate) fn joined(alloc: Global, texts: &[&str]) -> Result<String, AllocError> {
    let mut whole = String::new(alloc);
    for text in texts {
        whole.push_str(text)?;
    }
    Ok(whole)
}

/// A part of an input.
#[derive(Drop)]
pub(crate) enum Part<'a> {
    Whole(&'a str),
    /// A text several times.
    Times(&'a str, usize),
    All(Hand),
    /// The lines of a hand from a first to a last one. Lines count from 1.
    Lines(Hand, usize, usize),
    /// A hand several times.
    Hands(Hand, usize),
}

/// As the number of the last line: the last line of the text.
pub(crate) const LAST: usize = usize::MAX;

/// Adds the lines of a text from a first to a last one.
fn add_lines(out: &mut Vec<u8>, text: &str, first: usize, last: usize) -> Result<(), AllocError> {
    let mut number = 1usize;
    for byte in text.as_bytes() {
        if first <= number && number <= last {
            out.push(*byte)?;
        }
        if *byte == b'\n' {
            number = number.saturating_add(1);
        }
    }
    Ok(())
}

/// Adds a text `times` times.
fn add_times(out: &mut Vec<u8>, text: &str, times: usize) -> Result<(), AllocError> {
    for _ in 0..times {
        out.extend_from_slice(text.as_bytes())?;
    }
    Ok(())
}

/// Adds a part.
fn add_part(out: &mut Vec<u8>, part: &Part) -> Result<(), AllocError> {
    match part {
        Part::Whole(text) => add_times(out, text, 1),
        Part::Times(text, times) => add_times(out, text, *times),
        Part::All(hand) => add_times(out, text_of(*hand), 1),
        Part::Lines(hand, first, last) => add_lines(out, text_of(*hand), *first, *last),
        Part::Hands(hand, times) => add_times(out, text_of(*hand), *times),
    }
}

/// Returns the input of these parts.
pub(crate) fn input_of(alloc: Global, parts: &[Part]) -> Result<Vec<u8>, AllocError> {
    let mut out = Vec::new(alloc);
    for part in parts {
        add_part(&mut out, part)?;
    }
    Ok(out)
}

/// A run: its words, its ends, and its input; its expected status, and its expected texts.
pub(crate) type Case = (
    &'static [&'static str],
    Edges,
    &'static [Part<'static>],
    u8,
    &'static [&'static str],
);

/// A run of a table must have the result in its row.
fn ends_so<R: Threads + Wait + Sync + Abort>(
    rt: &R,
    alloc: Global,
    case: &Case,
) -> Result<(), Fail> {
    let (words, edges, parts, status, texts) = case;
    let input = input_of(alloc, parts)?;
    ends(rt, alloc, words, *edges, &input, *status, texts)
}

/// Tries each run of the table.
pub(crate) fn each_ends<R: Threads + Wait + Sync + Abort>(
    rt: &R,
    alloc: Global,
    cases: &[Case],
) -> Result<(), Fail> {
    for case in cases {
        ends_so(rt, alloc, case)?;
    }
    Ok(())
}

/// An input, the expected status of a run over it, and its expected report.
pub(crate) type Row = (&'static str, u8, &'static str);

/// Each run of these words over an input of the table must have the result in its row.
pub(crate) fn each_reports<R: Threads + Wait + Sync + Abort>(
    rt: &R,
    alloc: Global,
    words: &[&str],
    rows: &[Row],
) -> Result<(), Fail> {
    for (input, status, report) in rows {
        ends(
            rt,
            alloc,
            words,
            AMPLE,
            input.as_bytes(),
            *status,
            &[report],
        )?;
    }
    Ok(())
}

/// Words of commands, an input, and the expected status and report of a run of any of them over it.
pub(crate) type Told = (
    &'static [&'static [&'static str]],
    &'static str,
    u8,
    &'static str,
);

/// The run of each of these words over this input must end with this status and write this report.
fn all_report<R: Threads + Wait + Sync + Abort>(
    rt: &R,
    alloc: Global,
    forms: &[&[&str]],
    input: &str,
    status: u8,
    report: &str,
) -> Result<(), Fail> {
    for words in forms {
        ends(rt, alloc, words, AMPLE, input.as_bytes(), status, &[report])?;
    }
    Ok(())
}

/// Tries each row of the table.
pub(crate) fn each_told<R: Threads + Wait + Sync + Abort>(
    rt: &R,
    alloc: Global,
    rows: &[Told],
) -> Result<(), Fail> {
    for (forms, input, status, report) in rows {
        all_report(rt, alloc, forms, input, *status, report)?;
    }
    Ok(())
}

/// The number of a line of a hand, from 1, another line in its place, and the cause for which the changed
/// hand is rejected.
pub(crate) type Change = (usize, &'static str, &'static str);

/// With a changed line the run of the mode must write the report of the rejected hand, and end with status
/// 1.
fn change_reports<R: Threads + Wait + Sync + Abort>(
    rt: &R,
    alloc: Global,
    mode: &str,
    hand: Hand,
    change: &Change,
) -> Result<(), Fail> {
    let (number, line, report) = change;
    let before = Part::Lines(hand, 1, number.saturating_sub(1));
    let behind = Part::Lines(hand, number.saturating_add(1), LAST);
    let input = input_of(alloc, &[before, Part::Whole(line), behind])?;
    ends(rt, alloc, &[mode], AMPLE, &input, 1, &[report])
}

/// Tries each change of a list.
fn all_report_so<R: Threads + Wait + Sync + Abort>(
    rt: &R,
    alloc: Global,
    mode: &str,
    hand: Hand,
    changes: &[Change],
) -> Result<(), Fail> {
    for change in changes {
        change_reports(rt, alloc, mode, hand, change)?;
    }
    Ok(())
}

/// A mode, a hand, and changes of it.
pub(crate) type Changed = (&'static str, Hand, &'static [Change]);

/// Tries each hand of the table.
pub(crate) fn each_change<R: Threads + Wait + Sync + Abort>(
    rt: &R,
    alloc: Global,
    hands: &[Changed],
) -> Result<(), Fail> {
    for (mode, hand, changes) in hands {
        all_report_so(rt, alloc, mode, *hand, changes)?;
    }
    Ok(())
}
