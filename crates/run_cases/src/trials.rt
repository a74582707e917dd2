//! Runs of cases over ends in memory.

ghost use Rattle.std.specs.Prelude.{◌≡◌, ◌↔◌, IsTrue};

use crate::cases::Case;
use byte_ends::{MemorySink, MemorySource};
use card_sets::Memory;
use run_engine::{run, run_alone};
use std::alloc::{AllocError, Global};
use std::sync::Wait;
use std::thread::Threads;
use steal_pool::OpenGate;

/// The most bytes that one read gives and one write takes.
const PIECE: usize = 4096;

/// The room of a sink beyond the expected report of a case.
const MORE: usize = 65_536;

/// The result of a run.
#[derive(Drop)]
pub(crate) struct Ran {
    /// The status of the run.
    pub(crate) status: u8,
    /// The bytes that the run wrote.
    pub(crate) written: Vec<u8>,
}

impl Ran {
    /// Returns whether the run ended with the status of its case, and wrote its report and nothing
    /// else.
    pub(crate) fn is_as_told(&self, case: &Case) -> bool
        ensures { IsTrue result ↔ (self.now.status ≡ case.now.status)
            × (self.now.written.items ≡ case.now.report.items) }
    {
        self.status == case.status && self.written.as_slice() == case.report.as_slice()
    }
}

/// Returns the input of a case, as a source.
fn source_of(alloc: Global, case: &Case) -> Result<MemorySource, AllocError> {
    let bytes = case.input.as_slice().to_vec(alloc)?;
    Ok(MemorySource::new(bytes, PIECE, Vec::new(alloc)))
}

/// Returns a sink with room for the report of a case and more.
fn sink_of(alloc: Global, case: &Case) -> Result<MemorySink, Memory> {
    let room = case.report.len().saturating_add(MORE);
    MemorySink::new(alloc, room, PIECE, Vec::new(alloc))
}

/// Returns the result of a run that ended with this status.
fn ran_so(alloc: Global, status: u8, sink: &MemorySink) -> Result<Ran, AllocError> {
    Ok(Ran {
        status,
        written: sink.bytes().to_vec(alloc)?,
    })
}

/// Runs a case on one thread.
pub(crate) fn run_by_one(alloc: Global, case: &Case) -> Result<Ran, Memory> {
    let mut source = source_of(alloc, case)?;
    let mut sink = sink_of(alloc, case)?;
    let status = run_alone(alloc, case.words.as_slice(), &mut source, &mut sink);
    Ok(ran_so(alloc, status, &sink)?)
}

/// Runs a case with the number of workers in its words.
pub(crate) fn run_by_workers<R: Threads + Wait + Sync>(
    rt: &R,
    alloc: Global,
    case: &Case,
) -> Result<Ran, Memory> {
    let mut source = source_of(alloc, case)?;
    let mut sink = sink_of(alloc, case)?;
    let status = run(
        rt,
        alloc,
        case.words.as_slice(),
        &mut source,
        &mut sink,
        &OpenGate,
    );
    Ok(ran_so(alloc, status, &sink)?)
}
