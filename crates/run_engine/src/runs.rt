//! The top calls.

ghost use Rattle.std.specs.Prelude.{◌≡◌, IfOk, map, string_bytes};
ghost use Rattle.card_sets.specs.State.{state_of};
ghost use Rattle.showdown_tally.specs.Deals.{deal_of};
ghost use Rattle.showdown_tally.specs.Tallies.{Counts, runouts_after};
ghost use Rattle.command_words.specs.Command.{command};
ghost use Rattle.run_loop.specs.Headline.{IsRun, ends_of};
ghost use Rattle.run_loop.specs.Order.{IsInOrder};

use crate::alone::Alone;
use crate::shared::{Shared, count_shared};
use byte_ends::{Sink, Source};
use card_sets::Memory;
use equity_job::Job;
use run_loop::{EquityCounter, INPUT_MAX, run_with};
use showdown_tally::Tally;
use std::alloc::Global;
use std::sync::Wait;
use std::thread::Threads;
use steal_pool::{Gate, KeptScratches};

/// Runs the command that the words name: reads the source, unless hands are made, and writes the report to
/// the sink. Answers the status: 0 where all was read and written, 1 where beside that a spot or a hand was
/// rejected, 2 where the words are in no form, 3 where a read failed, 4 where a write failed, 5 where the
/// source gave more than `INPUT_MAX` bytes, 6 when out of memory. It always returns.
pub fn run_alone<S: Source, K: Sink>(
    alloc: Global,
    words: &[String],
    source: &mut S,
    sink: &mut K,
) -> u8
    ensures told { IsRun INPUT_MAX (command (map string_bytes words.now)) result
        (ends_of S.left S.faults K.taken K.faults source.old sink.old)
        (ends_of S.left S.faults K.taken K.faults source.new sink.new) }
    ensures order { IsInOrder S.reads K.writes INPUT_MAX (command (map string_bytes words.now)) result
        source.old sink.old source.new sink.new }
{
    let mut equities = EquityCounter::new(Alone::new(alloc));
    run_with(alloc, words, &mut equities, source, sink)
}

/// Runs the command like `run_alone`, but counts an equity of many runouts with the number of workers that the words ask for. The
/// runtime starts their threads, and a worker enters the gate before it counts a block. The report and the status are those of
/// `run_alone`, whatever the workers do. The call waits for the workers, and no clause says how long.
pub fn run<R: Threads + Wait + Sync, S: Source, K: Sink, G: Gate + Sync>(
    rt: &R,
    alloc: Global,
    words: &[String],
    source: &mut S,
    sink: &mut K,
    gate: &G,
) -> u8
    ensures told { IsRun INPUT_MAX (command (map string_bytes words.now)) result
        (ends_of S.left S.faults K.taken K.faults source.old sink.old)
        (ends_of S.left S.faults K.taken K.faults source.new sink.new) }
    ensures order { IsInOrder S.reads K.writes INPUT_MAX (command (map string_bytes words.now)) result
        source.old sink.old source.new sink.new }
{
    let by_workers = |job: &Job, workers: u32, kept: &mut KeptScratches| -> Result<Tally, Memory>
        ensures { IfOk result (λ tally. Counts (deal_of job.entry.now.table)
            (runouts_after (state_of job.entry.now.table.known)) tally) }
    { count_shared(rt, alloc, job, workers, gate, kept) };
    let mut kept = KeptScratches::new();
    let mut alone = Alone::new(alloc);
    let mut equities = EquityCounter::new(Shared {
        by_workers,
        kept: &mut kept,
        alone: &mut alone,
    });
    run_with(alloc, words, &mut equities, source, sink)
}
