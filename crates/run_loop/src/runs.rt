//! The top call.

ghost use Rattle.std.specs.Prelude.{◌≡◌, ◌≤◌, [], ℕ, Result, Some, map, string_bytes};
ghost use Rattle.command_words.specs.Command.{command};
ghost use Rattle.run_loop.specs.Headline.{IsRun, ends_of, written_status};
ghost use Rattle.run_loop.specs.Order.{IsInOrder};
ghost use Rattle.run_loop.specs.Report.{report, rejects};
ghost use Rattle.run_loop.specs.Reporting.{WritesMade, WritesUsage, told_status};
ghost use Rattle.run_loop.specs.Plans.{cut_of, plan_of};
ghost use Rattle.run_loop.specs.Units.{started};
ghost use Rattle.hand_cuts.specs.declared.units.CutKind.TheVariants.{Hands};
ghost use Rattle.run_loop.specs.declared.plans.Plan.TheVariants.{Makes, Reads};
ghost use Rattle.run_loop.specs.declared.reading.Ending.TheVariants.{Whole};

use crate::counter::{Counter, EquityCounter};
use crate::plans::{Plan, Prints, plan_of};
use crate::reading::Ending;
use crate::run::Run;
use crate::write_fault::WriteFault;
use byte_ends::{Sink, Source, write_all};
use command_words::{WordFault, read_words};
use hand_cuts::{CutKind, INPUT_MAX};
use std::alloc::Global;

/// The line that says how the program is called.
const USAGE_LINE: &[u8; 76] =
    b"usage: equity MODE [--workers N] [--format text|csv] [--seed S] [--hands H]\n";

impl<'a, C: Counter> Run<'a, C> {
    /// Reads the source and writes the report to the sink. Returns the status.
    fn report_input<S: Source, K: Sink>(
        &mut self,
        prints: Prints,
        source: &mut S,
        sink: &mut K,
    ) -> u8
        requires plan { plan_of self.old.asked.mode ≡ Reads prints }
        requires start { self.old.input ≡ started (cut_of prints) }
        ensures { IsInOrder S.reads K.writes INPUT_MAX (Some self.old.asked) result
            source.old sink.old source.new sink.new }
    {
        match self.write_report(prints, source, sink) {
            Ok(rejected) => status_of(self.input.ending, rejected),
            Err(WriteFault::Failed) => 4,
            Err(WriteFault::Memory) => 6,
        }
    }

    /// Makes hands and writes the report to the sink. Returns the status.
    fn report_made<K: Sink>(&mut self, sink: &mut K) -> u8
        requires plan { plan_of self.old.asked.mode ≡ Makes }
        requires start { self.old.input ≡ started Hands }
        requires few { self.old.asked.hands ≤ 10000 }
        ensures { (outcome : Result ℕ WriteFault) × (result ≡ told_status Whole outcome)
            × WritesMade K.writes sink.old sink.new
            (report self.old.asked []) (rejects self.old.asked []) outcome }
    {
        match self.write_made(sink) {
            Ok(rejected) => status_of(Ending::Whole, rejected),
            Err(WriteFault::Failed) => 4,
            Err(WriteFault::Memory) => 6,
        }
    }
}

/// Runs the command that the words name: reads the source, unless hands are made, and writes the report to the sink. The
/// counter counts the equities. Returns the status:
///
/// - 0: all was read and written;
/// - 1: all was read and written, and a spot or a hand was rejected;
/// - 2: the words name no command;
/// - 3: a read failed;
/// - 4: a write failed;
/// - 5: the source gave more than `INPUT_MAX` bytes;
/// - 6: out of memory.
///
/// It returns if each count does.
pub fn run_with<C: Counter, S: Source, K: Sink>(
    alloc: Global,
    words: &[String],
    equities: &mut EquityCounter<C>,
    source: &mut S,
    sink: &mut K,
) -> u8
    requires ready { C.ready }
    ensures told { IsRun INPUT_MAX (command (map string_bytes words.now)) result
        (ends_of S.left S.faults K.taken K.faults source.old sink.old)
        (ends_of S.left S.faults K.taken K.faults source.new sink.new) }
    ensures order { IsInOrder S.reads K.writes INPUT_MAX (command (map string_bytes words.now)) result
        source.old sink.old source.new sink.new }
{
    let asked = match read_words(alloc, words) {
        Ok(asked) => asked,
        Err(WordFault::Usage) => return write_usage(sink),
        Err(WordFault::Memory) => return 6,
    };
    match plan_of(asked.mode) {
        Plan::Reads(prints) => {
            let mut run = Run::start(alloc, asked, prints.cut(), equities);
            run.report_input(prints, source, sink)
        }
        Plan::Makes => {
            let mut run = Run::start(alloc, asked, CutKind::Hands, equities);
            run.report_made(sink)
        }
    }
}

/// Writes the usage line, and answers the status of a run whose words are in no form.
fn write_usage<K: Sink>(sink: &mut K) -> u8
    ensures { WritesUsage K.writes sink.old sink.new result }
{
    match write_all(sink, USAGE_LINE) {
        Ok(()) => 2,
        Err(_) => 4,
    }
}

/// The status of a run whose report was written, after its reading had ended.
fn status_of(ending: Ending, rejected: u64) -> u8
    ensures { result ≡ written_status ending rejected }
{
    match ending {
        Ending::Whole if rejected == 0 => 0,
        Ending::Whole => 1,
        Ending::Failed => 3,
        Ending::TooLong | Ending::Open => 5,
    }
}
