//! The report of the input, written while it is read.

ghost use Rattle.std.specs.Prelude.{◌≡◌, ◌<◌, ◌≤◌, ◌+◌, ◌^◌, [], true, IfOk, Some, length};
ghost use Rattle.hand_audit.specs.Departs.{begins_hand};
ghost use Rattle.hand_cuts.specs.declared.units.CutKind.TheVariants.{Hands};
ghost use Rattle.line_text.specs.Lines.{lines};
ghost use Rattle.run_loop.specs.Order.{GoesOn};
ghost use Rattle.run_loop.specs.Reporting.{told_status};
ghost use Rattle.run_loop.specs.UnitBlocks.{MakesBlock, block_kind_in, counts_equities, listed_kind};
ghost use Rattle.run_loop.specs.Plans.{cut_of, plan_of};
ghost use Rattle.run_loop.specs.Units.{started, unit_lines};
ghost use Rattle.run_loop.specs.declared.plans.Plan.TheVariants.{Reads};
ghost use Rattle.run_loop.specs.declared.plans.Prints.TheVariants.{Sums};
ghost use Rattle.run_loop.specs.declared.reading.Ending.TheVariants.{Open};

use crate::block_kinds::BlockKind;
use crate::counter::Counter;
use crate::gathering::{gather, next_written, write_rest};
use crate::plans::{Prints, SumKind};
use crate::run::{BlockWriter, Run};
use crate::units::ListedUnit;
use crate::write_fault::WriteFault;
use byte_ends::{Sink, Source};
use card_sets::Memory;
use hand_cuts::INPUT_MAX;
use report_table::{Balance, Totals};

impl<'a, C: Counter> BlockWriter<'a, C> {
    /// Appends the block of a hand or of a spot line, and returns whether the hand or the spot is rejected. Returns `None` if a
    /// line has no word. If an equity may be counted, no block waits meanwhile.
    fn write_unit(
        &mut self,
        listed: BlockKind,
        unit: &ListedUnit<'_>,
        ready: &[u8],
    ) -> Result<Option<bool>, Memory>
        requires idle { counts_equities listed ≡ true → ready.now ≡ [] }
        requires empty { self.old.block.items ≡ [] }
        requires header { listed_kind listed ≡ Hands
            → begins_hand (lines unit.now.text.bytes.now) ≡ true }
        ensures { IfOk result (λ told. MakesBlock unit.now.form listed unit.now.place
            (unit_lines unit.now.text) self.new.block.items told) }
    {
        match listed {
            BlockKind::Spots { holding } => self.write_spot_line(holding, unit, ready),
            BlockKind::Hands { told } => {
                let rejected = self.write_hand_lines(told, unit, ready)?;
                Ok(Some(rejected))
            }
        }
    }
}

impl<'a, C: Counter> Run<'a, C> {
    /// Writes the blocks of the input in order. Each block is complete in memory before any of it is written. A block is written
    /// alone, or with those that the same piece closes. All are written before the next piece is read. Returns the number of
    /// rejected spots or hands.
    fn write_blocks<S: Source, K: Sink>(
        &mut self,
        listed: BlockKind,
        source: &mut S,
        sink: &mut K,
    ) -> Result<u64, WriteFault>
        requires listed { block_kind_in self.old.asked.mode ≡ Some listed }
        requires start { self.old.input ≡ started (listed_kind listed) }
        ensures { GoesOn S.reads K.writes INPUT_MAX self.old.asked Open [] [] source.old sink.old
            (told_status self.new.input.ending result) source.new sink.new }
    {
        let form = self.asked.form;
        let waits = listed.may_wait();
        let mut ready = Vec::new(self.writer.alloc);
        let mut place = 1;
        let mut rejects = 0;
        'each: loop {
            let next = match next_written(source, &mut self.input, &mut ready, sink) {
                Ok(next) => next,
                Err(fault) => return Err(fault),
            };
            let Some(unit) = next else {
                return Ok(rejects);
            };
            self.writer.block.clear();
            let text = self.input.text_of(&unit);
            let whole = ListedUnit { form, place, text };
            let told = match self.writer.write_unit(listed, &whole, &ready) {
                Ok(told) => told,
                Err(Memory) => return Err(write_rest(&ready, sink)),
            };
            let Some(rejected) = told else {
                continue;
            };
            match gather(waits, &self.writer.block, &mut ready, sink) {
                Ok(()) => {}
                Err(_) => return Err(WriteFault::Failed),
            }
            place += 1;
            rejects += u64::from(rejected);
        }
    }

    /// Writes one block for all hands of the input. Returns the number of rejected hands.
    fn write_summed<S: Source, K: Sink>(
        &mut self,
        kind: SumKind,
        source: &mut S,
        sink: &mut K,
    ) -> Result<u64, WriteFault>
        requires plan { plan_of self.old.asked.mode ≡ Reads (Sums kind) }
        requires start { self.old.input ≡ started Hands }
        ensures { GoesOn S.reads K.writes INPUT_MAX self.old.asked Open [] [] source.old sink.old
            (told_status self.new.input.ending result) source.new sink.new }
    {
        match kind {
            SumKind::Totals => {
                let mut totals = Totals::new(self.writer.alloc);
                self.write_sums(source, sink, &mut totals)
            }
            SumKind::Balance => {
                let mut balance = Balance::new(self.writer.alloc);
                self.write_sums(source, sink, &mut balance)
            }
        }
    }

    /// Writes what the command prints of its input. Returns the number of rejected spots or hands.
    pub(crate) fn write_report<S: Source, K: Sink>(
        &mut self,
        prints: Prints,
        source: &mut S,
        sink: &mut K,
    ) -> Result<u64, WriteFault>
        requires plan { plan_of self.old.asked.mode ≡ Reads prints }
        requires start { self.old.input ≡ started (cut_of prints) }
        ensures { GoesOn S.reads K.writes INPUT_MAX self.old.asked Open [] [] source.old sink.old
            (told_status self.new.input.ending result) source.new sink.new }
    {
        match prints {
            Prints::Blocks(listed) => self.write_blocks(listed, source, sink),
            Prints::Sums(kind) => self.write_summed(kind, source, sink),
        }
    }
}
