//! The sums over all hands of the input, as one block.

ghost use Rattle.std.specs.Prelude.{◌≡◌, []};
ghost use Rattle.hand_cuts.specs.declared.units.CutKind.TheVariants.{Hands};
ghost use Rattle.run_loop.specs.Reporting.{told_status};
ghost use Rattle.run_loop.specs.Order.{GoesOn};
ghost use Rattle.run_loop.specs.declared.reading.Ending.TheVariants.{Open};
ghost use Rattle.run_loop.specs.UnitSums.{IsOneBlock};
ghost use Rattle.run_loop.specs.Units.{started};

use crate::counter::Counter;
use crate::run::Run;
use crate::sums::BlockSums;
use crate::write_fault::WriteFault;
use byte_ends::{Sink, Source, write_all};
use card_sets::Memory;
use hand_cuts::INPUT_MAX;

impl<'a, C: Counter> Run<'a, C> {
    /// Adds all hands of the input to the sums of no hands, and writes one block when the reading has ended. The block is
    /// complete in memory before any of it is written. Returns the number of rejected hands.
    pub(crate) fn write_sums<S: Source, K: Sink, B: BlockSums>(
        &mut self,
        source: &mut S,
        sink: &mut K,
        sums: &mut B,
    ) -> Result<u64, WriteFault>
        requires one { IsOneBlock self.old.asked B.sums_of B.block B.rejects }
        requires start { self.old.input ≡ started Hands }
        requires none { sums.old ≡ B.sums_of [] }
        ensures { GoesOn S.reads K.writes INPUT_MAX self.old.asked Open [] [] source.old sink.old
            (told_status self.new.input.ending result) source.new sink.new }
    {
        let form = self.asked.form;
        match self.add_units(source, sums) {
            Ok(()) => {}
            Err(Memory) => return Err(WriteFault::Memory),
        }
        let mut block = Vec::new(self.writer.alloc);
        match sums.write_block(&mut block, form) {
            Ok(()) => {}
            Err(Memory) => return Err(WriteFault::Memory),
        }
        match write_all(sink, &block) {
            Ok(()) => Ok(sums.rejected_hands()),
            Err(_) => Err(WriteFault::Failed),
        }
    }
}
