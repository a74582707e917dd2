//! The sums over hands that are made.

ghost use Rattle.std.specs.Prelude.{◌≡◌, ◌≤◌, []};
ghost use Rattle.hand_cuts.specs.declared.units.CutKind.TheVariants.{Hands};
ghost use Rattle.run_loop.specs.Units.{started};
ghost use Rattle.std.specs.List.{concat};
ghost use Rattle.run_loop.specs.Report.{blocks_in, rejects_in};
ghost use Rattle.run_loop.specs.Reporting.{WritesMade};
ghost use Rattle.command_words.specs.declared.command.Mode.TheVariants.{Made};

use crate::counter::Counter;
use crate::run::Run;
use crate::write_fault::WriteFault;
use byte_ends::{Sink, write_all};
use made_hands::{law_made_text_is_short, made_input};
use report_table::MadeSums;

impl<'a, C: Counter> Run<'a, C> {
    /// Makes the hands that the command asks for, audits them, and writes their sums as one block. Returns the number of hands
    /// that aren't accepted.
    pub(crate) fn write_made<K: Sink>(&mut self, sink: &mut K) -> Result<u64, WriteFault>
        requires start { self.old.input ≡ started Hands }
        requires few { self.old.asked.hands ≤ 10000 }

        // Nothing is written before the block is made, and a failed write is the last one.
        ensures { WritesMade K.writes sink.old sink.new (concat (blocks_in Made self.old.asked []))
            (rejects_in Made self.old.asked []) result }
    {
        law_made_text_is_short();
        let asked = self.asked;
        let alloc = self.writer.alloc;
        let text = made_input(alloc, asked.seed, asked.hands)?;
        let mut sums = MadeSums::new();
        self.add_hands(&text, &mut sums)?;
        let mut block = Vec::new(alloc);
        sums.write(&mut block, u64::from(asked.hands), asked.form)?;
        match write_all(sink, &block) {
            Ok(()) => Ok(u64::from(asked.hands).saturating_sub(sums.accepted())),
            Err(_) => Err(WriteFault::Failed),
        }
    }
}
