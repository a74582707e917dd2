//! Sums over hands. One loop over the hands serves each kind of sums.

ghost use Rattle.std.specs.Prelude.{◌≡◌, ◌<◌, ◌≤◌, ◌+◌, ◌^◌, ◌++◌, ◌∷◌, [], ℕ, List, OnOk, IsTrue, length, true};
ghost use Rattle.std.specs.List.{filter_map};
ghost use Rattle.hand_audit.specs.Departs.{begins_hand};
ghost use Rattle.hand_cuts.specs.Units.{UnitLines, hands_from};
ghost use Rattle.line_text.specs.Lines.{lines};
ghost use Rattle.player_totals.specs.Balance.{balance_lines, balance_of};
ghost use Rattle.player_totals.specs.Made.{made_sums};
ghost use Rattle.player_totals.specs.Totals.{run_block, totals_of};
ghost use Rattle.report_sheet.specs.declared.form.Form.{Form as FormOf};
ghost use Rattle.run_loop.specs.Histories.{chips_hand, verdict_of};
ghost use Rattle.hand_cuts.specs.declared.units.CutKind.TheVariants.{Hands as HandUnits};
ghost use Rattle.run_loop.specs.UnitSums.{SumsInOrder, few_told};
ghost use Rattle.run_loop.specs.Units.{started, unit_lines};

use crate::counter::Counter;
use crate::hands::audit_chips;
use crate::reading::next_unit;
use crate::run::{BlockWriter, Run};
use crate::text_source::TextSource;
use crate::units::UnitText;
use byte_ends::Source;
use card_sets::Memory;
use hand_audit::audit_hand;
use hand_cuts::INPUT_MAX;
use report_table::{Balance, Form, MadeSums, Totals};

/// Sums over hands, which are added one after the other.
pub(crate) trait HandSums {
    // the sums of a list of hands, and the number of hands of such sums
    ghost sums_of: { List UnitLines → Self };

    ghost count: { Self → ℕ };

    /// Adds a hand. The writer reads the hand and has its equity counted.
    fn add_lines<C: Counter>(
        &mut self,
        text: &UnitText<'_>,
        writer: &mut BlockWriter<'_, C>,
    ) -> Result<(), Memory>
        requires header { IsTrue (begins_hand (lines text.now.bytes.now)) }
        requires few { count self.old < 2 ^ 32 }
        ensures { (hands : List UnitLines) → self.old ≡ sums_of hands
            → OnOk result (self.new ≡ sums_of (hands ++ unit_lines text.now ∷ [])) };

    ghost counted: { (hands : List UnitLines) → count (sums_of hands) ≤ length hands };
}

/// Sums over hands that are written as one block.
pub(crate) trait BlockSums: HandSums {
    // the block of such sums, and the number of rejected hands
    ghost block: { FormOf → Self → List ℕ };

    ghost rejects: { Self → ℕ };

    /// Appends the block.
    fn write_block(&self, out: &mut Vec<u8>, form: Form) -> Result<(), Memory>
        ensures { OnOk result (out.new.items ≡ out.old.items ++ block form self.now) };

    /// Returns the number of rejected hands.
    fn rejected_hands(&self) -> u64
        ensures { result ≡ rejects self.now };
}

impl HandSums for Totals {
    ghost sums_of = { λ hands. totals_of (filter_map verdict_of hands) };

    ghost count = { λ totals. totals.hands };

    fn add_lines<C: Counter>(
        &mut self,
        text: &UnitText<'_>,
        writer: &mut BlockWriter<'_, C>,
    ) -> Result<(), Memory> {
        let audit = audit_hand(writer.alloc, text.bytes, text.first)?;
        writer.equities.ask_hand(true, &audit)?;
        self.add(&audit, writer.equities.last())
    }

    ghost counted = { few_told verdict_of };
}

impl BlockSums for Totals {
    ghost block = { run_block };

    ghost rejects = { λ totals. totals.rejected };

    fn write_block(&self, out: &mut Vec<u8>, form: Form) -> Result<(), Memory> {
        self.write(out, form)
    }

    fn rejected_hands(&self) -> u64 {
        self.rejected()
    }
}

impl HandSums for Balance {
    ghost sums_of = { λ hands. balance_of (filter_map chips_hand hands) };

    ghost count = { λ balance. balance.hands };

    fn add_lines<C: Counter>(
        &mut self,
        text: &UnitText<'_>,
        writer: &mut BlockWriter<'_, C>,
    ) -> Result<(), Memory> {
        let hand = audit_chips(writer.alloc, text)?;
        writer.equities.ask_hand(true, &hand.audit)?;
        self.add(&hand, writer.equities.last())
    }

    ghost counted = { few_told chips_hand };
}

impl BlockSums for Balance {
    ghost block = { balance_lines };

    ghost rejects = { λ balance. balance.rejected };

    fn write_block(&self, out: &mut Vec<u8>, form: Form) -> Result<(), Memory> {
        self.write(out, form)
    }

    fn rejected_hands(&self) -> u64 {
        self.rejected()
    }
}

impl HandSums for MadeSums {
    ghost sums_of = { λ hands. made_sums (filter_map verdict_of hands) };

    ghost count = { λ sums. sums.hands };

    fn add_lines<C: Counter>(
        &mut self,
        text: &UnitText<'_>,
        writer: &mut BlockWriter<'_, C>,
    ) -> Result<(), Memory> {
        let audit = audit_hand(writer.alloc, text.bytes, text.first)?;
        writer.equities.ask_hand(true, &audit)?;
        self.add(&audit, writer.equities.last());
        Ok(())
    }

    ghost counted = { few_told verdict_of };
}

impl<'a, C: Counter> Run<'a, C> {
    /// Adds all hands of the input to the sums of no hands.
    pub(crate) fn add_units<S: Source, H: HandSums>(
        &mut self,
        source: &mut S,
        sums: &mut H,
    ) -> Result<(), Memory>
        requires start { self.old.input ≡ started HandUnits }
        requires none { sums.old ≡ H.sums_of [] }
        ensures { SumsInOrder S.reads H.sums_of INPUT_MAX source.old source.new
            self.new.input.ending sums.new result }
    {
        'hands: loop {
            let next = match next_unit(source, &mut self.input) {
                Ok(next) => next,
                Err(Memory) => return Err(Memory),
            };
            let Some(unit) = next else {
                return Ok(());
            };
            let text = self.input.text_of(&unit);
            match sums.add_lines(&text, &mut self.writer) {
                Ok(()) => {}
                Err(Memory) => return Err(Memory),
            }
        }
    }

    /// Adds all hands of a text to the sums of no hands. The run has read nothing yet.
    pub(crate) fn add_hands<H: HandSums>(&mut self, text: &[u8], sums: &mut H) -> Result<(), Memory>
        requires start { self.old.input ≡ started HandUnits }
        requires small { length text.now ≤ INPUT_MAX }
        requires none { sums.old ≡ H.sums_of [] }
        ensures { OnOk result (sums.new ≡ H.sums_of (hands_from 1 (lines text.now))) }
    {
        let mut source = TextSource { left: text };
        self.add_units(&mut source, sums)
    }
}
