//! The blocks of hands.

ghost use Rattle.std.specs.Prelude.{◌≡◌, ℕ, List, ◌<◌, ◌≤◌, ◌+◌, ◌^◌, [], ◌++◌, All, IfOk, OnOk, IsTrue, Some, true, length, drop, slice_range};
ghost use Rattle.std.specs.List.{flat_map};
ghost use Rattle.hand_audit.specs.HandReads.{IsReadOf};
ghost use Rattle.hand_audit.specs.SeatChips.{chips_of};
ghost use Rattle.hand_audit.specs.Verdict.{audit_of};
ghost use Rattle.hand_verdict.specs.declared.verdicts.HandAudit.{HandAudit};
ghost use Rattle.even_luck.specs.Equities.{IsOfHand, is_asked};
ghost use Rattle.hand_blocks.specs.Streets.{IsCountedStreet, has_counted, street_block, street_blocks};
ghost use Rattle.hand_audit.specs.Departs.{begins_hand};
ghost use Rattle.line_text.specs.Lines.{lines};
ghost use Rattle.hand_cuts.specs.Units.{UnitLines};
ghost use Rattle.run_loop.specs.declared.block_kinds.Detail.{Detail};
ghost use Rattle.hand_blocks.specs.HandEquities.{hand_block as audit_block};
ghost use Rattle.run_loop.specs.Histories.{TellsHand, counts_equity, is_rejection, number_text, verdict_told};
ghost use Rattle.run_loop.specs.Units.{unit_lines};

use crate::block_kinds::Detail;
use crate::counter::Counter;
use crate::later::law_later_streets_are_counted;
use crate::run::BlockWriter;
use crate::units::{ListedUnit, UnitText};
use card_sets::Memory;
use hand_audit::{AuditedChips, HandAudit, StreetState, audit_hand, read_hand};
use history_text::hand_number;
use line_text::next_line;
use report_table::{Form, has_counted, write_hand, write_results, write_settlement, write_street};
use std::alloc::Global;

/// Returns the part of a line between two places.
fn part(line: &[u8], first: usize, end: usize) -> &[u8]
    requires ordered { first ≤ end }
    requires within { end ≤ length line.now }
    ensures { result.now ≡ slice_range line.now first end }
{
    &line[first..end]
}

/// Returns the number of a hand, digit by digit as in its header line. The bytes begin with that line.
fn number_text(bytes: &[u8]) -> &[u8]
    requires header { IsTrue (begins_hand (lines bytes.now)) }
    ensures { result.now ≡ number_text (lines bytes.now) }
{
    let Some(head) = next_line(bytes, 0) else {
        return &[];
    };
    let line = &bytes[head.first..head.end];
    let (first, end) = hand_number(line);
    part(line, first, end)
}

/// Returns whether a line of the hand departs from the rules.
fn is_rejection(audit: &HandAudit) -> bool
    ensures { result ≡ is_rejection audit.now }
{
    matches!(audit, HandAudit::Rejected { .. })
}

/// Reads a hand, and returns its verdict, and what each of its seats had and put in.
pub(crate) fn audit_chips(alloc: Global, text: &UnitText<'_>) -> Result<AuditedChips, Memory>
    requires header { IsTrue (begins_hand (lines text.now.bytes.now)) }
    ensures verdict { IfOk result (λ both. audit_of text.now.first (lines text.now.bytes.now)
        ≡ Some both.audit) }
    ensures chips { IfOk result (λ both. both.chips
        ≡ chips_of both.audit (lines text.now.bytes.now)) }
{
    let hand = read_hand(alloc, text.bytes)?;
    let chips = hand.chips();
    let audit = hand.into_verdict(text.first).audit;
    Ok(AuditedChips { audit, chips })
}

impl<'a, C: Counter> BlockWriter<'a, C> {
    /// Appends a block for each of these streets of a hand, with the equity on the street.
    fn write_states(
        &mut self,
        form: Form,
        audit: &HandAudit,
        states: &[StreetState],
    ) -> Result<(), Memory>
        requires counted { All IsCountedStreet states.now }
        ensures { OnOk result (self.new.block.items
            ≡ self.old.block.items ++ flat_map (street_block form audit.now) states.now) }
    {
        for state in states {
            self.equities.ask_street(state)?;
            write_street(&mut self.block, audit, state, self.equities.last(), form)?;
        }
        Ok(())
    }

    /// Appends a block for each of these streets of a hand after its all-in, if the all-in is counted. The last equity is that
    /// of the hand.
    fn write_streets(
        &mut self,
        form: Form,
        audit: &HandAudit,
        states: &[StreetState],
    ) -> Result<(), Memory>
        requires asked { is_asked self.old.equities.counter.now.equity ≡ true }
        requires equity { IsOfHand audit.now self.old.equities.counter.now.equity }
        requires counted { has_counted audit.now ≡ true → All IsCountedStreet states.now }
        ensures { OnOk result (self.new.block.items
            ≡ self.old.block.items ++ street_blocks form audit.now states.now) }
    {
        if !has_counted(audit, self.equities.last()) {
            return Ok(());
        }
        self.write_states(form, audit, states)
    }

    /// Appends the verdict on a hand and, if it is asked for, the equity of its all-in, which is counted.
    fn write_verdict(
        &mut self,
        asked: bool,
        unit: &ListedUnit<'_>,
        audit: &HandAudit,
    ) -> Result<(), Memory>
        requires header { IsTrue (begins_hand (lines unit.now.text.bytes.now)) }
        ensures block { OnOk result (self.new.block.items ≡ self.old.block.items
            ++ audit_block unit.now.form asked (number_text (lines unit.now.text.bytes.now)) audit.now) }

        // The last equity is that of the hand, if it was asked for.
        ensures asked { OnOk result (is_asked self.new.equities.counter.now.equity ≡ asked) }
        ensures equity { OnOk result (IsOfHand audit.now self.new.equities.counter.now.equity) }
    {
        self.equities.ask_hand(asked, audit)?;
        let number = number_text(unit.text.bytes);
        let equity = self.equities.last();
        write_hand(&mut self.block, number, audit, equity, unit.form)
    }

    /// Appends the block of a hand with its verdict and, if it is asked for, with the equity of its all-in, which is counted. Returns
    /// whether the hand is rejected.
    fn write_verdict_lines(
        &mut self,
        asked: bool,
        unit: &ListedUnit<'_>,
        _ready: &[u8],
    ) -> Result<bool, Memory>
        requires idle { asked ≡ true → _ready.now ≡ [] }
        requires header { IsTrue (begins_hand (lines unit.now.text.bytes.now)) }
        ensures { IfOk result (TellsHand unit.now.form (verdict_told asked) (unit_lines unit.now.text)
            self.old.block.items self.new.block.items) }
    {
        let text = &unit.text;
        let audit = audit_hand(self.alloc, text.bytes, text.first)?;
        self.write_verdict(asked, unit, &audit)?;
        Ok(is_rejection(&audit))
    }

    /// Appends the block of a hand with its verdict, the equity of its all-in, and that of each later street, and returns whether the hand
    /// is rejected. The equities are counted.
    fn write_street_lines(&mut self, unit: &ListedUnit<'_>, _ready: &[u8]) -> Result<bool, Memory>
        requires idle { _ready.now ≡ [] }
        requires header { IsTrue (begins_hand (lines unit.now.text.bytes.now)) }
        ensures { IfOk result (TellsHand unit.now.form Detail.LaterStreets (unit_lines unit.now.text)
            self.old.block.items self.new.block.items) }
    {
        let text = &unit.text;
        let hand = read_hand(self.alloc, text.bytes)?;
        let later = hand.later_streets(self.alloc)?;
        let audit = hand.into_verdict(text.first).audit;
        self.write_verdict(true, unit, &audit)?;
        let states = later.as_slice();
        law_later_streets_are_counted(&audit, states);
        self.write_streets(unit.form, &audit, states)?;
        Ok(is_rejection(&audit))
    }

    /// Appends the results of a hand, and returns whether the hand is rejected. The equity of its all-in is counted.
    fn write_result_lines(&mut self, unit: &ListedUnit<'_>, _ready: &[u8]) -> Result<bool, Memory>
        requires idle { _ready.now ≡ [] }
        requires header { IsTrue (begins_hand (lines unit.now.text.bytes.now)) }
        ensures { IfOk result (TellsHand unit.now.form Detail.Results (unit_lines unit.now.text)
            self.old.block.items self.new.block.items) }
    {
        let text = &unit.text;
        let hand = audit_chips(self.alloc, text)?;
        self.equities.ask_hand(true, &hand.audit)?;
        let number = number_text(text.bytes);
        write_results(
            &mut self.block,
            number,
            &hand.audit,
            &hand.chips,
            self.equities.last(),
            unit.form,
        )?;
        Ok(is_rejection(&hand.audit))
    }

    /// Appends the settlement of a hand, and returns whether the hand is rejected. No equity is counted.
    fn write_settlement_lines(&mut self, unit: &ListedUnit<'_>) -> Result<bool, Memory>
        requires header { IsTrue (begins_hand (lines unit.now.text.bytes.now)) }
        ensures { IfOk result (TellsHand unit.now.form Detail.Settlement (unit_lines unit.now.text)
            self.old.block.items self.new.block.items) }
    {
        let text = &unit.text;
        let hand = read_hand(self.alloc, text.bytes)?;
        let list = hand.parts(self.alloc)?;
        let parts = list.as_slice();
        let verdict = hand.into_verdict(text.first);
        let number = number_text(text.bytes);
        write_settlement(&mut self.block, number, &verdict, parts, unit.form)?;
        Ok(is_rejection(&verdict.audit))
    }

    /// Appends the block of a hand, and returns whether the hand is rejected. If an equity may be counted, no block waits meanwhile.
    pub(crate) fn write_hand_lines(
        &mut self,
        told: Detail,
        unit: &ListedUnit<'_>,
        ready: &[u8],
    ) -> Result<bool, Memory>
        requires idle { counts_equity told ≡ true → ready.now ≡ [] }
        requires header { IsTrue (begins_hand (lines unit.now.text.bytes.now)) }
        ensures { IfOk result (TellsHand unit.now.form told (unit_lines unit.now.text)
            self.old.block.items self.new.block.items) }
    {
        match told {
            Detail::Verdict => self.write_verdict_lines(false, unit, ready),
            Detail::AllIn => self.write_verdict_lines(true, unit, ready),
            Detail::LaterStreets => self.write_street_lines(unit, ready),
            Detail::Results => self.write_result_lines(unit, ready),
            Detail::Settlement => self.write_settlement_lines(unit),
        }
    }
}
