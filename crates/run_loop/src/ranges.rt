//! The blocks of lines with ranges.

ghost use Rattle.std.specs.Prelude.{◌≡◌, ◌++◌, IfOk, OnOk};
ghost use Rattle.range_lines.specs.Blocks.{ranges_block, seen_ranges};
ghost use Rattle.range_lines.specs.Sound.{IsSound};
ghost use Rattle.range_lines.specs.RangeSpot.{ranges_in, ranges_of};
ghost use Rattle.run_loop.specs.RangeLines.{IsCountFor, is_memory, is_no_choice, is_rejected_range};

use crate::counter::{Counter, Equities};
use crate::run::BlockWriter;
use crate::units::ListedUnit;
use card_sets::Memory;
use range_lines::{
    RangeFault, RangeJobFault, RangeSpot, RangeTally, law_lines_give_sound_ranges, read_ranges,
    write_ranges,
};
use std::alloc::Global;

/// Returns whether memory ran out while a line was read.
fn is_memory(fault: &RangeFault) -> bool
    ensures { result ≡ is_memory fault.now }
{
    matches!(fault, RangeFault::Memory)
}

/// Reads a line: a spot with ranges, or the fault of the line.
fn read(alloc: Global, line: &[u8]) -> Result<Result<RangeSpot, RangeFault>, Memory>
    ensures { IfOk result (λ spot. seen_ranges spot ≡ ranges_of line.now) }
{
    match read_ranges(alloc, line) {
        Ok(spot) => Ok(Ok(spot)),
        Err(fault) => {
            if is_memory(&fault) {
                return Err(Memory);
            }
            Ok(Err(fault))
        }
    }
}

/// Counts a spot with ranges. Returns `NoChoice` for a line with a fault.
fn count_spot<C: Counter>(
    spot: &Result<RangeSpot, RangeFault>,
    equities: &mut Equities<'_, C>,
) -> Result<RangeTally, RangeJobFault>
    requires sound { IfOk spot.now (λ s. IsSound (ranges_in s)) }
    ensures { IsCountFor spot.now result }
{
    match spot {
        Ok(spot) => equities.counter.counter.count_ranges(spot),
        Err(_) => Err(RangeJobFault::NoChoice),
    }
}

/// Returns whether a count found no choice.
fn is_no_choice(tally: &Result<RangeTally, RangeJobFault>) -> bool
    ensures { result ≡ is_no_choice tally.now }
{
    matches!(tally, Err(RangeJobFault::NoChoice))
}

impl<'a, C: Counter> BlockWriter<'a, C> {
    /// Appends the block of a line whose players have ranges, and returns whether its spot is rejected.
    pub(crate) fn write_range_line(
        &mut self,
        unit: &ListedUnit<'_>,
        line: &[u8],
    ) -> Result<bool, Memory>
        ensures block { OnOk result (self.new.block.items ≡ self.old.block.items
            ++ ranges_block unit.now.form unit.now.place unit.now.text.first (ranges_of line.now)) }
        ensures rejected { IfOk result (λ rejected. rejected
            ≡ is_rejected_range (ranges_of line.now)) }
    {
        law_lines_give_sound_ranges();
        let spot = read(self.alloc, line)?;
        let tally = count_spot(&spot, &mut self.equities);
        write_ranges(
            &mut self.block,
            unit.place,
            unit.text.first,
            &spot,
            &tally,
            unit.form,
        )?;
        Ok(is_no_choice(&tally))
    }
}
