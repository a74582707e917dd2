//! The block of a spot with ranges.

ghost use Rattle.std.specs.Prelude.{◌≡◌, ◌++◌, IfOk, OnOk, OnErr, Ok};
ghost use Rattle.report_sheet.specs.Sheets.{IsBetweenLines, with_lines};
ghost use Rattle.range_lines.specs.Blocks.{known_block, ranges_block, seen_ranges};
ghost use Rattle.range_lines.specs.Counted.{IsCountOf};
ghost use Rattle.range_lines.specs.Sound.{IsSound};
ghost use Rattle.range_lines.specs.RangeSpot.{ranges_in};

use crate::RangeFault;
use crate::lines::{counted_spot, no_choice_line, rejected_line};
use crate::spot::RangeSpot;
use crate::tally::{RangeJobFault, RangeTally};
use card_sets::{Game, Memory};
use report_sheet::{Form, Sheet};
use std::alloc::AllocError;

/// Appends the block of a spot with ranges: the line of its rejection, that it has too many runouts, or how
/// the runouts of all choices end for each player. Places and lines count from 1. The spot is an answer of
/// `read_ranges`, and the tally is that of `count_ranges` for it; where the spot is a fault the tally isn't
/// looked at. Out of memory it leaves `out` as it was.
pub fn write_ranges(
    out: &mut Vec<u8>,
    place: u64,
    line: u32,
    spot: &Result<RangeSpot, RangeFault>,
    tally: &Result<RangeTally, RangeJobFault>,
    form: Form,
) -> Result<(), Memory>
    requires sound { IfOk spot.now (λ s. IsSound (ranges_in s)) }
    requires counted { IfOk spot.now (λ s. IsCountOf (ranges_in s) tally.now) }
    ensures block { OnOk result (out.new.items
        ≡ out.old.items ++ ranges_block form place line (seen_ranges spot.now)) }
    ensures memory { OnErr result (out.new.items ≡ out.old.items) }
{
    let mut sheet = Sheet::new(*out.allocator(), form);
    spot_lines(&mut sheet, place, line, spot, tally)?;
    sheet.append_to(out)
}

/// Appends the line of a spot that is rejected, or the block of one that is well written.
#[tactic(auto, unfolding(crate::specs::Blocks::ranges_block))]
fn spot_lines(
    sheet: &mut Sheet,
    place: u64,
    line: u32,
    spot: &Result<RangeSpot, RangeFault>,
    tally: &Result<RangeTally, RangeJobFault>,
) -> Result<(), AllocError>
    requires between { IsBetweenLines sheet.old }
    requires sound { IfOk spot.now (λ s. IsSound (ranges_in s)) }
    requires counted { IfOk spot.now (λ s. IsCountOf (ranges_in s) tally.now) }
    ensures { OnOk result (sheet.new
        ≡ with_lines sheet.old (ranges_block sheet.old.form place line (seen_ranges spot.now))) }
{
    match spot {
        Ok(spot) => known_spot(sheet, place, line, spot, tally),
        Err(fault) => rejected_line(sheet, fault, place, u64::from(line)),
    }
}

/// Appends the block of a spot whose line is well written.
#[tactic(auto, unfolding(crate::specs::Blocks::known_block))]
fn known_spot(
    sheet: &mut Sheet,
    place: u64,
    line: u32,
    spot: &RangeSpot,
    tally: &Result<RangeTally, RangeJobFault>,
) -> Result<(), AllocError>
    requires between { IsBetweenLines sheet.old }
    requires sound { IsSound (ranges_in spot.now) }
    requires counted { IsCountOf (ranges_in spot.now) tally.now }
    ensures { OnOk result (sheet.new
        ≡ with_lines sheet.old (known_block sheet.old.form place line (ranges_in spot.now))) }
{
    match tally {
        Ok(tally) => counted_spot(sheet, place, spot.ranges.len() as u8, tally),
        Err(RangeJobFault::AboveLimit) => sheet.refused_spot(place, Game::Holdem),
        Err(RangeJobFault::NoChoice) => no_choice_line(sheet, place, u64::from(line)),
    }
}
