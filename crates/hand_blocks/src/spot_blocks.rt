//! The block of a spot.

ghost use Rattle.std.specs.Prelude.{◌≡◌, ◌≤◌, ◌++◌, IfOk, OnOk, OnErr, Ok, length, sum};
ghost use Rattle.card_sets.specs.State.{state_of};
ghost use Rattle.runout_ranges.specs.Slots.{unseen, slots, counts_of};
ghost use Rattle.even_luck.specs.Equities.{IsEquityOf};
ghost use Rattle.report_sheet.specs.Sheets.{IsBetweenLines, with_lines};
ghost use Rattle.hand_blocks.specs.Spots.{alone, seen_spot, spot_block};

use crate::spots::{counted_spot, rejected_spot};
use card_sets::{Known, Memory};
use even_luck::Equity;
use report_sheet::{Form, Sheet};
use runout_ranges::JobFault;
use spot_text::SpotFault;
use std::alloc::AllocError;

/// Appends the block of a spot that is well written.
#[tactic(auto, unfolding(crate::specs::Spots::spot_block))]
fn known_spot(
    sheet: &mut Sheet,
    place: u64,
    line: u32,
    known: &Known,
    equity: &Equity,
) -> Result<(), AllocError>
    requires between { IsBetweenLines sheet.old }
    requires enough { sum (counts_of (slots (state_of known.now)))
        ≤ length (unseen (state_of known.now)) }
    requires equity { IsEquityOf (alone (state_of known.now)) equity.now }
    ensures { OnOk result (sheet.new
        ≡ with_lines sheet.old (spot_block sheet.old.form place line (Ok (state_of known.now)))) }
{
    match equity.answer() {
        Ok(tally) => counted_spot(sheet, place, known, tally),
        Err(JobFault::AboveLimit) => sheet.refused_spot(place, known.game),
        Err(JobFault::DeckShort) => unreachable!(),
    }
}

/// Appends the line of a spot that is rejected, or the block of one that is well written.
#[tactic(auto, unfolding(crate::specs::Spots::spot_block))]
fn spot_block(
    sheet: &mut Sheet,
    place: u64,
    line: u32,
    known: &Result<Known, SpotFault>,
    equity: &Equity,
) -> Result<(), AllocError>
    requires between { IsBetweenLines sheet.old }
    requires enough { IfOk known.now (λ k. sum (counts_of (slots (state_of k)))
        ≤ length (unseen (state_of k))) }
    requires equity { IfOk known.now (λ k. IsEquityOf (alone (state_of k)) equity.now) }
    ensures { OnOk result (sheet.new
        ≡ with_lines sheet.old (spot_block sheet.old.form place line (seen_spot known.now))) }
{
    match known {
        Ok(known) => known_spot(sheet, place, line, known, equity),
        Err(fault) => rejected_spot(sheet, place, u64::from(line), fault),
    }
}

/// Appends the block of a spot: the line of its rejection, that it has too many runouts, or how all of
/// its runouts end for each hand. Places and lines count from 1. The known cards are an answer of
/// `read_spot`, and the equity is that of `table_alone`; where the spot is rejected it isn't looked at.
/// Out of memory it leaves `out` as it was.
pub fn write_spot(
    out: &mut Vec<u8>,
    place: u64,
    line: u32,
    known: &Result<Known, SpotFault>,
    equity: &Equity,
    form: Form,
) -> Result<(), Memory>
    requires enough { IfOk known.now (λ k. sum (counts_of (slots (state_of k)))
        ≤ length (unseen (state_of k))) }
    requires equity { IfOk known.now (λ k. IsEquityOf (alone (state_of k)) equity.now) }
    ensures block { OnOk result (out.new.items
        ≡ out.old.items ++ spot_block form place line (seen_spot known.now)) }
    ensures memory { OnErr result (out.new.items ≡ out.old.items) }
{
    let mut sheet = Sheet::new(*out.allocator(), form);
    spot_block(&mut sheet, place, line, known, equity)?;
    sheet.append_to(out)
}
