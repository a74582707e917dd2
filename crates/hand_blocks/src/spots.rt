//! The lines of a spot. Each call appends whole lines.

ghost use Rattle.std.specs.Prelude.{◌≡◌, ◌<◌, ◌≤◌, length, sum, OnOk};
ghost use Rattle.card_sets.specs.State.{state_of};
ghost use Rattle.runout_ranges.specs.Slots.{unseen, slots, counts_of};
ghost use Rattle.report_sheet.specs.Sheets.{IsBetweenLines, with_line, with_lines};
ghost use Rattle.report_sheet.specs.SpotLines.{hand_lines};
ghost use Rattle.hand_blocks.specs.Spots.{alone, counted_block, counted_line, rejected_line};
ghost use Rattle.showdown_tally.specs.Cells.{cell_at, units_at};
ghost use Rattle.showdown_tally.specs.Tallies.{Counts, runouts_after};

use crate::words::spot_fault;
use card_sets::{Game, Known, sides};
use even_luck::hand_count;
use report_sheet::Sheet;
use showdown_tally::Tally;
use spot_text::SpotFault;
use std::alloc::AllocError;

/// The line of a spot that isn't well written. Places and numbers of lines count from 1.
#[tactic(auto, using(report_sheet::proofs::CallerLemmas::sheet_steps), unfolding(crate::specs::Spots::rejected_line))]
pub(crate) fn rejected_spot(
    sheet: &mut Sheet,
    place: u64,
    number: u64,
    fault: &SpotFault,
) -> Result<(), AllocError>
    requires { IsBetweenLines sheet.old }
    ensures { OnOk result (sheet.new
        ≡ with_line sheet.old (rejected_line place number fault.now)) }
{
    sheet.rejected_name(place, number)?;
    spot_fault(sheet, fault)?;
    sheet.end()
}

/// The first line of a spot that is counted, with the number of all runouts.
#[tactic(auto, using(report_sheet::proofs::CallerLemmas::sheet_steps), unfolding(crate::specs::Spots::counted_line))]
fn counted_line(sheet: &mut Sheet, place: u64, game: Game, all: u64) -> Result<(), AllocError>
    requires { IsBetweenLines sheet.old }
    ensures { OnOk result (sheet.new ≡ with_line sheet.old (counted_line place game all)) }
{
    sheet.spot_and_game(place, game)?;
    sheet.name_and_number("runouts", all)?;
    sheet.end()
}

/// The lines of a hand: its sides, the high first, and then what it may expect. Hands count from 0.
#[tactic(auto, using(report_sheet::proofs::CallerLemmas::sheet_steps), unfolding(report_sheet::specs::SpotLines::hand_lines))]
fn hand_lines(sheet: &mut Sheet, game: Game, tally: &Tally, hand: u8) -> Result<(), AllocError>
    requires between { IsBetweenLines sheet.old }
    requires some { 0 < tally.now.runouts }
    requires hand { hand < 10 }
    ensures { OnOk result (sheet.new ≡ with_lines sheet.old
        (hand_lines sheet.old.form game tally.now.runouts (cell_at tally.now 0)
        (units_at tally.now 0) hand)) }
{
    let all = tally.runouts();
    for played in &sides(game) {
        if let Some(side) = *played {
            sheet.side_line(all, hand, side, tally.cell(0, hand, side))?;
        }
    }
    sheet.ev_line(u128::from(all), hand, u128::from(tally.units(0, hand)))
}

/// The block of a spot whose runouts are counted: how many there are, and then each hand's lines.
/// Places count from 1.
pub(crate) fn counted_spot(
    sheet: &mut Sheet,
    place: u64,
    known: &Known,
    tally: &Tally,
) -> Result<(), AllocError>
    requires between { IsBetweenLines sheet.old }
    requires enough { sum (counts_of (slots (state_of known.now)))
        ≤ length (unseen (state_of known.now)) }
    requires counted { Counts (alone (state_of known.now))
        (runouts_after (state_of known.now)) tally.now }
    ensures { OnOk result (sheet.new
        ≡ with_lines sheet.old (counted_block sheet.old.form place (state_of known.now))) }
{
    counted_line(sheet, place, known.game, tally.runouts())?;
    for hand in 0..hand_count(known) {
        hand_lines(sheet, known.game, tally, hand)?;
    }
    Ok(())
}
