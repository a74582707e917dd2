//! The lines of a spot with ranges. Each function appends whole lines, but for those that add words to one.

ghost use Rattle.std.specs.Prelude.{◌≡◌, ◌+◌, ◌*◌, ◌<◌, ◌≤◌, [], ◌∷◌, codes, OnOk};
ghost use Rattle.card_sets.specs.declared.games.Game.TheVariants.{Holdem};
ghost use Rattle.report_sheet.specs.Sheets.{IsBetweenLines, with_line, with_lines};
ghost use Rattle.report_sheet.specs.SpotLines.{hand_lines};
ghost use Rattle.range_lines.specs.Blocks.{counted_line, fault_words, rejected_line, tally_block, tally_cell, tally_ends, tally_units};
ghost use Rattle.range_lines.specs.Counted.{IsSmall};

use crate::RangeFault;
use crate::tally::{RangeCell, RangeTally};
use card_sets::{Game, Side};
use report_sheet::Sheet;
use std::alloc::AllocError;

/// The line of a spot that isn't well written. Places and numbers of lines count from 1.
#[tactic(auto, using(report_sheet::proofs::CallerLemmas::sheet_steps), unfolding(crate::specs::Blocks::rejected_line))]
pub(crate) fn rejected_line(
    sheet: &mut Sheet,
    why: &RangeFault,
    place: u64,
    number: u64,
) -> Result<(), AllocError>
    requires { IsBetweenLines sheet.old }
    ensures { OnOk result (sheet.new
        ≡ with_line sheet.old (rejected_line place number (fault_words why.now))) }
{
    sheet.rejected_name(place, number)?;
    why.write(sheet)?;
    sheet.end()
}

/// The line of a spot in which no choice is disjoint. Places and numbers of lines count from 1.
#[tactic(auto, using(report_sheet::proofs::CallerLemmas::sheet_steps), unfolding(crate::specs::Blocks::rejected_line))]
pub(crate) fn no_choice_line(sheet: &mut Sheet, place: u64, number: u64) -> Result<(), AllocError>
    requires { IsBetweenLines sheet.old }
    ensures { OnOk result (sheet.new
        ≡ with_line sheet.old (rejected_line place number (codes "NoChoice" ∷ []))) }
{
    sheet.rejected_name(place, number)?;
    sheet.text("NoChoice")?;
    sheet.end()
}

/// The first line of a spot that is counted: its choices, the runouts of each, and how often the choices
/// count together.
#[tactic(auto, using(report_sheet::proofs::CallerLemmas::sheet_steps), unfolding(crate::specs::Blocks::counted_line))]
fn counted_line(sheet: &mut Sheet, place: u64, tally: &RangeTally) -> Result<(), AllocError>
    requires { IsBetweenLines sheet.old }
    ensures { OnOk result (sheet.new
        ≡ with_line sheet.old
        (counted_line place tally.now.choices tally.now.runouts tally.now.weight)) }
{
    sheet.spot_and_game(place, Game::Holdem)?;
    sheet.text("choices")?;
    sheet.number(tally.choices)?;
    sheet.text("runouts")?;
    sheet.number(tally.runouts)?;
    sheet.text("weight")?;
    sheet.wide_number(tally.weight)?;
    sheet.end()
}

/// The cell of a player.
fn cell_of(tally: &RangeTally, hand: u8) -> RangeCell
    requires { hand < 4 }
    ensures { result ≡ tally_cell tally.now hand }
{
    tally.cells[usize::from(hand)]
}

/// The units of a player.
fn units_of(tally: &RangeTally, hand: u8) -> u128
    requires { hand < 4 }
    ensures { result ≡ tally_units tally.now hand }
{
    tally.units[usize::from(hand)]
}

/// The lines of a player: how all runouts end for him, and what he may expect. Players count from 0.
fn hand_lines(sheet: &mut Sheet, all: u128, tally: &RangeTally, hand: u8) -> Result<(), AllocError>
    requires between { IsBetweenLines sheet.old }
    requires all { all ≡ tally.now.runouts * tally.now.weight }
    requires players { hand < 4 }
    requires small { IsSmall tally.now (hand + 1) }
    ensures { OnOk result (sheet.new ≡ with_lines sheet.old
        (hand_lines sheet.old.form Holdem all (tally_ends tally.now)
        (tally_units tally.now) hand)) }
{
    let cell = cell_of(tally, hand);
    sheet.wide_side_line(all, hand, Side::High, cell.win, cell.tie, cell.lose)?;
    sheet.ev_line(all, hand, units_of(tally, hand))
}

/// The block of a spot that is counted: its first line, and then each player's. Places count from 1.
pub(crate) fn counted_spot(
    sheet: &mut Sheet,
    place: u64,
    players: u8,
    tally: &RangeTally,
) -> Result<(), AllocError>
    requires between { IsBetweenLines sheet.old }
    requires few { players ≤ 4 }
    requires small { IsSmall tally.now players }
    ensures { OnOk result (sheet.new
        ≡ with_lines sheet.old (tally_block sheet.old.form place players tally.now)) }
{
    counted_line(sheet, place, tally)?;
    let all = u128::from(tally.runouts) * tally.weight;
    for hand in 0..players {
        hand_lines(sheet, all, tally, hand)?;
    }
    Ok(())
}
