//! The lines of a hand after its verdict: its all-in, how all runouts of it end, and what each hand of
//! the table may expect. Each call appends whole lines, but for those that add words to one.

ghost use Rattle.std.specs.Prelude.{◌≡◌, ℕ, ◌*◌, ◌<◌, ◌≤◌, ◌^◌, [], OnOk, length, unwrap_or};
ghost use Rattle.card_sets.specs.PlayerSets.{AreBelow, players_in};
ghost use Rattle.std.specs.List.{flat_map};
ghost use Rattle.runout_ranges.specs.declared.limits.TheConstants.{RUNOUT_MAX};
ghost use Rattle.even_luck.specs.Equities.{IsEquityOf, IsFull};
ghost use Rattle.hand_blocks.specs.HandEquities.{all_in_line, counted_all_in, expect_line, hand_expect, known_all_in, player_name, pot_equities, pot_equity, pot_ev_line, pot_hand_lines, pot_side_line, above_line, short_line};
ghost use Rattle.even_luck.specs.Figures.{tally_figures};
ghost use Rattle.report_sheet.specs.Sheets.{IsBetweenLines, with_line, with_lines};
ghost use Rattle.report_sheet.specs.SpotLines.{every_hand};
ghost use Rattle.hand_blocks.specs.Words.{street_word};
ghost use Rattle.showdown_tally.specs.Cells.{units_at};
ghost use Rattle.showdown_tally.specs.Deals.{deal_of};
ghost use Rattle.showdown_tally.specs.Showdown.{eligible_in};

use crate::hands::name_text;
use crate::words::street_word;
use card_sets::{Game, PlayerSet, Side, sides};
use even_luck::{Equity, expected_by, hand_count, pot_count};
use hand_events::{Names, Street};
use hand_verdict::Settlement;
use report_sheet::Sheet;
use runout_ranges::JobFault;
use showdown_tally::{Cell, Table, Tally};
use std::alloc::AllocError;

/// An all-in with known cards as it is shown: the settlement of its hand, the names of the seats, the seats
/// of the table's hands, hand by hand, and the table.
#[derive(Clone, Copy)]
pub(crate) struct Shown<'a> {
    /// The settlement of the hand.
    pub(crate) settlement: &'a Settlement,
    /// The seats and names of the hand.
    pub(crate) names: &'a Names,
    /// The seat of each hand of the table.
    pub(crate) seats: &'a [u8; 10],
    /// The cards that are known, and the pots.
    pub(crate) table: &'a Table,
}

/// The name of a hand of the table, byte for byte.
fn player_name<'a>(shown: &Shown<'a>, hand: u8) -> &'a [u8]
    requires { hand < 10 }
    ensures { result.now ≡ player_name shown.now.names.now shown.now.seats.now hand }
{
    name_text(shown.names, shown.seats[usize::from(hand)])
}

/// The eligible hands of a pot.
fn pot_hands(table: &Table, k: u8) -> PlayerSet
    requires { k < length (deal_of table.now).pots }
    ensures hands { eligible_in (deal_of table.now) k ≡ players_in result }
    ensures few { AreBelow 10 (players_in result) }
{
    PlayerSet::of(table.eligible[..usize::from(table.pots)][usize::from(k)]).below(10)
}

/// How the street of an all-in is written.
fn street_text(game: Game, street: Street) -> &'static str
    ensures { result.now ≡ unwrap_or (street_word game street) [] }
{
    street_word(game, street).unwrap_or("")
}

/// How all runouts end for a hand on a side of a pot. Pots count from 0.
#[tactic(auto, using(report_sheet::proofs::CallerLemmas::sheet_steps), unfolding(crate::specs::HandEquities::pot_side_line, crate::specs::HandEquities::pot_name))]
fn pot_side_line(
    sheet: &mut Sheet,
    all: u64,
    k: u8,
    name: &[u8],
    side: Side,
    cell: Cell,
) -> Result<(), AllocError>
    requires between { IsBetweenLines sheet.old }
    requires some { 0 < all }
    ensures { OnOk result (sheet.new
        ≡ with_line sheet.old (pot_side_line all k name.now side cell)) }
{
    sheet.name_and_number("pot", u64::from(k))?;
    sheet.side_columns(all, side, cell)?;
    sheet.end_with(name)
}

/// What part of a pot a hand may expect, from its units of 1/5040 of it over all runouts.
#[tactic(auto, using(report_sheet::proofs::CallerLemmas::sheet_steps), unfolding(crate::specs::HandEquities::pot_ev_line, crate::specs::HandEquities::pot_name))]
fn pot_ev_line(
    sheet: &mut Sheet,
    all: u64,
    k: u8,
    name: &[u8],
    units: u64,
) -> Result<(), AllocError>
    requires between { IsBetweenLines sheet.old }
    requires some { 0 < all }
    ensures { OnOk result (sheet.new ≡ with_line sheet.old (pot_ev_line all k name.now units)) }
{
    sheet.name_and_number("pot", u64::from(k))?;
    sheet.text("ev")?;
    sheet.expected(units, all)?;
    sheet.end_with(name)
}

/// The lines of a hand in a pot: its sides, the high first, and then what it may expect.
#[tactic(auto, using(report_sheet::proofs::CallerLemmas::sheet_steps), unfolding(crate::specs::HandEquities::pot_hand_lines))]
fn pot_hand(
    sheet: &mut Sheet,
    game: Game,
    tally: &Tally,
    k: u8,
    name: &[u8],
    hand: u8,
) -> Result<(), AllocError>
    requires between { IsBetweenLines sheet.old }
    requires some { 0 < tally.now.runouts }
    requires pot { k < 10 }
    requires hand { hand < 10 }
    ensures { OnOk result (sheet.new ≡ with_lines sheet.old
        (pot_hand_lines sheet.old.form game (tally_figures tally.now) k name.now hand)) }
{
    let all = tally.runouts();
    for played in &sides(game) {
        if let Some(side) = *played {
            pot_side_line(sheet, all, k, name, side, tally.cell(k, hand, side))?;
        }
    }
    pot_ev_line(sheet, all, k, name, tally.units(k, hand))
}

/// The lines of a pot: those of each hand that is eligible in it, where two or more are.
fn pot_equity(sheet: &mut Sheet, shown: &Shown, tally: &Tally, k: u8) -> Result<(), AllocError>
    requires between { IsBetweenLines sheet.old }
    requires some { 0 < tally.now.runouts }
    requires pot { k < length (deal_of shown.now.table.now).pots }
    requires few { k < 10 }
    ensures { OnOk result (sheet.new ≡ with_lines sheet.old
        (pot_equity sheet.old.form (deal_of shown.now.table.now)
        (tally_figures tally.now) shown.now.names.now shown.now.seats.now k)) }
{
    let hands = pot_hands(shown.table, k);
    if hands.count() < 2 {
        return Ok(());
    }
    let game = shown.table.known.game;
    for hand in hands.each() {
        pot_hand(sheet, game, tally, k, player_name(shown, hand), hand)?;
    }
    Ok(())
}

/// What a hand of the table may expect, as a line.
#[tactic(auto, using(report_sheet::proofs::CallerLemmas::sheet_steps), unfolding(crate::specs::HandEquities::expect_line))]
fn expect_line(
    sheet: &mut Sheet,
    hundredths: bool,
    name: &[u8],
    units: u128,
) -> Result<(), AllocError>
    requires { IsBetweenLines sheet.old }
    ensures { OnOk result (sheet.new
        ≡ with_line sheet.old (expect_line hundredths name.now units)) }
{
    sheet.name_and_money("expect", hundredths, units)?;
    sheet.end_with(name)
}

/// What a hand of the table may expect.
fn hand_expect(sheet: &mut Sheet, shown: &Shown, tally: &Tally, hand: u8) -> Result<(), AllocError>
    requires between { IsBetweenLines sheet.old }
    requires some { 0 < tally.now.runouts }
    requires hand { hand < 10 }
    requires small { (k : ℕ) → k < 10 → units_at tally.now k hand ≤ 5040 * RUNOUT_MAX }
    ensures { OnOk result (sheet.new ≡ with_lines sheet.old
        (hand_expect sheet.old.form shown.now.settlement.now shown.now.names.now
        shown.now.seats.now (deal_of shown.now.table.now) (tally_figures tally.now) hand)) }
{
    let units = expected_by(shown.settlement.pots.items(), shown.table, tally, hand);
    expect_line(
        sheet,
        shown.settlement.hundredths,
        player_name(shown, hand),
        units,
    )
}

/// The first line of an all-in that is counted.
#[tactic(auto, using(report_sheet::proofs::CallerLemmas::sheet_steps), unfolding(crate::specs::HandEquities::all_in_line))]
fn all_in_line(sheet: &mut Sheet, game: Game, street: Street, all: u64) -> Result<(), AllocError>
    requires { IsBetweenLines sheet.old }
    ensures { OnOk result (sheet.new ≡ with_line sheet.old (all_in_line game street all)) }
{
    sheet.name_and_word("all-in", street_text(game, street))?;
    sheet.name_and_number("runouts", all)?;
    sheet.end()
}

/// The lines of all pots.
pub(crate) fn pot_equities(
    sheet: &mut Sheet,
    shown: &Shown,
    tally: &Tally,
) -> Result<(), AllocError>
    requires between { IsBetweenLines sheet.old }
    requires some { 0 < tally.now.runouts }
    ensures { OnOk result (sheet.new ≡ with_lines sheet.old
        (pot_equities sheet.old.form (deal_of shown.now.table.now)
        (tally_figures tally.now) shown.now.names.now shown.now.seats.now)) }
{
    for k in 0..pot_count(shown.table) {
        pot_equity(sheet, shown, tally, k)?;
    }
    Ok(())
}

/// What each hand of the table may expect.
fn expects(sheet: &mut Sheet, shown: &Shown, tally: &Tally) -> Result<(), AllocError>
    requires between { IsBetweenLines sheet.old }
    requires some { 0 < tally.now.runouts }
    requires small { (k hand : ℕ) → k < 10 → hand < 10
        → units_at tally.now k hand ≤ 5040 * RUNOUT_MAX }
    ensures { OnOk result (sheet.new ≡ with_lines sheet.old
        (flat_map (hand_expect sheet.old.form shown.now.settlement.now shown.now.names.now
        shown.now.seats.now (deal_of shown.now.table.now) (tally_figures tally.now))
        (every_hand (length (deal_of shown.now.table.now).state.hands)))) }
{
    for hand in 0..hand_count(&shown.table.known) {
        hand_expect(sheet, shown, tally, hand)?;
    }
    Ok(())
}

/// An all-in that is counted: its street, each pot with its hands, and then what each hand may expect.
#[tactic(auto, using(report_sheet::proofs::CallerLemmas::lines_more), unfolding(crate::specs::HandEquities::counted_all_in))]
fn counted_all_in(
    sheet: &mut Sheet,
    shown: &Shown,
    street: Street,
    tally: &Tally,
) -> Result<(), AllocError>
    requires between { IsBetweenLines sheet.old }
    requires some { 0 < tally.now.runouts }
    requires small { (k hand : ℕ) → k < 10 → hand < 10
        → units_at tally.now k hand ≤ 5040 * RUNOUT_MAX }
    ensures { OnOk result (sheet.new ≡ with_lines sheet.old
        (counted_all_in sheet.old.form shown.now.settlement.now shown.now.names.now
        shown.now.seats.now street (deal_of shown.now.table.now)
        (tally_figures tally.now))) }
{
    all_in_line(sheet, shown.table.known.game, street, tally.runouts())?;
    pot_equities(sheet, shown, tally)?;
    expects(sheet, shown, tally)
}

/// That fewer cards may come than are lacking.
#[tactic(auto, using(report_sheet::proofs::CallerLemmas::sheet_steps), unfolding(crate::specs::HandEquities::short_line))]
fn deck_short(sheet: &mut Sheet) -> Result<(), AllocError>
    requires { IsBetweenLines sheet.old }
    ensures { OnOk result (sheet.new ≡ with_line sheet.old short_line) }
{
    sheet.text("all-in")?;
    sheet.name_and_word("refused", "DeckShort")?;
    sheet.end()
}

/// That there are too many runouts.
#[tactic(auto, using(report_sheet::proofs::CallerLemmas::sheet_steps), unfolding(crate::specs::HandEquities::above_line))]
fn above_limit(sheet: &mut Sheet) -> Result<(), AllocError>
    requires { IsBetweenLines sheet.old }
    ensures { OnOk result (sheet.new ≡ with_line sheet.old above_line) }
{
    sheet.text("all-in")?;
    sheet.refused()?;
    sheet.end()
}

/// An all-in with a tally of all its runouts; where there is none, fewer cards may come than are lacking.
fn full_all_in(
    sheet: &mut Sheet,
    shown: &Shown,
    street: Street,
    tally: &Tally,
) -> Result<(), AllocError>
    requires between { IsBetweenLines sheet.old }
    requires full { IsFull (deal_of shown.now.table.now) tally.now }
    ensures { OnOk result (sheet.new ≡ with_lines sheet.old
        (known_all_in sheet.old.form shown.now.settlement.now shown.now.names.now
        shown.now.seats.now street (deal_of shown.now.table.now))) }
{
    if tally.runouts() == 0 {
        return deck_short(sheet);
    }
    counted_all_in(sheet, shown, street, tally)
}

/// An all-in with known cards: it is refused, or counted.
#[tactic(auto, unfolding(crate::specs::HandEquities::known_all_in))]
pub(crate) fn known_all_in(
    sheet: &mut Sheet,
    shown: &Shown,
    street: Street,
    equity: &Equity,
) -> Result<(), AllocError>
    requires between { IsBetweenLines sheet.old }
    requires equity { IsEquityOf (deal_of shown.now.table.now) equity.now }
    ensures { OnOk result (sheet.new ≡ with_lines sheet.old
        (known_all_in sheet.old.form shown.now.settlement.now shown.now.names.now
        shown.now.seats.now street (deal_of shown.now.table.now))) }
{
    match equity.answer() {
        Ok(tally) => full_all_in(sheet, shown, street, tally),
        Err(JobFault::DeckShort) => deck_short(sheet),
        Err(JobFault::AboveLimit) => above_limit(sheet),
    }
}
