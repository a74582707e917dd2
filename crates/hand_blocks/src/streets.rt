//! The lines of a street after an all-in: how all runouts end for each pot once the cards of that street
//! are known.

ghost use Rattle.std.specs.Prelude.{◌≡◌, ◌<◌, [], ◌∷◌, ◌++◌, true, unwrap_or, OnOk, OnErr};
ghost use Rattle.even_luck.specs.Equities.{IsCountOf, IsOfHand, is_asked};
ghost use Rattle.even_luck.specs.Figures.{full_figures, tally_figures};
ghost use Rattle.report_sheet.specs.Sheets.{IsBetweenLines, with_line, with_lines};
ghost use Rattle.hand_blocks.specs.Streets.{IsOfStreet, IsOfTable, counted_street, has_counted, is_counted_all_in, street_block, street_line, table_street, word_line};
ghost use Rattle.hand_blocks.specs.Words.{later_word};
ghost use Rattle.showdown_tally.specs.Deals.{deal_of};

use crate::hand_equities::{Shown, pot_equities};
use crate::words::later_word;
use card_sets::Memory;
use even_luck::{AskedAllIn, Equity};
use hand_events::{Names, Street};
use hand_verdict::{AllIn, HandAudit, Settlement, StreetState};
use report_sheet::{Form, Sheet};
use showdown_tally::Tally;
use std::alloc::AllocError;

/// How a street after an all-in is written.
fn later_text(street: Street) -> &'static str
    ensures { result.now ≡ unwrap_or (later_word street) [] }
{
    later_word(street).unwrap_or("")
}

/// Whether the equity of an all-in is counted.
fn is_counted_all_in(asked: &AskedAllIn) -> bool
    ensures { result ≡ is_counted_all_in asked.now.all_in.now }
{
    match asked.all_in {
        AllIn::None | AllIn::Unknown => false,
        AllIn::Known { table, .. } => asked.equity.counted(table).is_some(),
    }
}

/// Whether a hand has an all-in that is counted, by its equity, which was asked for.
pub fn has_counted(audit: &HandAudit, equity: &Equity) -> bool
    requires asked { is_asked equity.now ≡ true }
    requires equity { IsOfHand audit.now equity.now }
    ensures { result ≡ has_counted audit.now }
{
    match audit {
        HandAudit::Rejected { .. } => false,
        HandAudit::Accepted { all_in, .. } => is_counted_all_in(&AskedAllIn { all_in, equity }),
    }
}

/// What is said of a street in one word.
#[tactic(auto, using(report_sheet::proofs::CallerLemmas::sheet_steps), unfolding(crate::specs::Streets::street_name))]
fn word_line(sheet: &mut Sheet, street: Street, word: &str) -> Result<(), AllocError>
    requires { IsBetweenLines sheet.old }
    ensures { OnOk result (sheet.new ≡ with_line sheet.old (word_line street word.now)) }
{
    sheet.name_and_word("street", later_text(street))?;
    sheet.text(word)?;
    sheet.end()
}

/// The first line of a street that is counted.
#[tactic(auto, using(report_sheet::proofs::CallerLemmas::sheet_steps), unfolding(crate::specs::Streets::street_line, crate::specs::Streets::street_name))]
fn street_line(sheet: &mut Sheet, street: Street, all: u64) -> Result<(), AllocError>
    requires { IsBetweenLines sheet.old }
    ensures { OnOk result (sheet.new ≡ with_line sheet.old (street_line street all)) }
{
    sheet.name_and_word("street", later_text(street))?;
    sheet.name_and_number("runouts", all)?;
    sheet.end()
}

/// A street that is counted: how many runouts are left, and each pot with its hands.
#[tactic(auto, using(report_sheet::proofs::CallerLemmas::lines_more), unfolding(crate::specs::Streets::counted_street))]
fn counted_street(
    sheet: &mut Sheet,
    shown: &Shown,
    street: Street,
    tally: &Tally,
) -> Result<(), AllocError>
    requires between { IsBetweenLines sheet.old }
    requires some { 0 < tally.now.runouts }
    ensures { OnOk result (sheet.new ≡ with_lines sheet.old
        (counted_street sheet.old.form shown.now.names.now shown.now.seats.now street
        (deal_of shown.now.table.now) (tally_figures tally.now))) }
{
    street_line(sheet, street, tally.runouts())?;
    pot_equities(sheet, shown, tally)
}

/// A street on which all cards are known, with its equity.
fn known_street(
    sheet: &mut Sheet,
    shown: &Shown,
    street: Street,
    equity: &Equity,
) -> Result<(), AllocError>
    requires between { IsBetweenLines sheet.old }
    requires equity { IsCountOf (deal_of shown.now.table.now) equity.now }
    ensures { OnOk result (sheet.new ≡ with_lines sheet.old
        (counted_street sheet.old.form shown.now.names.now shown.now.seats.now street
        (deal_of shown.now.table.now) (full_figures (deal_of shown.now.table.now)))) }
{
    match equity.answer() {
        Ok(tally) => counted_street(sheet, shown, street, tally),
        Err(_) => unreachable!(),
    }
}

/// A street whose cards may be known.
fn table_street(
    sheet: &mut Sheet,
    settlement: &Settlement,
    names: &Names,
    seats: &[u8; 10],
    state: &StreetState,
    equity: &Equity,
) -> Result<(), AllocError>
    requires between { IsBetweenLines sheet.old }
    requires equity { IsOfStreet state.now equity.now }
    ensures { OnOk result (sheet.new ≡ with_lines sheet.old
        (table_street sheet.old.form names.now seats.now state.now.street state.now.table)) }
{
    match &state.table {
        Some(table) => {
            let shown = Shown {
                settlement,
                names,
                seats,
                table,
            };
            known_street(sheet, &shown, state.street, equity)
        }
        None => word_line(sheet, state.street, "unknown"),
    }
}

/// A street of a hand.
#[tactic(auto, using(report_sheet::proofs::CallerLemmas::no_lines))]
fn street_block(
    sheet: &mut Sheet,
    audit: &HandAudit,
    state: &StreetState,
    equity: &Equity,
) -> Result<(), AllocError>
    requires between { IsBetweenLines sheet.old }
    requires equity { IsOfStreet state.now equity.now }
    ensures { OnOk result (sheet.new
        ≡ with_lines sheet.old (street_block sheet.old.form audit.now state.now)) }
{
    match audit {
        HandAudit::Accepted {
            settlement,
            all_in: AllIn::Known { seats, .. },
            names,
            ..
        } => table_street(sheet, settlement, names, seats, state, equity),
        HandAudit::Accepted { .. } | HandAudit::Rejected { .. } => Ok(()),
    }
}

/// Appends the block of a street of a hand after its all-in: how many runouts are left once its cards are
/// known, and how all of them end for each hand of each pot; or that a contender's cards on it aren't known,
/// and then the equity isn't looked at. The equity is that of the street's table, counted: after an all-in that
/// is counted each later street is, since it has no more runouts. Out of memory `out` is as it was.
pub fn write_street(
    out: &mut Vec<u8>,
    audit: &HandAudit,
    state: &StreetState,
    equity: &Equity,
    form: Form,
) -> Result<(), Memory>
    requires equity { IsOfStreet state.now equity.now }
    ensures block { OnOk result (out.new.items
        ≡ out.old.items ++ street_block form audit.now state.now) }
    ensures memory { OnErr result (out.new.items ≡ out.old.items) }
{
    let mut sheet = Sheet::new(*out.allocator(), form);
    street_block(&mut sheet, audit, state, equity)?;
    sheet.append_to(out)
}
