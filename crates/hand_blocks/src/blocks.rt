//! The block of a hand.

ghost use Rattle.std.specs.Prelude.{◌≡◌, [], ◌∷◌, ◌++◌, codes, OnOk, OnErr};
ghost use Rattle.even_luck.specs.Equities.{IsOfHand, is_asked};
ghost use Rattle.hand_blocks.specs.HandEquities.{all_in_block, hand_block};
ghost use Rattle.report_sheet.specs.Lines.{plain};
ghost use Rattle.report_sheet.specs.Sheets.{IsBetweenLines, with_line, with_lines};

use crate::hand_equities::{Shown, known_all_in};
use crate::hands::{accepted_hand, rejected_hand};
use card_sets::Memory;
use even_luck::{AskedAllIn, Equity};
use hand_events::Names;
use hand_verdict::{AllIn, HandAudit, Settlement};
use report_sheet::{Form, Sheet};
use std::alloc::AllocError;

/// Appends what is said of an all-in in one word.
#[tactic(auto, using(report_sheet::proofs::CallerLemmas::sheet_steps))]
fn all_in_word(sheet: &mut Sheet, word: &str) -> Result<(), AllocError>
    requires { IsBetweenLines sheet.old }
    ensures { OnOk result (sheet.new
        ≡ with_line sheet.old (plain (codes "all-in" ∷ word.now ∷ []))) }
{
    sheet.name_and_word("all-in", word)?;
    sheet.end()
}

/// Appends the all-in of a hand in which no line departs.
fn all_in_block(
    sheet: &mut Sheet,
    settlement: &Settlement,
    names: &Names,
    asked: &AskedAllIn,
) -> Result<(), AllocError>
    requires between { IsBetweenLines sheet.old }
    ensures { OnOk result (sheet.new ≡ with_lines sheet.old
        (all_in_block sheet.old.form settlement.now names.now asked.now.all_in.now)) }
{
    match asked.all_in {
        AllIn::None => all_in_word(sheet, "none"),
        AllIn::Unknown => all_in_word(sheet, "unknown"),
        AllIn::Known {
            street,
            seats,
            table,
        } => {
            let shown = Shown {
                settlement,
                names,
                seats,
                table,
            };
            known_all_in(sheet, &shown, *street, asked.equity)
        }
    }
}

/// Appends the verdict on a hand, and its equity where it is asked for.
#[tactic(auto, using(report_sheet::proofs::CallerLemmas::lines_more), unfolding(crate::specs::HandEquities::hand_block))]
fn hand_block(
    sheet: &mut Sheet,
    number: &[u8],
    audit: &HandAudit,
    equity: &Equity,
) -> Result<(), AllocError>
    requires between { IsBetweenLines sheet.old }
    requires equity { IsOfHand audit.now equity.now }
    ensures { OnOk result (sheet.new ≡ with_lines sheet.old
        (hand_block sheet.old.form (is_asked equity.now) number.now audit.now)) }
{
    match audit {
        HandAudit::Rejected {
            line,
            cause,
            hundredths,
        } => rejected_hand(sheet, number, *line, *hundredths, cause),
        HandAudit::Accepted {
            settlement,
            all_in,
            names,
            ..
        } => {
            accepted_hand(sheet, number, settlement, names)?;
            if !equity.is_asked() {
                return Ok(());
            }
            all_in_block(sheet, settlement, names, &AskedAllIn { all_in, equity })
        }
    }
}

/// Appends the block of a hand: the line of its rejection, or its pots and who got what of them, and
/// after that, where an equity is asked for, its all-in with what each hand of the table may expect.
/// The number is that of the hand's header, digit by digit. The equity is that of the all-in's table;
/// where the hand is rejected or no all-in is known, it isn't looked at beyond whether it is asked for.
/// Out of memory it leaves `out` as it was.
pub fn write_hand(
    out: &mut Vec<u8>,
    number: &[u8],
    audit: &HandAudit,
    equity: &Equity,
    form: Form,
) -> Result<(), Memory>
    requires equity { IsOfHand audit.now equity.now }
    ensures block { OnOk result (out.new.items
        ≡ out.old.items ++ hand_block form (is_asked equity.now) number.now audit.now) }
    ensures memory { OnErr result (out.new.items ≡ out.old.items) }
{
    let mut sheet = Sheet::new(*out.allocator(), form);
    hand_block(&mut sheet, number, audit, equity)?;
    sheet.append_to(out)
}
