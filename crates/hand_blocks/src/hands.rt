//! The lines of a hand's verdict. Each call appends whole lines, but for those that add words to one.

ghost use Rattle.std.specs.Prelude.{◌≡◌, ℕ, ◌+◌, OnOk};
ghost use Rattle.hand_blocks.specs.Hands.{accepted_hand, accepted_line, due_words, hand_title, name_text, paid_line, paid_lines, pot_line, pot_lines, pot_state, pots_from, rejected_hand, seen_word, twice_words};
ghost use Rattle.report_sheet.specs.Sheets.{IsBetweenLines, with_line, with_lines, with_words};

use crate::causes::cause_words;
use hand_events::Names;
use hand_verdict::{Cause, Payment, PotLine, Settlement};
use report_sheet::Sheet;
use std::alloc::AllocError;

/// Whether it is known who wins a pot.
fn seen_word(checked: bool) -> &'static str
    ensures { result.now ≡ seen_word checked }
{
    if checked { "checked" } else { "unseen" }
}

/// The name of a seat, byte for byte.
pub(crate) fn name_text(names: &Names, seat: u8) -> &[u8]
    ensures { result.now ≡ name_text names.now seat }
{
    match names.name_of(seat) {
        Some(name) => name,
        None => &[],
    }
}

/// The first words of a line of a hand. Its number is that of its header, digit by digit.
#[tactic(auto, using(report_sheet::proofs::CallerLemmas::word_steps), unfolding(crate::specs::Hands::hand_title))]
fn hand_title(sheet: &mut Sheet, number: &[u8]) -> Result<(), AllocError>
    ensures { OnOk result (sheet.new ≡ with_words sheet.old (hand_title number.now)) }
{
    sheet.text("hand")?;
    sheet.word(number)
}

/// The line of a hand with a line that departs. Lines count from 1.
#[tactic(auto, using(report_sheet::proofs::CallerLemmas::sheet_steps), unfolding(crate::specs::Hands::rejected_hand, crate::specs::Hands::rejected_title))]
pub(crate) fn rejected_hand(
    sheet: &mut Sheet,
    number: &[u8],
    line: u32,
    hundredths: bool,
    cause: &Cause,
) -> Result<(), AllocError>
    requires { IsBetweenLines sheet.old }
    ensures { OnOk result (sheet.new
        ≡ with_line sheet.old (rejected_hand number.now line hundredths cause.now)) }
{
    hand_title(sheet, number)?;
    sheet.text("rejected")?;
    sheet.name_and_number("line", u64::from(line))?;
    cause_words(sheet, hundredths, cause)?;
    sheet.end()
}

/// That a hand was run twice.
#[tactic(auto, using(report_sheet::proofs::CallerLemmas::word_steps))]
fn twice_words(sheet: &mut Sheet, twice: bool) -> Result<(), AllocError>
    ensures { OnOk result (sheet.new ≡ with_words sheet.old (twice_words twice)) }
{
    if !twice {
        return Ok(());
    }
    sheet.text("twice")
}

/// The first line of a hand in which no line departs, with its game and its rake, and whether it was
/// run twice.
#[tactic(auto, using(report_sheet::proofs::CallerLemmas::sheet_steps), unfolding(crate::specs::Hands::accepted_line))]
pub(crate) fn accepted_line(
    sheet: &mut Sheet,
    number: &[u8],
    settlement: &Settlement,
) -> Result<(), AllocError>
    requires { IsBetweenLines sheet.old }
    ensures { OnOk result (sheet.new
        ≡ with_line sheet.old (accepted_line number.now settlement.now)) }
{
    hand_title(sheet, number)?;
    sheet.name_and_word("accepted", settlement.game.word())?;
    sheet.name_and_money("rake", settlement.hundredths, u128::from(settlement.rake))?;
    twice_words(sheet, settlement.twice)?;
    sheet.end()
}

/// The rake of a pot and whether it is known who wins it, or that the names don't fit the pots.
#[tactic(auto, using(report_sheet::proofs::CallerLemmas::word_steps), unfolding(crate::specs::Hands::pot_state))]
fn pot_state(
    sheet: &mut Sheet,
    hundredths: bool,
    fits: bool,
    rake: u64,
    checked: bool,
) -> Result<(), AllocError>
    ensures { OnOk result (sheet.new
        ≡ with_words sheet.old (pot_state hundredths fits rake checked)) }
{
    if !fits {
        return sheet.text("unfit");
    }
    sheet.name_and_money("rake", hundredths, u128::from(rake))?;
    sheet.text(seen_word(checked))
}

/// The line of a pot, with what it holds in units. Pots count from 0.
#[tactic(auto, using(report_sheet::proofs::CallerLemmas::sheet_steps), unfolding(crate::specs::Hands::pot_line, crate::specs::Hands::pot_title))]
pub(crate) fn pot_line(
    sheet: &mut Sheet,
    hundredths: bool,
    fits: bool,
    k: u64,
    pot: &PotLine,
) -> Result<(), AllocError>
    requires { IsBetweenLines sheet.old }
    ensures { OnOk result (sheet.new ≡ with_line sheet.old (pot_line hundredths fits k pot.now)) }
{
    sheet.name_and_number("pot", k)?;
    sheet.name_and_money("gross", hundredths, u128::from(pot.gross))?;
    pot_state(sheet, hundredths, fits, pot.rake, pot.checked)?;
    sheet.end()
}

/// What a payment should have been, where it is known and is something else.
#[tactic(auto, using(report_sheet::proofs::CallerLemmas::word_steps), unfolding(crate::specs::Hands::due_words))]
fn due_words(
    sheet: &mut Sheet,
    hundredths: bool,
    checked: bool,
    pay: &Payment,
) -> Result<(), AllocError>
    ensures { OnOk result (sheet.new
        ≡ with_words sheet.old (due_words hundredths checked pay.now)) }
{
    if !checked || pay.got == pay.due {
        return Ok(());
    }
    sheet.name_and_money("due", hundredths, u128::from(pay.due))
}

/// Who got what.
#[tactic(auto, using(report_sheet::proofs::CallerLemmas::sheet_steps), unfolding(crate::specs::Hands::paid_line))]
pub(crate) fn paid_line(
    sheet: &mut Sheet,
    hundredths: bool,
    names: &Names,
    checked: bool,
    pay: &Payment,
) -> Result<(), AllocError>
    requires { IsBetweenLines sheet.old }
    ensures { OnOk result (sheet.new
        ≡ with_line sheet.old (paid_line hundredths names.now checked pay.now)) }
{
    sheet.name_and_money("paid", hundredths, u128::from(pay.got))?;
    due_words(sheet, hundredths, checked, pay)?;
    sheet.end_with(name_text(names, pay.seat))
}

/// Some payments, in their order.
fn paid_lines(
    sheet: &mut Sheet,
    hundredths: bool,
    names: &Names,
    checked: bool,
    payments: &[Payment],
) -> Result<(), AllocError>
    requires { IsBetweenLines sheet.old }
    ensures { OnOk result (sheet.new ≡ with_lines sheet.old
        (paid_lines sheet.old.form hundredths names.now checked payments.now)) }
{
    for pay in payments {
        paid_line(sheet, hundredths, names, checked, pay)?;
    }
    Ok(())
}

/// A pot, and the payments out of it. Pots count from 0.
#[tactic(auto, using(report_sheet::proofs::CallerLemmas::sheet_steps), unfolding(crate::specs::Hands::pot_lines))]
fn pot_lines(
    sheet: &mut Sheet,
    hundredths: bool,
    fits: bool,
    names: &Names,
    k: u64,
    pot: &PotLine,
) -> Result<(), AllocError>
    requires { IsBetweenLines sheet.old }
    ensures { OnOk result (sheet.new
        ≡ with_lines sheet.old (pot_lines sheet.old.form hundredths fits names.now k pot.now)) }
{
    pot_line(sheet, hundredths, fits, k, pot)?;
    paid_lines(sheet, hundredths, names, pot.checked, pot.paid.items())
}

/// The pots of a hand, the first of which is number 0.
fn pots(sheet: &mut Sheet, settlement: &Settlement, names: &Names) -> Result<(), AllocError>
    requires { IsBetweenLines sheet.old }
    ensures { OnOk result (sheet.new ≡ with_lines sheet.old
        (pots_from sheet.old.form settlement.now.hundredths settlement.now.fits names.now 0
        settlement.now.pots)) }
{
    let Settlement {
        hundredths,
        fits,
        ..
    } = *settlement;
    for (k, pot) in settlement.pots.items().iter().enumerate() {
        pot_lines(sheet, hundredths, fits, names, k as u64, pot)?;
    }
    Ok(())
}

/// The block of a hand in which no line departs.
#[tactic(auto, using(report_sheet::proofs::CallerLemmas::sheet_steps), unfolding(crate::specs::Hands::accepted_hand))]
pub(crate) fn accepted_hand(
    sheet: &mut Sheet,
    number: &[u8],
    settlement: &Settlement,
    names: &Names,
) -> Result<(), AllocError>
    requires { IsBetweenLines sheet.old }
    ensures { OnOk result (sheet.new ≡ with_lines sheet.old
        (accepted_hand sheet.old.form number.now settlement.now names.now)) }
{
    accepted_line(sheet, number, settlement)?;
    pots(sheet, settlement, names)?;
    paid_lines(
        sheet,
        settlement.hundredths,
        names,
        false,
        settlement.paid.items(),
    )
}
