//! The words for why a hand is rejected.

ghost use Rattle.std.specs.Prelude.{◌≡◌, OnOk};
ghost use Rattle.hand_blocks.specs.Causes.{carried_by_cause, carried_by_fault, cause_words, chips_words, split_words};
ghost use Rattle.report_sheet.specs.Sheets.{with_words};

use hand_events::BetFault;
use hand_verdict::Cause;
use report_sheet::Sheet;
use std::alloc::AllocError;

/// What the fault of an event carries: a seat, an amount in units, or a card.
#[tactic(auto, using(report_sheet::proofs::CallerLemmas::word_steps), unfolding(crate::specs::Causes::carried_by_fault, crate::specs::Causes::seat_words))]
fn carried_by_fault(sheet: &mut Sheet, hundredths: bool, fault: &BetFault) -> Result<(), AllocError>
    ensures { OnOk result (sheet.new
        ≡ with_words sheet.old (carried_by_fault hundredths fault.now)) }
{
    match *fault {
        BetFault::NotInHand
        | BetFault::NothingOwed
        | BetFault::BetFacingBet
        | BetFault::AllInWord
        | BetFault::StreetOrder
        | BetFault::PostLate
        | BetFault::SeatTwice => Ok(()),
        BetFault::OutOfTurn(seat) | BetFault::StreetEarly(seat) | BetFault::TooManyCards(seat) => {
            sheet.name_and_number("seat", u64::from(seat))
        }
        BetFault::CheckFacingBet(units)
        | BetFault::CallAmount(units)
        | BetFault::RaiseAmount(units)
        | BetFault::AboveStack(units)
        | BetFault::UncalledAmount(units) => sheet.money(hundredths, u128::from(units)),
        BetFault::CardTwice(card) => sheet.word(&card.text()),
    }
}

/// A stated pot and what was counted, in units.
#[tactic(auto, using(report_sheet::proofs::CallerLemmas::word_steps), unfolding(crate::specs::Causes::chips_words))]
fn chips_words(
    sheet: &mut Sheet,
    hundredths: bool,
    stated: u64,
    counted: u128,
) -> Result<(), AllocError>
    ensures { OnOk result (sheet.new
        ≡ with_words sheet.old (chips_words hundredths stated counted)) }
{
    sheet.money(hundredths, u128::from(stated))?;
    sheet.money(hundredths, counted)
}

/// A seat, what it was due and what it got, in units.
#[tactic(auto, using(report_sheet::proofs::CallerLemmas::word_steps), unfolding(crate::specs::Causes::split_words, crate::specs::Causes::seat_words))]
fn split_words(
    sheet: &mut Sheet,
    hundredths: bool,
    seat: u8,
    due: u64,
    got: u64,
) -> Result<(), AllocError>
    ensures { OnOk result (sheet.new
        ≡ with_words sheet.old (split_words hundredths seat due got)) }
{
    sheet.name_and_number("seat", u64::from(seat))?;
    sheet.name_and_money("due", hundredths, u128::from(due))?;
    sheet.name_and_money("got", hundredths, u128::from(got))
}

/// What a cause carries.
#[tactic(auto, using(report_sheet::proofs::CallerLemmas::word_steps), unfolding(crate::specs::Causes::carried_by_cause))]
fn carried_by_cause(sheet: &mut Sheet, hundredths: bool, cause: &Cause) -> Result<(), AllocError>
    ensures { OnOk result (sheet.new
        ≡ with_words sheet.old (carried_by_cause hundredths cause.now)) }
{
    match cause {
        Cause::Text(_) => Ok(()),
        Cause::Bet(fault) => carried_by_fault(sheet, hundredths, fault),
        Cause::Chips { stated, counted } => chips_words(sheet, hundredths, *stated, *counted),
        Cause::Split { seat, due, got } => split_words(sheet, hundredths, *seat, *due, *got),
        Cause::Unfinished => Ok(()),
    }
}

/// Why a hand is rejected: the name of the cause, and then what it carries.
#[tactic(auto, using(report_sheet::proofs::CallerLemmas::word_steps))]
pub(crate) fn cause_words(
    sheet: &mut Sheet,
    hundredths: bool,
    cause: &Cause,
) -> Result<(), AllocError>
    ensures { OnOk result (sheet.new ≡ with_words sheet.old (cause_words hundredths cause.now)) }
{
    sheet.text(cause.name())?;
    carried_by_cause(sheet, hundredths, cause)
}
