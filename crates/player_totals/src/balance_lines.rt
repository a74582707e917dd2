//! The line of a player in the balance.

ghost use Rattle.std.specs.Prelude.{◌≡◌, OnOk};
ghost use Rattle.player_totals.specs.Balance.{balance_line, balance_nets, balance_title};
ghost use Rattle.report_sheet.specs.Sheets.{IsBetweenLines, with_line, with_words};
ghost use Rattle.player_totals.specs.TotalsSeen.{player_of};

use crate::balance_sums::BalanceSums;
use crate::player_key::PlayerKey;
use crate::total_lines::unit_word;
use report_sheet::Sheet;
use std::alloc::AllocError;

/// The first words of the line.
#[tactic(auto, using(report_sheet::proofs::CallerLemmas::word_steps), unfolding(crate::specs::Balance::balance_title))]
fn balance_title(sheet: &mut Sheet, hundredths: bool, sums: &BalanceSums) -> Result<(), AllocError>
    ensures { OnOk result (sheet.new ≡ with_words sheet.old (balance_title hundredths sums.now)) }
{
    sheet.name_and_word("balance", unit_word(hundredths))?;
    sheet.name_and_number("hands", sums.hands)?;
    sheet.name_and_money("got", hundredths, sums.got)
}

/// What the player netted, and would have with even luck.
#[tactic(auto, using(report_sheet::proofs::CallerLemmas::word_steps), unfolding(crate::specs::Balance::balance_nets))]
fn balance_nets(sheet: &mut Sheet, hundredths: bool, sums: &BalanceSums) -> Result<(), AllocError>
    ensures { OnOk result (sheet.new ≡ with_words sheet.old (balance_nets hundredths sums.now)) }
{
    sheet.text("net")?;
    sheet.difference(hundredths, sums.got, sums.put)?;
    sheet.text("even")?;
    sheet.difference(hundredths, sums.even, sums.put)?;
    sheet.name_and_number("unknown", sums.unknown)
}

/// The line of a player.
#[tactic(auto, using(report_sheet::proofs::CallerLemmas::sheet_steps), unfolding(crate::specs::Balance::balance_line))]
pub(crate) fn balance_line(
    sheet: &mut Sheet,
    key: &PlayerKey,
    sums: &BalanceSums,
) -> Result<(), AllocError>
    requires { IsBetweenLines sheet.old }
    ensures { OnOk result (sheet.new
        ≡ with_line sheet.old (balance_line (player_of key.now) sums.now)) }
{
    balance_title(sheet, key.hundredths, sums)?;
    balance_nets(sheet, key.hundredths, sums)?;
    sheet.end_with(key.name.bytes.as_slice())
}
