//! The lines of the totals. Each call appends whole lines, but for those that add words to one.

ghost use Rattle.std.specs.Prelude.{◌≡◌, ℕ, ◌+◌, ◌^◌, ◌≤◌, List, ◌++◌, length, take, OnOk, OnErr};
ghost use Rattle.report_sheet.specs.Lines.{line_in};
ghost use Rattle.report_sheet.specs.Sheets.{IsBetweenLines, with_line, with_words};
ghost use Rattle.player_totals.specs.SumsSeen.{lines_of};
ghost use Rattle.player_totals.specs.Totals.{hands_line, total_line, total_title, unit_word};
ghost use Rattle.player_totals.specs.TotalsSeen.{player_of};

use crate::player_key::PlayerKey;
use crate::player_rows::Players;
use crate::player_sums::PlayerSums;
use crate::sums::Sums;
use card_sets::Memory;
use report_sheet::{Form, Sheet};
use std::alloc::AllocError;

/// How a unit of money is written.
pub(crate) fn unit_word(hundredths: bool) -> &'static str
    ensures { result.now ≡ unit_word hundredths }
{
    if hundredths { "hundredths" } else { "chips" }
}

/// The first line: the word of what is summed up, and how many hands there are.
#[tactic(auto, using(report_sheet::proofs::CallerLemmas::sheet_steps), unfolding(crate::specs::Totals::hands_line))]
fn hands_line(sheet: &mut Sheet, word: &str, accepted: u64, rejected: u64) -> Result<(), AllocError>
    requires between { IsBetweenLines sheet.old }
    requires few { accepted + rejected ≤ 2 ^ 32 }
    ensures { OnOk result (sheet.new
        ≡ with_line sheet.old (hands_line word.now (accepted + rejected) accepted rejected)) }
{
    sheet.text(word)?;
    sheet.name_and_number("hands", accepted + rejected)?;
    sheet.name_and_number("accepted", accepted)?;
    sheet.name_and_number("rejected", rejected)?;
    sheet.end()
}

/// The first words of the line of a player.
#[tactic(auto, using(report_sheet::proofs::CallerLemmas::word_steps), unfolding(crate::specs::Totals::total_title))]
fn total_title(sheet: &mut Sheet, hundredths: bool, sums: &PlayerSums) -> Result<(), AllocError>
    ensures { OnOk result (sheet.new ≡ with_words sheet.old (total_title hundredths sums.now)) }
{
    sheet.name_and_word("total", unit_word(hundredths))?;
    sheet.name_and_number("hands", sums.hands)?;
    sheet.name_and_number("allins", sums.all_ins)
}

/// The line of a player.
#[tactic(auto, using(report_sheet::proofs::CallerLemmas::sheet_steps), unfolding(crate::specs::Totals::total_line))]
pub(crate) fn total_line(
    sheet: &mut Sheet,
    key: &PlayerKey,
    sums: &PlayerSums,
) -> Result<(), AllocError>
    requires { IsBetweenLines sheet.old }
    ensures { OnOk result (sheet.new
        ≡ with_line sheet.old (total_line (player_of key.now) sums.now)) }
{
    total_title(sheet, key.hundredths, sums)?;
    sheet.name_and_money("collected", key.hundredths, sums.collected)?;
    sheet.name_and_money("expected", key.hundredths, sums.expected)?;
    sheet.end_with(key.name.bytes.as_slice())
}

/// The number of players whose lines share a sheet. A sheet of records makes a buffer of 8 kB, too much for a single line.
const RUN: usize = 64;

/// Appends the lines of the players from one place up to another, by one sheet. If memory is refused, `out` stays as it was.
fn write_run<S: Sums>(
    out: &mut Vec<u8>,
    players: &Players<S>,
    from: usize,
    end: usize,
    form: Form,
) -> Result<(), Memory>
    requires { from ≤ end }
    ensures lines { OnOk result ((before : List ℕ)
        → out.old.items ≡ before ++ lines_of S.line form (take from players.now)
        → out.new.items ≡ before ++ lines_of S.line form (take end players.now)) }
    ensures memory { OnErr result (out.new.items ≡ out.old.items) }
{
    let mut sheet = Sheet::new(*out.allocator(), form);
    for place in from..end {
        if let Some(row) = players.at(place) {
            row.sums.write_line(&mut sheet, &row.key)?;
        }
    }
    sheet.append_to(out)
}

/// Appends the lines of all players, a sheet at a time, so that memory contains them once. If memory is refused, the bytes of `out`
/// stay, and some first lines may follow them.
fn write_players<S: Sums>(out: &mut Vec<u8>, players: &Players<S>, form: Form) -> Result<(), Memory>
    ensures lines { OnOk result (out.new.items
        ≡ out.old.items ++ lines_of S.line form players.now) }
    ensures kept { take (length out.old.items) out.new.items ≡ out.old.items }
{
    let mut from = 0;
    'runs: while from < players.len() {
        let end = from.saturating_add(RUN).min(players.len());
        write_run(out, players, from, end, form)?;
        from = end;
    }
    Ok(())
}

/// Appends a line of all hands, with the word of what is summed up, and the lines of all players. Out of memory
/// leaves what stood in `out`, and may leave some first lines.
fn write_lines<S: Sums>(
    out: &mut Vec<u8>,
    word: &str,
    accepted: u64,
    rejected: u64,
    players: &Players<S>,
    form: Form,
) -> Result<(), Memory>
    requires few { accepted + rejected ≤ 2 ^ 32 }
    ensures lines { OnOk result (out.new.items
        ≡ out.old.items ++ (line_in form (hands_line word.now (accepted + rejected) accepted rejected)
        ++ lines_of S.line form players.now)) }
    ensures kept { take (length out.old.items) out.new.items ≡ out.old.items }
{
    let mut sheet = Sheet::new(*out.allocator(), form);
    hands_line(&mut sheet, word, accepted, rejected)?;
    sheet.append_to(out)?;
    write_players(out, players, form)
}

/// Appends a line of all hands, with the word of the sums, and the lines of all players. Out of memory, it leaves `out`
/// unchanged.
pub(crate) fn write_sums<S: Sums>(
    out: &mut Vec<u8>,
    word: &str,
    accepted: u64,
    rejected: u64,
    players: &Players<S>,
    form: Form,
) -> Result<(), Memory>
    requires few { accepted + rejected ≤ 2 ^ 32 }
    ensures lines { OnOk result (out.new.items
        ≡ out.old.items ++ (line_in form (hands_line word.now (accepted + rejected) accepted rejected)
        ++ lines_of S.line form players.now)) }
    ensures memory { OnErr result (out.new.items ≡ out.old.items) }
{
    let before = out.len();
    match write_lines(out, word, accepted, rejected, players, form) {
        Ok(()) => Ok(()),
        Err(error) => {
            out.truncate(before);
            Err(error)
        }
    }
}
