//! The block of a hand's results: what each player had, put in, got and netted, and what he would have netted
//! with even luck. Each call appends whole lines, but for those that add words to one.

ghost use Rattle.std.specs.Prelude.{◌≡◌, ◌<◌, [], ◌∷◌, ◌++◌, true, OnOk, OnErr};
ghost use Rattle.std.specs.List.{flat_map};
ghost use Rattle.card_sets.specs.PlayerSets.{seats_in};
ghost use Rattle.even_luck.specs.Equities.{IsOfHand, is_asked};
ghost use Rattle.hand_blocks.specs.Results.{accepted_results, even_word, player_result, result_line, results_block};
ghost use Rattle.report_sheet.specs.Sheets.{IsBetweenLines, with_line, with_lines, with_words};

use crate::hands::{accepted_line, name_text, rejected_hand};
use card_sets::{Memory, PlayerSet};
use even_luck::{AskedAllIn, Equity, even_of, got_of};
use hand_events::Names;
use hand_verdict::{HandAudit, SeatChips, Settlement};
use report_sheet::{Form, Sheet};
use std::alloc::AllocError;

/// An accepted hand as its results are shown.
#[derive(Clone, Copy)]
struct Played<'a> {
    /// The settlement of the hand.
    settlement: &'a Settlement,
    /// The all-in of the hand, with its equity.
    all_in: AskedAllIn<'a>,
    /// The seats and names of the hand.
    names: &'a Names,
    /// The chips that each seat had and put in, by its number.
    chips: &'a [SeatChips; 11],
}

/// What a player would have netted with even luck, or that this isn't known.
fn even_word(
    sheet: &mut Sheet,
    hundredths: bool,
    put: u64,
    even: Option<u128>,
) -> Result<(), AllocError>
    ensures { OnOk result (sheet.new
        ≡ with_words sheet.old (even_word hundredths put even ∷ [])) }
{
    match even {
        None => sheet.text("unknown"),
        Some(got) => sheet.difference(hundredths, got, u128::from(put)),
    }
}

/// The line of a player: what they had, put in, got, and netted.
#[tactic(auto, using(report_sheet::proofs::CallerLemmas::sheet_steps), unfolding(crate::specs::Results::result_line, crate::specs::Results::result_title, crate::specs::Results::net_words))]
fn result_line(
    sheet: &mut Sheet,
    hundredths: bool,
    chips: SeatChips,
    got: u128,
    even: Option<u128>,
    name: &[u8],
) -> Result<(), AllocError>
    requires { IsBetweenLines sheet.old }
    ensures { OnOk result (sheet.new
        ≡ with_line sheet.old (result_line hundredths chips got even name.now)) }
{
    sheet.text("result")?;
    sheet.name_and_money("had", hundredths, u128::from(chips.had))?;
    sheet.name_and_money("put", hundredths, u128::from(chips.put))?;
    sheet.name_and_money("got", hundredths, got)?;
    sheet.text("net")?;
    sheet.difference(hundredths, got, u128::from(chips.put))?;
    sheet.text("even")?;
    even_word(sheet, hundredths, chips.put, even)?;
    sheet.end_with(name)
}

/// The line of the player of a seat.
#[tactic(auto, unfolding(crate::specs::Results::player_result))]
fn player_result(sheet: &mut Sheet, played: &Played, seat: u8) -> Result<(), AllocError>
    requires between { IsBetweenLines sheet.old }
    requires seat { seat < 11 }
    ensures { OnOk result (sheet.new ≡ with_lines sheet.old
        (player_result sheet.old.form played.now.settlement.now played.now.all_in.all_in.now
        played.now.names.now played.now.chips.now seat)) }
{
    let settlement = played.settlement;
    result_line(
        sheet,
        settlement.hundredths,
        played.chips[usize::from(seat)],
        got_of(settlement, seat),
        even_of(settlement, &played.all_in, seat),
        name_text(played.names, seat),
    )
}

/// The lines of all players, by rising seat.
fn player_results(sheet: &mut Sheet, played: &Played, players: PlayerSet) -> Result<(), AllocError>
    requires between { IsBetweenLines sheet.old }
    ensures { OnOk result (sheet.new ≡ with_lines sheet.old
        (flat_map (player_result sheet.old.form played.now.settlement.now
        played.now.all_in.all_in.now played.now.names.now played.now.chips.now)
        (seats_in players))) }
{
    for seat in 1..11u8 {
        if !players.has(seat) {
            continue;
        }
        player_result(sheet, played, seat)?;
    }
    Ok(())
}

/// The results of a hand in which no line departs.
#[tactic(auto, using(report_sheet::proofs::CallerLemmas::lines_more), unfolding(crate::specs::Results::accepted_results))]
fn accepted_results(
    sheet: &mut Sheet,
    number: &[u8],
    played: &Played,
    players: PlayerSet,
) -> Result<(), AllocError>
    requires between { IsBetweenLines sheet.old }
    ensures { OnOk result (sheet.new ≡ with_lines sheet.old
        (accepted_results sheet.old.form number.now played.now.settlement.now
        played.now.all_in.all_in.now played.now.names.now players played.now.chips.now)) }
{
    accepted_line(sheet, number, played.settlement)?;
    player_results(sheet, played, players)
}

/// The results of a hand.
fn results_block<'a>(
    sheet: &mut Sheet,
    number: &[u8],
    audit: &'a HandAudit,
    chips: &'a [SeatChips; 11],
    equity: &'a Equity,
) -> Result<(), AllocError>
    requires between { IsBetweenLines sheet.old }
    requires asked { is_asked equity.now ≡ true }
    requires equity { IsOfHand audit.now equity.now }
    ensures { OnOk result (sheet.new ≡ with_lines sheet.old
        (results_block sheet.old.form number.now audit.now chips.now)) }
{
    match audit {
        HandAudit::Rejected {
            line,
            cause,
            hundredths,
        } => rejected_hand(sheet, number, *line, *hundredths, cause),
        HandAudit::Accepted {
            settlement,
            all_in,
            names,
            players,
        } => {
            let played = Played {
                settlement,
                all_in: AskedAllIn { all_in, equity },
                names,
                chips,
            };
            accepted_results(sheet, number, &played, PlayerSet::of(*players))
        }
    }
}

/// Appends the results of a hand: the line of its rejection; or its first line, and for each player by rising
/// seat what he had, put in, got and netted, and what he would have netted with even luck, or that this isn't
/// known since the hand has an all-in that isn't counted or whose pots' names don't fit. The number is that of
/// the hand's header, digit by digit, and the chips are those of its seats. The equity is that of the all-in's
/// table; where the hand is rejected or no all-in is known, it isn't looked at. Out of memory leaves `out` as
/// it was.
pub fn write_results(
    out: &mut Vec<u8>,
    number: &[u8],
    audit: &HandAudit,
    chips: &[SeatChips; 11],
    equity: &Equity,
    form: Form,
) -> Result<(), Memory>
    requires asked { is_asked equity.now ≡ true }
    requires equity { IsOfHand audit.now equity.now }
    ensures block { OnOk result (out.new.items
        ≡ out.old.items ++ results_block form number.now audit.now chips.now) }
    ensures memory { OnErr result (out.new.items ≡ out.old.items) }
{
    let mut sheet = Sheet::new(*out.allocator(), form);
    results_block(&mut sheet, number, audit, chips, equity)?;
    sheet.append_to(out)
}
