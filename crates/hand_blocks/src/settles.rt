//! The block of a hand's settlement: what the rules give of its pots, beside what was paid, and what each player is
//! still to get, or to give back. Each call appends whole lines, but for those that add words to one.

ghost use Rattle.std.specs.Prelude.{◌≡◌, ◌<◌, [], ◌∷◌, ◌++◌, OnOk, OnErr};
ghost use Rattle.std.specs.List.{flat_map};
ghost use Rattle.card_sets.specs.PlayerSets.{seats_in};
ghost use Rattle.hand_verdict.specs.SeatSums.{due_by, due_of};
ghost use Rattle.hand_blocks.specs.Settles.{accepted_settlement, are_checked, given_line, given_lines, odd_word, part_line, part_lines, part_title, settle_block, settle_line, settle_lines, settle_lines_of, settled_lines, settled_pot, settled_pots_from, share_line, shares_at, split_lines, units_words};
ghost use Rattle.report_sheet.specs.Sheets.{IsBetweenLines, with_line, with_lines, with_words};

use crate::hands::{accepted_hand, accepted_line, name_text, paid_line, pot_line, rejected_hand};
use card_sets::{Memory, PlayerSet};
use even_luck::{got_of, payment_of};
use hand_events::Names;
use hand_verdict::{
    HandAudit, PartShare, PartShares, Payment, PotLine, Settlement, SplitHand, Verdict,
};
use report_sheet::{Form, Sheet, side_word};
use std::alloc::AllocError;

/// What a seat is due, by payments of which it has at most one.
fn due_by(payments: &[Payment], seat: u8) -> u64
    ensures { result ≡ due_by payments.now seat }
{
    match payment_of(payments, seat) {
        Some(pay) => pay.due,
        None => 0,
    }
}

/// All that a seat is due of a hand.
fn due_of(settlement: &Settlement, seat: u8) -> u128
    ensures { result ≡ due_of settlement.now seat }
{
    let pots = settlement.pots.items();
    let _count = pots.len();
    let mut due = 0u128;
    for pot in pots {
        due += u128::from(due_by(pot.paid.items(), seat));
    }
    due + u128::from(due_by(settlement.paid.items(), seat))
}

/// Whether it is known who wins each pot.
fn are_checked(pots: &[PotLine]) -> bool
    ensures { result ≡ are_checked pots.now }
{
    pots.iter().all(|pot| pot.checked)
}

/// The shares of the parts of a pot, of those of all pots.
fn shares_at(parts: &[PartShares], k: usize) -> &[PartShare]
    ensures { result.now ≡ shares_at parts.now k }
{
    match parts.get(k) {
        Some(shares) => shares.items(),
        None => &[],
    }
}

/// How many odd units are in a share.
fn odd_word(odd: bool) -> &'static str
    ensures { result.now ≡ odd_word odd }
{
    if odd { "1" } else { "0" }
}

/// The first words of the line of a share. Pots count from 0, boards from 1.
#[tactic(auto, using(report_sheet::proofs::CallerLemmas::word_steps), unfolding(crate::specs::Settles::part_title))]
fn part_title(sheet: &mut Sheet, k: u64, share: &PartShare) -> Result<(), AllocError>
    ensures { OnOk result (sheet.new ≡ with_words sheet.old (part_title k share.now)) }
{
    sheet.name_and_number("part", k)?;
    sheet.number(u64::from(share.board))?;
    sheet.text(side_word(share.side))
}

/// What the winner gets.
#[tactic(auto, using(report_sheet::proofs::CallerLemmas::word_steps), unfolding(crate::specs::Settles::units_words))]
fn units_words(sheet: &mut Sheet, hundredths: bool, share: &PartShare) -> Result<(), AllocError>
    ensures { OnOk result (sheet.new
        ≡ with_words sheet.old (units_words hundredths share.now)) }
{
    sheet.name_and_money("units", hundredths, u128::from(share.units))?;
    sheet.name_and_word("odd", odd_word(share.odd))
}

/// The line of a share. Pots count from 0.
#[tactic(auto, using(report_sheet::proofs::CallerLemmas::sheet_steps), unfolding(crate::specs::Settles::part_line))]
fn part_line(
    sheet: &mut Sheet,
    hundredths: bool,
    names: &Names,
    k: u64,
    share: &PartShare,
) -> Result<(), AllocError>
    requires { IsBetweenLines sheet.old }
    ensures { OnOk result (sheet.new
        ≡ with_line sheet.old (part_line hundredths names.now k share.now)) }
{
    part_title(sheet, k, share)?;
    units_words(sheet, hundredths, share)?;
    sheet.end_with(name_text(names, share.seat))
}

/// What a player is due of a pot and what he got. Pots count from 0.
#[tactic(auto, using(report_sheet::proofs::CallerLemmas::sheet_steps), unfolding(crate::specs::Settles::share_line))]
fn share_line(
    sheet: &mut Sheet,
    hundredths: bool,
    names: &Names,
    k: u64,
    pay: &Payment,
) -> Result<(), AllocError>
    requires { IsBetweenLines sheet.old }
    ensures { OnOk result (sheet.new
        ≡ with_line sheet.old (share_line hundredths names.now k pay.now)) }
{
    sheet.name_and_number("share", k)?;
    sheet.name_and_money("due", hundredths, u128::from(pay.due))?;
    sheet.name_and_money("got", hundredths, u128::from(pay.got))?;
    sheet.end_with(name_text(names, pay.seat))
}

/// Appends what a player is due of a pot and got, or only what they got if the winners of the pot aren't known.
#[tactic(auto, unfolding(crate::specs::Settles::given_line))]
fn given_line(
    sheet: &mut Sheet,
    hundredths: bool,
    names: &Names,
    k: u64,
    checked: bool,
    pay: &Payment,
) -> Result<(), AllocError>
    requires { IsBetweenLines sheet.old }
    ensures { OnOk result (sheet.new
        ≡ with_line sheet.old (given_line hundredths names.now k checked pay.now)) }
{
    if checked {
        return share_line(sheet, hundredths, names, k, pay);
    }
    paid_line(sheet, hundredths, names, checked, pay)
}

/// The lines of some shares, in their order.
fn part_lines(
    sheet: &mut Sheet,
    hundredths: bool,
    names: &Names,
    k: u64,
    shares: &[PartShare],
) -> Result<(), AllocError>
    requires { IsBetweenLines sheet.old }
    ensures { OnOk result (sheet.new ≡ with_lines sheet.old
        (part_lines sheet.old.form hundredths names.now k shares.now)) }
{
    for share in shares {
        part_line(sheet, hundredths, names, k, share)?;
    }
    Ok(())
}

/// The lines of some payments, in their order.
fn given_lines(
    sheet: &mut Sheet,
    hundredths: bool,
    names: &Names,
    k: u64,
    checked: bool,
    payments: &[Payment],
) -> Result<(), AllocError>
    requires { IsBetweenLines sheet.old }
    ensures { OnOk result (sheet.new ≡ with_lines sheet.old
        (given_lines sheet.old.form hundredths names.now k checked payments.now)) }
{
    for pay in payments {
        given_line(sheet, hundredths, names, k, checked, pay)?;
    }
    Ok(())
}

/// A pot, the shares of its parts, and what each player is due and got of it. Pots count from 0.
#[tactic(auto, using(report_sheet::proofs::CallerLemmas::sheet_steps, report_sheet::proofs::CallerLemmas::lines_more), unfolding(crate::specs::Settles::settled_pot))]
fn settled_pot(
    sheet: &mut Sheet,
    settlement: &Settlement,
    names: &Names,
    shares: &[PartShare],
    k: u64,
    pot: &PotLine,
) -> Result<(), AllocError>
    requires { IsBetweenLines sheet.old }
    ensures { OnOk result (sheet.new ≡ with_lines sheet.old
        (settled_pot sheet.old.form settlement.now.hundredths settlement.now.fits names.now
        shares.now k pot.now)) }
{
    let Settlement {
        hundredths,
        fits,
        ..
    } = *settlement;
    pot_line(sheet, hundredths, fits, k, pot)?;
    part_lines(sheet, hundredths, names, k, shares)?;
    given_lines(sheet, hundredths, names, k, pot.checked, pot.paid.items())
}

/// The pots of a hand, the first of which is number 0.
fn settled_pots(
    sheet: &mut Sheet,
    settlement: &Settlement,
    names: &Names,
    parts: &[PartShares],
) -> Result<(), AllocError>
    requires { IsBetweenLines sheet.old }
    ensures { OnOk result (sheet.new ≡ with_lines sheet.old
        (settled_pots_from sheet.old.form settlement.now.hundredths settlement.now.fits
        names.now parts.now 0 settlement.now.pots)) }
{
    for (k, pot) in settlement.pots.items().iter().enumerate() {
        settled_pot(sheet, settlement, names, shares_at(parts, k), k as u64, pot)?;
    }
    Ok(())
}

/// What a player is still to get, or to give back.
#[tactic(auto, using(report_sheet::proofs::CallerLemmas::sheet_steps), unfolding(crate::specs::Settles::settle_line))]
fn settle_line(
    sheet: &mut Sheet,
    hundredths: bool,
    names: &Names,
    due: u128,
    got: u128,
    seat: u8,
) -> Result<(), AllocError>
    requires { IsBetweenLines sheet.old }
    ensures { OnOk result (sheet.new
        ≡ with_line sheet.old (settle_line hundredths names.now due got seat)) }
{
    sheet.text("settle")?;
    sheet.difference(hundredths, due, got)?;
    sheet.end_with(name_text(names, seat))
}

/// Appends what the player of a seat is still to get, or to give back, unless they got what they are due of all pots.
#[tactic(auto, using(report_sheet::proofs::CallerLemmas::no_lines), unfolding(crate::specs::Settles::settle_lines_of))]
fn settle_line_of(
    sheet: &mut Sheet,
    settlement: &Settlement,
    names: &Names,
    seat: u8,
) -> Result<(), AllocError>
    requires { IsBetweenLines sheet.old }
    ensures { OnOk result (sheet.new ≡ with_lines sheet.old
        (settle_lines_of sheet.old.form settlement.now names.now seat)) }
{
    let due = due_of(settlement, seat);
    let got = got_of(settlement, seat);
    if due == got {
        return Ok(());
    }
    settle_line(sheet, settlement.hundredths, names, due, got, seat)
}

/// Appends what each player is still to get, or to give back, by rising seat.
fn settle_each(
    sheet: &mut Sheet,
    settlement: &Settlement,
    names: &Names,
    players: PlayerSet,
) -> Result<(), AllocError>
    requires { IsBetweenLines sheet.old }
    ensures { OnOk result (sheet.new ≡ with_lines sheet.old
        (flat_map (settle_lines_of sheet.old.form settlement.now names.now)
        (seats_in players))) }
{
    for seat in 1..11u8 {
        if !players.has(seat) {
            continue;
        }
        settle_line_of(sheet, settlement, names, seat)?;
    }
    Ok(())
}

/// Appends what each player is still to get, or to give back, if the winners of each pot are known; otherwise nothing.
#[tactic(auto, using(report_sheet::proofs::CallerLemmas::no_lines), unfolding(crate::specs::Settles::settle_lines))]
fn settle_lines(
    sheet: &mut Sheet,
    settlement: &Settlement,
    names: &Names,
    players: PlayerSet,
) -> Result<(), AllocError>
    requires { IsBetweenLines sheet.old }
    ensures { OnOk result (sheet.new ≡ with_lines sheet.old
        (settle_lines sheet.old.form settlement.now names.now players)) }
{
    if !are_checked(settlement.pots.items()) {
        return Ok(());
    }
    settle_each(sheet, settlement, names, players)
}

/// The lines of a hand that can be settled, after its first.
#[tactic(auto, using(report_sheet::proofs::CallerLemmas::lines_more), unfolding(crate::specs::Settles::settled_lines))]
fn settled_lines(
    sheet: &mut Sheet,
    settlement: &Settlement,
    names: &Names,
    players: PlayerSet,
    parts: &[PartShares],
) -> Result<(), AllocError>
    requires { IsBetweenLines sheet.old }
    ensures { OnOk result (sheet.new ≡ with_lines sheet.old
        (settled_lines sheet.old.form settlement.now names.now players parts.now)) }
{
    settled_pots(sheet, settlement, names, parts)?;
    settle_lines(sheet, settlement, names, players)
}

/// The settlement of a hand in which no line departs.
#[tactic(auto, using(report_sheet::proofs::CallerLemmas::lines_more), unfolding(crate::specs::Settles::accepted_settlement))]
fn accepted_settlement(
    sheet: &mut Sheet,
    number: &[u8],
    settlement: &Settlement,
    names: &Names,
    players: PlayerSet,
    parts: &[PartShares],
) -> Result<(), AllocError>
    requires { IsBetweenLines sheet.old }
    ensures { OnOk result (sheet.new ≡ with_lines sheet.old
        (accepted_settlement sheet.old.form number.now settlement.now names.now players
        parts.now)) }
{
    if !settlement.fits {
        return accepted_hand(sheet, number, settlement, names);
    }
    accepted_line(sheet, number, settlement)?;
    settled_lines(sheet, settlement, names, players, parts)
}

/// The settlement of a hand that is rejected for its payments alone; nothing of another.
#[tactic(auto, using(report_sheet::proofs::CallerLemmas::no_lines))]
fn split_lines(
    sheet: &mut Sheet,
    split: &Option<SplitHand>,
    parts: &[PartShares],
) -> Result<(), AllocError>
    requires { IsBetweenLines sheet.old }
    ensures { OnOk result (sheet.new ≡ with_lines sheet.old
        (split_lines sheet.old.form split.now parts.now)) }
{
    match split {
        None => Ok(()),
        Some(hand) => {
            let SplitHand {
                settlement,
                names,
                players,
            } = hand;
            settled_lines(sheet, settlement, names, PlayerSet::of(*players), parts)
        }
    }
}

/// The settlement of a hand.
#[tactic(auto, using(report_sheet::proofs::CallerLemmas::lines_more))]
fn settle_block(
    sheet: &mut Sheet,
    number: &[u8],
    verdict: &Verdict,
    parts: &[PartShares],
) -> Result<(), AllocError>
    requires { IsBetweenLines sheet.old }
    ensures { OnOk result (sheet.new ≡ with_lines sheet.old
        (settle_block sheet.old.form number.now verdict.now.audit verdict.now.split parts.now)) }
{
    match &verdict.audit {
        HandAudit::Rejected {
            line,
            cause,
            hundredths,
        } => {
            rejected_hand(sheet, number, *line, *hundredths, cause)?;
            split_lines(sheet, &verdict.split, parts)
        }
        HandAudit::Accepted {
            settlement,
            names,
            players,
            ..
        } => {
            let players = PlayerSet::of(*players);
            accepted_settlement(sheet, number, settlement, names, players, parts)
        }
    }
}

/// Appends the settlement of a hand. Its first line is that of the verdict. Where the hand is accepted and the names
/// of the collections fit its pots, or it is rejected for its payments alone, there follow its pots: of one of which
/// it is known who wins it what each winner of a side of each part gets, and what each player is due and got; of
/// another what each player got. After them stands, where it is known who wins each pot, what each player is still
/// to get, or to give back. A hand whose names don't fit has the lines that `write_hand` writes of its payments, and
/// one that is rejected for another cause no line more. The parts are those of its pots. The number is that of the hand's
/// header, digit by digit. Out of memory leaves `out` as it was.
pub fn write_settlement(
    out: &mut Vec<u8>,
    number: &[u8],
    verdict: &Verdict,
    parts: &[PartShares],
    form: Form,
) -> Result<(), Memory>
    ensures block { OnOk result (out.new.items ≡ out.old.items
        ++ settle_block form number.now verdict.now.audit verdict.now.split parts.now) }
    ensures memory { OnErr result (out.new.items ≡ out.old.items) }
{
    let mut sheet = Sheet::new(*out.allocator(), form);
    settle_block(&mut sheet, number, verdict, parts)?;
    sheet.append_to(out)
}
