//! What a player would have got of a hand with even luck.

ghost use Rattle.std.specs.Prelude.{◌≡◌, ℕ, ◌*◌, ◌<◌, ◌≤◌, ◌^◌, IfSome, length, true};
ghost use Rattle.even_luck.specs.Equities.{IsEquityOf, IsFull};
ghost use Rattle.even_luck.specs.EvenLuck.{even_got, even_of, known_even, shared_pots};
ghost use Rattle.even_luck.specs.Figures.{expected_units, given_to, gross_of, tally_figures};
ghost use Rattle.runout_ranges.specs.declared.limits.TheConstants.{RUNOUT_MAX};
ghost use Rattle.showdown_tally.specs.Cells.{units_at};
ghost use Rattle.showdown_tally.specs.Deals.{deal_of};

use crate::asked::AskedAllIn;
use crate::equity::Equity;
use crate::payments::{got_from, got_of};
use crate::seats::{contenders, hand_at};
use crate::tables::pot_count;
use hand_verdict::{AllIn, PotLine, Settlement};
use share_fractions::rounded;
use showdown_tally::{Table, Tally};

/// What the players of some seats got out of a pot together; nothing where it isn't there.
fn got_together(pots: &[PotLine], seats: &[u8], k: u8) -> u128
    requires few { length seats.now ≤ 10 }
    ensures value { result ≡ gross_of (shared_pots seats.now pots.now) k }
    ensures bound { result ≤ 10 * 2 ^ 64 }
{
    let mut got = 0u128;
    for seat in seats {
        got += u128::from(got_from(pots, k, *seat));
    }
    got
}

/// What some units of 1/5040 of a pot are, in 1/5040 of a unit of money.
fn part_of(got: u128, units: u64) -> u128
    requires got { got ≤ 10 * 2 ^ 64 }
    requires units { units ≤ 5040 * RUNOUT_MAX }
    ensures value { result ≡ got * units }
    ensures bound { result ≤ 10 * 2 ^ 64 * (5040 * RUNOUT_MAX) }
{
    got * u128::from(units)
}

/// What all runouts together give a hand of what the players of some seats got out of the pots below a
/// number, in 1/5040 of a unit.
fn given_of(pots: &[PotLine], seats: &[u8], tally: &Tally, hand: u8, count: u8) -> u128
    requires few_seats { length seats.now ≤ 10 }
    requires hand { hand < 10 }
    requires few { count ≤ 10 }
    requires small { (k : ℕ) → k < 10 → units_at tally.now k hand ≤ 5040 * tally.now.runouts }
    requires within { tally.now.runouts ≤ RUNOUT_MAX }
    ensures value { result
        ≡ given_to (shared_pots seats.now pots.now) (tally_figures tally.now) hand count }
    ensures bound { result ≤ 10 * (10 * 2 ^ 64 * (5040 * tally.now.runouts)) }
{
    let mut given = 0;
    for k in 0..count {
        given += part_of(got_together(pots, seats, k), tally.units(k, hand));
    }
    given
}

/// That in units, rounded once.
fn even_units(pots: &[PotLine], seats: &[u8], tally: &Tally, hand: u8, count: u8) -> u128
    requires some { 0 < tally.now.runouts }
    requires few_seats { length seats.now ≤ 10 }
    requires hand { hand < 10 }
    requires few { count ≤ 10 }
    requires small { (k : ℕ) → k < 10 → units_at tally.now k hand ≤ 5040 * tally.now.runouts }
    requires within { tally.now.runouts ≤ RUNOUT_MAX }
    ensures value { result ≡ expected_units tally.now.runouts
        (given_to (shared_pots seats.now pots.now) (tally_figures tally.now) hand count) }
    ensures bound { result ≤ 2 ^ 95 }
{
    let given = given_of(pots, seats, tally, hand, count);
    rounded(given, 5040 * u128::from(tally.runouts()), 0).whole
}

/// What a hand of the table would have got with even luck.
fn even_got(
    settlement: &Settlement,
    seats: &[u8; 10],
    table: &Table,
    tally: &Tally,
    hand: u8,
) -> u128
    requires some { 0 < tally.now.runouts }
    requires hand { hand < 10 }
    requires full { IsFull (deal_of table.now) tally.now }
    ensures value { result ≡ even_got settlement.now seats.now (deal_of table.now) hand }
    ensures bound { result ≤ 2 ^ 95 }
{
    even_units(
        settlement.pots.items(),
        contenders(seats, table),
        tally,
        hand,
        pot_count(table),
    )
}

/// Returns what a seat would have got with even luck, by a tally of all runouts of its hand's all-in.
fn counted_even(
    settlement: &Settlement,
    seats: &[u8; 10],
    table: &Table,
    tally: &Tally,
    seat: u8,
) -> Option<u128>
    requires fits { settlement.now.fits ≡ true }
    requires some { 0 < tally.now.runouts }
    requires full { IsFull (deal_of table.now) tally.now }
    ensures value { result ≡ known_even settlement.now seats.now (deal_of table.now) seat }
    ensures bound { IfSome result (λ even. even ≤ 2 ^ 95) }
{
    match hand_at(seats, table, seat) {
        Some(hand) => Some(even_got(settlement, seats, table, tally, hand)),
        None => Some(got_of(settlement, seat)),
    }
}

/// What a seat would have got with even luck of a hand with a known all-in, which is counted or refused.
fn known_even(
    settlement: &Settlement,
    seats: &[u8; 10],
    table: &Table,
    equity: &Equity,
    seat: u8,
) -> Option<u128>
    requires { IsEquityOf (deal_of table.now) equity.now }
    ensures value { result ≡ known_even settlement.now seats.now (deal_of table.now) seat }
    ensures bound { IfSome result (λ even. even ≤ 2 ^ 95) }
{
    if !settlement.fits {
        return None;
    }
    match equity.counted(table) {
        Some(tally) => counted_even(settlement, seats, table, tally, seat),
        None => None,
    }
}

/// What a seat would have got with even luck, with the equity of its hand's all-in. None where the hand has an
/// all-in that isn't counted or whose pots' names don't fit.
pub fn even_of(settlement: &Settlement, asked: &AskedAllIn, seat: u8) -> Option<u128>
    ensures value { result ≡ even_of settlement.now asked.now.all_in.now seat }
    ensures bound { IfSome result (λ even. even ≤ 2 ^ 95) }
{
    match asked.all_in {
        AllIn::None => Some(got_of(settlement, seat)),
        AllIn::Unknown => None,
        AllIn::Known { seats, table, .. } => {
            known_even(settlement, seats, table, asked.equity, seat)
        }
    }
}
