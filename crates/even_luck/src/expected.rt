//! What a hand of the table could expect of the pots.

ghost use Rattle.std.specs.Prelude.{◌≡◌, ℕ, ◌*◌, ◌<◌, ◌≤◌, ◌^◌, length};
ghost use Rattle.even_luck.specs.Figures.{expected_units, given_to, gross_of, tally_figures};
ghost use Rattle.runout_ranges.specs.declared.limits.TheConstants.{RUNOUT_MAX};
ghost use Rattle.showdown_tally.specs.Cells.{units_at};
ghost use Rattle.showdown_tally.specs.Deals.{deal_of};

use crate::tables::pot_count;
use hand_verdict::PotLine;
use share_fractions::rounded;
use showdown_tally::{Table, Tally};

/// What a pot holds; nothing where it isn't there.
fn gross_of(pots: &[PotLine], k: u8) -> u64
    ensures { result ≡ gross_of pots.now k }
{
    match pots.get(usize::from(k)) {
        Some(pot) => pot.gross,
        None => 0,
    }
}

/// What some units of 1/5040 of a pot are, in 1/5040 of a unit of money.
fn given_by(gross: u64, units: u64) -> u128
    ensures { result ≡ gross * units }
{
    u128::from(gross) * u128::from(units)
}

/// What all runouts together give a hand of the pots below a number, in 1/5040 of a unit.
fn given_to(pots: &[PotLine], tally: &Tally, hand: u8, count: u8) -> u128
    requires hand { hand < 10 }
    requires few { count ≤ 10 }
    requires small { (k : ℕ) → k < 10 → units_at tally.now k hand ≤ 5040 * RUNOUT_MAX }
    ensures value { result ≡ given_to pots.now (tally_figures tally.now) hand count }
    ensures bound { result ≤ 10 * (2 ^ 64 * (5040 * RUNOUT_MAX)) }
{
    let mut given = 0;
    for k in 0..count {
        given += given_by(gross_of(pots, k), tally.units(k, hand));
    }
    given
}

/// What a hand of the table may expect of all pots, in units, rounded once.
pub fn expected_by(pots: &[PotLine], table: &Table, tally: &Tally, hand: u8) -> u128
    requires some { 0 < tally.now.runouts }
    requires hand { hand < 10 }
    requires small { (k : ℕ) → k < 10 → units_at tally.now k hand ≤ 5040 * RUNOUT_MAX }
    ensures value { result ≡ expected_units tally.now.runouts
        (given_to pots.now (tally_figures tally.now) hand (length (deal_of table.now).pots)) }
    ensures bound { result ≤ 2 ^ 95 }
{
    let given = given_to(pots, tally, hand, pot_count(table));
    rounded(given, 5040 * u128::from(tally.runouts()), 0).whole
}
