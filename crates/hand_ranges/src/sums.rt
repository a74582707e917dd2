//! The numbers of a tally of ranges, with those of a choice more.

ghost use Rattle.std.specs.Prelude.{◌≡◌, ℕ, ◌+◌, ◌*◌, ◌<◌, ◌≤◌, ◌^◌};
ghost use Rattle.runout_ranges.specs.declared.limits.TheConstants.{RUNOUT_MAX};
ghost use Rattle.range_lines.specs.Walks.{Column, GrowsBy, HasRoom, IsWithin, cell_and, choice_adds, hand_adds, sums_add};

use card_sets::Side;
use range_lines::{RangeCell, RangeTally};
use showdown_tally::{Cell, Tally};

/// Returns a sum, with `number` added `weight` times.
#[inline]
fn more(sum: u128, weight: u64, number: u64) -> u128
    requires sum { sum ≤ 2 ^ 124 }
    requires weight { weight ≤ 2 ^ 32 }
    ensures { result ≡ sum + weight * number }
{
    sum + u128::from(weight) * u128::from(number)
}

/// Returns a cell, with the runouts of another added `weight` times.
#[inline]
fn cell_more(sum: RangeCell, weight: u64, cell: Cell) -> RangeCell
    requires win { sum.win ≤ 2 ^ 124 }
    requires tie { sum.tie ≤ 2 ^ 124 }
    requires lose { sum.lose ≤ 2 ^ 124 }
    requires weight { weight ≤ 2 ^ 32 }
    ensures { result ≡ cell_and sum weight cell }
{
    RangeCell {
        win: more(sum.win, weight, cell.win),
        tie: more(sum.tie, weight, cell.tie),
        lose: more(sum.lose, weight, cell.lose),
    }
}

/// Adds how the runouts of a choice end for a player, `weight` times.
#[inline]
pub(crate) fn add_hand(total: &mut RangeTally, hand: u8, weight: u64, cell: Cell, units: u64)
    requires hand { hand < 4 }
    requires weight { weight ≤ 2 ^ 32 }
    requires room { HasRoom total.old hand }
    ensures { GrowsBy total.old total.new (hand_adds hand weight cell units) }
{
    let place = usize::from(hand);
    let sum = total.cells[place];
    let given = total.units[place];
    total.cells[place] = cell_more(sum, weight, cell);
    total.units[place] = more(given, weight, units);
}

/// Adds how the runouts of a choice end for the first `count` players, `weight` times.
fn add_hands(total: &mut RangeTally, count: u8, weight: u64, tally: &Tally)
    // There are four hands at the most, and the weight is that of a choice of them.
    requires count { count ≤ 4 }
    requires weight { weight ≤ 2 ^ 32 }

    // The tally has room for one choice more.
    requires few { total.old.choices < RUNOUT_MAX }
    requires within { IsWithin total.old }

    // It grows by what the count adds for these players, which is small.
    ensures grows { GrowsBy total.old total.new (sums_add count weight tally.now) }
    ensures small { (column : Column) → sums_add count weight tally.now column ≤ 2 ^ 96 }
{
    for hand in 0..count {
        let cell = tally.cell(0, hand, Side::High);
        let units = tally.units(0, hand);
        add_hand(total, hand, weight, cell, units);
    }
}

/// One choice more, and how often it counts.
#[inline]
pub(crate) fn end_choice(total: &mut RangeTally, weight: u64)
    requires few { total.old.choices < RUNOUT_MAX }
    requires room { total.old.weight ≤ 2 ^ 124 }
    requires weight { weight ≤ 2 ^ 32 }
    ensures { total.new
        ≡ record total.old { choices = total.old.choices + 1; weight = total.old.weight + weight } }
{
    total.choices += 1;
    total.weight += u128::from(weight);
}

/// Adds the count of a choice of `count` hands, as often as it counts.
pub(crate) fn add_count(total: &mut RangeTally, count: u8, weight: u64, tally: &Tally)
    // There are four hands at the most, and the weight is that of a choice of them.
    requires count { count ≤ 4 }
    requires weight { weight ≤ 2 ^ 32 }

    // The tally has room for one choice more.
    requires few { total.old.choices < RUNOUT_MAX }
    requires within { IsWithin total.old }

    // It grows by what the count adds, and by one choice.
    ensures grows { GrowsBy total.old total.new (choice_adds count weight tally.now) }
    ensures within { IsWithin total.new }
{
    add_hands(total, count, weight, tally);
    end_choice(total, weight);
}
