//! How often each of three sets wins a pot, by how some numbers stand to another. Each number takes its step in the loop that adds it: to
//! one of two sums, or where it is the same to both, so that two comparisons do for three orders.

ghost use Rattle.std.specs.Prelude.{◌≡◌, ℕ, ◌+◌, ◌<◌, ◌≤◌, ◌^◌, length, slice_index};
ghost use Rattle.std.specs.List.{count_by};
ghost use Rattle.draw_runouts.specs.LastHand.{AreStepped, AreSums, HaveRoom, is_above, is_below, is_equal, is_least, is_most, times_of, total_of};

use crate::winners::Winners;
use runout_walk::add_times;
use std::sync::ledger::Ledger;
use step_count::Steps;

/// How often the number of the last hand is below the greatest of the others, the same, and above, in a pot.
#[derive(Clone, Copy)]
pub(crate) struct Orders {
    /// How often it is below.
    pub(crate) below: u32,
    /// How often it is the same.
    pub(crate) equal: u32,
    /// How often it is above.
    pub(crate) above: u32,
}

/// How many numbers are no more than the greatest of the others in each pot, and how many no less.
#[derive(Clone, Copy)]
pub(crate) struct PotSums {
    /// How many are below it or the same.
    pub(crate) at_most: [u32; 10],
    /// How many are above it or the same.
    pub(crate) at_least: [u32; 10],
}

/// Adds a one for each of the first pots, by how a number stands to the greatest of the others there: to both sums where it is the same.
#[inline(always)]
fn add_number(rivals: &[Winners], pots: u8, value: u32, at_most: &mut [u32], at_least: &mut [u32])
    // For each pot it is known who wins, and both sums have room for one more.
    requires rivals { pots ≤ length rivals.now }
    requires at_most { HaveRoom pots at_most.old }
    requires at_least { HaveRoom pots at_least.old }

    // One of the two is greater by one, or both are.
    ensures at_most { AreStepped (is_most rivals.now value) pots at_most.old at_most.new }
    ensures at_least { AreStepped (is_least rivals.now value) pots at_least.old at_least.new }
{
    for pot in 0..pots {
        let at = usize::from(pot);
        let sets = &rivals[at];
        let top = sets.top;
        let place = u16::from(pot);
        let under = u32::from(value <= top);
        let over = u32::from(top <= value);
        add_times(at_most, place, under);
        add_times(at_least, place, over);
    }
}

/// Counts how some numbers stand to the greatest of the others in each of the first pots. It takes a step a number, where that is added.
#[inline(always)]
fn compare<L: Ledger>(rivals: &[Winners], pots: u8, values: &[u32], steps: &mut Steps<L>) -> PotSums
    // There are up to ten pots, for each of which it is known who wins.
    requires pots { pots ≤ 10 }
    requires rivals { pots ≤ length rivals.now }
    requires few { length values.now < 2 ^ 32 }

    // In each pot each number adds one to one of the two, or to both.
    ensures at_most { AreSums (is_most rivals.now) pots values.now result.at_most }
    ensures at_least { AreSums (is_least rivals.now) pots values.now result.at_least }
    ensures steps { steps.new ≡ steps.old + length values.now }
{
    let mut at_most = [0u32; 10];
    let mut at_least = [0u32; 10];
    for value in values {
        steps.tick();
        add_number(rivals, pots, *value, &mut at_most, &mut at_least);
    }
    PotSums { at_most, at_least }
}

/// Counts how some numbers stand in each pot. One, two, and three pots have a loop each, and more pots have a loop for ten. So the compiler
/// knows the number of pots, keeps their sums at hand, and takes several numbers at once.
pub(crate) fn compare_pots<L: Ledger>(
    rivals: &[Winners],
    pots: u8,
    values: &[u32],
    steps: &mut Steps<L>,
) -> PotSums
    // There are up to ten pots, for each of which it is known who wins.
    requires pots { pots ≤ 10 }
    requires rivals { length rivals.now ≡ 10 }
    requires few { length values.now < 2 ^ 32 }

    // In each pot each number adds one to one of the two, or to both.
    ensures at_most { AreSums (is_most rivals.now) pots values.now result.at_most }
    ensures at_least { AreSums (is_least rivals.now) pots values.now result.at_least }
    ensures steps { steps.new ≡ steps.old + length values.now }
{
    if pots == 1 {
        return compare(rivals, 1, values, steps);
    }
    if pots == 2 {
        return compare(rivals, 2, values, steps);
    }
    if pots == 3 {
        return compare(rivals, 3, values, steps);
    }
    compare(rivals, 10, values, steps)
}

/// How often each of the three orders comes among some numbers, by how many are at most the greatest of the others and how many at least:
/// what isn't at least that is below it, what isn't at most that is above it, and all others are the same.
#[inline]
pub(crate) fn orders_of(all: u32, most: u32, least: u32) -> Orders
    // Each of them is the one or the other, or both.
    requires most { most ≤ all }
    requires least { least ≤ all }
    requires each { all ≤ most + least }

    ensures below { result.below + least ≡ all }
    ensures above { result.above + most ≡ all }
    ensures all { total_of result ≡ all }
{
    let below = all - least;
    let above = all - most;
    let equal = all - below - above;
    Orders {
        below,
        equal,
        above,
    }
}

/// How often each of the three orders comes in a pot.
#[inline]
pub(crate) fn orders_at(rivals: &[Winners], at: usize, sums: &PotSums, values: &[u32]) -> Orders
    // There are up to ten pots, and the pot's two sums are those of the numbers.
    requires pot { at < 10 }
    requires few { length values.now < 2 ^ 32 }
    requires at_most { slice_index sums.now.at_most at
        ≡ count_by (λ value. is_most rivals.now value at) values.now }
    requires at_least { slice_index sums.now.at_least at
        ≡ count_by (λ value. is_least rivals.now value at) values.now }

    ensures below { result.below ≡ count_by (λ value. is_below rivals.now value at) values.now }
    ensures equal { result.equal ≡ count_by (λ value. is_equal rivals.now value at) values.now }
    ensures above { result.above ≡ count_by (λ value. is_above rivals.now value at) values.now }
{
    orders_of(values.len() as u32, sums.at_most[at], sums.at_least[at])
}

/// Adds to a row how often each of the three orders comes, each at a place.
#[inline]
pub(crate) fn put_orders(row: &mut [u32], below: u16, equal: u16, above: u16, orders: Orders)
    // The row has a place for each set of up to ten hands, with a low and without one, and the three are among these.
    requires places { length row.old ≡ 2048 }
    requires below { below < 2048 }
    requires equal { equal < 2048 }
    requires above { above < 2048 }

    // Each count has room for all of them, since the three places may be the same.
    requires fits { (place : ℕ) → place < 2048
        → slice_index row.old place + total_of orders < 2 ^ 32 }

    // A place that stands there more than once gets all that is added for it.
    ensures counts { (place : ℕ) → slice_index row.new place
        ≡ slice_index row.old place + times_of below equal above orders place }
    ensures places { length row.new ≡ length row.old }
{
    add_times(row, below, orders.below);
    add_times(row, equal, orders.equal);
    add_times(row, above, orders.above);
}
