//! How often each two of three sets win the two sides of a pot, by how some highs and their lows stand to the greatest of the others. Each
//! draw takes its step in the loop that adds it, to eight sums in each pot, and the nine outcomes come of these sums afterwards.

ghost use Rattle.std.specs.Prelude.{◌≡◌, ℕ, ◌+◌, ◌<◌, ◌≤◌, ◌^◌, length, slice_index};
ghost use Rattle.draw_runouts.specs.LastHand.{AddsTwo, ArePairOrders, ArePairSums, ArePairsStepped, HavePairRoom, marked_times, total_of};

use crate::orders::{Orders, PotSums, orders_of, put_orders};
use crate::winners::Winners;
use runout_walk::{add_times, low_mark};
use std::sync::ledger::Ledger;
use step_count::Steps;

/// How many highs and lows are no more than the greatest of the others in each pot, and how many no less.
#[derive(Clone, Copy)]
pub(crate) struct PairSums {
    /// The highs of all draws.
    pub(crate) highs: PotSums,
    /// The lows of all draws.
    pub(crate) lows: PotSums,
    /// The highs of the draws whose low is below the greatest of the others or the same.
    pub(crate) low_most: PotSums,
    /// The highs of the draws whose low is above it or the same.
    pub(crate) low_least: PotSums,
}

/// Adds to the two sums of a pot.
#[inline(always)]
fn add_two(sums: &mut PotSums, pot: u16, under: u32, over: u32)
    // There is such a pot, and both sums have room.
    requires pot { pot < 10 }
    requires at_most { slice_index sums.old.at_most pot + under < 2 ^ 32 }
    requires at_least { slice_index sums.old.at_least pot + over < 2 ^ 32 }

    ensures { AddsTwo pot under over sums.old sums.new }
{
    add_times(&mut sums.at_most, pot, under);
    add_times(&mut sums.at_least, pot, over);
}

/// How often each order of the low to the greatest of the others comes in a pot.
#[derive(Clone, Copy)]
pub(crate) struct PairOrders {
    /// In all draws.
    pub(crate) all: Orders,
    /// In the draws whose high is below the greatest of the others.
    pub(crate) below: Orders,
    /// In those where it is the same.
    pub(crate) equal: Orders,
    /// In those where it is above.
    pub(crate) above: Orders,
}

/// Adds a draw for each of the first pots, by how its high and its low compare with the greatest of the others there. It has no branch, so
/// the compiler can use instructions for several numbers.
#[inline(always)]
fn add_pair(
    highs: &[Winners],
    lows: &[Winners],
    pots: u8,
    value: u32,
    low_value: u32,
    sums: &mut PairSums,
)
    // There are up to ten pots, for each of which it is known who wins both sides, and each sum has room for one more.
    requires pots { pots ≤ 10 }
    requires highs { pots ≤ length highs.now }
    requires lows { pots ≤ length lows.now }
    requires room { HavePairRoom pots sums.old }

    // Each sum is greater by one if the high, the low or both of them pass its test.
    ensures { ArePairsStepped highs.now lows.now value low_value pots sums.old sums.new }
{
    for pot in 0..pots {
        let at = usize::from(pot);
        let high_sets = &highs[at];
        let low_sets = &lows[at];
        let top = high_sets.top;
        let low_top = low_sets.top;
        let place = u16::from(pot);
        let under = u32::from(value <= top);
        let over = u32::from(top <= value);
        let low_under = u32::from(low_value <= low_top);
        let low_over = u32::from(low_top <= low_value);
        add_two(&mut sums.highs, place, under, over);
        add_two(&mut sums.lows, place, low_under, low_over);
        add_two(
            &mut sums.low_most,
            place,
            low_under & under,
            low_under & over,
        );
        add_two(
            &mut sums.low_least,
            place,
            low_over & under,
            low_over & over,
        );
    }
}

/// Counts how some highs and their lows stand to the greatest of the others in each of the first pots. It takes a step for each two numbers,
/// where they are added.
#[inline(always)]
fn compare_both<L: Ledger>(
    highs: &[Winners],
    lows: &[Winners],
    pots: u8,
    values: &[u32],
    low_values: &[u32],
    steps: &mut Steps<L>,
) -> PairSums
    // There are up to ten pots, for each of which it is known who wins both sides.
    requires pots { pots ≤ 10 }
    requires highs { pots ≤ length highs.now }
    requires lows { pots ≤ length lows.now }

    // The numbers are few, and each as a high has one as a low.
    requires few { length values.now < 2 ^ 32 }
    requires each { length low_values.now ≡ length values.now }

    // In each pot each two numbers add one to each sum whose test they pass.
    ensures sums { ArePairSums highs.now lows.now pots values.now low_values.now result }
    ensures steps { steps.new ≡ steps.old + length values.now }
{
    let none = PotSums {
        at_most: [0u32; 10],
        at_least: [0u32; 10],
    };
    let mut sums = PairSums {
        highs: none,
        lows: none,
        low_most: none,
        low_least: none,
    };
    for place in 0..values.len() {
        steps.tick();
        add_pair(
            highs,
            lows,
            pots,
            values[place],
            low_values[place],
            &mut sums,
        );
    }
    sums
}

/// Counts how some highs and their lows stand in each pot. One, two, and three pots have a loop each. So the compiler knows the number of
/// pots, keeps their sums at hand, and takes several draws at once. More pots have too many sums for that, and share one loop.
pub(crate) fn compare_pairs<L: Ledger>(
    highs: &[Winners],
    lows: &[Winners],
    pots: u8,
    values: &[u32],
    low_values: &[u32],
    steps: &mut Steps<L>,
) -> PairSums
    // There are up to ten pots, for each of which it is known who wins both sides.
    requires pots { pots ≤ 10 }
    requires highs { length highs.now ≡ 10 }
    requires lows { length lows.now ≡ 10 }

    // The numbers are few, and each as a high has one as a low.
    requires few { length values.now < 2 ^ 32 }
    requires each { length low_values.now ≡ length values.now }

    // In each pot each two numbers add one to each sum whose test they pass.
    ensures sums { ArePairSums highs.now lows.now pots values.now low_values.now result }
    ensures steps { steps.new ≡ steps.old + length values.now }
{
    if pots == 1 {
        return compare_both(highs, lows, 1, values, low_values, steps);
    }
    if pots == 2 {
        return compare_both(highs, lows, 2, values, low_values, steps);
    }
    if pots == 3 {
        return compare_both(highs, lows, 3, values, low_values, steps);
    }
    compare_both(highs, lows, pots, values, low_values, steps)
}

/// How often each order of the low comes in a pot with each of the high. The orders of the high come of its sums in all draws, in those
/// whose low is at most the greatest of the others and in those where it is at least that; and for each of them the orders of the low come
/// of the three numbers that are found so.
#[inline]
pub(crate) fn pair_orders_at(
    highs: &[Winners],
    lows: &[Winners],
    at: usize,
    sums: &PairSums,
    values: &[u32],
    low_values: &[u32],
) -> PairOrders
    // There are up to ten pots and few numbers, each as a high with one as a low.
    requires pot { at < 10 }
    requires few { length values.now < 2 ^ 32 }
    requires each { length low_values.now ≡ length values.now }

    // The sums of the pots up to this one are those of the numbers.
    requires sums { ArePairSums highs.now lows.now (at + 1) values.now low_values.now sums.now }

    ensures { ArePairOrders highs.now lows.now at values.now low_values.now result }
{
    let count = values.len() as u32;
    let low_most = sums.lows.at_most[at];
    let low_least = sums.lows.at_least[at];
    let high = orders_of(count, sums.highs.at_most[at], sums.highs.at_least[at]);
    let most = orders_of(
        low_most,
        sums.low_most.at_most[at],
        sums.low_most.at_least[at],
    );
    let least = orders_of(
        low_least,
        sums.low_least.at_most[at],
        sums.low_least.at_least[at],
    );
    let all = orders_of(count, low_most, low_least);
    let below = orders_of(high.below, most.below, least.below);
    let equal = orders_of(high.equal, most.equal, least.equal);
    let above = orders_of(high.above, most.above, least.above);
    PairOrders {
        all,
        below,
        equal,
        above,
    }
}

/// Adds to the high's row how often each order of the low comes where a set wins the high: 1024 further where somebody has a low.
#[inline]
fn put_marked(row: &mut [u32], high: u16, lows: &Winners, orders: Orders)
    // The row has a place for each set of up to ten hands, with a low and without one, and each count has room for all of them.
    requires places { length row.old ≡ 2048 }
    requires high { high < 1024 }
    requires fits { (place : ℕ) → place < 2048
        → slice_index row.old place + total_of orders < 2 ^ 32 }

    ensures counts { (place : ℕ) → slice_index row.new place
        ≡ slice_index row.old place + marked_times high lows.now orders place }
    ensures places { length row.new ≡ length row.old }
{
    let below = high + low_mark(lows.below);
    let equal = high + low_mark(lows.equal);
    let above = high + low_mark(lows.above);
    put_orders(row, below, equal, above, orders);
}

/// Adds to the high's row how often each two sets win both sides.
#[inline]
pub(crate) fn put_highs(row: &mut [u32], highs: &Winners, lows: &Winners, orders: &PairOrders)
    // The row has a place for each set of up to ten hands, with a low and without one, and each count has room for all of them.
    requires places { length row.old ≡ 2048 }
    requires fits { (place : ℕ) → place < 2048
        → slice_index row.old place + (total_of orders.now.below + total_of orders.now.equal
        + total_of orders.now.above) < 2 ^ 32 }

    ensures counts { (place : ℕ) → slice_index row.new place ≡ slice_index row.old place
        + (marked_times highs.now.below lows.now orders.now.below place
        + marked_times highs.now.equal lows.now orders.now.equal place
        + marked_times highs.now.above lows.now orders.now.above place) }
    ensures places { length row.new ≡ length row.old }
{
    put_marked(row, highs.below, lows, orders.below);
    put_marked(row, highs.equal, lows, orders.equal);
    put_marked(row, highs.above, lows, orders.above);
}
