//! Who wins a pot, by the best of all hands but one and by the number of that one.

ghost use Rattle.std.specs.Prelude.{◌≡◌, ℕ, ◌+◌, ◌*◌, ◌<◌, ◌≤◌, ◌==◌, ◌^◌, [], if◌then◌else◌, true, length, slice_index, slice_index_or};
ghost use Rattle.std.specs.List.{count_by};
ghost use Rattle.card_sets.specs.Games.{has_side};
ghost use Rattle.card_sets.specs.PlayerSets.{has_player, hands_below};
ghost use Rattle.card_sets.specs.declared.games.Side.{Side};
ghost use Rattle.showdown_tally.specs.Deals.{deal_of};
ghost use Rattle.showdown_tally.specs.Showdown.{eligible_in, has_two_sides};
ghost use Rattle.showdown_tally.specs.SideCounts.{count_at};
ghost use Rattle.runout_walk.specs.Bests.{best_set, best_value, some_set};
ghost use Rattle.runout_walk.specs.OneMore.{set_place};
ghost use Rattle.draw_runouts.specs.LastHand.{count_both, value_with, won_at, won_by, won_set};

use crate::orders::{compare_pots, orders_at, put_orders};
use crate::pairs::{compare_pairs, pair_orders_at, put_highs};
use crate::winners::Winners;
use card_sets::PlayerSet;
use runout_walk::{Best, best_of, ten_places};
use showdown_tally::Table;
use std::sync::ledger::Ledger;
use step_count::Steps;

/// The three sets that win a pot, where the best of the others is known and the last hand is eligible, or isn't.
#[inline]
fn sets_of(best: Best, last: u8, plays: bool) -> Winners
    // The last hand is one of ten, and so are the best of the others, with it if it plays.
    requires last { last < 10 }
    requires room { 2 ^ last ≤ 512 }
    requires small { best.set + (if plays then 2 ^ last else 0) < 1024 }

    // Who is best of the others wins below that number, shares at it, and loses above it to the last hand, if that plays.
    ensures top { result.top ≡ best.top }
    ensures below { result.below ≡ best.set }
    ensures equal { result.equal ≡ best.set + (if plays then 2 ^ last else 0) }
    ensures above { result.above ≡ (if plays then 2 ^ last else best.set) }
{
    let bit = 1u16 << last;
    if plays {
        Winners {
            top: best.top,
            below: best.set,
            equal: best.set + bit,
            above: bit,
        }
    } else {
        Winners {
            top: best.top,
            below: best.set,
            equal: best.set,
            above: best.set,
        }
    }
}

/// Returns who wins by the last hand's number if a hand must qualify. A hand that doesn't qualify has the number 0 and never wins.
#[inline]
fn low_sets_of(best: Best, last: u8, plays: bool) -> Winners
    // The last hand is one of ten, and so are the best of the others, with it if it plays.
    requires last { last < 10 }
    requires room { 2 ^ last ≤ 512 }
    requires small { best.set + (if plays then 2 ^ last else 0) < 1024 }

    // As of a high, but that nobody wins with the number 0.
    ensures top { result.top ≡ best.top }
    ensures below { result.below ≡ (if best.top == 0 then 0 else best.set) }
    ensures equal { result.equal
        ≡ (if best.top == 0 then 0 else best.set + (if plays then 2 ^ last else 0)) }
    ensures above { result.above
        ≡ (if plays then 2 ^ last else (if best.top == 0 then 0 else best.set)) }
{
    let sets = sets_of(best, last, plays);
    if best.top == 0 {
        return Winners {
            top: 0,
            below: 0,
            equal: 0,
            above: if plays { sets.above } else { 0 },
        };
    }
    sets
}

/// Who wins a pot, by the number of the last hand, where hands have to qualify or needn't.
#[inline]
fn rivals_of(table: &Table, pot: u8, last: u8, values: &[u32; 10], qualify: bool) -> Winners
    // The pot and the hand are of the table.
    requires inside { pot < table.now.pots }
    requires last { last < table.now.known.count }

    // Whatever the number of the last hand is, the set that it picks of the three is that of those who win with it.
    ensures { (value : ℕ)
        → won_by result value
        ≡ won_set qualify (value_with values.now last value)
        (eligible_in (deal_of table.now) pot) }
{
    ten_places(table);
    let hands = PlayerSet::of(table.eligible[pot as usize]);
    let best = best_of(values, hands.without(last), table.known.count);
    let plays = hands.has(last);
    if qualify {
        return low_sets_of(best, last, plays);
    }
    sets_of(best, last, plays)
}

/// Returns who wins each pot, by the number of the last hand.
fn pot_rivals(table: &Table, last: u8, values: &[u32; 10], qualify: bool) -> [Winners; 10]
    // The hand is of the table.
    requires { last < table.now.known.count }

    // In each pot the number of the last hand picks the set of those who win with it.
    ensures winners { (pot value : ℕ) → pot < table.now.pots
        → won_at result pot value
        ≡ won_set qualify (value_with values.now last value)
        (eligible_in (deal_of table.now) pot) }
    ensures ten { length result ≡ 10 }
{
    ten_places(table);
    let none = Winners::none();
    let mut all = [none; 10];
    for pot in 0..table.pots {
        all[usize::from(pot)] = rivals_of(table, pot, last, values, qualify);
    }
    all
}

/// Which hand gets its cards last, and what the others are worth.
#[derive(Clone, Copy)]
pub(crate) struct Others {
    /// The last hand, from 0.
    pub(crate) last: u8,
    /// What each other hand is worth on the only side of the game, or as a high.
    pub(crate) numbers: [u32; 10],
    /// What it is worth as a low, in a game for both sides.
    pub(crate) lows: [u32; 10],
}

/// Counts who wins each pot if the last hand has each of some numbers and the others have theirs, in the row of a side. It takes a
/// step a number, in the loop that adds it.
pub(crate) fn count_pots<L: Ledger>(
    table: &Table,
    row: usize,
    others: &Others,
    values: &[u32],
    counts: &mut [[u32; 2048]],
    steps: &mut Steps<L>,
)
    // The high's row of each pot or the low's, and a hand of the table.
    requires row { row < 2 }
    requires last { others.now.last < table.now.known.count }

    // Each pot has its two rows, and each count has room for all of the numbers.
    requires few { length values.now < 2 ^ 32 }
    requires places { 2 * table.now.pots ≤ length counts.old }
    requires fits { (pot set : ℕ) → pot < table.now.pots → set < 2048
        → slice_index (slice_index_or counts.old (2 * pot + row) []) set + length values.now
        < 2 ^ 32 }

    // For each pot each number adds one to the set of those who are best with it.
    ensures counts { (pot set : ℕ) → pot < table.now.pots → set < 2048
        → slice_index (slice_index_or counts.new (2 * pot + row) []) set
        ≡ slice_index (slice_index_or counts.old (2 * pot + row) []) set
        + count_by
        (λ value. best_set (value_with others.now.numbers others.now.last value)
        (eligible_in (deal_of table.now) pot) == set) values.now }
    ensures places { length counts.new ≡ length counts.old }
    ensures steps { steps.new ≡ steps.old + length values.now }
{
    let rivals = pot_rivals(table, others.last, &others.numbers, false);
    let sums = compare_pots(&rivals, table.pots, values, steps);
    for pot in 0..table.pots {
        let at = usize::from(pot);
        let orders = orders_at(&rivals, at, &sums, values);
        let sets = &rivals[at];
        put_orders(
            &mut counts[2 * at + row],
            sets.below,
            sets.equal,
            sets.above,
            orders,
        );
    }
}

/// Counts who wins both sides of each pot if the last hand has each of some numbers as a high and as a low, and the others have theirs.
/// It takes a step for each two numbers, in the loop that adds them.
pub(crate) fn count_sides<L: Ledger>(
    table: &Table,
    others: &Others,
    values: &[u32],
    low_values: &[u32],
    counts: &mut [[u32; 2048]],
    steps: &mut Steps<L>,
)
    // The game is played for both sides, and the last hand is of the table.
    requires two { has_two_sides table.now.known.game ≡ true }
    requires last { others.now.last < table.now.known.count }

    // Its numbers are few, and each as a high has one as a low.
    requires few { length values.now < 2 ^ 32 }
    requires each { length low_values.now ≡ length values.now }

    // Each pot has its two rows, and each of their counts has room for all of the numbers.
    requires places { 2 * table.now.pots ≤ length counts.old }
    requires fits { (pot place : ℕ) (side : Side) → pot < table.now.pots
        → has_side side table.now.known.game ≡ true → place < 2048
        → count_at counts.old pot side place + length values.now < 2 ^ 32 }

    // On each side of each pot each two numbers add one to the count of those who win it with them: of the low nobody, where nobody has one.
    ensures counts { (pot place : ℕ) (side : Side) → pot < table.now.pots
        → has_side side table.now.known.game ≡ true
        → count_at counts.new pot side place ≡ count_at counts.old pot side place
        + count_both
        (λ value low. set_place side
        (best_set (value_with others.now.numbers others.now.last value) (eligible_in (deal_of table.now) pot))
        (some_set (value_with others.now.lows others.now.last low) (eligible_in (deal_of table.now) pot))
        == place) values.now low_values.now }
    ensures same { length counts.new ≡ length counts.old }
    ensures steps { steps.new ≡ steps.old + length values.now }
{
    let high_sets = pot_rivals(table, others.last, &others.numbers, false);
    let low_sets = pot_rivals(table, others.last, &others.lows, true);
    let sums = compare_pairs(&high_sets, &low_sets, table.pots, values, low_values, steps);
    for pot in 0..table.pots {
        let at = usize::from(pot);
        let orders = pair_orders_at(&high_sets, &low_sets, at, &sums, values, low_values);
        let highs_at = &high_sets[at];
        let lows_at = &low_sets[at];
        put_highs(&mut counts[2 * at], highs_at, lows_at, &orders);
        put_orders(
            &mut counts[2 * at + 1],
            lows_at.below,
            lows_at.equal,
            lows_at.above,
            orders.all,
        );
    }
}
