//! A range of the listing of runouts, slot after slot.

ghost use Rattle.std.specs.Prelude.{◌≡◌, ℕ, ◌+◌, ◌-◌, ◌*◌, ◌<◌, ◌≤◌, ◌^◌, ◌==◌, ◌++◌, ◌&&◌, List, length, map, take};
ghost use Rattle.std.specs.List.{slice_range};
ghost use Rattle.runout_ranges.specs.Slots.{counts_of};
ghost use Rattle.runout_ranges.specs.Ways.{binomial};
ghost use Rattle.showdown_tally.specs.SideCounts.{CountsFit, CountsGrow};
ghost use Rattle.runout_walk.specs.Branches.{IsAt};
ghost use Rattle.runout_walk.specs.Listing.{going_on};

use crate::branch::{Branch, Places};
use crate::leaf::{Leaf, OpenSlot, Span};
use card_sets::CardSet;
use runout_ranges::{Slot, count_choices, count_ways};
use std::sync::ledger::Ledger;
use step_count::Steps;

/// Returns how many choices of `left` cards have the first card, if there are `others` besides it. With a number for k no division is left.
#[inline]
fn count_with(others: u32, left: u32) -> u64
    requires deck { others ≤ 52 }
    requires some { 1 ≤ left }
    requires within { left - 1 ≤ others }
    ensures { result ≡ binomial others (left - 1) }
{
    match left {
        1 => count_choices(others, 0),
        2 => count_choices(others, 1),
        3 => count_choices(others, 2),
        4 => count_choices(others, 3),
        5 => count_choices(others, 4),
        _ => count_choices(others, left - 1),
    }
}

/// Returns how many runouts have the first card of the rest, with `others` cards besides it and `each` ways to fill the later slots.
#[inline]
fn count_first(others: u32, left: u32, each: u64) -> u64
    requires deck { others ≤ 52 }
    requires some { 1 ≤ left }
    requires within { left - 1 ≤ others }
    requires fits { binomial others (left - 1) * each < 2 ^ 64 }
    ensures { result ≡ binomial others (left - 1) * each }
{
    count_with(others, left) * each
}

/// Whether no slot is left after one, and it gets as many cards as are dealt at once.
#[inline]
fn is_last(later: &[Slot], left: u32, depth: u32) -> bool
    ensures { result ≡ ((length later.now == 0) && (left == depth)) }
{
    later.is_empty() && left == depth
}

/// Counts the runouts that go on from a branch, from one place of the listing of these to another: for each pot, on each side. The sets
/// of the slots before it are the first ones, and those after them are overwritten. It takes a step a runout.
pub(crate) fn count_range<F: Leaf, L: Ledger>(
    leaf: &mut F,
    counts: &mut [[u32; 2048]],
    sets: &mut [CardSet],
    branch: &Branch<'_>,
    between: Places,
    steps: &mut Steps<L>,
)
    // The sets dealt before lead to this branch, and after them there is room for those of the later slots.
    requires at { IsAt (F.deal leaf.old) (F.depth (F.deal leaf.old))
        (take branch.now.slot sets.old) branch.now.unseen branch.now.tail.taken
        branch.now.tail.rest branch.now.tail.left branch.now.later.now branch.now.each }
    requires room { branch.now.slot + length branch.now.later.now ≤ length sets.old }

    // There is something between the places, and they lie in the listing of the ways to go on.
    requires order { between.lo < between.hi }
    requires inside { between.hi ≤ length
        (going_on branch.now.unseen branch.now.tail.taken branch.now.tail.rest branch.now.tail.left
        (counts_of branch.now.later.now)) }

    // Each pot has its two rows, and each of their counts has room for all that are counted.
    requires places { 2 * length (F.deal leaf.old).pots ≤ length counts.old }
    requires fits { CountsFit (F.deal leaf.old) counts.old (between.hi - between.lo) }

    // The ways to go on that are between the places are counted, each after the sets dealt before, and no others.
    ensures counts { CountsGrow (F.deal leaf.old)
        (map (λ more. take branch.now.slot sets.old ++ more)
        (slice_range
        (going_on branch.now.unseen branch.now.tail.taken branch.now.tail.rest branch.now.tail.left
        (counts_of branch.now.later.now)) between.lo between.hi))
        counts.old counts.new }

    // Sizes, the sets dealt before and the deal stay, and the steps are as many as the runouts.
    ensures places { length counts.new ≡ length counts.old }
    ensures front { take branch.now.slot sets.new ≡ take branch.now.slot sets.old }
    ensures room { length sets.new ≡ length sets.old }
    ensures steps { steps.new ≡ steps.old + (between.hi - between.lo) }
    ensures deal { F.deal leaf.new ≡ F.deal leaf.old }
{
    branch.unseen.rising();
    let tail = branch.tail;
    let lo = between.lo;
    let hi = between.hi;
    if is_last(branch.later, tail.left, leaf.depth()) {
        let front = &sets[..branch.slot];
        let span = Span {
            front,
            tail,
            lo,
            hi,
        };
        leaf.count(counts, &span, steps);
        return;
    }
    if tail.left == 0 {
        let [next, last @ ..] = branch.later else {
            unreachable!();
        };
        sets[branch.slot] = tail.taken;
        let cards = branch.unseen.minus(tail.taken);
        let count = u32::from(next.count);
        let inner = Branch {
            slot: branch.slot + 1,
            later: last,
            each: count_ways(cards.count() - count, last),
            unseen: cards,
            tail: OpenSlot {
                taken: CardSet::empty(),
                rest: cards,
                left: count,
            },
        };
        count_range(leaf, counts, sets, &inner, between, steps);
        return;
    }
    let Some(card) = tail.rest.first() else {
        unreachable!();
    };
    let others = tail.rest.without(card);
    let more = tail.taken.with(card);
    let with_card = count_first(others.count(), tail.left, branch.each);
    let with = Branch {
        tail: OpenSlot {
            taken: more,
            rest: others,
            left: tail.left - 1,
        },
        ..*branch
    };
    if hi <= with_card {
        count_range(leaf, counts, sets, &with, between, steps);
        return;
    }
    let without = Branch {
        tail: OpenSlot {
            taken: tail.taken,
            rest: others,
            left: tail.left,
        },
        ..*branch
    };
    if with_card <= lo {
        let later = Places {
            lo: lo - with_card,
            hi: hi - with_card,
        };
        count_range(leaf, counts, sets, &without, later, steps);
        return;
    }
    let first = Places { lo, hi: with_card };
    count_range(leaf, counts, sets, &with, first, steps);
    let rest = Places {
        lo: 0,
        hi: hi - with_card,
    };
    count_range(leaf, counts, sets, &without, rest, steps);
}
