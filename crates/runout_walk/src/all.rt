//! A range of all runouts of a deal.

ghost use Rattle.std.specs.Prelude.{◌≡◌, ℕ, ◌+◌, ◌-◌, ◌*◌, ◌<◌, ◌≤◌, ◌^◌, length};
ghost use Rattle.std.specs.List.{slice_range};
ghost use Rattle.runout_ranges.specs.Shapes.{IsShapeOf};
ghost use Rattle.runout_ranges.specs.Slots.{slots};
ghost use Rattle.showdown_tally.specs.SideCounts.{CountsFit, CountsGrow};
ghost use Rattle.showdown_tally.specs.Tallies.{runouts_after};
ghost use Rattle.runout_walk.specs.Listing.{last_count};

use crate::branch::{Branch, Places};
use crate::leaf::{Leaf, OpenSlot};
use crate::range::count_range;
use card_sets::CardSet;
use runout_ranges::{Shape, count_ways};
use std::sync::ledger::Ledger;
use step_count::Steps;

/// Counts the runouts of a deal from one place of their listing to another: for each pot, on each side that it is played for, by the
/// place of a runout among the 2048 counts of the side's row, the high's row before the low's. It adds to the counts, takes one step a
/// runout, and no memory. The slots are those of the shape, of which there is one at the least, and the last of them lacks no fewer
/// cards than the leaf deals at once.
pub fn count_runouts_of<F: Leaf, L: Ledger>(
    leaf: &mut F,
    counts: &mut [[u32; 2048]],
    shape: &Shape,
    lo: u64,
    hi: u64,
    steps: &mut Steps<L>,
)
    // The shape is that of the leaf's deal. It has a slot, and the last one lacks no fewer cards than the leaf deals.
    requires shape { IsShapeOf (F.deal leaf.old).state shape.now }
    requires some { 0 < length (slots (F.deal leaf.old).state) }
    requires deep { F.depth (F.deal leaf.old) ≤ last_count (slots (F.deal leaf.old).state) }

    // Both places lie in the listing, whose length fits 64 bits.
    requires order { lo ≤ hi }
    requires inside { hi ≤ length (runouts_after (F.deal leaf.old).state) }
    requires fits64 { length (runouts_after (F.deal leaf.old).state) < 2 ^ 64 }

    // Each pot has its two rows, and each of their counts has room for all of the runouts.
    requires places { 2 * length (F.deal leaf.old).pots ≤ length counts.old }
    requires fits { CountsFit (F.deal leaf.old) counts.old (hi - lo) }

    // The runouts between the places are counted, and no others.
    ensures counts { CountsGrow (F.deal leaf.old)
        (slice_range (runouts_after (F.deal leaf.old).state) lo hi) counts.old counts.new }

    // Sizes and deal stay, and the steps are as many as the runouts, whatever the leaf looks at.
    ensures places { length counts.new ≡ length counts.old }
    ensures steps { steps.new ≡ steps.old + (hi - lo) }
    ensures deal { F.deal leaf.new ≡ F.deal leaf.old }
{
    if lo == hi {
        return;
    }
    let [first, later @ ..] = &shape.slots[..usize::from(shape.used)] else {
        unreachable!();
    };
    let cards = shape.unseen;
    cards.rising();
    let count = u32::from(first.count);
    let branch = Branch {
        slot: 0,
        later,
        each: count_ways(cards.count() - count, later),
        unseen: cards,
        tail: OpenSlot {
            taken: CardSet::empty(),
            rest: cards,
            left: count,
        },
    };
    let mut sets = [CardSet::empty(); 11];
    let between = Places { lo, hi };
    count_range(leaf, counts, &mut sets, &branch, between, steps);
}
