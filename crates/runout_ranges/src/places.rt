//! Runouts by their index in the listing.

ghost use Rattle.std.specs.Prelude.{◌≡◌, ◌≤◌, ◌<◌, ◌^◌, ◌++◌, length, map, sum, slice_get, Some};
ghost use Rattle.card_sets.specs.Cards.{IsCardSet, IsRising};
ghost use Rattle.card_sets.specs.Choose.{choose};
ghost use Rattle.runout_ranges.specs.Runouts.{runouts};
ghost use Rattle.runout_ranges.specs.Slots.{counts_of};
ghost use Rattle.runout_ranges.specs.Shapes.{runouts_of};
ghost use Rattle.runout_ranges.specs.Ways.{binomial, ways};

use crate::counting::choices;
use crate::successor::Runout;
use crate::{Shape, Slot};
use card_sets::CardSet;

/// Returns all taken cards, with the choice of `missing` cards of the rest at a place. The rest
/// lies above the taken cards.
fn choice_at(taken: CardSet, rest: CardSet, missing: u32, place: u64) -> CardSet
    // The rest is a set.
    requires above { IsCardSet rest → IsRising (taken ++ rest) }
    requires inside { place < binomial (length rest) missing }
    ensures { slice_get (map (λ more. taken ++ more) (choose missing rest)) place ≡ Some result }
{
    if missing == 0 {
        return taken;
    }
    let Some(card) = rest.first() else {
        unreachable!();
    };
    let others = rest.without(card);
    let with_card = choices(others.count(), missing - 1);
    if place < with_card {
        return choice_at(taken.with(card), others, missing - 1, place);
    }
    choice_at(taken, others, missing, place - with_card)
}

/// Returns the number of ways to fill the slots from `left` cards, which is known to fit 64 bits.
pub fn count_ways(left: u32, slots: &[Slot]) -> u64
    requires deck { left ≤ 52 }
    requires enough { sum (counts_of slots.now) ≤ left }
    requires fits { ways left (counts_of slots.now) < 2 ^ 64 }
    ensures { result ≡ ways left (counts_of slots.now) }
{
    let [slot, later @ ..] = slots else {
        return 1;
    };
    let count = u32::from(slot.count);
    choices(left, count) * count_ways(left - count, later)
}

/// Fills the slots in the way at a place of the listing.
fn fill_at(unseen: CardSet, slots: &[Slot], sets: &mut [CardSet], place: u64)
    requires same { length slots.now ≡ length sets.old }
    requires enough { sum (counts_of slots.now) ≤ length unseen }
    requires fits { ways (length unseen) (counts_of slots.now) < 2 ^ 64 }
    requires inside { place < ways (length unseen) (counts_of slots.now) }
    ensures { slice_get (runouts unseen (counts_of slots.now)) place ≡ Some sets.new }
{
    let [slot, later @ ..] = slots else {
        return;
    };
    unseen.rising();
    let count = u32::from(slot.count);
    let later_ways = count_ways(unseen.count() - count, later);
    if later_ways == 0 {
        unreachable!();
    }
    let first = choice_at(CardSet::empty(), unseen, count, place / later_ways);
    sets[0] = first;
    fill_at(
        unseen.minus(first),
        later,
        &mut sets[1..],
        place % later_ways,
    );
}

/// Sets a runout to the one at an index of the shape's listing, from 0, whatever it was.
pub fn runout_at(shape: &Shape, index: u64, out: &mut Runout)
    requires fits { length (runouts_of shape.now) < 2 ^ 64 }
    requires inside { index < length (runouts_of shape.now) }
    ensures { slice_get (runouts_of shape.now) index ≡ Some out.new }
{
    shape.unseen.rising();
    let used = shape.used as usize;
    out.used = shape.used;
    fill_at(
        shape.unseen,
        &shape.slots[..used],
        &mut out.sets[..used],
        index,
    );
}
