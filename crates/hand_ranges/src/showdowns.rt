//! The choices beside one full board.

ghost use Rattle.std.specs.Prelude.{◌≡◌, ℕ, ◌+◌, ◌*◌, ◌<◌, ◌≤◌, ◌^◌, [], ◌∷◌, length, map};
ghost use Rattle.hand_ranges.specs.Boards.{AllShown, AreEndsWithin, AreShown, EndsGrow, adds_beside, level_of, ranges_shown, weighted_in};
ghost use Rattle.range_lines.specs.Choices.{most_choices, walked};
ghost use Rattle.hand_ranges.specs.Taken.{AreValues, chosen};

use crate::beside::{Shown, ShownRange};
use crate::ends::Ends;
use crate::taken::Taken;
use crate::versus::compare;
use crate::winners::{top_of, tops};
use card_sets::CardSet;
use range_lines::Weighted;

/// A number above each value that is less than this one, and 0 below all.
#[inline]
fn level_of(top: Option<u32>) -> u64
    ensures { result ≡ level_of top }
{
    match top {
        Some(value) => u64::from(value) + 1,
        None => 0,
    }
}

/// Adds the choices of the hands that are taken with each hand of the last range.
fn add_last(hands: &[Shown], full: CardSet, taken: &Taken, ends: &mut Ends)
    // The hands that are taken are fewer than four, and what is kept of their values is right.
    requires five { length full ≡ 5 }
    requires four { length (chosen taken.now) < 4 }
    requires values { AreValues full (chosen taken.now) taken.now.values }
    requires shown { AreShown full hands.now }
    requires size { length hands.now ≤ 1326 }

    // The counts have room.
    requires few { ends.old.choices + length hands.now ≤ 2 ^ 80 }
    requires within { AreEndsWithin ends.old }

    // They grow by what those choices add in which no card is in two hands.
    ensures grows { EndsGrow ends.old ends.new (λ by_set each.
        walked (map weighted_in hands.now ∷ []) (chosen taken.now) (adds_beside full by_set each)) }
    ensures within { AreEndsWithin ends.new }
    ensures few { ends.new.choices ≤ ends.old.choices + length hands.now }
{
    taken.facts();
    let level = level_of(top_of(&taken.values, taken.count));
    let winners = tops(&taken.values, taken.count);
    let sums = compare(hands, taken.cards(), level);
    ends.add(winners, taken.count, taken.weight, sums);
}

/// Adds the choices that go on from some hands beside a full board, each by itself.
pub(crate) fn add_shown(lists: &[ShownRange], full: CardSet, taken: &Taken, ends: &mut Ends)
    // Some ranges are left, and there are four hands at the most. What is kept of the values is right.
    requires five { length full ≡ 5 }
    requires some { 0 < length lists.now }
    requires four { length (chosen taken.now) + length lists.now ≤ 4 }
    requires values { AreValues full (chosen taken.now) taken.now.values }
    requires shown { AllShown full lists.now }

    // The counts have room.
    requires few { ends.old.choices + most_choices (ranges_shown lists.now) ≤ 2 ^ 80 }
    requires within { AreEndsWithin ends.old }

    // They grow by what those choices add in which no card is in two hands.
    ensures grows { EndsGrow ends.old ends.new (λ by_set each.
        walked (ranges_shown lists.now) (chosen taken.now) (adds_beside full by_set each)) }
    ensures within { AreEndsWithin ends.new }
    ensures few { ends.new.choices ≤ ends.old.choices + most_choices (ranges_shown lists.now) }
{
    let [list, others @ ..] = lists else {
        unreachable!();
    };
    let hands = list.hands();
    if others.is_empty() {
        add_last(hands, full, taken, ends);
        return;
    }
    taken.facts();
    for shown in hands {
        if taken.is_apart(shown.hand) {
            let w = Weighted {
                hand: shown.hand,
                weight: shown.weight,
            };
            let more = taken.with(w, Some(shown.value));
            add_shown(others, full, &more, ends);
        }
    }
}
