//! The choices of a number of cards from a set, in order.

ghost use Rattle.std.specs.Prelude.{◌≡◌, ℕ, ◌≤◌, length, take, MatchOption};
ghost use Rattle.card_sets.specs.Choose.{choose};
ghost use Rattle.runout_ranges.specs.Runouts.{HasMember, Follows, Ends};

use card_sets::CardSet;

/// Returns the next choice with the same number of cards. `None` exactly after the last one.
///
/// The greatest chosen card with a free card above it moves up by one, and the chosen cards above it
/// follow right after it.
#[inline]
pub(crate) fn next_choice(cards: CardSet, chosen: CardSet) -> Option<CardSet>
    requires { HasMember (choose (length chosen) cards) chosen }
    ensures { MatchOption result
        (Ends (choose (length chosen) cards) chosen)
        (λ next. Follows (choose (length chosen) cards) chosen next) }
{
    cards.rising();
    chosen.rising();
    let mut low = cards;
    let mut left = chosen;
    while let Some(last) = left.last() {
        if let Some(next) = low.after(last) {
            let behind = chosen.above(last).count();
            let moved = left.without(last).with(next);
            return Some(moved.union(cards.above(next).least(behind)));
        }
        low = low.without(last);
        left = left.without(last);
    }
    None
}
