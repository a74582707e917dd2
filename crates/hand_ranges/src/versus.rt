//! The hands of a range beside the best of the hands that are taken.

ghost use Rattle.std.specs.Prelude.{◌≡◌, ℕ, ◌+◌, ◌*◌, ◌<◌, ◌≤◌, ◌^◌, length};
ghost use Rattle.std.specs.List.{sum_by};
ghost use Rattle.hand_ranges.specs.Boards.{versus_adds, versus_worth};

use crate::beside::Shown;
use card_sets::CardSet;

/// How often hands that share no card with some are worse than them, as good as the best of them, or better.
#[derive(Clone, Copy)]
pub(crate) struct Versus {
    /// The weights of the hands that are worse.
    pub(crate) less: u64,
    /// The weights of those that are as good.
    pub(crate) same: u64,
    /// The weights of those that are better.
    pub(crate) more: u64,
    /// How many hands these are.
    pub(crate) hands: u64,
}

/// One hand more, where it has none of the cards. A value is less than a level, where with 1 more it still is, or the same, where it then is that.
#[inline(always)]
fn with_hand(old: Versus, shown: Shown, cards: CardSet, level: u64) -> Versus
    requires few { old.hands ≤ 2 ^ 32 }
    requires light { old.less + (old.same + old.more) ≤ 255 * old.hands }
    ensures worth { (less same more each : ℕ) → versus_worth result less same more each
        ≡ versus_worth old less same more each + versus_adds cards level less same more each shown }
    ensures few { result.hands ≤ old.hands + 1 }
    ensures light { result.less + (result.same + result.more) ≤ 255 * result.hands }
{
    if !shown.hand.is_apart(cards) {
        return old;
    }
    let weight = u64::from(shown.weight);
    let hands = old.hands + 1;
    let value = u64::from(shown.value) + 1;
    if level < value {
        return Versus {
            more: old.more + weight,
            hands,
            ..old
        };
    }
    if value == level {
        return Versus {
            same: old.same + weight,
            hands,
            ..old
        };
    }
    Versus {
        less: old.less + weight,
        hands,
        ..old
    }
}

/// The hands that have none of the cards, each by itself, beside a level: 1 above a value, or 0 below all values.
pub(crate) fn compare(hands: &[Shown], cards: CardSet, level: u64) -> Versus
    requires few { length hands.now ≤ 1326 }
    ensures worth { (less same more each : ℕ) → versus_worth result less same more each
        ≡ sum_by (versus_adds cards level less same more each) hands.now }
    ensures few { result.hands ≤ length hands.now }
    ensures light { result.less + (result.same + result.more) ≤ 255 * result.hands }
{
    let mut sums = Versus {
        less: 0,
        same: 0,
        more: 0,
        hands: 0,
    };
    for shown in hands {
        sums = with_hand(sums, *shown, cards, level);
    }
    sums
}
