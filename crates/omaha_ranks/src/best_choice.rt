//! The best of two own cards and three of the board. Choices that can't be better are skipped.

ghost use Rattle.std.specs.Prelude.{◌≡◌, ◌+◌, ◌≤◌, length, max, IsTrue};
ghost use Rattle.card_sets.specs.Cards.{union};
ghost use Rattle.card_sets.specs.Disjoint.{apart};
ghost use Rattle.omaha_ranks.specs.Worth.{worth, best_with, best_own};

use card_sets::{CardSet, Side};
use rank_high::high_by_ranks;
use rank_low::eight_or_better;

/// Returns the worth of the best five of some cards on a side, as a high by ranks alone. Greater is
/// better, and 0 is for no low.
#[inline]
fn worth(side: Side, cards: CardSet) -> u32
    requires least { 5 ≤ length cards }
    requires most { length cards ≤ 7 }
    ensures { result ≡ worth side cards }
{
    match side {
        Side::High => high_by_ranks(cards).number(),
        Side::Low => match eight_or_better(cards) {
            Some(low) => u32::MAX - low.number(),
            None => 0,
        },
    }
}

/// Returns the greater of a number and the best worth of the kept cards and `missing` cards of the
/// rest. The bound is the worth of the kept cards with all of the rest.
fn best_with(side: Side, kept: CardSet, rest: CardSet, missing: u32, bound: u32, best: u32) -> u32
    // The kept cards and the missing ones are five, chosen from up to seven different cards.
    requires five { length kept + missing ≡ 5 }
    requires enough { missing ≤ length rest }
    requires most { length kept + length rest ≤ 7 }
    requires apart { IsTrue (apart kept rest) }

    // With more cards to choose from the worth isn't less, so no choice exceeds the bound.
    requires bound { bound ≡ worth side (union kept rest) }

    // If the bound isn't above the number, no choice is tried.
    ensures { result ≡ max best (best_with side kept missing rest) }
{
    kept.rising();
    rest.rising();
    if bound <= best {
        return best;
    }
    if rest.count() <= missing {
        return bound;
    }
    if missing == 0 {
        return best.max(worth(side, kept));
    }
    let Some(card) = rest.first() else {
        return best;
    };
    let others = rest.without(card);
    let fewer = worth(side, kept.union(others));
    let left_out = best_with(side, kept, others, missing, fewer, best);
    best_with(side, kept.with(card), others, missing - 1, bound, left_out)
}

/// Returns the greater of a number and the best worth of the taken own cards, `missing` cards of
/// the rest of the own cards, and three cards of the board.
pub(crate) fn best_own(
    side: Side,
    taken: CardSet,
    rest: CardSet,
    missing: u32,
    board: CardSet,
    best: u32,
) -> u32
    // Two own cards go with three of the board.
    requires two { length taken + missing ≡ 2 }
    requires least { 3 ≤ length board }
    requires most { length board ≤ 5 }

    // No card is in two places.
    requires apart { IsTrue (apart taken rest) }
    requires own { IsTrue (apart taken board) }
    requires others { IsTrue (apart rest board) }

    // The number is passed from choice to choice, so a good early choice saves the others.
    ensures { result ≡ max best (best_own side taken missing rest board) }
{
    taken.rising();
    rest.rising();
    board.rising();
    if missing == 0 {
        let bound = worth(side, taken.union(board));
        return best_with(side, taken, board, 3, bound, best);
    }
    let Some(card) = rest.first() else {
        return best;
    };
    let others = rest.without(card);
    let left_out = best_own(side, taken, others, missing, board, best);
    best_own(side, taken.with(card), others, missing - 1, board, left_out)
}
