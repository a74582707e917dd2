//! Laws for callers that compare numbers or look for suits.

ghost use Rattle.std.specs.Prelude.{◌≡◌, ℕ, ◌≤◌, List, length};
ghost use Rattle.std.specs.Cmp.Lexicographic.{slice_cmp};
ghost use Rattle.std.specs.Ordering.{nat_cmp};
ghost use Rattle.rank_high.specs.High.{best_high, value_of};
ghost use Rattle.rank_high.specs.Parts.{IsByRanksOrSuit};

/// The numbers of the best fives of two sets compare as the fives do.
pub fn law_best_numbers_keep_order()
    ensures { (a b : List ℕ) → 5 ≤ length a → 5 ≤ length b
        → nat_cmp (value_of (best_high a)) (value_of (best_high b))
        ≡ slice_cmp nat_cmp (best_high a) (best_high b) }
{}

/// The best five of some cards are the best by their ranks alone, or the best of one suit.
pub fn law_ranks_or_a_suit()
    ensures { (cards : List ℕ) → IsByRanksOrSuit cards }
{}
