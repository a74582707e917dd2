//! High hands: the usual rules of poker, and the order of numbers.

ghost use Rattle.std.specs.Prelude.{◌≡◌, ℕ, ◌≤◌, List, length};
ghost use Rattle.std.specs.Cmp.Lexicographic.{slice_cmp};
ghost use Rattle.std.specs.Ordering.{nat_cmp};
ghost use Rattle.rank_high.specs.High.{groups, high, best_high, value_of};
ghost use Rattle.card_sets.specs.Cards.{IsCardSet};
ghost use Rattle.rank_high.specs.Parts.{RanksDecide};
ghost use Rattle.rank_laws.specs.OneSuit.{FlushesByRanks};
ghost use Rattle.rank_laws.specs.HighHands.{FlushBeatsStraight, ThreeBeatsTwoPair, SuitsDontMatter, TiesHaveSameRanks, WheelIsLowest, AreRanksInOrder, IsUsualCategory, IsUsualStraight, IsFive, IsBest};

/// The numbers of two fives compare as the fives do.
pub fn law_numbers_keep_order()
    ensures { (a b : List ℕ) → length a ≡ 5 → length b ≡ 5
        → nat_cmp (value_of (high a)) (value_of (high b)) ≡ slice_cmp nat_cmp (high a) (high b) }
{}

/// The best of five cards or more is the worth of some five of them, and no five is worth more.
pub fn law_best_is_unbeaten()
    ensures { (cards : List ℕ) → 5 ≤ length cards → IsBest cards (best_high cards) }
{}

/// The best of exactly five cards is their worth.
pub fn law_best_of_five()
    ensures { (five : List ℕ) → length five ≡ 5 → best_high five ≡ high five }
{}

/// A flush beats each straight that isn't a flush.
pub fn law_flush_beats_straight()
    ensures { FlushBeatsStraight }
{}

/// Three of a kind beats two pair, whatever the other cards are.
pub fn law_three_beats_two_pair()
    ensures { ThreeBeatsTwoPair }
{}

/// Fives with the same ranks, both a flush or neither, are worth the same.
pub fn law_suits_dont_matter()
    ensures { SuitsDontMatter }
{}

/// Fives that are worth the same have the same ranks, and both are a flush or neither.
pub fn law_ties_have_same_ranks()
    ensures { TiesHaveSameRanks }
{}

/// Five to ace is the lowest straight.
pub fn law_wheel_is_lowest()
    ensures { WheelIsLowest }
{}

/// The groups of a set are the ranks of its cards, each once, larger groups first and then higher ranks.
pub fn law_groups_are_in_order()
    ensures { (cards : List ℕ) → IsCardSet cards → AreRanksInOrder cards (groups cards) }
{}

/// A straight is five ranks in a row, or five to ace, and nothing else.
pub fn law_straights_are_usual()
    ensures { (five : List ℕ) → IsFive five → IsUsualStraight five }
{}

/// Each category has the cards that poker players expect of its name.
pub fn law_categories_are_usual()
    ensures { (five : List ℕ) → IsFive five → IsUsualCategory five }
{}

/// Cards with the same number of each rank have the same worth by ranks alone.
pub fn law_ranks_decide()
    ensures { RanksDecide }
{}

/// The worth of cards of one suit by ranks alone follows from that of their straights and flushes.
pub fn law_flushes_by_ranks()
    ensures { FlushesByRanks }
{}
