//! Low hands: the usual rules of lows, and the order of numbers.

ghost use Rattle.std.specs.Prelude.{◌≡◌, ℕ, List, length, Some};
ghost use Rattle.std.specs.Cmp.Lexicographic.{slice_cmp};
ghost use Rattle.std.specs.Ordering.{nat_cmp};
ghost use Rattle.card_sets.specs.Cards.{IsCardSet};
ghost use Rattle.rank_high.specs.High.{value_of};
ghost use Rattle.rank_low.specs.Low.{low_a5, low_27, ace_number, best_low, best_eight};
ghost use Rattle.rank_laws.specs.LowHands.{FiveToAceIsBest, RanksAloneCount, AceTiesHaveSameRanks, DeuceTiesHaveSameRanks, NoPairBeatsPair, StraightsDontCount, SevenLowIsBest, FiveToAceIsAceHigh, StraightsAndFlushesLose, QualifyByRanks};

/// The ace-to-five numbers of two fives compare as the fives do.
pub fn law_ace_numbers_keep_order()
    ensures { (a b : List ℕ) → IsCardSet a → IsCardSet b → length a ≡ 5 → length b ≡ 5
        → nat_cmp (ace_number (low_a5 a)) (ace_number (low_a5 b))
        ≡ slice_cmp nat_cmp (low_a5 a) (low_a5 b) }
{}

/// The deuce-to-seven numbers of two fives compare as the fives do.
pub fn law_deuce_numbers_keep_order()
    ensures { (a b : List ℕ) → length a ≡ 5 → length b ≡ 5
        → nat_cmp (value_of (low_27 a)) (value_of (low_27 b))
        ≡ slice_cmp nat_cmp (low_27 a) (low_27 b) }
{}

/// The numbers of the best ace-to-five lows of two sets compare as the lows do.
pub fn law_best_ace_numbers_keep_order()
    ensures { (a b x y : List ℕ) → IsCardSet a → IsCardSet b → best_low a ≡ Some x
        → best_low b ≡ Some y
        → nat_cmp (ace_number x) (ace_number y) ≡ slice_cmp nat_cmp x y }
{}

/// The numbers of the best lows of eight or better of two sets compare as the lows do.
pub fn law_best_eight_numbers_keep_order()
    ensures { (a b x y : List ℕ) → IsCardSet a → IsCardSet b → best_eight a ≡ Some x
        → best_eight b ≡ Some y
        → nat_cmp (ace_number x) (ace_number y) ≡ slice_cmp nat_cmp x y }
{}

/// Five, four, three, deuce, and ace are the best ace-to-five low.
pub fn law_five_to_ace_is_best()
    ensures { FiveToAceIsBest }
{}

/// Fives with the same ranks are worth the same as an ace-to-five low, whatever their suits.
pub fn law_ranks_alone_count()
    ensures { RanksAloneCount }
{}

/// Fives that are worth the same as an ace-to-five low have the same ranks.
pub fn law_ace_ties_have_same_ranks()
    ensures { AceTiesHaveSameRanks }
{}

/// Fives that are worth the same as a deuce-to-seven low have the same ranks, and both are a flush or neither.
pub fn law_deuce_ties_have_same_ranks()
    ensures { DeuceTiesHaveSameRanks }
{}

/// Five different ranks beat any five with a pair.
pub fn law_no_pair_beats_pair()
    ensures { NoPairBeatsPair }
{}

/// The worth of five different ranks is their ranks alone, consecutive or not.
pub fn law_straights_dont_count()
    ensures { StraightsDontCount }
{}

/// Seven, five, four, three, and deuce, not of one suit, are the best deuce-to-seven low.
pub fn law_seven_low_is_best()
    ensures { SevenLowIsBest }
{}

/// As a deuce-to-seven low five to ace is ace high, and no straight.
pub fn law_five_to_ace_is_ace_high()
    ensures { FiveToAceIsAceHigh }
{}

/// As a deuce-to-seven low a straight or a flush loses to five cards that have no pair and are neither.
pub fn law_straights_and_flushes_lose()
    ensures { StraightsAndFlushesLose }
{}

/// Some five of the cards qualify exactly if the cards have five ranks of eight or below, the ace low.
pub fn law_qualify_by_ranks()
    ensures { QualifyByRanks }
{}
