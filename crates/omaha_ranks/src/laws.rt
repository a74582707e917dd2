//! Laws about what a high and a low depend on.

ghost use Rattle.omaha_ranks.specs.Omaha.{IsByRanksOrSuit, RanksDecide, ThreesDecide, LowRanksDecide, LowThreesDecide, OnlyLowCards};

/// The best high of two own cards and three of the board is the best by ranks alone, or the best of
/// one suit.
pub fn law_ranks_or_a_suit()
    ensures { IsByRanksOrSuit }
{}

/// Own cards and boards with the same ranks have the same worth by ranks alone.
pub fn law_ranks_decide()
    ensures { RanksDecide }
{}

/// By ranks alone the worth of own cards with a board is their worth with the best three of its cards.
pub fn law_best_three()
    ensures { ThreesDecide }
{}

/// Own cards and boards with the same ranks have the same low.
pub fn law_ranks_decide_lows()
    ensures { LowRanksDecide }
{}

/// As a low, too, the worth of own cards with a board is their worth with the best three of its cards.
pub fn law_best_three_lows()
    ensures { LowThreesDecide }
{}

/// Only the cards from ace to eight make a low of eight or better.
pub fn law_only_low_cards()
    ensures { OnlyLowCards }
{}
