//! Laws about the worth of hands: what players would say of the definitions that `rank_high` and
//! `rank_low` compute.
//!
//! The definitions speak of groups, lists, and numbers. The laws say in the words of the game which hand
//! beats which, what makes a category or a low, and that no five of the same cards beats the best five.
//! Numbers compare as hands do. Each law is a call that does nothing, and the program uses none of them.
#![tactic(auto)]

mod high;
mod low;

pub use high::{
    law_best_is_unbeaten, law_best_of_five, law_categories_are_usual, law_flush_beats_straight,
    law_flushes_by_ranks, law_groups_are_in_order, law_numbers_keep_order, law_ranks_decide,
    law_straights_are_usual, law_suits_dont_matter, law_three_beats_two_pair,
    law_ties_have_same_ranks, law_wheel_is_lowest,
};
pub use low::{
    law_ace_numbers_keep_order, law_ace_ties_have_same_ranks, law_best_ace_numbers_keep_order,
    law_best_eight_numbers_keep_order, law_deuce_numbers_keep_order,
    law_deuce_ties_have_same_ranks, law_five_to_ace_is_ace_high, law_five_to_ace_is_best,
    law_no_pair_beats_pair, law_qualify_by_ranks, law_ranks_alone_count, law_seven_low_is_best,
    law_straights_and_flushes_lose, law_straights_dont_count,
};
