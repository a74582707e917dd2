//! High hands: the worth of five cards, and of the best five of up to seven.
//!
//! A hand has a category. Within a category the ranks of its groups decide, larger groups first and then
//! higher ranks. Suits never break a tie.
//!
//! **A value is one number** of six digits in base 16: the category, 8 for a straight flush to 0 for no
//! pair, and the ranks of the groups, 2 for a deuce to 14 for an ace. After the last group the digits are
//! 0. In five to ace the ace is 1 and comes last. Kings over tens with a four are 0x2da400. The greater
//! number is the better hand, so hands are compared as numbers.
//!
//! **The best five** of up to seven cards are the better of two: the best by ranks alone, and the best of
//! one suit. That is a law. The 21 ways to choose five are not tried.
//!
//! 1. *By ranks.* Some thirty operations on words make masks of the set's bits: the ranks of one card or
//!    more, of two or more, of three or more, and of four, and where five consecutive ranks begin. The
//!    result is the first category, from the best down, whose masks aren't empty. Its digits are the
//!    greatest ranks of the masks.
//! 2. *Of one suit.* If a suit has five cards or more, their worth by ranks is no pair or a straight. Five
//!    or four categories more make it a flush or a straight flush.
//!
//! [`high_by_ranks`] and [`high_of_suit`] are the two parts, for a caller that knows in which suit a flush
//! is possible. [`high_of_ranks`] is the first part for a caller that knows the ranks and not the cards.
//! [`high_of_five`] counts ranks and compares suits as the rules say, for five cards: the plain way. No
//! call allocates memory, and none knows a game or a board. The laws of `rank_laws` say in a player's
//! words what the values mean, for example that a flush beats a straight.
#![tactic(auto)]

mod best_five;
mod by_ranks;
mod five_cards;
mod laws;
mod rank_groups;
mod values;

pub use best_five::{high_by_ranks, high_of_ranks, high_of_set, high_of_suit};
pub use five_cards::{category, high_of_five, is_flush};
pub use laws::{law_best_numbers_keep_order, law_ranks_or_a_suit};
pub use rank_groups::{Groups, falls_by_one, group_ranks, rank_counts};
pub use values::{FLUSH, HighValue, ONE_PAIR, STRAIGHT_TO_FLUSH, value};
