//! Low hands: the worth of five cards, and of the best five of up to seven.
//!
//! There are two ways to rank a low. In ace-to-five the ace is low, and straights and flushes don't count.
//! A low of eight or better is ranked in this way. In deuce-to-seven the worst high hand is the best, the
//! ace is high, and five to ace is no straight. Less is better in both.
//!
//! **A value is one number**, and hands are compared by its digits in base 16. An ace-to-five low has the
//! sizes of the first two groups and then the ranks, 1 for an ace to 13 for a king. A deuce-to-seven low
//! has the digits of a high hand, with each ace 14.
//!
//! **The best five** of up to seven cards are found by counting how many cards have each rank. With five
//! ranks or more, the low is the five lowest. With four ranks, it is the lowest rank that two cards have,
//! and the three others. Only with fewer ranks is each five ranked. A low of eight or better is the first
//! case with no rank above eight. Deuce-to-seven has exactly five cards: their worth by ranks, or as a
//! flush.
//!
//! No call allocates memory, and none knows a game or a board. The laws of `rank_laws` say in a player's
//! words what the values mean, for example that any five different ranks beat a pair.
#![tactic(auto)]

mod best_five;
mod five_cards;
mod low_ranks;
mod values;

pub use best_five::{ace_five, deuce_seven, eight_or_better};
pub use five_cards::{ace_of_five, deuce_of_five};
pub use values::LowValue;
