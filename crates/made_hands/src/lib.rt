//! Hands that a generator makes from a seed: whole histories of Texas Hold'em with two players.
//!
//! On the flop B bets their whole stack, A calls, and the winner is the one by the usual rules. The crate
//! reads nothing, and knows of no output.
//!
//! A hand is eleven draws of a linear congruential generator of 64 bits: nine cards, each from the set of
//! cards left, so that they differ, and two stacks. `rank_high` finds the winner by the best five of
//! seven cards, and the history is written piece after piece. The next hand begins with the state after
//! this one, so every hand costs the same.
#![tactic(auto)]

mod deals;
mod generator;
mod hands;
mod laws;
mod lines;
mod pieces;

pub use hands::made_input;
pub use laws::{law_deals_are_whole, law_made_text_is_short};
