//! Counts the runouts that end with a draw: a leaf of the walk of `runout_walk` for games without a board. It goes through the draws of the
//! last hand in one loop, each by itself.
//!
//! **Draws** ([`Draws`]: games without a board whose last slot takes one to three cards, or one or two where there are two sides). What
//! the last hand is worth with each draw stands in a table, filled once a spot. The numbers of a whole range are copied into a row. Each
//! of them then takes its step, and in each pot adds ones to two sums: of the draws at most as good as the best of the others, and of
//! those at least as good. From these come how many are below it, the same and above it; a set of winners belongs to each of the three. A
//! game of two sides has a table and a row for each, by the same calls; a hand without a low has the number 0 there. A draw then adds ones
//! to eight sums of each pot, for its high, its low and the two together, and of these sums come the nine outcomes of three orders on each
//! side. For the lows of three cards there is no room: 380 kB more.
//!
//! A game more is no change here if it has one side, and a value for every hand; with two sides it adds its line to the laws of
//! `LowWinners`.
#![tactic(auto)]

mod draws;
mod last;
mod numbers;
mod orders;
mod pairs;
mod rivals;
mod winners;

pub use draws::{Draws, are_draws};
