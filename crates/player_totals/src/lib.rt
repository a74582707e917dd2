//! What the hands of a run come to: for each player by name, what he collected and could expect (`Totals`), or what he won
//! and lost (`Balance`), and of made hands what their all-ins give either seat (`MadeSums`).
//!
//! A hand is added by its verdict and the equity of its all-in, and the sums are written as one block: all of it, or, out of
//! memory, nothing. The crate knows of no input and of no output, and it counts nothing.
//!
//! One store keeps sums of either kind (`sums`, `player_rows`, `players`): an `IndexMap` with a row for each name and unit of
//! money, in the order in which they were first seen. An ordered map numbers the names, and the rows are found by number and unit,
//! so no choice of names makes a look-up slow. A hand is added in two steps. First the new names are inserted with the sums of no
//! hand. If memory is refused, the map is cut back to its old length. Then the sums are added, which takes no memory. A hand costs a
//! few look-ups for each seat line, however many hands there were. The lines are appended 64 at a time, so that memory contains
//! them once. If memory is refused, they are removed again.
#![tactic(auto)]

mod balance;
mod balance_lines;
mod balance_sums;
mod made_sums;
mod player_key;
mod player_rows;
mod player_sums;
mod players;
mod sums;
mod total_lines;
mod totals;

pub use balance::Balance;
pub use made_sums::{AllInSums, MadeSums};
pub use totals::Totals;
