//! Reports of whole runs: verdicts, blocks, sums, and words that are refused.

mod bytes;
mod changed_hands;
pub(crate) mod checks;
pub(crate) mod forms;
pub(crate) mod listed;
pub(crate) mod more_games;
pub(crate) mod other_games;
mod refusals;
mod sums;
mod words;
