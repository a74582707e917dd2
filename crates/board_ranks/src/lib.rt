//! What hands are worth with a board by ranks, and where suits count, in the games with a board: hold'em, Omaha and Omaha Hi/Lo.
//!
//! 1. *A high in two parts.* [`plain_value`] is what own cards and a full board are worth by their ranks alone, [`suited_value`] what
//!    they are worth as a flush of one suit, and [`high_value`] the greater of the best of both: a law of `HighLaws`.
//! 2. *Ranks.* [`worth_with`] says what a hand is worth with three cards of the board and one card of each of two ranks more, whichever
//!    cards these are, as a high by ranks alone and as a low. Where any five make a hand it goes by how many cards there are of each
//!    rank. Where two own cards come to three of the board, a value is the best of ten look-ups: [`Threes`] has what the own cards are
//!    worth with each three ranks, 455 numbers a hand and side, and a board has ten threes of cards.
//! 3. *Suits.* [`most_of`] says how many cards for a flush of each suit a hand has at the most, [`suits_for`] of which suit somebody may
//!    have five with two cards more, in a table of sixteen bytes by the suits of the two, or that nobody has.
//! 4. *Pairs.* A [`Pair`] is two cards with their ranks and suits. A [`Sieve`] parts all pairs by such a table into the ranks of those
//!    that make nobody a flush, and the others: the pairs from one place to another are a stretch of each part. [`Sieves`] are kept.
//!
//! A game more with a board adds its line to `flush_part` (how many own cards a flush may have), its arm in `high.rt`, `worth.rt`,
//! `threes.rt` and `suits.rt`, and a line to each law of `HighLaws` and `HighCalls`: that its best five are the best by ranks or of one
//! suit, and that ranks alone decide the former. Which runouts there are, and who wins, is of crates above.
#![tactic(auto)]

mod board;
mod free;
mod high;
mod pair;
mod side_threes;
mod sieve;
mod sieves;
mod suits;
mod ten_threes;
mod three_ranks;
mod threes;
mod worth;

pub use high::{high_value, plain_value, suited_value};
pub use pair::Pair;
pub use sieve::{PAIRS_MAX, Sieve};
pub use sieves::Sieves;
pub use suits::{most_of, most_with, one_of, suits_for};
pub use threes::Threes;
pub use worth::{HandWithBoard, Worth, worth_with};
