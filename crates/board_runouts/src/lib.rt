//! Counts the runouts that deal the board alone: leaves of the walk of `runout_walk` for hold'em, Omaha, and Omaha Hi/Lo.
//!
//! A leaf gets the first cards of a board and goes through all ways to finish that board in one loop, each by itself. Every runout is looked
//! at, takes its own step, and adds one to the counts of each pot. What the loop looks things up in is worked out before.
//!
//! # Boards
//!
//! [`Boards`] serves a board that lacks two cards or more. The walk deals all but the last two cards, the lowest first. Up to 1,176 pairs
//! can follow. Who wins with a pair depends on its ranks, or on a flush. Both are looked up, in what a `Front` carries:
//!
//! ```text
//!    first cards: 5h 9h Jc                         a pair after them: Qh Kd
//!                                                  ranks 10 and 11, suits h and d
//!  Front                                                   |
//!   +- rows[pot]   .mains[13 * 10 + 11]    who wins the high by ranks, and whether anyone has a low
//!   |              .lows[13 * 10 + 11]     who wins the low
//!   |              .tops[13 * 10 + 11]     the best high by ranks
//!   +- codes       .adds[13 * 10 + 11]     a one in the field of a sum that stands for this outcome
//!   +- suits       [4 * h + d]             the suit in which somebody may have a flush, 4 if there is none
//!   +- tags()      [h]                     the ranks of the board's hearts, with the Qh the key of a flush
//!                                                  |
//!  Flushes                                         v
//!   +- list[key]   .tops[pot] .sets[pot]   the best flush, and who has it
//! ```
//!
//! 1. *A row by ranks.* A row has the outcome of a pot for each pair of ranks. It depends on the ranks of the first cards alone, so the 455
//!    rows before the flop serve all first cards. A row is filled when its ranks are first met, and kept: there are up to 91 places for
//!    pairs, each of which costs a value for each hand and side. If any five cards make a hand, `fill` counts the ranks of a hand and the
//!    first cards once a row, adds the lower rank of a pair once for all its places, and adds the higher rank at each place. If two own
//!    cards go with three of the board, a value is the best of ten look-ups: `Threes` of `board_ranks`.
//! 2. *A code.* The outcomes of the rows of all pots are numbered, up to seven. The loop of `plain_ranks` looks up each pair by its ranks and
//!    adds a one to a sum, in the field of its code. A field has nine bits, so the fields go to the counts after at most 511 pairs. If there
//!    are more than seven outcomes, each pair goes to the counts directly.
//! 3. *Two parts.* For each count of suits of the first cards, of which there are up to twenty, a sieve of `board_ranks` parts all pairs once:
//!    the ranks of those that make nobody a flush, and the other pairs. The pairs after some first cards are a stretch of each part.
//! 4. *A flush.* A pair of the second part is compared by the best flush with the board's cards of its suit. One entry has the best flush of
//!    every pot, and is looked up once a pair. A new deal gets a new number, so nothing is cleared.
//! 5. *A flop.* It lacks two cards, so there are no first cards. Its row serves one front alone, so there are no codes and no sieve: each pair
//!    is asked its suits.
//!
//! `start` and `front` have the two values that these steps share, with their facts. `row`, `rows`, `sides`, and `fill` make rows, and `codes`
//! and `coded_rows` make codes. `flush`, `flushes`, and `suited` look up flushes, and `places` and `packed` add to the counts. `pairs`,
//! `parts`, `plain_ranks`, and `board_leaf` have the loops.
//!
//! # Rivers
//!
//! [`Rivers`] serves a board that lacks one card. By ranks there are thirteen boards, each worked out when its rank is first met. A card with
//! which somebody has five of a suit is settled hand by hand.
//!
//! # A further game
//!
//! `board_ranks` says what a hand is worth with a board, and which pairs may be a flush. A further game with a board is added there. Here it
//! is one line in the proofs that take the games one by one.
#![tactic(auto)]

mod board_leaf;
mod boards;
mod coded_rows;
mod codes;
mod deal;
mod fill;
mod flush;
mod flushes;
mod front;
mod packed;
mod pairs;
mod parts;
mod places;
mod plain_ranks;
mod rivers;
mod row;
mod rows;
mod sides;
mod spot;
mod start;
mod suited;

pub use boards::{Boards, are_boards};
pub use rivers::{Rivers, are_rivers};
