//! How many runouts each set of hands wins each side of each pot with, in one walk over a range of the listing.
//!
//! [`count_runouts_of`] goes through the listing slot after slot, card after card, and leaves out what lies before or after the
//! range. It hands the last cards of a runout to a [`Leaf`], which counts them and takes a step for each. Counts are a row of 2,048
//! numbers for each side of each pot, the high's row before the low's: [`clear_counts`] makes them 0.
//!
//! **One by one** ([`Plain`]: any deal). It is handed whole runouts. Each hand's value on a side is computed once a runout, for all pots.
//! Leaves that deal several cards and go through the runouts in one loop are crates above this one: `board_runouts` and `draw_runouts`.
//!
//! What leaves have in common stands here too. It says nothing of a game.
//!
//! - *Counts*: [`add_one`] adds a runout of a pot by the sets that win its sides, and [`add_times`] a number of them at a place of a row.
//!   [`side_row`] is the place of a side among the rows of a pot, and [`low_mark`] what is added to a high's place where somebody has
//!   a low.
//! - *Who wins*: [`best_of`] some hands by numbers, [`pot_best`] of those of a pot, and [`winners_on`] a side by values.
//! - *Tables*: that a table has ten places for hands and pots ([`ten_places`], [`ten_pots`]), and that the hands of a pot are among its
//!   hands ([`are_hands`], [`all_are_hands`]).
//! - *Lists*: a set's cards on the stack ([`CardList`]), and a table on the heap ([`filled`]).
#![tactic(auto)]

mod all;
mod bests;
mod branch;
mod card_list;
mod counts;
mod heap;
mod leaf;
mod plain;
mod range;

pub use all::count_runouts_of;
pub use bests::{Best, all_are_hands, are_hands, best_of, pot_best, ten_places};
pub use card_list::{CardList, DECK};
pub use counts::{add_one, add_times, clear_counts, low_mark, side_row, ten_pots};
pub use heap::filled;
pub use leaf::{Leaf, OpenSlot, Span};
pub use plain::{Plain, winners_on};
