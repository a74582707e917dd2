//! The cards still to be dealt in a known state, and every way to deal them, one after another.
//!
//! Clauses see a runout as a list of sets of cards, one for each slot, and all runouts of a shape as
//! the list `runouts_of`. `first_runout` and `advance` walk that list from its first member to its
//! last, `runout_at` gives the runout at an index, and `count_runouts` returns the length of the list.
//!
//! An equity is counted over at most `RUNOUT_MAX` runouts. `JobFault` says why an equity isn't counted.
//! This crate counts none.
#![tactic(auto)]

mod choices;
mod counting;
mod lacking;
mod laws;
mod limits;
mod places;
mod shapes;
mod successor;

pub use counting::{Above, choices as count_choices, count_runouts};
pub use lacking::shape;
pub use laws::{
    law_no_more_runouts, law_no_runout_twice, law_runouts_are_counted, law_runouts_fill_the_slots,
};
pub use limits::{JobFault, RUNOUT_MAX};
pub use places::{count_ways, runout_at};
pub use shapes::{Receiver, Shape, Slot};
pub use successor::{Runout, advance, first_runout};
