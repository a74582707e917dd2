//! Equities that can be counted, and the blocks of their runouts.
//!
//! A [`Job`] is a table with at most `RUNOUT_MAX` runouts. They are divided into blocks of [`BLOCK`], in
//! the order of their listing, so that a job can be counted in parts: each runout is in exactly one
//! block, and the sums of the blocks add up to those of the job. Nothing is counted here: `equity_job`
//! counts a block, `tally_book` books its counts, and `steal_pool` has several workers count.
#![tactic(auto)]

mod jobs;
mod laws;
mod limits;

pub use jobs::Job;
pub use laws::{law_block_sums_add, law_blocks_add_up, law_blocks_are_all};
pub use limits::BLOCK;
pub use runout_ranges::{JobFault, RUNOUT_MAX};
