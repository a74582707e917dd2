//! Equities that can be counted, and their count, one block of runouts after another.
//!
//! A `Job` of `job_blocks` is a table whose runouts are few enough. To count it is to settle each of its runouts once, and to add them up in
//! one `Tally`. The runouts stand in blocks of `BLOCK`, in the order of their listing, and `count_block` counts one of them,
//! so that a job can be counted in parts. `count_job` counts them all. Only [`Scratch::ready`] and
//! [`Scratch::ready_for_boards`] ask for memory.
//!
//! A block is counted in the [`Scratch`] that is lent: by what is lacking a leaf of `board_runouts`, of `draw_runouts` or of
//! `runout_walk` is chosen, which says how often each set of hands wins, and of that the block's tally is made. What the scratch
//! held before makes no difference, and what a leaf keeps in it of the same job spares work in the next block.
#![tactic(auto)]

mod blocks;
mod counting;
mod scratch;
mod span;

pub use blocks::{count_block, fill_block};
pub use counting::{count_blocks, count_job};
pub use job_blocks::{
    BLOCK, Job, JobFault, RUNOUT_MAX, law_block_sums_add, law_blocks_add_up, law_blocks_are_all,
};
pub use scratch::Scratch;
