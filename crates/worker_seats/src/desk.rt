//! What a worker counts with.

ghost use Rattle.std.specs.Prelude.{◌≡◌, ◌<◌, length};
ghost use Rattle.card_sets.specs.State.{state_of};
ghost use Rattle.showdown_tally.specs.Deals.{deal_of};
ghost use Rattle.showdown_tally.specs.Tallies.{Counts, runouts_after};
ghost use Rattle.job_blocks.specs.Blocks.{block_of, blocks_of};

use crate::{BlockCounter, Gate};
use job_blocks::Job;
use showdown_tally::Tally;
use tally_book::{Naming, Part};

/// What one worker counts with: its part in the book, and a counter of blocks and a tally of its own.
#[derive(Drop)]
pub struct Desk<N: Naming, C> {
    /// The part of the ledger by which the worker posts.
    pub(crate) part: Part<N>,
    /// What counts a block.
    pub(crate) counter: C,
    /// The tally of the last block that was counted.
    pub(crate) tally: Tally,
}

impl<N: Naming, C: BlockCounter> Desk<N, C> {
    /// Counts a block into the desk's tally. The call has no book and no runtime, so it can't take a lock.
    pub(crate) fn count<G: Gate>(&mut self, worker: u32, block: u32, job: &Job, gate: &G)
        requires block { block
            < blocks_of (length (runouts_after (state_of job.now.table.known))) }
        ensures counted { Counts (deal_of job.now.table)
            (block_of (runouts_after (state_of job.now.table.known)) block) self.new.tally }
        ensures part { self.new.part ≡ self.old.part }
    {
        let Desk { counter, tally, .. } = self;
        counter.count(job, block, worker, gate, tally);
    }
}
