//! Who counts a block.

ghost use Rattle.std.specs.Prelude.{◌<◌, length, IfOk, OnOk};
ghost use Rattle.card_sets.specs.State.{state_of};
ghost use Rattle.showdown_tally.specs.Deals.{deal_of};
ghost use Rattle.showdown_tally.specs.Tallies.{Counts, runouts_after};
ghost use Rattle.job_blocks.specs.Blocks.{block_of, blocks_of};
ghost use Rattle.job_blocks.specs.declared.jobs.Job.{Job as JobOf};

use crate::Gate;
use card_sets::Memory;
use job_blocks::Job;
use showdown_tally::Tally;
use std::alloc::Global;

/// Counts one block of a job after another, with tables of its own. Each worker has one.
pub trait BlockCounter: Drop {
    /// The counter has the tables that its count of a job uses.
    ghost ready: { JobOf → Self → Type 0 };

    /// Returns a new counter that is ready for a job. Only this call and `make_ready` ask for memory.
    fn make(alloc: Global, job: &Job) -> Result<Self, Memory>
        ensures { IfOk result (λ counter. ready job.now counter) };

    /// Makes a counter ready for a job, whatever it counted before. After `Memory` it can still count.
    fn make_ready(&mut self, alloc: Global, job: &Job) -> Result<(), Memory>
        ensures { OnOk result (ready job.now self.new) };

    /// Enters the gate with the worker's number and the block's, and then makes a tally that of the block, whatever it
    /// held. Nothing else calls a gate.
    fn count<G: Gate>(&mut self, job: &Job, block: u32, worker: u32, gate: &G, tally: &mut Tally)
        requires { block < blocks_of (length (runouts_after (state_of job.now.table.known))) }
        ensures { Counts (deal_of job.now.table)
            (block_of (runouts_after (state_of job.now.table.known)) block) tally.new };
}
