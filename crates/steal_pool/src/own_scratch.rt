//! What a worker counts in.

ghost use Rattle.std.specs.Prelude.{◌<◌};
ghost use Rattle.equity_job.specs.Rooms.{IsReady};

use crate::blocks::tally_block;
use card_sets::Memory;
use equity_job::{Job, Scratch};
use showdown_tally::Tally;
use std::alloc::Global;
use worker_seats::{BlockCounter, Gate};

/// A scratch of a worker's own, with the parts that the count of a job uses.
#[derive(Drop)]
pub struct OwnScratch {
    /// The tables, which serve later jobs too.
    scratch: Scratch,
}

impl BlockCounter for OwnScratch {
    ghost ready = { λ job counter. 0 < job.shape.used → IsReady counter.scratch job };

    fn make(alloc: Global, job: &Job) -> Result<OwnScratch, Memory> {
        let mut scratch = Scratch::new();
        scratch.ready(alloc, job)?;
        Ok(OwnScratch { scratch })
    }

    fn make_ready(&mut self, alloc: Global, job: &Job) -> Result<(), Memory> {
        self.scratch.ready(alloc, job)
    }

    fn count<G: Gate>(&mut self, job: &Job, block: u32, worker: u32, gate: &G, tally: &mut Tally) {
        gate.enter(worker, block);
        tally_block(job, block, &mut self.scratch, tally);
    }
}
