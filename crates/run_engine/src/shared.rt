//! Counting with several workers.

ghost use Rattle.std.specs.Prelude.{◌≡◌, ℕ, ◌<◌, ◌^◌, IfOk};
ghost use Rattle.card_sets.specs.State.{state_of};
ghost use Rattle.showdown_tally.specs.Deals.{deal_of};
ghost use Rattle.showdown_tally.specs.Tallies.{Counts, runouts_after};

use crate::alone::Alone;
use card_sets::Memory;
use equity_job::Job;
use hand_ranges::{RangeJobFault, RangeSpot, RangeTally};
use run_loop::Counter;
use showdown_tally::Tally;
use std::alloc::Global;
use std::sync::Wait;
use std::thread::Threads;
use steal_pool::{Gate, KeptScratches, count_with_kept};

/// The most workers that a count has.
const WORKERS_MAX: u32 = 16;

/// A job of fewer blocks is counted on the thread that asks: to start workers would take longer.
const BLOCKS_MIN: u32 = 8;

/// Counts with several workers where a job has many blocks, and else on the thread that asks.
///
/// Threads are started by a call that is handed in, since a method of a trait can't start any: that the runtime may
/// be shared is known in the function alone whose bound says so.
#[derive(Drop)]
pub(crate) struct Shared<'a, F> {
    /// Counts a job with a number of workers, in scratches that are kept.
    pub(crate) by_workers: F,
    /// The scratches of the run's workers, which are kept from job to job.
    pub(crate) kept: &'a mut KeptScratches,
    /// Counts what is counted on this thread.
    pub(crate) alone: &'a mut Alone,
}

impl<'a, F: Fn(&Job, u32, &mut KeptScratches) -> Result<Tally, Memory>> Counter for Shared<'a, F> {
    ghost ready = { ((f : F) (job : _) (w : ℕ) (kept : _) → w < 2 ^ 32 → F.pre f job w kept)
        × ((f : F) (job : _) (w : ℕ) (kept : _) (r : _) (after : _) → w < 2 ^ 32
        → F.post f job w kept r after
        → IfOk r (λ tally. Counts (deal_of job.now.table)
        (runouts_after (state_of job.now.table.known)) tally)) };

    fn count(&mut self, job: &Job, workers: u32, tally: &mut Tally) -> Result<(), Memory> {
        if workers < 2 || job.blocks() < BLOCKS_MIN {
            return self.alone.count_here(job, tally);
        }
        match (self.by_workers)(job, workers, self.kept) {
            Ok(total) => {
                *tally = total;
                Ok(())
            }
            Err(fault) => Err(fault),
        }
    }

    fn count_ranges(&mut self, spot: &RangeSpot) -> Result<RangeTally, RangeJobFault> {
        self.alone.ranges_here(spot)
    }
}

/// Returns the tally of a job by 1 to 16 workers, whose scratches are kept. It has a frame of its own, because
/// tallies go through the stack.
#[inline(never)]
pub(crate) fn count_shared<R: Threads + Wait + Sync, G: Gate + Sync>(
    rt: &R,
    alloc: Global,
    job: &Job,
    workers: u32,
    gate: &G,
    kept: &mut KeptScratches,
) -> Result<Tally, Memory>
    ensures { IfOk result (λ tally.
        Counts (deal_of job.now.table) (runouts_after (state_of job.now.table.known)) tally) }
{
    let workers = workers.clamp(1, WORKERS_MAX);
    let closed = count_with_kept(rt, alloc, job, workers, gate, kept)?;
    Ok(closed.total)
}
