//! A count by several workers.

ghost use Rattle.std.specs.Prelude.{◌≤◌, length, IfOk};
ghost use Rattle.card_sets.specs.State.{state_of};
ghost use Rattle.showdown_tally.specs.Deals.{deal_of};
ghost use Rattle.showdown_tally.specs.Tallies.{Counts, runouts_after};
ghost use Rattle.job_blocks.specs.Blocks.{blocks_of};

use crate::Gate;
use crate::own_scratch::OwnScratch;
use card_sets::Memory;
use equity_job::Job;
use std::alloc::Global;
use std::sync::Wait;
use std::thread::Threads;
use tally_book::Closed;
use worker_seats::KeptCounters;

/// The scratches that a run keeps for its workers from job to job, at most 16.
pub type KeptScratches = KeptCounters<OwnScratch>;

/// Counts a job by 1 to 16 workers. The total is that of all runouts, and `by_workers` is how many
/// blocks the workers posted: the caller posts what they leave. It takes all memory whose refusal
/// is answered before the first worker starts, a megabyte for each and some more; a thread that can't be started
/// is none.
pub fn count_with_workers<R: Threads + Wait + Sync, G: Gate + Sync>(
    rt: &R,
    alloc: Global,
    job: &Job,
    workers: u32,
    gate: &G,
) -> Result<Closed, Memory>
    requires workers { (1 ≤ workers) × (workers ≤ 16) }
    ensures total { IfOk result
        (λ c. Counts (deal_of job.now.table)
        (runouts_after (state_of job.now.table.known)) c.total) }
    ensures by_workers { IfOk result
        (λ c. c.by_workers ≤ blocks_of (length (runouts_after (state_of job.now.table.known)))) }
{
    worker_seats::count_with_workers::<OwnScratch, R, G>(rt, job, workers, gate, alloc)
}

/// Counts a job like `count_with_workers`, in scratches that are kept from job to job. Afterward `kept` has the scratches of all
/// workers. After `Memory`, scratches that were kept before may be lost.
pub fn count_with_kept<R: Threads + Wait + Sync, G: Gate + Sync>(
    rt: &R,
    alloc: Global,
    job: &Job,
    workers: u32,
    gate: &G,
    kept: &mut KeptScratches,
) -> Result<Closed, Memory>
    requires workers { (1 ≤ workers) × (workers ≤ 16) }
    ensures total { IfOk result
        (λ c. Counts (deal_of job.now.table)
        (runouts_after (state_of job.now.table.known)) c.total) }
    ensures by_workers { IfOk result
        (λ c. c.by_workers ≤ blocks_of (length (runouts_after (state_of job.now.table.known)))) }
{
    worker_seats::count_with_kept::<OwnScratch, R, G>(rt, job, workers, gate, alloc, kept)
}
