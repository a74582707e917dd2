//! A count by several workers, from the start to its total.

ghost use Rattle.std.specs.Prelude.{◌≡◌, ◌+◌, ◌≤◌, length, IfOk};
ghost use Rattle.card_sets.specs.State.{state_of};
ghost use Rattle.showdown_tally.specs.Deals.{deal_of};
ghost use Rattle.showdown_tally.specs.Tallies.{Counts, runouts_after};
ghost use Rattle.job_blocks.specs.Blocks.{blocks_of};

use crate::{BlockCounter, Gate, KeptCounters, Seats};
use card_sets::Memory;
use job_blocks::Job;
use std::alloc::Global;
use std::marker::Brand;
use std::sync::Wait;
use std::sync::ledger::Blank;
use std::thread::Threads;
use tally_book::{Closed, Naming};

/// Counts a job by 1 to 16 workers. The total is that of all runouts, and `by_workers` is how many
/// blocks the workers posted: the caller posts what they leave. It takes all memory whose refusal
/// is answered before the first worker starts; a thread that can't be started is none.
pub fn count_with_workers<C: BlockCounter + Send, R: Threads + Wait + Sync, G: Gate + Sync>(
    rt: &R,
    job: &Job,
    workers: u32,
    gate: &G,
    alloc: Global,
) -> Result<Closed, Memory>
    requires workers { (1 ≤ workers) × (workers ≤ 16) }
    ensures total { IfOk result
        (λ c. Counts (deal_of job.now.table)
        (runouts_after (state_of job.now.table.known)) c.total) }
    ensures by_workers { IfOk result
        (λ c. c.by_workers ≤ blocks_of (length (runouts_after (state_of job.now.table.known)))) }
{
    let blank = Blank::new(workers as u64 + 1);
    count_among::<Brand, C, R, G>(
        rt,
        alloc,
        job,
        blank,
        workers,
        gate,
        &mut KeptCounters::new(),
    )
}

/// Counts a job like `count_with_workers`, with counters that are kept from job to job. The workers take kept counters, as far as
/// there are any, and new ones otherwise. Afterward all are kept. After `Memory`, counters that were kept before may be lost.
pub fn count_with_kept<C: BlockCounter + Send, R: Threads + Wait + Sync, G: Gate + Sync>(
    rt: &R,
    job: &Job,
    workers: u32,
    gate: &G,
    alloc: Global,
    kept: &mut KeptCounters<C>,
) -> Result<Closed, Memory>
    requires workers { (1 ≤ workers) × (workers ≤ 16) }
    ensures total { IfOk result
        (λ c. Counts (deal_of job.now.table)
        (runouts_after (state_of job.now.table.known)) c.total) }
    ensures by_workers { IfOk result
        (λ c. c.by_workers ≤ blocks_of (length (runouts_after (state_of job.now.table.known)))) }
{
    kept.make_room(alloc)?;
    let blank = Blank::new(workers as u64 + 1);
    count_among::<Brand, C, R, G>(rt, alloc, job, blank, workers, gate, kept)
}

/// Counts a job with the ledger that `N` names.
fn count_among<
    N: Naming + Send + Sync,
    C: BlockCounter + Send,
    R: Threads + Wait + Sync,
    G: Gate + Sync,
>(
    rt: &R,
    alloc: Global,
    job: &Job,
    blank: Blank,
    workers: u32,
    gate: &G,
    kept: &mut KeptCounters<C>,
) -> Result<Closed, Memory>
    // `N` names the deal of the job, and a ledger of which no part was split off.
    requires named { deal_of job.now.table ≡ N.deal }
    requires name { blank.name ≡ N.name }
    requires parts { blank.parts ≡ N.parts }

    // There is a part for each of 1 to 16 workers, and a spare one for the caller.
    requires workers { (1 ≤ workers) × (workers ≤ 16) × (N.parts ≡ workers + 1)
        × (N.all ≡ N.parts) }

    // The total is that of all runouts, and the workers posted no more blocks than there are.
    ensures total { IfOk result (λ c. Counts N.deal (runouts_after N.deal.state) c.total) }
    ensures by_workers { IfOk result
        (λ c. c.by_workers ≤ blocks_of (length (runouts_after N.deal.state))) }
{
    let mut seats = Seats::<N, C>::start_with(alloc, job, blank, workers, kept)?;
    seats.work(rt, job, gate);
    Ok(seats.finish_with(job, kept))
}
