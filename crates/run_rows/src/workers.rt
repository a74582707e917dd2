//! Counts by several workers.

ghost use Rattle.std.specs.Prelude.{◌≤◌};

pub(crate) mod gates;

use crate::spots::{ACES_AND_KINGS, FIFTH_STREET, has_all_blocks, job_of};
use crate::workers::gates::{HoldsTheFirst, HoldsUntilFour};
use card_sets::Side;
use equity_job::{Job, Scratch, count_job};
use showdown_tally::Tally;
use std::alloc::Global;
use std::sync::Wait;
use std::test::Fail;
use std::thread::Threads;
use steal_pool::{OpenGate, count_with_workers};

/// Returns the job of aces against kings.
fn preflop() -> Option<Job> {
    job_of(ACES_AND_KINGS)
}

/// Returns the tally of a job by one call. Its memory isn't on the stack.
fn at_once(job: &Job) -> Tally {
    let mut scratch = Scratch::new();
    let mut tally = Tally::zero();
    count_job(job, &mut scratch, &mut tally);
    tally
}

/// Returns whether two tallies have the same numbers of runouts for both hands.
fn is_same(tally: &Tally, other: &Tally) -> bool {
    tally.cell(0, 0, Side::High) == other.cell(0, 0, Side::High)
        && tally.cell(0, 1, Side::High) == other.cell(0, 1, Side::High)
}

/// Returns whether `workers` workers count all blocks, and the same as one call.
fn count_the_same<R: Threads + Wait + Sync>(
    rt: &R,
    alloc: Global,
    job: &Job,
    workers: u32,
    tally: &Tally,
) -> bool
    requires { (1 ≤ workers) × (workers ≤ 16) }
{
    match count_with_workers(rt, alloc, job, workers, &OpenGate) {
        Ok(closed) => has_all_blocks(&closed) && is_same(&closed.total, tally),
        Err(_) => false,
    }
}

#[test]
fn a_free_worker_takes_the_blocks_of_a_held_one(rt: HostRuntime) -> Result<(), Fail> {
    let job = preflop().ok_or("a job")?;
    let gate = HoldsTheFirst::new();
    let closed = count_with_workers(&rt, rt.alloc(), &job, 2, &gate)
        .ok()
        .ok_or("memory")?;
    assert!(rt; gate.was_released(), "the held worker was released");
    assert_eq!(rt; closed.by_workers, 27, "the blocks by workers");
    Ok(())
}

#[test]
fn four_workers_are_inside_at_once(rt: HostRuntime) -> Result<(), Fail> {
    let job = job_of(FIFTH_STREET).ok_or("a job")?;
    let gate = HoldsUntilFour::new();
    let closed = count_with_workers(&rt, rt.alloc(), &job, 4, &gate)
        .ok()
        .ok_or("memory")?;
    assert!(rt; gate.were_four(), "four workers were inside at once");
    assert_eq!(rt;
        closed.total.runouts(),
        9_085_230,
        "the runouts of the total"
    );
    assert_eq!(rt; closed.by_workers, 139, "the blocks by workers");
    Ok(())
}

#[test]
fn workers_count_what_one_call_counts(rt: HostRuntime) -> Result<(), Fail> {
    let job = preflop().ok_or("a job")?;
    let tally = at_once(&job);
    for workers in [1, 2, 16] {
        assert!(rt;
            count_the_same(&rt, rt.alloc(), &job, workers, &tally),
            "{workers} workers"
        );
    }
    Ok(())
}
