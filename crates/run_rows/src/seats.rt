//! Aces against kings before the flop, in 27 blocks.

ghost use Rattle.std.specs.Prelude.{◌≡◌, ◌+◌, ◌-◌, ◌<◌, ◌≤◌, [], ◌∷◌};
ghost use Rattle.showdown_tally.specs.Deals.{deal_of};

use crate::spots::{ACES_AND_KINGS, has_all_blocks, job_of};
use card_sets::Memory;
use equity_job::{Job, Scratch};
use std::alloc::Global;
use std::marker::Brand;
use std::sync::Wait;
use std::sync::ledger::Blank;
use std::test::Fail;
use std::thread::Threads;
use steal_pool::laws::Seats;
use steal_pool::{OpenGate, count_alone};
use tally_book::{Book, Closed, Naming};

/// Returns a count by one worker, with a ledger of its own.
fn counted_alone<N: Naming>(alloc: Global, job: &Job, blank: Blank) -> Result<Closed, Memory>
    requires named { deal_of job.now.table ≡ N.deal }
    requires name { blank.name ≡ N.name }
    requires parts { blank.parts ≡ N.parts }
    requires some { 0 < blank.parts }
{
    let (book, whole) = Book::<N>::start(alloc, job, blank)?;
    let mut scratch = Scratch::new();
    Ok(count_alone(job, book, whole, &mut scratch))
}

/// Returns a count by one worker.
fn by_one(alloc: Global, job: &Job) -> Result<Closed, Memory> {
    counted_alone::<Brand>(alloc, job, Blank::new(1))
}

/// The results of two workers.
#[derive(Drop)]
struct Work {
    /// The number of blocks that they took, each from both deques.
    taken: usize,
    /// Whether each of them has an end mark of both deques.
    ended: bool,
    /// Their count.
    closed: Closed,
}

/// Returns the number of blocks that two workers took, each from both deques.
fn taken_by_two<N: Naming>(seats: &Seats<N>) -> usize
    requires { N.all ≡ 3 }
{
    let mut taken: usize = 0;
    for worker in 0..2 {
        for deque in 0..2 {
            taken = taken.saturating_add(seats.taken(worker, deque).len());
        }
    }
    taken
}

/// Returns whether each of two workers has an end mark of both
/// deques.
fn have_ended<N: Naming>(seats: &Seats<N>) -> bool
    requires { N.all ≡ 3 }
{
    for worker in 0..2 {
        for deque in 0..2 {
            if !seats.ended(worker, deque) {
                return false;
            }
        }
    }
    true
}

/// Returns the seats of two workers, step by step.
fn worked<N: Naming + Send + Sync, R: Threads + Wait + Sync>(
    rt: &R,
    alloc: Global,
    job: &Job,
    blank: Blank,
) -> Result<Work, Memory>
    requires named { deal_of job.now.table ≡ N.deal }
    requires name { blank.name ≡ N.name }
    requires parts { blank.parts ≡ N.parts }
    requires workers { (N.parts ≡ 3) × (N.all ≡ 3) }
{
    let mut seats = Seats::<N>::start(alloc, job, blank, 2)?;
    seats.work(rt, job, &OpenGate);
    let taken = taken_by_two(&seats);
    let ended = have_ended(&seats);
    let closed = seats.finish(job);
    Ok(Work {
        taken,
        ended,
        closed,
    })
}

/// Returns what `worked` returns, with a ledger of its own.
fn by_two<R: Threads + Wait + Sync>(rt: &R, alloc: Global, job: &Job) -> Result<Work, Memory> {
    worked::<Brand, R>(rt, alloc, job, Blank::new(3))
}

#[test]
fn one_worker_counts_all_blocks(rt: HostRuntime) -> Result<(), Fail> {
    let job = job_of(ACES_AND_KINGS).ok_or("a job")?;
    let closed = by_one(rt.alloc(), &job).ok().ok_or("memory")?;
    assert!(rt;
        has_all_blocks(&closed),
        "one worker counts each runout and each block"
    );
    Ok(())
}

#[test]
fn two_workers_take_all_blocks(rt: HostRuntime) -> Result<(), Fail> {
    let job = job_of(ACES_AND_KINGS).ok_or("a job")?;
    let work = by_two(&rt, rt.alloc(), &job).ok().ok_or("memory")?;
    assert!(rt; work.ended, "each worker has an end mark of both deques");
    assert_eq!(rt; work.taken, 27, "the blocks that two workers took");
    assert!(rt;
        has_all_blocks(&work.closed),
        "two workers count each runout and each block"
    );
    Ok(())
}
