//! All seats at work.

ghost use Rattle.std.specs.Prelude.{◌≡◌, ℕ, ◌-◌, ◌<◌, ◌≤◌, length, slice_index_or};
ghost use Rattle.showdown_tally.specs.Deals.{deal_of};
ghost use Rattle.showdown_tally.specs.Tallies.{runouts_after};
ghost use Rattle.job_blocks.specs.Blocks.{blocks_of};
ghost use Rattle.worker_seats.specs.Joined.{HasTold, IsStarted, HasShared};
ghost use Rattle.worker_seats.specs.Seating.{IsFresh, HasWorked, AllFresh, AllHaveWorked};

use crate::joins::join_all;
use crate::seat::Seat;
use crate::shared_book::SharedBook;
use crate::{BlockCounter, Gate};
use job_blocks::Job;
use std::sync::Wait;
use std::thread;
use std::thread::Threads;
use tally_book::Naming;

/// Runs all seats, and joins their passes.
pub(crate) fn work_seats<
    N: Naming + Send + Sync,
    C: BlockCounter + Send,
    R: Threads + Wait + Sync,
    G: Gate + Sync,
>(rt: &R, seats: &mut Vec<Seat<N, C>>, job: &Job, gate: &G, book: &SharedBook<N>)
    // `N` names the deal of the job, and the number of the workers, 1 to 16.
    requires named { deal_of job.now.table ≡ N.deal }
    requires workers { (N.all - 1 ≤ 16) × (0 < N.all - 1) }

    // Nothing was taken yet, and each deque has its owner.
    requires started { IsStarted (N.all - 1)
        (blocks_of (length (runouts_after N.deal.state))) seats.old.items }

    // Each block was taken once and handed in by whoever took it; this goes by the rule over each deque.
    ensures shared { HasShared (N.all - 1)
        (blocks_of (length (runouts_after N.deal.state))) seats.old.items seats.new.items }
    ensures told { (d : ℕ) → d < N.all - 1
        → HasTold (N.all - 1) (blocks_of (length (runouts_after N.deal.state))) d seats.new.items }

    // Each seat still has a lane to each deque.
    ensures sized { (w : ℕ) (x : Seat N C) → w < N.all - 1
        → length (slice_index_or seats.new.items w x).lanes.items ≡ N.all - 1 }
{
    work_all(rt, seats.as_mut_slice(), job, gate, book);
}

/// Runs all seats of a slice, and joins their passes.
fn work_all<
    N: Naming + Send + Sync,
    C: BlockCounter + Send,
    R: Threads + Wait + Sync,
    G: Gate + Sync,
>(rt: &R, seats: &mut [Seat<N, C>], job: &Job, gate: &G, book: &SharedBook<N>)
    // `N` names the deal of the job, and the number of the workers, 1 to 16.
    requires named { deal_of job.now.table ≡ N.deal }
    requires workers { (N.all - 1 ≤ 16) × (0 < N.all - 1) }

    // Nothing was taken yet, and each deque has its owner.
    requires started { IsStarted (N.all - 1)
        (blocks_of (length (runouts_after N.deal.state))) seats.old }

    // Each block was taken once and handed in by whoever took it; this goes by the rule over each deque.
    ensures shared { HasShared (N.all - 1)
        (blocks_of (length (runouts_after N.deal.state))) seats.old seats.new }
    ensures told { (d : ℕ) → d < N.all - 1
        → HasTold (N.all - 1) (blocks_of (length (runouts_after N.deal.state))) d seats.new }

    // Each seat still has a lane to each deque.
    ensures sized { (w : ℕ) (x : Seat N C) → w < N.all - 1
        → length (slice_index_or seats.new w x).lanes.items ≡ N.all - 1 }
{
    run_seats(rt, seats, job, gate, book);
    join_all(seats, job.blocks());
}

/// Runs all seats, each in a thread of its own where one can be started, and else one after the
/// other.
fn run_seats<
    N: Naming + Send + Sync,
    C: BlockCounter + Send,
    R: Threads + Wait + Sync,
    G: Gate + Sync,
>(rt: &R, seats: &mut [Seat<N, C>], job: &Job, gate: &G, book: &SharedBook<N>)
    requires named { deal_of job.now.table ≡ N.deal }
    requires workers { (length seats.old ≡ N.all - 1) × (N.all - 1 ≤ 16) × (0 < N.all - 1) }
    requires fresh { AllFresh (N.all - 1)
        (blocks_of (length (runouts_after N.deal.state))) seats.old }
    ensures count { length seats.new ≡ length seats.old }
    ensures worked { AllHaveWorked (N.all - 1)
        (blocks_of (length (runouts_after N.deal.state))) seats.old seats.new }
{
    let threads = seats.len();
    let work = |worker: usize, seat: &mut Seat<N, C>|
        requires { (deal_of job.now.table ≡ N.deal) × (worker < N.all - 1) × (N.all - 1 ≤ 16)
            × IsFresh (N.all - 1) (blocks_of (length (runouts_after N.deal.state))) seat.old }
        ensures { HasWorked (N.all - 1)
            (blocks_of (length (runouts_after N.deal.state))) seat.old seat.new }
    { seat.work(rt, worker, job, gate, book) };
    thread::for_each_mut(rt, seats, threads, &work);
}
