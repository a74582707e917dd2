//! One worker's seat.

ghost use Rattle.std.specs.Prelude.{◌≡◌, ◌-◌, ◌<◌, ◌≤◌, length};
ghost use Rattle.showdown_tally.specs.Deals.{deal_of};
ghost use Rattle.showdown_tally.specs.Tallies.{runouts_after};
ghost use Rattle.job_blocks.specs.Blocks.{blocks_of};
ghost use Rattle.worker_seats.specs.Seating.{IsFresh, HasWorked};

use crate::desk::Desk;
use crate::lanes::{Lane, drain};
use crate::shared_book::SharedBook;
use crate::{BlockCounter, Gate};
use job_blocks::Job;
use std::sync::Wait;
use tally_book::Naming;

/// What one worker works with: a way to each deque, and what it counts with.
#[derive(Drop)]
pub struct Seat<N: Naming, C> {
    /// A way to each deque, by its number.
    pub(crate) lanes: Vec<Lane<N>>,
    /// What the worker counts with.
    pub(crate) desk: Desk<N, C>,
}

impl<N: Naming, C: BlockCounter> Seat<N, C> {
    /// Takes from each deque until its end mark, the worker's own first, and counts and posts each
    /// block that it gets.
    pub(crate) fn work<R: Wait, G: Gate>(
        &mut self,
        rt: &R,
        worker: usize,
        job: &Job,
        gate: &G,
        book: &SharedBook<N>,
    )
        requires named { deal_of job.now.table ≡ N.deal }
        requires worker { worker < N.all - 1 }
        requires few { N.all - 1 ≤ 16 }
        requires fresh { IsFresh (N.all - 1)
            (blocks_of (length (runouts_after N.deal.state))) self.old }
        ensures { HasWorked (N.all - 1)
            (blocks_of (length (runouts_after N.deal.state))) self.old self.new }
    {
        let Seat { lanes, desk } = self;
        let number = worker as u32;
        for deque in worker..lanes.len() {
            let lane = &mut lanes[deque];
            drain(rt, number, job, gate, book, lane, desk);
        }
        for deque in 0..worker {
            let lane = &mut lanes[deque];
            drain(rt, number, job, gate, book, lane, desk);
        }
    }
}
