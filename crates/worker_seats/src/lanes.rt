//! What one worker takes from one deque.

ghost use Rattle.std.specs.Prelude.{◌≡◌, ℕ, ◌-◌, ◌<◌, ◌≤◌, ◌||◌, [], true, false, length, vec_capacity, IfOk};
ghost use Rattle.showdown_tally.specs.Deals.{deal_of};
ghost use Rattle.showdown_tally.specs.Tallies.{runouts_after};
ghost use Rattle.job_blocks.specs.Blocks.{blocks_of};
ghost use Rattle.tally_book.specs.Parts.{is_handed};
ghost use Rattle.tally_book.specs.declared.limits.TheConstants.{BLOCKS_MAX};
ghost use Rattle.worker_seats.specs.Reaches.{StaysOf};
ghost use Rattle.worker_seats.specs.Lanes.{IsALane, StaysLane, Gets, is_in};
ghost use Rattle.worker_seats.specs.Seating.{IsUntouched};

use crate::desk::Desk;
use crate::reaches::Reach;
use crate::shared_book::SharedBook;
use crate::{BlockCounter, Gate};
use card_sets::Memory;
use job_blocks::Job;
use std::alloc::Global;
use std::sync::Wait;
use std::thread;
use tally_book::Naming;

/// What a take gives.
pub enum Got {
    /// A block.
    Block(u32),
    /// The worker's end mark of this deque.
    End,
    /// Nothing: the deque was empty at one moment.
    Nothing,
}

/// One worker's way to one deque, with the blocks that it took there, in order, and whether it took
/// an end mark.
#[derive(Drop)]
pub struct Lane<N: Naming> {
    /// How the worker takes from the deque.
    pub(crate) reach: Reach<N>,
    /// The blocks that were taken, in order.
    pub(crate) taken: Vec<u32>,
    /// An end mark was taken.
    pub(crate) ended: bool,
}

impl<N: Naming> Lane<N> {
    /// Returns a lane with room for `room` blocks, of which none is taken.
    pub(crate) fn new(alloc: Global, reach: Reach<N>, room: usize) -> Result<Lane<N>, Memory>
        ensures reach { IfOk result (λ lane. lane.reach ≡ reach) }
        ensures untouched { IfOk result (λ lane. IsUntouched lane) }
        ensures room { IfOk result (λ lane. room ≤ vec_capacity lane.taken) }
    {
        Ok(Lane {
            reach,
            taken: Vec::with_capacity(alloc, room)?,
            ended: false,
        })
    }

    /// Takes from the deque. An end mark is a number that isn't below the number of blocks.
    pub(crate) fn take<R: Wait>(&mut self, rt: &R, blocks: u32) -> Got
        requires lane { IsALane (N.all - 1) blocks self.old }
        requires more { self.old.ended ≡ false }
        ensures lane { StaysLane (N.all - 1) blocks self.old self.new }
        ensures got { Gets result (N.all - 1) blocks self.old self.new }
        ensures same { StaysOf self.old.reach self.new.reach }
    {
        let Lane {
            reach,
            taken,
            ended,
        } = self;
        let Some(number) = reach.take(rt) else {
            return Got::Nothing;
        };
        if number < blocks {
            taken.push_reserved(number);
            Got::Block(number)
        } else {
            *ended = true;
            Got::End
        }
    }
}

/// Takes from a deque until its end mark, and counts each block.
pub(crate) fn drain<N: Naming, C: BlockCounter, R: Wait, G: Gate>(
    rt: &R,
    worker: u32,
    job: &Job,
    gate: &G,
    book: &SharedBook<N>,
    lane: &mut Lane<N>,
    desk: &mut Desk<N, C>,
)
    // `N` names the deal of the job.
    requires named { deal_of job.now.table ≡ N.deal }

    // The lane leads to some deque, from which nothing was taken by it.
    requires lane { IsALane (N.all - 1) (blocks_of (length (runouts_after N.deal.state))) lane.old }
    requires fresh { (lane.old.taken.items ≡ []) × (lane.old.ended ≡ false) }

    // It still leads there, and has its end mark, after which it takes nothing.
    ensures lane { StaysLane (N.all - 1)
        (blocks_of (length (runouts_after N.deal.state))) lane.old lane.new }
    ensures ended { lane.new.ended ≡ true }
    ensures same { StaysOf lane.old.reach lane.new.reach }

    // Just what it took was handed in with the worker's part, besides what had been.
    ensures handed { (b : ℕ) → b < BLOCKS_MAX
        → is_handed desk.new.part b ≡ (is_handed desk.old.part b || is_in b lane.new.taken.items) }
    ensures parts { desk.new.part.parts ≡ desk.old.part.parts }
{
    let blocks = job.blocks();
    for _ in rt.forever() {
        match lane.take(rt, blocks) {
            Got::Block(block) => {
                desk.count(worker, block, job, gate);
                book.post(rt, block, &desk.tally, &mut desk.part);
            }
            Got::End => return,
            Got::Nothing => thread::yield_now(),
        }
    }
    unreachable!()
}
