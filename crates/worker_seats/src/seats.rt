//! The seats of all workers.

ghost use Rattle.std.specs.Prelude.{◌≡◌, ◌+◌, ◌-◌, ◌<◌, ◌≤◌, true, false, length, IfOk};
ghost use Rattle.std.specs.List.{sum_by};
ghost use Rattle.showdown_tally.specs.Deals.{deal_of};
ghost use Rattle.showdown_tally.specs.Tallies.{Counts, runouts_after};
ghost use Rattle.job_blocks.specs.Blocks.{blocks_of};
ghost use Rattle.worker_seats.specs.Sittings.{IsFreshSitting, IsShared, taken_by, has_ended};

use crate::finishing::finish_book;
use crate::making::{add_deque, seats_without_ways};
use crate::running::work_seats;
use crate::seat::Seat;
use crate::shared_book::SharedBook;
use crate::{BlockCounter, Gate, KeptCounters};
use card_sets::Memory;
use job_blocks::Job;
use std::alloc::Global;
use std::marker::Model;
use std::sync::Wait;
use std::sync::ledger::Blank;
use std::thread::Threads;
use tally_book::{Book, Closed, Naming, Part};

/// All that a count by several workers needs: a seat for each worker, the book in its lock, and a
/// part that no worker has.
///
/// Clauses see what was pushed to each deque, what each worker took from it, whether it got an end
/// mark there, and what it handed in. The type keeps, for each deque, that what the seats show is
/// what the passes of the deque hold, or, once the work is done, what they held as they were joined.
#[derive(Drop)]
pub struct Seats<N: Naming, C> {
    /// A seat for each worker, by its number.
    seats: Vec<Seat<N, C>>,
    /// The book, in its lock.
    book: SharedBook<N>,
    /// The part of the ledger that no worker has.
    spare: Part<N>,
    /// The workers are done.
    worked: bool,
}

impl<N: Naming, C> Model for Seats<N, C> {
    ghost use Rattle.std.specs.Prelude.{◌-◌, length};
    ghost use Rattle.showdown_tally.specs.Tallies.{runouts_after};
    ghost use Rattle.job_blocks.specs.Blocks.{blocks_of};
    ghost use Rattle.worker_seats.specs.Sittings.{Sitting, sitting_of, IsSitting};

    ghost Value = { Sitting };

    ghost view = { λ s. sitting_of s.worked s.seats.items };

    ghost invariant = { λ s. IsSitting (N.all - 1)
        (blocks_of (length (runouts_after N.deal.state))) N.parts s.worked s.seats.items s.spare };
}

impl<N: Naming, C: BlockCounter> Seats<N, C> {
    /// Seats for 1 to 16 workers, of a blank with a part for each and one more. Each block is pushed
    /// to the deque of its number modulo the workers, in rising order, and then one end mark for each
    /// worker to each deque. It takes all memory whose refusal is answered.
    pub fn start(
        alloc: Global,
        job: &Job,
        blank: Blank,
        workers: u32,
    ) -> Result<Seats<N, C>, Memory>
        requires named { deal_of job.now.table ≡ N.deal }
        requires name { blank.name ≡ N.name }
        requires parts { blank.parts ≡ N.parts }
        requires workers { (1 ≤ workers) × (workers ≤ 16) × (N.parts ≡ workers + 1)
            × (N.all ≡ N.parts) }
        ensures { IfOk result
            (λ s. IsFreshSitting workers (blocks_of (length (runouts_after N.deal.state))) s) }
    {
        Seats::start_with(alloc, job, blank, workers, &mut KeptCounters::new())
    }

    /// Like `start`, with kept counters, as far as there are any. It has a frame of its own, because seats and tallies go
    /// through the stack.
    #[inline(never)]
    pub fn start_with(
        alloc: Global,
        job: &Job,
        blank: Blank,
        workers: u32,
        kept: &mut KeptCounters<C>,
    ) -> Result<Seats<N, C>, Memory>
        requires named { deal_of job.now.table ≡ N.deal }
        requires name { blank.name ≡ N.name }
        requires parts { blank.parts ≡ N.parts }
        requires workers { (1 ≤ workers) × (workers ≤ 16) × (N.parts ≡ workers + 1)
            × (N.all ≡ N.parts) }
        ensures { IfOk result
            (λ s. IsFreshSitting workers (blocks_of (length (runouts_after N.deal.state))) s) }
    {
        let (book, mut spare) = Book::start(alloc, job, blank)?;
        let mut seats = seats_without_ways(alloc, job, workers, &mut spare, kept)?;
        for deque in 0..workers {
            add_deque(alloc, seats.as_mut_slice(), deque, workers, job.blocks())?;
        }
        Ok(Seats {
            seats,
            book: SharedBook::new(book),
            spare,
            worked: false,
        })
    }

    /// Runs all workers, until each has an end mark of every deque. It takes no memory.
    pub fn work<R: Threads + Wait + Sync, G: Gate + Sync>(&mut self, rt: &R, job: &Job, gate: &G)
    where
        N: Send + Sync,
        C: Send,
        requires named { deal_of job.now.table ≡ N.deal }
        requires fresh { self.old.worked ≡ false }
        ensures { IsShared (N.all - 1)
            (blocks_of (length (runouts_after N.deal.state))) self.old self.new }
    {
        let Seats {
            seats,
            book,
            worked,
            ..
        } = self;
        work_seats(rt, seats, job, gate, book);
        *worked = true;
    }

    /// The blocks that a worker took from a deque, in order. Both count from 0.
    pub fn taken(&self, worker: u32, deque: u32) -> &[u32]
        requires { (worker < N.all - 1) × (deque < N.all - 1) }
        ensures { result.now ≡ taken_by self.now worker deque }
    {
        self.seats[worker as usize].lanes[deque as usize]
            .taken
            .as_slice()
    }

    /// Whether a worker took an end mark from a deque.
    pub fn ended(&self, worker: u32, deque: u32) -> bool
        requires { (worker < N.all - 1) × (deque < N.all - 1) }
        ensures { result ≡ has_ended self.now worker deque }
    {
        self.seats[worker as usize].lanes[deque as usize].ended
    }

    /// Posts each block that isn't marked, and closes the book. `by_workers` is how many blocks the
    /// workers posted. It takes no memory.
    pub fn finish(self, job: &Job) -> Closed
        requires named { deal_of job.now.table ≡ N.deal }
        requires worked { self.worked ≡ true }
        ensures total { Counts N.deal (runouts_after N.deal.state) result.total }
        ensures by_workers { result.by_workers ≡ sum_by (λ hand. hand.amount) self.hands }
        ensures most { result.by_workers ≤ blocks_of (length (runouts_after N.deal.state)) }
    {
        self.finish_with(job, &mut KeptCounters::new())
    }

    /// Like `finish`, and keeps the counters. It has a frame of its own, because tallies go through the stack.
    #[inline(never)]
    pub fn finish_with(self, job: &Job, kept: &mut KeptCounters<C>) -> Closed
        requires named { deal_of job.now.table ≡ N.deal }
        requires worked { self.worked ≡ true }
        ensures total { Counts N.deal (runouts_after N.deal.state) result.total }
        ensures by_workers { result.by_workers ≡ sum_by (λ hand. hand.amount) self.hands }
        ensures most { result.by_workers ≤ blocks_of (length (runouts_after N.deal.state)) }
    {
        let Seats {
            seats,
            book,
            spare,
            ..
        } = self;
        finish_book(job, book.into_book(), seats, spare, kept)
    }
}
