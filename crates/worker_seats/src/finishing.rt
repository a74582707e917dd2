//! The count is closed.

ghost use Rattle.std.specs.Prelude.{◌≡◌, ◌+◌, ◌<◌, ◌≤◌, ℕ, true, length};
ghost use Rattle.std.specs.List.{sum_by};
ghost use Rattle.showdown_tally.specs.Deals.{deal_of};
ghost use Rattle.showdown_tally.specs.Tallies.{Counts, runouts_after};
ghost use Rattle.job_blocks.specs.Blocks.{blocks_of};
ghost use Rattle.tally_book.specs.Pages.{is_marked};

use crate::desk::Desk;
use crate::seat::Seat;
use crate::{BlockCounter, KeptCounters, OpenGate};
use job_blocks::Job;
use tally_book::{Book, Closed, Naming, Part};

/// Posts the rest into the spare part, counted at the desk of the first seat, merges all parts and closes
/// the book. The counters are kept.
pub(crate) fn finish_book<N: Naming, C: BlockCounter>(
    job: &Job,
    mut book: Book<N>,
    mut seats: Vec<Seat<N, C>>,
    mut spare: Part<N>,
    kept: &mut KeptCounters<C>,
) -> Closed
    // `N` names the deal of the job, of whose blocks the book has the marks.
    requires named { deal_of job.now.table ≡ N.deal }
    requires book { length book.marks ≡ blocks_of (length (runouts_after N.deal.state)) }

    // Nothing was posted with the spare part, and the first seat lends its desk.
    requires spare { spare.amount ≡ 0 }
    requires some { 0 < length seats.items }

    // The spare part and the seats' make up the whole ledger.
    requires parts { spare.parts + sum_by (λ seat. seat.desk.part.parts) seats.items ≡ N.parts }

    // The total is that of all runouts, whatever the workers did.
    ensures total { Counts N.deal (runouts_after N.deal.state) result.total }

    // The ledger says how many of the posts were the workers'.
    ensures by_workers { result.by_workers ≡ sum_by (λ seat. seat.desk.part.amount) seats.items }
    ensures most { result.by_workers ≤ blocks_of (length (runouts_after N.deal.state)) }
{
    let own = post_rest(job, &mut book, &mut spare, &mut seats[0].desk);
    while let Some(seat) = seats.pop() {
        let Seat { desk, .. } = seat;
        let Desk { part, counter, .. } = desk;
        spare.merge(part);
        kept.give(counter);
    }
    let Closed { total, by_workers } = book.close(spare);
    Closed {
        total,
        by_workers: by_workers - own,
    }
}

/// Counts and posts each block that isn't marked, and says how many were posted.
fn post_rest<N: Naming, C: BlockCounter>(
    job: &Job,
    book: &mut Book<N>,
    spare: &mut Part<N>,
    desk: &mut Desk<N, C>,
) -> u64
    // `N` names the deal of the job, of whose blocks the book has the marks.
    requires named { deal_of job.now.table ≡ N.deal }
    requires book { length book.old.marks ≡ blocks_of (length (runouts_after N.deal.state)) }

    // Each block is marked then, so that the book may be closed.
    ensures count { length book.new.marks ≡ length book.old.marks }
    ensures marked { (b : ℕ) → b < blocks_of (length (runouts_after N.deal.state))
        → is_marked book.new b ≡ true }

    // What is fresh was posted with the spare part, and with no seat's.
    ensures own { spare.new.amount ≡ spare.old.amount + result }
    ensures parts { spare.new.parts ≡ spare.old.parts }
    ensures most { result ≤ blocks_of (length (runouts_after N.deal.state)) }
    ensures desk { desk.new.part ≡ desk.old.part }
{
    let mut own = 0;
    for block in 0..job.blocks() {
        own += post_unmarked(job, block, book, spare, desk);
    }
    own
}

/// Counts and posts a block that isn't marked, and says how many were posted.
fn post_unmarked<N: Naming, C: BlockCounter>(
    job: &Job,
    block: u32,
    book: &mut Book<N>,
    spare: &mut Part<N>,
    desk: &mut Desk<N, C>,
) -> u64
    // `N` names the deal of the job, which has such a block, and the book a mark for each.
    requires named { deal_of job.now.table ≡ N.deal }
    requires block { block < blocks_of (length (runouts_after N.deal.state)) }
    requires book { length book.old.marks ≡ blocks_of (length (runouts_after N.deal.state)) }

    // The block is marked then, and no mark is lost.
    ensures count { length book.new.marks ≡ length book.old.marks }
    ensures marked { is_marked book.new block ≡ true }
    ensures kept { (b : ℕ) → is_marked book.old b ≡ true → is_marked book.new b ≡ true }

    // What is fresh was posted with the spare part, and with no seat's.
    ensures own { spare.new.amount ≡ spare.old.amount + result }
    ensures parts { spare.new.parts ≡ spare.old.parts }
    ensures most { result ≤ 1 }
    ensures desk { desk.new.part ≡ desk.old.part }
{
    if book.marked(block) {
        return 0;
    }
    let Desk { counter, tally, .. } = desk;
    counter.count(job, block, 0, &OpenGate, tally);
    let _ = book.post(block, tally, spare);
    1
}
