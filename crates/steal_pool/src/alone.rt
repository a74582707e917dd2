//! One worker, with no lock.

ghost use Rattle.std.specs.Prelude.{◌≡◌, ◌<◌, replicate, false, length};
ghost use Rattle.showdown_tally.specs.Deals.{deal_of};
ghost use Rattle.showdown_tally.specs.Tallies.{Counts, runouts_after};
ghost use Rattle.job_blocks.specs.Blocks.{blocks_of};

use crate::blocks::post_block;
use equity_job::{Job, Scratch};
use showdown_tally::Tally;
use tally_book::{Book, Closed, Naming, Part};

/// Counts a job by itself, block after block, into a book in which no block is marked. `whole` has
/// all of the ledger. It takes no lock and no memory.
pub fn count_alone<N: Naming>(
    job: &Job,
    book: Book<N>,
    whole: Part<N>,
    scratch: &mut Scratch,
) -> Closed
    requires named { deal_of job.now.table ≡ N.deal }
    requires unmarked { book.marks
        ≡ replicate (blocks_of (length (runouts_after N.deal.state))) false }
    requires whole { whole.parts ≡ N.parts }
    ensures total { Counts N.deal (runouts_after N.deal.state) result.total }
    ensures by_workers { result.by_workers ≡ blocks_of (length (runouts_after N.deal.state)) }
{
    let mut book = book;
    let mut whole = whole;
    let mut tally = Tally::zero();
    for block in 0..job.blocks() {
        post_block(job, block, &mut book, &mut whole, scratch, &mut tally);
    }
    book.close(whole)
}
