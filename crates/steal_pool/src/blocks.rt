//! One block, counted and posted.

ghost use Rattle.std.specs.Prelude.{◌≡◌, ◌+◌, ◌<◌, ℕ, true, false, length};
ghost use Rattle.card_sets.specs.State.{state_of};
ghost use Rattle.showdown_tally.specs.Deals.{deal_of};
ghost use Rattle.showdown_tally.specs.Tallies.{Counts, runouts_after};
ghost use Rattle.job_blocks.specs.Blocks.{block_of, blocks_of};
ghost use Rattle.tally_book.specs.Pages.{is_marked};

use equity_job::{Job, Scratch, fill_block};
use showdown_tally::Tally;
use std::marker::Brand;
use std::sync::ledger::{Blank, Ledger};
use step_count::Steps;
use tally_book::{Book, Naming, Part};

/// Counts a block into a tally, with a counter of its own.
fn tally_on<L: Ledger>(
    job: &Job,
    block: u32,
    scratch: &mut Scratch,
    tally: &mut Tally,
    blank: Blank,
)
    requires name { blank.name ≡ L.name }
    requires parts { blank.parts ≡ L.parts }
    requires some { 0 < blank.parts }
    requires block { block < blocks_of (length (runouts_after (state_of job.now.table.known))) }
    ensures { Counts (deal_of job.now.table)
        (block_of (runouts_after (state_of job.now.table.known)) block) tally.new }
{
    let mut steps = Steps::<L>::new(blank);
    fill_block(job, block, scratch, tally, &mut steps);
}

/// Counts a block into a tally, for a caller that counts no steps.
pub(crate) fn tally_block(job: &Job, block: u32, scratch: &mut Scratch, tally: &mut Tally)
    requires { block < blocks_of (length (runouts_after (state_of job.now.table.known))) }
    ensures { Counts (deal_of job.now.table)
        (block_of (runouts_after (state_of job.now.table.known)) block) tally.new }
{
    tally_on::<Brand>(job, block, scratch, tally, Blank::new(1))
}

/// Counts a block and posts it, whether or not it is marked.
pub(crate) fn post_block<N: Naming>(
    job: &Job,
    block: u32,
    book: &mut Book<N>,
    part: &mut Part<N>,
    scratch: &mut Scratch,
    tally: &mut Tally,
)
    // `N` names the deal of the job.
    requires named { deal_of job.now.table ≡ N.deal }

    // The job has such a block, and the book a mark for each.
    requires block { block < blocks_of (length (runouts_after N.deal.state)) }
    requires book { length book.old.marks ≡ blocks_of (length (runouts_after N.deal.state)) }

    // The block is marked then, and no mark is lost.
    ensures count { length book.new.marks ≡ length book.old.marks }
    ensures marked { is_marked book.new block ≡ true }
    ensures kept { (b : ℕ) → is_marked book.old b ≡ true → is_marked book.new b ≡ true }

    // A block that wasn't marked adds one to the part's fresh posts.
    ensures amount { is_marked book.old block ≡ false → part.new.amount ≡ part.old.amount + 1 }
    ensures parts { part.new.parts ≡ part.old.parts }
{
    tally_block(job, block, scratch, tally);
    let _ = book.post(block, tally, part);
}
