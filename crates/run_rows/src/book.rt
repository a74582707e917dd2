//! A book of one block, into which two workers post.

ghost use Rattle.std.specs.Prelude.{◌≡◌, ◌≤◌, true, length};
ghost use Rattle.card_sets.specs.State.{state_of};
ghost use Rattle.showdown_tally.specs.Deals.{deal_of};
ghost use Rattle.showdown_tally.specs.Tallies.{Counts, runouts_after};
ghost use Rattle.job_blocks.specs.Blocks.{block_of, blocks_of};
ghost use Rattle.tally_book.specs.Pages.{is_marked};

use crate::spots::job_of;
use card_sets::{Memory, Side};
use equity_job::{Job, Scratch, count_job};
use showdown_tally::{Cell, Tally};
use std::alloc::Global;
use std::marker::Brand;
use std::sync::ledger::Blank;
use std::test::Fail;
use tally_book::{Book, Closed, Naming, Part, Posted};

/// The results of two workers that post one block, which of them handed it in, and the closed book.
#[derive(Drop)]
struct PostedTwice {
    first: Posted,
    second: Posted,
    handed: [bool; 2],
    closed: Closed,
}

/// Posts the only block of a job.
fn post_only<N: Naming>(book: &mut Book<N>, tally: &Tally, part: &mut Part<N>) -> Posted
    requires one { blocks_of (length (runouts_after N.deal.state)) ≡ 1 }
    requires count { length book.old.marks ≡ 1 }
    requires tally { Counts N.deal (block_of (runouts_after N.deal.state) 0) tally.now }
    ensures marked { is_marked book.new 0 ≡ true }
    ensures count { length book.new.marks ≡ 1 }
    ensures parts { part.new.parts ≡ part.old.parts }
{
    book.post(0, tally, part)
}

/// Returns the only block of a job, posted by two workers.
fn post_twice<N: Naming>(
    alloc: Global,
    job: &Job,
    tally: &Tally,
    blank: Blank,
) -> Result<PostedTwice, Memory>
    requires named { deal_of job.now.table ≡ N.deal }
    requires name { blank.name ≡ N.name }
    requires parts { blank.parts ≡ N.parts }
    requires two { 2 ≤ blank.parts }
    requires one { blocks_of (length (runouts_after N.deal.state)) ≡ 1 }
    requires tally { Counts N.deal (block_of (runouts_after N.deal.state) 0) tally.now }
{
    let (mut book, mut mine) = Book::<N>::start(alloc, job, blank)?;
    let mut other = mine.split();
    let first = post_only(&mut book, tally, &mut mine);
    let second = post_only(&mut book, tally, &mut other);
    let handed = [mine.has(0), other.has(0)];
    mine.merge(other);
    let closed = book.close(mine);
    Ok(PostedTwice {
        first,
        second,
        handed,
        closed,
    })
}

/// Returns what `post_twice` returns, with a ledger of its own and the tally of all runouts, or `None` if
/// the job doesn't have exactly one block.
fn posted_twice(alloc: Global, job: &Job, tally: &Tally) -> Result<Option<PostedTwice>, Memory>
    requires { Counts (deal_of job.now.table)
        (runouts_after (state_of job.now.table.known)) tally.now }
{
    if job.blocks() != 1 {
        return Ok(None);
    }
    let posted = post_twice::<Brand>(alloc, job, tally, Blank::new(2))?;
    Ok(Some(posted))
}

/// With one card to come there are 44 rivers, of which two are kings.
const TURN: &[u8] = b"holdem As Ah - Ks Kh -- 2c 7d 9h 4s";

/// Returns the tally of all runouts of a job.
fn counted(job: &Job) -> Tally
    ensures { Counts (deal_of job.now.table)
        (runouts_after (state_of job.now.table.known)) result }
{
    let mut scratch = Scratch::new();
    let mut tally = Tally::zero();
    count_job(job, &mut scratch, &mut tally);
    tally
}

/// Returns the block of all runouts posted twice, or `None` if out of memory, or if the job doesn't have
/// exactly one block.
fn posted(alloc: Global, job: &Job) -> Option<PostedTwice> {
    posted_twice(alloc, job, &counted(job)).ok()?
}

/// Returns whether the first post counts and the second doesn't, and both workers handed the block in.
fn is_posted_once(posted: &PostedTwice) -> bool {
    posted.first == Posted::Fresh
        && posted.second == Posted::Already
        && posted.handed == [true, true]
}

/// Returns whether a total has each of 44 rivers once, of which the aces win 42.
fn is_total(total: &Tally) -> bool {
    let aces = Cell {
        win: 42,
        tie: 0,
        lose: 2,
    };
    total.runouts() == 44 && total.cell(0, 0, Side::High) == aces && total.units(0, 0) == 42 * 5040
}

#[test]
fn a_block_that_is_posted_twice_counts_once(rt: HostRuntime) -> Result<(), Fail> {
    let job = job_of(TURN).ok_or("no job")?;
    let posted = posted(rt.alloc(), &job).ok_or("not posted")?;
    assert!(rt;
        is_posted_once(&posted),
        "the first post counts, and the second doesn't"
    );
    assert_eq!(rt; posted.closed.by_workers, 1, "the blocks by workers");
    assert!(rt;
        is_total(&posted.closed.total),
        "each of the 44 rivers counts once"
    );
    Ok(())
}
