//! The book.

ghost use Rattle.std.specs.Prelude.{◌≡◌, ℕ, ◌+◌, ◌<◌, ◌≤◌, ◌||◌, ◌==◌, ◌↔◌, Bool, true, false, replicate, length, slice_set, IfOk};
ghost use Rattle.showdown_tally.specs.Cells.{IsSum};
ghost use Rattle.showdown_tally.specs.Deals.{deal_of};
ghost use Rattle.showdown_tally.specs.Tallies.{Counts, runouts_after};
ghost use Rattle.job_blocks.specs.Blocks.{block_of, blocks_of};
ghost use Rattle.tally_book.specs.Parts.{is_handed, no_blocks};
ghost use Rattle.tally_book.specs.Pages.{Page, is_marked, marked_of};
ghost use Rattle.tally_book.specs.declared.limits.TheConstants.{BLOCKS_MAX};

use crate::{Naming, Part};
use card_sets::Memory;
use job_blocks::Job;
use showdown_tally::Tally;
use std::alloc::Global;
use std::marker::Model;
use std::sync::ledger;
use std::sync::ledger::Blank;

/// The counted blocks of a job, and the sum of their tallies, each once. A book states that its total is
/// the sum of exactly the marked blocks, whoever posted them, and that its ledger has one fresh post for
/// each mark.
#[derive(Drop)]
pub struct Book<N: Naming> {
    /// Whether each block is counted.
    marks: Vec<bool>,
    /// The sum of the tallies of the marked blocks.
    total: Tally,
    /// The ledger of the fresh posts.
    posts: ledger::Book<N>,
}

impl<N: Naming> Model for Book<N> {
    ghost use Rattle.tally_book.specs.Pages.{Page, IsPage};

    ghost Value = { Page };

    ghost view = { λ b. record { marks = b.marks.items; total = b.total } };

    ghost invariant = { λ b. IsPage N.deal b.marks.items b.total b.posts.total };
}

/// The result of a post.
#[derive(Clone, Copy, PartialEq, Eq)]
pub enum Posted {
    /// The block wasn't marked, and is now counted.
    Fresh,
    /// The block was marked before, and isn't counted again.
    Already,
}

/// A finished count.
#[derive(Drop)]
pub struct Closed {
    /// The tally of all runouts.
    pub total: Tally,
    /// The number of blocks posted with the parts that count.
    pub by_workers: u64,
}

impl<N: Naming> Book<N> {
    /// Returns the book of a job, with no block marked, and the part that has the whole ledger.
    pub fn start(alloc: Global, job: &Job, blank: Blank) -> Result<(Book<N>, Part<N>), Memory>
        // `N` names the deal of the job.
        requires named { deal_of job.now.table ≡ N.deal }

        // The blank is that of the ledger of `N`, and no part was split off.
        requires name { blank.name ≡ N.name }
        requires parts { blank.parts ≡ N.parts }
        requires some { 0 < blank.parts }

        // No block is marked. The part has the whole ledger and no fresh post, and no block was handed in
        // with it.
        ensures unmarked { IfOk result
            (λ r. r.0.marks ≡ replicate (blocks_of (length (runouts_after N.deal.state))) false) }
        ensures part { IfOk result
            (λ r. r.1 ≡ record { parts = blank.parts; amount = 0; words = no_blocks }) }
    {
        let marks = no_marks(alloc, job.blocks() as usize)?;
        let (posts, share) = blank.open::<N>();
        let book = Book {
            marks,
            total: Tally::zero(),
            posts,
        };
        Ok((book, Part::of(share)))
    }

    /// Returns whether a block is marked, and `false` for a block that the job doesn't have.
    pub fn marked(&self, block: u32) -> bool
        ensures { result ≡ is_marked self.now block }
    {
        match self.marks.get(block as usize) {
            Some(mark) => *mark,
            None => false,
        }
    }

    /// Hands in a block with its tally. `Fresh` exactly if the block wasn't marked. It is then marked, its
    /// tally is added to the total, and one to the amount of the part. `Already` changes only the set of
    /// the part.
    pub fn post(&mut self, block: u32, tally: &Tally, part: &mut Part<N>) -> Posted
        // The job has such a block, and the tally is that of this block. So the total stays right.
        requires block { block < blocks_of (length (runouts_after N.deal.state)) }
        requires tally { Counts N.deal (block_of (runouts_after N.deal.state) block) tally.now }

        // The mark alone decides whether a post is fresh, and only a fresh tally is added.
        ensures which { (result ≡ Posted.Fresh) ↔ (is_marked self.old block ≡ false) }
        ensures fresh { result ≡ Posted.Fresh
            → (self.new.marks ≡ slice_set self.old.marks block true)
            × IsSum self.old.total tally.now self.new.total
            × (part.new.amount ≡ part.old.amount + 1) }
        ensures already { result ≡ Posted.Already
            → (self.new ≡ self.old) × (part.new.amount ≡ part.old.amount) }

        // The block is then in the set of the part, fresh or not. The part's share of the ledger is
        // unchanged.
        ensures handed { (b : ℕ) → b < BLOCKS_MAX
            → is_handed part.new b ≡ (is_handed part.old b || (b == block)) }
        ensures parts { part.new.parts ≡ part.old.parts }
    {
        let already = self.marks[block as usize];
        part.hand_in(block);
        if already {
            return Posted::Already;
        }
        self.marks[block as usize] = true;
        self.total.add(tally);
        self.posts.add(&mut part.share, 1);
        Posted::Fresh
    }

    /// Returns the total, given that every block is marked, and the amount of the part that has the whole
    /// ledger, which is then the number of blocks.
    pub fn close(self, whole: Part<N>) -> Closed
        requires all { (b : ℕ) → b < length self.marks → is_marked self b ≡ true }
        requires whole { whole.parts ≡ N.parts }
        ensures total { Counts N.deal (runouts_after N.deal.state) result.total }
        ensures amount { result.by_workers ≡ whole.amount }
        ensures blocks { result.by_workers ≡ blocks_of (length (runouts_after N.deal.state)) }
    {
        let Book {
            marks,
            total,
            posts,
        } = self;
        let Part { share, .. } = whole;
        let mut posts = posts;
        let mut share = share;
        posts.audit(&mut share);
        Closed {
            total,
            by_workers: marks.len() as u64,
        }
    }

    /// States of every book, whoever posted into it, that it has a mark for each block of its job and the
    /// total of exactly the marked blocks, each once.
    pub fn law_the_total_is_that_of_the_marked_blocks(&self)
        ensures marks { length self.now.marks ≡ blocks_of (length (runouts_after N.deal.state)) }
        ensures total { Counts N.deal
            (marked_of (runouts_after N.deal.state) self.now.marks) self.now.total }
    {
        let _blocks = self.marks.len();
    }
}

/// Returns `blocks` marks, none of them set.
fn no_marks(alloc: Global, blocks: usize) -> Result<Vec<bool>, Memory>
    ensures { IfOk result (λ marks. marks.items ≡ replicate blocks false) }
{
    Ok(Vec::from_elem(alloc, false, blocks)?)
}
