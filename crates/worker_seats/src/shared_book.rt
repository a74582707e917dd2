//! The book in its lock.

ghost use Rattle.std.specs.Prelude.{◌≡◌, ℕ, ◌<◌, ◌||◌, ◌==◌, length};
ghost use Rattle.showdown_tally.specs.Tallies.{Counts, runouts_after};
ghost use Rattle.job_blocks.specs.Blocks.{block_of, blocks_of};
ghost use Rattle.tally_book.specs.Parts.{is_handed};
ghost use Rattle.tally_book.specs.declared.limits.TheConstants.{BLOCKS_MAX};

use showdown_tally::Tally;
use std::sync::{Mutex, Wait};
use tally_book::{Book, Naming, Part};

/// The book of a count, in its lock. `post` takes the lock and lets it go, and no other module can reach it. So no
/// block is counted while the book is locked.
#[derive(Drop)]
pub(crate) struct SharedBook<N: Naming> {
    /// The book, in a lock that only this module takes.
    book: Mutex<Book<N>>,
}

impl<N: Naming> SharedBook<N> {
    /// Puts a book into a lock.
    pub(crate) fn new(book: Book<N>) -> SharedBook<N> {
        SharedBook {
            book: Mutex::new(book),
        }
    }

    /// Posts a block that was counted.
    pub(crate) fn post<R: Wait>(&self, rt: &R, block: u32, tally: &Tally, part: &mut Part<N>)
        requires block { block < blocks_of (length (runouts_after N.deal.state)) }
        requires tally { Counts N.deal (block_of (runouts_after N.deal.state) block) tally.now }
        ensures handed { (b : ℕ) → b < BLOCKS_MAX
            → is_handed part.new b ≡ (is_handed part.old b || (b == block)) }
        ensures parts { part.new.parts ≡ part.old.parts }
    {
        let _ = self.book.lock(rt).post(block, tally, part);
    }

    /// Takes the book out of its lock, when all is posted.
    pub(crate) fn into_book(self) -> Book<N> {
        let SharedBook { book } = self;
        book.into_inner()
    }
}
