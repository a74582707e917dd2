//! Counted steps, at no cost.
//!
//! A step is a runout that is examined and added. That the loop that adds a runout counts its step is
//! read in the code, and isn't proved.
//!
//! A bound on a function's work is a clause on the number of its steps: `steps.new ≡ steps.old + n`.
//! The function takes a `&mut Steps<L>` and calls `tick` right before the one operation that is
//! counted. `Steps` has no bytes, and `tick` does nothing at run time: the count exists for proofs
//! alone.
//!
//! - A caller that counts gives its own ledger: it is generic over `L: Ledger`, takes a `Blank` of
//!   that ledger, and makes the counter by `Steps::<L>::new(blank)`.
//! - A caller that doesn't count calls that generic function with `Brand` and `Blank::new(1)`.
#![tactic(auto)]

ghost use Rattle.std.specs.Prelude.{◌≡◌, ℕ, ◌+◌, ◌<◌};

use std::marker::Model;
use std::sync::ledger::{Blank, Book, Ledger, Share};

/// The number of steps taken. It takes no bytes, and only `tick` changes it.
#[derive(Drop)]
pub struct Steps<L: Ledger> {
    /// The total of the steps.
    book: Book<L>,
    /// The part of the ledger with which `tick` writes.
    share: Share<L>,
}

impl<L: Ledger> Model for Steps<L> {
    ghost Value = { ℕ };

    ghost view = { λ s. s.book.total };

    ghost invariant = { λ s. 0 < s.share.parts };
}

impl<L: Ledger> Steps<L> {
    /// Returns a counter at 0, of the ledger that `L` names. The blank is of that ledger and has at
    /// least one part, with which `tick` writes.
    pub fn new(blank: Blank) -> Steps<L>
        requires name { blank.name ≡ L.name }
        requires parts { blank.parts ≡ L.parts }
        requires some { 0 < blank.parts }
        ensures { result ≡ 0 }
    {
        let (book, share) = blank.open::<L>();
        Steps { book, share }
    }

    /// Counts one more step.
    pub fn tick(&mut self)
        ensures { self.new ≡ self.old + 1 }
    {
        self.book.add(&mut self.share, 1);
    }
}
