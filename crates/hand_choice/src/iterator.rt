//! The iterator over fives.

ghost use Rattle.std.specs.Prelude.{◌≡◌};
ghost use Rattle.std.specs.Iterator.{YieldsFirst, item_count};

use crate::choices::FiveList;
use card_sets::CardSet;
use std::marker::Model;

/// An iterator over fives. Clauses see it as the list of fives left.
#[derive(Drop)]
pub struct Fives {
    /// All fives.
    list: FiveList,
    /// The number of fives given.
    given: u8,
}

impl Model for Fives {
    ghost use Rattle.std.specs.Prelude.{ℕ, List, drop};

    ghost Value = { List (List ℕ) };

    ghost view = { λ s. drop s.given s.list };
}

impl Fives {
    /// Returns an iterator over all fives of a list.
    #[inline]
    pub(crate) fn of(list: FiveList) -> Fives
        ensures { result ≡ list }
    {
        Fives { list, given: 0 }
    }
}

impl Iterator for Fives {
    type Item = CardSet;

    ghost next_gives = { YieldsFirst (λ s. s) };

    ghost remaining = { item_count (λ s. s) };

    #[inline]
    fn next(&mut self) -> Option<CardSet> {
        let five = self.list.get(self.given)?;
        self.given += 1;
        Some(five)
    }
}
