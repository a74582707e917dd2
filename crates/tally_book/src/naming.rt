//! The job and the ledger of a book.

use std::marker::Brand;
use std::sync::ledger::Ledger;

/// One job and one ledger. The job is named by its deal, which determines its runouts and their results.
///
/// A worker that takes a value from a lock knows only what the type of the value states. So the job is a
/// part of the type of the
/// book, of its parts, and of all else that is shared, and a worker that has the lock knows that the book
/// is that of its job. The
/// maker of a book makes the blank of its ledger, and calls a function that is generic over `N: Naming`
/// with `Brand`.
pub trait Naming: Ledger {
    ghost use Rattle.std.specs.Prelude.{ℕ};
    ghost use Rattle.showdown_tally.specs.Showdown.{Showdown};

    /// The known cards and the pots of the job.
    ghost deal: { Showdown };
    /// The number of parts of the ledger. The types above use it because they can't name the number of the
    /// ledger itself.
    ghost all: { ℕ };
}

impl Naming for Brand {
    ghost use Rattle.std.specs.Prelude.{[]};
    ghost use Rattle.card_sets.specs.declared.games.Game.TheVariants.{Holdem};

    ghost deal = { record { state = record { game = Holdem; hands = []; board = []; dead = [] }; pots = [] } };

    ghost all = { 0 };
}
