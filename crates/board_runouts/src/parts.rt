//! Pairs of last cards in two parts: the ranks of those that make nobody a flush, and the other pairs.

ghost use Rattle.std.specs.Prelude.{◌≡◌, ◌+◌, length};
ghost use Rattle.board_ranks.specs.Sieves.{flush_pairs, plain_ranks};
ghost use Rattle.board_runouts.specs.Fronts.{AddPairs, AreRunoutsWith, HasRoom, HoldsFlushes};

use crate::board_leaf::count_each;
use crate::flushes::Flushes;
use crate::front::Front;
use crate::plain_ranks::count_plain;
use board_ranks::{Pair, Sieve};
use std::sync::ledger::Ledger;
use step_count::Steps;

/// Some pairs of last cards, parted by the table of suits of a sieve. Each pair is in one part.
#[derive(Clone, Copy)]
pub(crate) struct Parts<'a> {
    /// The sieve.
    pub(crate) sieve: &'a Sieve,
    /// The pairs.
    pub(crate) pairs: &'a [Pair],
    /// The ranks of the pairs for which the table names no suit.
    pub(crate) plain: &'a [u8],
    /// The pairs for which the table names a suit.
    pub(crate) flush: &'a [Pair],
    /// The ranks are those of all pairs of the first kind, in their order.
    pub(crate) ghost plain_are: { plain.now ≡ plain_ranks sieve.now.suits pairs.now },
    /// The flush part has all pairs of the second kind, in their order.
    pub(crate) ghost flush_are: { flush.now ≡ flush_pairs sieve.now.suits pairs.now },
}

/// Counts the runout with each of some pairs for each pot, part by part. It takes a step a pair.
#[inline]
pub(crate) fn count_parts<L: Ledger>(
    front: &Front,
    flushes: &mut Flushes,
    parts: &Parts,
    counts: &mut [[u32; 2048]],
    steps: &mut Steps<L>,
)
    requires pairs { AreRunoutsWith front.now parts.now.pairs.now }
    requires suits { front.now.suits.now ≡ parts.now.sieve.now.suits }
    requires flushes { HoldsFlushes front.now flushes.old }
    requires room { HasRoom front.now counts.old (length parts.now.pairs.now) }

    // Each pair is counted for each pot, and the kept flushes stay right.
    ensures counts { AddPairs front.now parts.now.pairs.now counts.old counts.new }
    ensures flushes { HoldsFlushes front.now flushes.new }
    ensures steps { steps.new ≡ steps.old + length parts.now.pairs.now }
{
    count_plain(front, parts.pairs, parts.plain, counts, steps);
    count_each(front, flushes, parts.flush, counts, steps);
}
