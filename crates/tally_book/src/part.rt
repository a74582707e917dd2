//! The part of one worker in a count.

ghost use Rattle.std.specs.Prelude.{◌≡◌, ℕ, ◌+◌, ◌<◌, ◌≤◌, ◌||◌, ◌==◌, Bool, slice_index, bit_or};
ghost use Rattle.tally_book.specs.Parts.{Hand, is_handed, no_blocks};
ghost use Rattle.tally_book.specs.declared.limits.TheConstants.{WORDS, BLOCKS_MAX};

use crate::Naming;
use crate::limits::{BLOCKS_MAX, WORDS};
use std::marker::Model;
use std::sync::ledger::Share;

/// A share of the ledger of fresh posts: at least one of its parts, the number of fresh posts made with
/// it, and the set of blocks handed in with it, fresh or not. The set allocates nothing.
#[derive(Drop)]
pub struct Part<N: Naming> {
    /// The share of the ledger, with its number of fresh posts.
    pub(crate) share: Share<N>,
    /// Bit b % 64 of word b / 64 is set if block b was handed in.
    words: [u64; WORDS],
}

impl<N: Naming> Model for Part<N> {
    ghost use Rattle.std.specs.Prelude.{◌<◌};
    ghost use Rattle.tally_book.specs.Parts.{Hand};

    ghost Value = { Hand };

    ghost view = { λ p. record { parts = p.share.parts; amount = p.share.amount; words = p.words } };

    ghost invariant = { λ p. 0 < p.share.parts };
}

impl<N: Naming> Part<N> {
    /// Returns a part with a share, and with no block handed in.
    pub(crate) fn of(share: Share<N>) -> Part<N>
        requires { 0 < share.parts }
        ensures { result
            ≡ record { parts = share.parts; amount = share.amount; words = no_blocks } }
    {
        Part {
            share,
            words: no_words(),
        }
    }

    /// Splits off another part, with one of this part's parts of the ledger, no fresh post, and no block.
    pub fn split(&mut self) -> Part<N>
        requires { 2 ≤ self.old.parts }
        ensures result { result ≡ record { parts = 1; amount = 0; words = no_blocks } }
        ensures left { self.new.parts + 1 ≡ self.old.parts }
        ensures same { (self.new.amount ≡ self.old.amount) × (self.new.words ≡ self.old.words) }
    {
        Part {
            share: self.share.split_off(1, 0),
            words: no_words(),
        }
    }

    /// Takes in another part: its parts of the ledger, its fresh posts, and its blocks.
    pub fn merge(&mut self, other: Part<N>)
        ensures parts { self.new.parts ≡ self.old.parts + other.parts }
        ensures amount { self.new.amount ≡ self.old.amount + other.amount }
        ensures handed { (b : ℕ) → b < BLOCKS_MAX
            → is_handed self.new b ≡ (is_handed self.old b || is_handed other b) }
    {
        let Part { share, words } = other;
        self.share.merge(share);
        join_words(&mut self.words, &words);
    }

    /// Returns whether a block was handed in.
    pub fn has(&self, block: u32) -> bool
        requires { block < BLOCKS_MAX }
        ensures { result ≡ is_handed self.now block }
    {
        (self.words[block as usize / 64] >> (block % 64)) & 1 == 1
    }

    /// Adds a block to the set.
    pub(crate) fn hand_in(&mut self, block: u32)
        requires { block < BLOCKS_MAX }
        ensures same { (self.new.parts ≡ self.old.parts) × (self.new.amount ≡ self.old.amount) }
        ensures handed { (b : ℕ) → b < BLOCKS_MAX
            → is_handed self.new b ≡ (is_handed self.old b || (b == block)) }
    {
        self.words[block as usize / 64] |= 1 << (block % 64);
    }
}

/// Returns the words without a block.
fn no_words() -> [u64; WORDS]
    ensures { result ≡ no_blocks }
{
    [0; WORDS]
}

/// Adds the bits of the other words.
fn join_words(words: &mut [u64; WORDS], others: &[u64; WORDS])
    ensures { (k : ℕ) → k < WORDS
        → slice_index words.new k ≡ bit_or (slice_index words.old k) (slice_index others.now k) }
{
    for k in 0..WORDS {
        words[k] |= others[k];
    }
}
