//! All pairs of last cards, parted by whether somebody may have a flush with them.

ghost use Rattle.std.specs.Prelude.{◌≡◌, ℕ, ◌<◌, ◌≤◌, if◌then◌else◌, length, slice_index, IsTrue};
ghost use Rattle.std.specs.List.{slice_range};
ghost use Rattle.board_ranks.specs.Sieves.{IsParted, flush_pairs, is_plain, plain_ranks};
ghost use Rattle.board_ranks.specs.Suits.{AreFives};

use crate::pair::Pair;
use crate::suits::five_suits;

/// How many pairs of 52 cards there are.
pub const PAIRS_MAX: usize = 1326;

/// All pairs of last cards, parted by a table that names for the suits of two cards the one of which somebody may have a flush.
#[derive(Clone, Copy)]
pub struct Sieve {
    /// For each suit the most cards for a flush that a hand has with the known board and the first cards.
    pub counts: [u32; 4],
    /// The suit of which somebody may have a flush, at 4 times the suit of one of the last two and that of the other, or else 4.
    pub suits: [u8; 16],
    /// The ranks of the pairs for which the table names no suit, in their order, and others after them.
    pub plain: [u8; PAIRS_MAX],
    /// The pairs for which it names one, in their order, and others after them.
    pub flush: [Pair; PAIRS_MAX],
    /// For each place of the pairs, how many of the former stand before it.
    pub before: [u16; PAIRS_MAX + 1],
    /// If the table names no suit, `counts` cards of each suit and the two cards aren't five of a suit.
    pub ghost fives: { AreFives counts suits },
    /// There is a place for each two suits.
    pub ghost places: { length suits ≡ 16 },
}

/// One where a table of suits names none for a pair, and else none.
#[inline]
fn one_plain(suits: &[u8; 16], pair: &Pair) -> usize
    requires { length suits.now ≡ 16 }
    ensures value { result ≡ (if is_plain suits.now pair.now then 1 else 0) }
    ensures bound { result ≤ 1 }
{
    if suits[usize::from(pair.suits)] > 3 {
        1
    } else {
        0
    }
}

/// Parts pairs by a table of suits.
#[inline(never)]
fn part_pairs(
    suits: &[u8; 16],
    pairs: &[Pair],
    plain: &mut [u8],
    flush: &mut [Pair],
    before: &mut [u16],
)
    requires table { length suits.now ≡ 16 }
    requires few { length pairs.now ≤ 1326 }
    requires plain { length plain.old ≡ 1326 }
    requires flush { length flush.old ≡ 1326 }
    requires before { length before.old ≡ 1327 }
    ensures parted { IsParted suits.now pairs.now plain.new flush.new before.new }
    ensures plain { length plain.new ≡ length plain.old }
    ensures flush { length flush.new ≡ length flush.old }
    ensures before { length before.new ≡ length before.old }
{
    let mut used = 0;
    for place in 0..pairs.len() {
        let pair = &pairs[place];
        before[place] = used as u16;
        plain[used] = pair.ranks;
        flush[place - used] = *pair;
        used += one_plain(suits, pair);
    }
    before[pairs.len()] = used as u16;
}

impl Sieve {
    /// A sieve of no pairs.
    pub(crate) fn none() -> Sieve {
        let counts = [0; 4];
        Sieve {
            counts,
            suits: five_suits(counts),
            plain: [0; PAIRS_MAX],
            flush: [Pair::any(); PAIRS_MAX],
            before: [0; PAIRS_MAX + 1],
        }
    }

    /// Parts all pairs by the suits that may make a flush after `counts` cards of each suit.
    pub(crate) fn fill(&mut self, pairs: &[Pair], counts: [u32; 4])
        requires few { length pairs.now ≤ 1326 }
        requires counts { (s : ℕ) → slice_index counts s ≤ 156 }
        ensures counts { self.new.counts ≡ counts }
        ensures parted { IsParted
            self.new.suits pairs.now self.new.plain self.new.flush self.new.before }
    {
        let suits = five_suits(counts);
        self.counts = counts;
        self.suits = suits;
        part_pairs(
            &suits,
            pairs,
            &mut self.plain,
            &mut self.flush,
            &mut self.before,
        );
    }

    /// Returns whether this sieve is the one for these counts of suits.
    #[inline]
    pub(crate) fn is_for(&self, counts: &[u32; 4]) -> bool
        ensures { IsTrue result → self.now.counts ≡ counts.now }
    {
        self.counts == *counts
    }

    /// The ranks of the pairs from one place of all to another for which the table names no suit.
    #[inline]
    pub fn plain(&self, pairs: &[Pair], start: usize, end: usize) -> &[u8]
        requires parted { IsParted
            self.now.suits pairs.now self.now.plain self.now.flush self.now.before }
        requires few { length pairs.now ≤ 1326 }
        requires order { start ≤ end }
        requires inside { end ≤ length pairs.now }
        ensures { result.now ≡ plain_ranks self.now.suits (slice_range pairs.now start end) }
    {
        let from = usize::from(self.before[start]);
        let to = usize::from(self.before[end]);
        let all: &[u8] = &self.plain;
        &all[from..to]
    }

    /// The pairs from one place of all to another for which it names one.
    #[inline]
    pub fn flush(&self, pairs: &[Pair], start: usize, end: usize) -> &[Pair]
        requires parted { IsParted
            self.now.suits pairs.now self.now.plain self.now.flush self.now.before }
        requires few { length pairs.now ≤ 1326 }
        requires order { start ≤ end }
        requires inside { end ≤ length pairs.now }
        ensures { result.now ≡ flush_pairs self.now.suits (slice_range pairs.now start end) }
    {
        let from = start - usize::from(self.before[start]);
        let to = end - usize::from(self.before[end]);
        let all: &[Pair] = &self.flush;
        &all[from..to]
    }
}
