//! All pairs of the cards that may come, in the order of the listing of choices.

ghost use Rattle.std.specs.Prelude.{◌≡◌, ℕ, ◌+◌, ◌-◌, ◌<◌, ◌≤◌, ◌++◌, [], ◌∷◌, length, map, slice_get, slice_index, take, Some, IfOk};
ghost use Rattle.std.specs.List.{slice_range};
ghost use Rattle.card_sets.specs.Choose.{choose};
ghost use Rattle.runout_ranges.specs.Ways.{binomial};
ghost use Rattle.board_ranks.specs.KeptSieves.{AreSieves};
ghost use Rattle.runout_walk.specs.Listing.{IsEndOf};
ghost use Rattle.board_runouts.specs.Pairs.{cards_of_pair};
ghost use Rattle.board_ranks.specs.declared.sieve.Sieve.{Sieve};

use crate::parts::Parts;
use board_ranks::{PAIRS_MAX, Pair, Sieve, Sieves};
use card_sets::{Card, CardSet, Memory};
use runout_ranges::count_choices;
use runout_walk::{CardList, filled};
use std::alloc::Global;

/// All pairs of some cards, in the order of the listing of choices: room for those of a deck, on the heap.
#[derive(Drop)]
pub(crate) struct Pairs {
    /// The cards.
    pub(crate) cards: CardSet,
    /// How many pairs there are.
    pub(crate) used: usize,
    /// The pairs, and others after them.
    pub(crate) pairs: Vec<Pair>,
    /// Their sieves.
    pub(crate) sieves: Sieves,
    /// There is a place for each pair of a deck.
    pub(crate) ghost sized: { length pairs.items ≡ 1326 },
    /// The places are enough for all pairs.
    pub(crate) ghost few: { used ≤ 1326 },
    /// They are all choices of two of the cards.
    pub(crate) ghost listed: { map cards_of_pair (take used pairs.items) ≡ choose 2 cards },
    /// The sieves part them.
    pub(crate) ghost parted: { AreSieves (take used pairs.items) sieves.list.items },
}

/// A stretch of a listing, from one place to another.
#[derive(Clone, Copy)]
pub(crate) struct Stretch {
    /// The first place.
    pub(crate) start: usize,
    /// The place after the last one.
    pub(crate) end: usize,
    /// The end isn't before the start.
    pub(crate) ghost order: { start ≤ end },
}

/// Puts the pairs of a card with each of some others after the first `used` ones, and gives how many there are then.
#[inline]
fn put_pairs(pairs: &mut [Pair], used: usize, low: Card, others: &[Card]) -> usize
    requires { used + length others.now ≤ length pairs.old }
    ensures used { result ≡ used + length others.now }
    ensures pairs { map cards_of_pair (take result pairs.new)
        ≡ map cards_of_pair (take used pairs.old) ++ map (λ high. low ∷ high ∷ []) others.now }
    ensures same { length pairs.new ≡ length pairs.old }
{
    for at in 0..others.len() {
        pairs[used + at] = Pair::of(low, others[at]);
    }
    used + others.len()
}

/// Puts all pairs of some cards at the front, and gives how many they are.
fn put_all_pairs(pairs: &mut [Pair], cards: &[Card]) -> usize
    requires room { length pairs.old ≡ 1326 }
    requires deck { length cards.now ≤ 52 }
    ensures used { result ≤ 1326 }
    ensures pairs { map cards_of_pair (take result pairs.new) ≡ choose 2 cards.now }
    ensures same { length pairs.new ≡ 1326 }
{
    let mut used = 0;
    for place in 0..cards.len() {
        used = put_pairs(pairs, used, cards[place], &cards[place + 1..]);
    }
    used
}

/// Returns the places of the pairs of the last `count` cards in a listing of `size` pairs, from place `lo` to `hi` among these pairs.
#[inline]
fn last_pairs(size: usize, count: u32, lo: u64, hi: u64) -> Stretch
    // `count` cards have a pair, and the listing has all their pairs, and at most those of a deck.
    requires deck { count ≤ 52 }
    requires two { 2 ≤ count }
    requires enough { binomial count 2 ≤ size }
    requires few { size ≤ 1326 }

    // The places are among the pairs of these cards.
    requires order { lo < hi }
    requires inside { hi ≤ binomial count 2 }

    // The pairs of the last cards of a listing are its last ones, since lower cards come first.
    ensures start { result.start ≡ (size - binomial count 2) + lo }
    ensures end { result.end ≡ (size - binomial count 2) + hi }
{
    let before = size - count_choices(count, 2) as usize;
    Stretch {
        start: before + lo as usize,
        end: before + hi as usize,
    }
}

impl Pairs {
    /// The pairs of no cards.
    pub(crate) fn none(alloc: Global) -> Result<Pairs, Memory>
        ensures { IfOk result (λ pairs. pairs.cards ≡ []) }
    {
        let pairs = filled(alloc, Pair::any(), PAIRS_MAX)?;
        let sieves = Sieves::none(alloc)?;
        Ok(Pairs {
            cards: CardSet::empty(),
            used: 0,
            pairs,
            sieves,
        })
    }

    /// Makes them the pairs of some cards, in place. It does nothing where they are.
    pub(crate) fn serve(&mut self, cards: CardSet)
        ensures { self.new.cards ≡ cards }
    {
        if self.cards == cards {
            return;
        }
        self.sieves.clear();
        let list = CardList::of(cards);
        self.used = put_all_pairs(self.pairs.as_mut_slice(), list.as_slice());
        self.cards = cards;
    }

    /// Where the pairs of the last cards of all stand, by their places in the listing of these pairs.
    #[inline]
    pub(crate) fn stretch(&self, rest: CardSet, lo: u64, hi: u64) -> Stretch
        requires end { IsEndOf rest self.now.cards }
        requires order { lo < hi }
        requires inside { hi ≤ length (choose 2 rest) }
        ensures inside { result.end ≤ self.now.used }
        ensures pairs { map cards_of_pair
            (slice_range (take self.now.used self.now.pairs.items) result.start result.end)
            ≡ slice_range (choose 2 rest) lo hi }
    {
        self.cards.rising();
        rest.rising();
        last_pairs(self.used, rest.count(), lo, hi)
    }

    /// The pairs.
    #[inline]
    pub(crate) fn listed(&self) -> &[Pair]
        ensures pairs { result.now ≡ take self.now.used self.now.pairs.items }
        ensures few { length result.now ≤ 1326 }
        ensures count { length result.now ≡ self.now.used }
    {
        &self.pairs[..self.used]
    }

    /// Returns the place of the sieve for some counts of cards of each suit. If the sieve isn't kept, it is made.
    #[inline]
    pub(crate) fn ready(&mut self, counts: &[u32; 4]) -> usize
        requires counts { (s : ℕ) → slice_index counts.now s ≤ 156 }
        ensures place { result < length self.new.sieves.list.items }
        ensures counts { (sieve : Sieve) → slice_get self.new.sieves.list.items result ≡ Some sieve
            → sieve.counts ≡ counts.now }
        ensures cards { self.new.cards ≡ self.old.cards }
    {
        let listed = &self.pairs[..self.used];
        self.sieves.ready(listed, counts)
    }

    /// The pairs of a stretch.
    #[inline]
    pub(crate) fn between(&self, stretch: Stretch) -> &[Pair]
        requires { stretch.end ≤ self.now.used }
        ensures { result.now
            ≡ slice_range (take self.now.used self.now.pairs.items) stretch.start stretch.end }
    {
        let all = self.listed();
        &all[stretch.start..stretch.end]
    }

    /// The pairs of a stretch, parted by the sieve in a place.
    #[inline]
    pub(crate) fn parts(&self, place: usize, stretch: Stretch) -> Parts<'_>
        requires place { place < length self.now.sieves.list.items }
        requires inside { stretch.end ≤ self.now.used }
        ensures sieve { slice_get self.now.sieves.list.items place ≡ Some result.sieve.now }
        ensures pairs { result.pairs.now
            ≡ slice_range (take self.now.used self.now.pairs.items) stretch.start stretch.end }
    {
        let sieve = self.sieves.sieve_at(place);
        let all = self.listed();
        let pairs = &all[stretch.start..stretch.end];
        let plain = sieve.plain(all, stretch.start, stretch.end);
        let flush = sieve.flush(all, stretch.start, stretch.end);
        Parts {
            sieve,
            pairs,
            plain,
            flush,
        }
    }
}
