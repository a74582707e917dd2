//! Sieves that are kept from one count to the next.

ghost use Rattle.std.specs.Prelude.{◌≡◌, ℕ, ◌<◌, ◌≤◌, [], List, length, slice_get, slice_index, vec_capacity, Some, IfOk};
ghost use Rattle.board_ranks.specs.KeptSieves.{AreSieves, IsSieve};
ghost use Rattle.board_ranks.specs.declared.pair.Pair.{Pair};
ghost use Rattle.board_ranks.specs.declared.sieve.Sieve.{Sieve};

use crate::pair::Pair;
use crate::sieve::Sieve;
use card_sets::Memory;
use std::alloc::Global;

/// How many there is room for: as many as three cards have counts of suits.
const ROOM: usize = 20;

/// Sieves of the same pairs.
#[derive(Drop)]
pub struct Sieves {
    /// Where the sieve for some counts of suits stands, if it does. What stands there is looked at before it is used.
    at: [u8; 64],
    /// The sieves.
    pub list: Vec<Sieve>,
    /// There is room for 20 sieves.
    pub ghost room: { 20 ≤ vec_capacity list },
}

/// Returns where the place of the sieve for some counts of suits is kept. Different counts of one deal's first cards have different places.
#[inline]
fn group_of(counts: &[u32; 4]) -> usize
    requires { (s : ℕ) → slice_index counts.now s ≤ 156 }
    ensures { result < 64 }
{
    ((counts[0] + 4 * counts[1] + 16 * counts[2]) % 64) as usize
}

impl Sieves {
    /// No sieves, and room for all.
    pub fn none(alloc: Global) -> Result<Sieves, Memory>
        ensures { IfOk result (λ sieves. (pairs : List Pair) → AreSieves pairs sieves.list.items) }
    {
        let list = Vec::with_capacity(alloc, ROOM)?;
        Ok(Sieves {
            at: [255; 64],
            list,
        })
    }

    /// Drops all sieves.
    pub fn clear(&mut self)
        ensures none { self.new.list.items ≡ [] }
        ensures right { (pairs : List Pair) → AreSieves pairs self.new.list.items }
    {
        self.list.clear();
    }

    /// Makes room for a sieve more: where there is none, all are dropped.
    fn make_room(&mut self)
        ensures room { length self.new.list.items < 20 }
        ensures right { (pairs : List Pair) → AreSieves pairs self.old.list.items
            → AreSieves pairs self.new.list.items }
    {
        if self.list.len() < ROOM {
            return;
        }
        self.clear();
    }

    /// Makes a sieve of pairs for some counts of cards of each suit, and returns its place.
    #[inline(never)]
    fn add(&mut self, pairs: &[Pair], counts: &[u32; 4]) -> usize
        requires few { length pairs.now ≤ 1326 }
        requires counts { (s : ℕ) → slice_index counts.now s ≤ 156 }
        requires right { AreSieves pairs.now self.old.list.items }
        ensures place { result < length self.new.list.items }
        ensures counts { (sieve : Sieve) → slice_get self.new.list.items result ≡ Some sieve
            → sieve.counts ≡ counts.now }
        ensures right { AreSieves pairs.now self.new.list.items }
    {
        self.make_room();
        let mut sieve = Sieve::none();
        sieve.fill(pairs, *counts);
        let place = self.list.len();
        self.list.push_reserved(sieve);
        place
    }

    /// Returns the place of the sieve of pairs for some counts of cards of each suit. If the sieve isn't kept, it is made.
    #[inline]
    pub fn ready(&mut self, pairs: &[Pair], counts: &[u32; 4]) -> usize
        requires few { length pairs.now ≤ 1326 }
        requires counts { (s : ℕ) → slice_index counts.now s ≤ 156 }
        requires right { AreSieves pairs.now self.old.list.items }
        ensures place { result < length self.new.list.items }
        ensures counts { (sieve : Sieve) → slice_get self.new.list.items result ≡ Some sieve
            → sieve.counts ≡ counts.now }
        ensures right { AreSieves pairs.now self.new.list.items }
    {
        let group = group_of(counts);
        let place = usize::from(self.at[group]);
        if place < self.list.len() && self.list[place].is_for(counts) {
            return place;
        }
        let place = self.add(pairs, counts);
        self.at[group] = (place % 256) as u8;
        place
    }

    /// The sieve in a place.
    #[inline]
    pub fn sieve_at(&self, place: usize) -> &Sieve
        requires { place < length self.now.list.items }
        ensures { slice_get self.now.list.items place ≡ Some result.now }
    {
        &self.list[place]
    }
}
