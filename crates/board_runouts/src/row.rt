//! Who wins both sides of a pot, for each pair of ranks of the last two cards of the board.

ghost use Rattle.std.specs.Prelude.{◌≡◌, ◌≢◌, ℕ, ◌<◌, ◌≤◌, ◌∷◌, ◌++◌, List, length, slice_index, MatchOption, IsTrue};
ghost use Rattle.card_sets.specs.Cards.{IsRising, rank_of};
ghost use Rattle.board_runouts.specs.SideRows.{AreRanksOf};

use crate::sides::Ends;
use card_sets::{Card, CardSet};

/// How many places there are for pairs of ranks: 13 times the lower rank and then the higher.
pub(crate) const PLACES: usize = 169;

/// Who wins a pot with first cards of some ranks, for each pair of ranks of the last two cards.
#[derive(Clone, Copy)]
pub(crate) struct Row {
    /// The pot, from 0.
    pub(crate) pot: u8,
    /// The ranks of the first cards, up to three, and 13 after them.
    pub(crate) ranks: [u8; 3],
    /// The least rank of the two last cards.
    pub(crate) least: u8,
    /// By the pair of ranks, the set of the hands that win the high by ranks alone, and 1,024 more where somebody has a low.
    pub(crate) mains: [u16; PLACES],
    /// By the pair of ranks, the set of the hands that win the low.
    pub(crate) lows: [u16; PLACES],
    /// By the pair of ranks, the best high by ranks alone.
    pub(crate) tops: [u32; PLACES],
    /// So large may a set with its mark be.
    pub(crate) ghost few_mains: { (place : ℕ) → slice_index mains place < 2048 },
    /// So large may a set be.
    pub(crate) ghost few_lows: { (place : ℕ) → slice_index lows place < 1024 },
}

impl Row {
    /// A row with nothing in it.
    pub(crate) fn none() -> Row {
        Row {
            pot: 0,
            ranks: [0; 3],
            least: 0,
            mains: [0; PLACES],
            lows: [0; PLACES],
            tops: [0; PLACES],
        }
    }

    /// Names the pot and the first cards that it is to be for.
    #[inline]
    pub(crate) fn name(&mut self, pot: u8, ranks: [u8; 3], least: u8)
        ensures pot { self.new.pot ≡ pot }
        ensures ranks { self.new.ranks ≡ ranks }
        ensures least { self.new.least ≡ least }
    {
        self.pot = pot;
        self.ranks = ranks;
        self.least = least;
    }

    /// Puts who wins at a place.
    #[inline]
    pub(crate) fn put(&mut self, place: usize, ends: Ends)
        // There is a place for each two ranks, and the sets are of up to ten hands, the high's with the mark of a low.
        requires place { place < 169 }
        requires main { ends.main < 2048 }
        requires low { ends.low < 1024 }

        // The row stays that of its pot and its first cards.
        ensures pot { self.new.pot ≡ self.old.pot }
        ensures ranks { self.new.ranks ≡ self.old.ranks }
        ensures least { self.new.least ≡ self.old.least }

        // At the place it says who wins, and what the best high is worth by ranks alone.
        ensures main { slice_index self.new.mains place ≡ ends.main }
        ensures low { slice_index self.new.lows place ≡ ends.low }
        ensures top { slice_index self.new.tops place ≡ ends.top }

        // At every other place it says what it said.
        ensures mains { (other : ℕ) → other ≢ place
            → slice_index self.new.mains other ≡ slice_index self.old.mains other }
        ensures lows { (other : ℕ) → other ≢ place
            → slice_index self.new.lows other ≡ slice_index self.old.lows other }
        ensures tops { (other : ℕ) → other ≢ place
            → slice_index self.new.tops other ≡ slice_index self.old.tops other }
    {
        self.mains[place] = ends.main;
        self.lows[place] = ends.low;
        self.tops[place] = ends.top;
    }

    /// Whether it is one of a pot for first cards of these ranks, the last of which is the least of the cards after them.
    #[inline]
    pub(crate) fn is_for(&self, pot: u8, ranks: &[u8; 3], least: u8) -> bool
        ensures pot { IsTrue result → self.now.pot ≡ pot }
        ensures ranks { IsTrue result → self.now.ranks ≡ ranks.now }
        ensures least { IsTrue result → self.now.least ≡ least }
    {
        self.pot == pot && self.ranks == *ranks && self.least == least
    }
}

/// The rank of a card that there may be, or else 13.
#[inline]
fn rank_or_none(card: Option<Card>) -> u8
    ensures rank { MatchOption card (result ≡ 13) (λ c. result ≡ rank_of c) }
    ensures bound { result < 14 }
{
    match card {
        Some(card) => card.rank(),
        None => 13,
    }
}

/// The ranks of up to three cards, rising, and 13 after them.
#[inline]
pub(crate) fn ranks_of(cards: CardSet) -> [u8; 3]
    requires { length cards ≤ 3 }
    ensures ranks { AreRanksOf result cards }
    ensures bounds { (place : ℕ) → slice_index result place < 14 }
{
    let mut rest = cards.iter();
    let first = rank_or_none(rest.next());
    let second = rank_or_none(rest.next());
    let third = rank_or_none(rest.next());
    [first, second, third]
}

/// The rank of the last of some cards, 0 of none. No card after them has a lower one.
#[inline]
pub(crate) fn last_rank(cards: CardSet) -> u8
    ensures { (card : ℕ) (more : List ℕ) → IsRising (cards ++ card ∷ more) → result ≤ rank_of card }
{
    match cards.last() {
        Some(card) => card.rank(),
        None => 0,
    }
}
