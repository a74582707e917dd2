//! How often each set of hands wins.

ghost use Rattle.std.specs.Prelude.{◌≡◌, ℕ, ◌+◌, ◌*◌, ◌<◌, ◌≤◌, ◌^◌, ◌/◌, length};
ghost use Rattle.card_sets.specs.PlayerSets.{hands_below};
ghost use Rattle.showdown_tally.specs.SetShares.{set_cell};
ghost use Rattle.showdown_tally.specs.Showdown.{part_of};
ghost use Rattle.hand_ranges.specs.Boards.{worth, AreEndsWithin, EndsGrow, ends_adds, ends_number};
ghost use Rattle.range_lines.specs.Walks.{Column, number_in};

use crate::empty::{four_places, no_tally};
use crate::versus::Versus;
use crate::winners::{cell_beside, units_beside};
use card_sets::PlayerSet;
use range_lines::{RangeCell, RangeTally};

/// How often each set of hands wins beside the boards so far, each choice as often as it counts.
#[derive(Clone, Copy)]
pub(crate) struct Ends {
    /// By the number with the bits of the hands that win.
    pub(crate) sets: [u128; 16],
    /// How many choices were added, once a board.
    pub(crate) choices: u128,
}

impl Ends {
    /// No choice.
    pub(crate) fn new() -> Ends
        ensures { (by_set : ℕ → ℕ) (each : ℕ) → worth result by_set each ≡ 0 }
    {
        Ends {
            sets: [0; 16],
            choices: 0,
        }
    }

    /// There are sixteen places. A law: the call does nothing.
    fn places(&self)
        ensures { length self.now.sets ≡ 16 }
    {
        let _sets: &[u128] = &self.sets;
    }

    /// Adds wins of a set.
    #[inline]
    fn put(&mut self, place: u16, times: u64)
        requires place { place < 16 }
        requires few { self.old.choices ≤ 2 ^ 81 }
        requires within { worth self.old (λ set. 1) 0 ≤ 2 ^ 120 }
        ensures grows { EndsGrow self.old self.new (λ by_set each. times * by_set place) }
        ensures choices { self.new.choices ≡ self.old.choices }
    {
        self.places();
        self.sets[usize::from(place)] += u128::from(times);
    }

    /// Adds the choices of some hands with each hand of a range, by how it stands to the best of them, which the winners are.
    pub(crate) fn add(&mut self, winners: PlayerSet, count: u8, weight: u64, versus: Versus)
        requires count { count < 4 }
        requires winners { winners < 2 ^ count }
        requires few { self.old.choices ≤ 2 ^ 80 }
        requires hands { versus.hands ≤ 2 ^ 32 }
        requires within { AreEndsWithin self.old }
        requires weight { weight ≤ 2 ^ 24 }
        requires light { versus.less + (versus.same + versus.more) ≤ 255 * versus.hands }
        ensures grows { EndsGrow self.old self.new (λ by_set each. ends_adds winners count weight versus by_set each) }
        ensures within { AreEndsWithin self.new }
    {
        let hand = 1 << count;
        self.put(winners.bits(), weight * versus.less);
        self.put(winners.bits() + hand, weight * versus.same);
        self.put(hand, weight * versus.more);
        self.choices += u128::from(versus.hands);
    }
    /// Adds up what all counted wins are worth, given what a win of each set is worth.
    fn worth<F: Fn(u16) -> u64>(&self, share: F) -> u128
        // Each share can be had, and is small.
        requires callable { (set : ℕ) → set < 16 → F.pre share set }
        requires small { (set n : ℕ) → set < 16 → F.post share set n → n ≤ 5040 }
        requires within { worth self.now (λ set. 1) 0 ≤ 2 ^ 112 }
        ensures { (shares : ℕ → ℕ) → ((set n : ℕ) → set < 16 → F.post share set n → n ≡ shares set)
            → result ≡ worth self.now shares 0 }
    {
        self.places();
        let mut worth = 0u128;
        for place in 0..16u16 {
            worth += self.sets[usize::from(place)] * u128::from(share(place));
        }
        worth
    }

    /// How the runouts end for one of the first `count` hands.
    fn cell(&self, count: u8, hand: u8) -> RangeCell
        requires few { count ≤ 4 }
        requires hand { hand < count }
        requires within { worth self.now (λ set. 1) 0 ≤ 2 ^ 112 }
        ensures win { result.win ≡ worth self.now (λ set. (set_cell count hand set).win) 0 }
        ensures tie { result.tie ≡ worth self.now (λ set. (set_cell count hand set).tie) 0 }
        ensures lose { result.lose ≡ worth self.now (λ set. (set_cell count hand set).lose) 0 }
    {
        RangeCell {
            win: self.worth(|set| cell_beside(PlayerSet::of(set), count, hand).win),
            tie: self.worth(|set| cell_beside(PlayerSet::of(set), count, hand).tie),
            lose: self.worth(|set| cell_beside(PlayerSet::of(set), count, hand).lose),
        }
    }

    /// The units of one of the first `count` hands.
    fn units(&self, count: u8, hand: u8) -> u128
        requires few { count ≤ 4 }
        requires hand { hand < count }
        requires within { worth self.now (λ set. 1) 0 ≤ 2 ^ 112 }
        ensures { result ≡ worth self.now (λ set. part_of 5040 (hands_below set count) hand) 0 }
    {
        self.worth(|set| units_beside(PlayerSet::of(set), count, hand))
    }

    /// How often the choices count together, once a board.
    fn all(&self) -> u128
        requires within { worth self.now (λ set. 1) 0 ≤ 2 ^ 112 }
        ensures { result ≡ worth self.now (λ set. 1) 0 }
    {
        self.worth(|_| 1)
    }

    /// The tally of `count` hands, if each choice has `runouts` runouts. It leaves the number of runouts at 0.
    pub(crate) fn tally(&self, count: u8, runouts: u64) -> RangeTally
        requires few { count ≤ 4 }
        requires some { 0 < runouts }
        requires within { worth self.now (λ set. 1) 0 ≤ 2 ^ 112 }
        requires choices { self.now.choices / runouts < 2 ^ 64 }
        ensures { (column : Column) → number_in result column
            ≡ ends_number self.now count runouts column }
    {
        let mut total = no_tally();
        total.choices = (self.choices / u128::from(runouts)) as u64;
        total.weight = self.all() / u128::from(runouts);
        for hand in 0..count {
            four_places(&total);
            let place = usize::from(hand);
            total.cells[place] = self.cell(count, hand);
            total.units[place] = self.units(count, hand);
        }
        total
    }
}
