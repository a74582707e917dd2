//! Who wins beside a full board, by the numbers of the hands' values.

ghost use Rattle.std.specs.Prelude.{◌≡◌, ◌-◌, ◌<◌, ◌≤◌, ◌^◌};
ghost use Rattle.card_sets.specs.PlayerSets.{hands_below, set_of_players};
ghost use Rattle.showdown_tally.specs.SetShares.{set_cell};
ghost use Rattle.showdown_tally.specs.Showdown.{part_of};
ghost use Rattle.showdown_tally.specs.Settling.{top_below, tops_of};

use card_sets::PlayerSet;
use showdown_tally::{Cell, greater, is_top};

/// How a runout that some of the first hands win ends for one of them.
#[inline]
pub(crate) fn cell_beside(winners: PlayerSet, count: u8, hand: u8) -> Cell
    requires few { count ≤ 4 }
    requires hand { hand < count }
    ensures { result ≡ set_cell count hand winners }
{
    let none = Cell {
        win: 0,
        tie: 0,
        lose: 0,
    };
    if !winners.has(hand) {
        Cell { lose: 1, ..none }
    } else if winners.below(count).count() == 1 {
        Cell { win: 1, ..none }
    } else {
        Cell { tie: 1, ..none }
    }
}

/// The units of one of the first hands of a pot that some of them win.
#[inline]
pub(crate) fn units_beside(winners: PlayerSet, count: u8, hand: u8) -> u64
    requires few { count ≤ 4 }
    requires hand { hand < count }
    ensures { result ≡ part_of 5040 (hands_below winners count) hand }
{
    if winners.has(hand) {
        5040 / u64::from(winners.below(count).count())
    } else {
        0
    }
}

/// Returns the greatest of the first `count` values.
#[inline]
pub(crate) fn top_of(values: &[Option<u32>; 4], count: u8) -> Option<u32>
    requires { count ≤ 4 }
    ensures { result ≡ top_below values.now (2 ^ count - 1) count }
{
    let mut top = None;
    for hand in 0..count {
        top = greater(top, values[usize::from(hand)]);
    }
    top
}

/// Returns which of the first `count` hands have the greatest value.
#[inline]
pub(crate) fn tops(values: &[Option<u32>; 4], count: u8) -> PlayerSet
    requires { count ≤ 4 }
    ensures { result ≡ set_of_players (tops_of values.now (2 ^ count - 1) count) }
{
    let top = top_of(values, count);
    PlayerSet::passing(count, |hand| is_top(values[usize::from(hand)], top))
}
