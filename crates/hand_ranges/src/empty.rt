//! A tally of no choice, and the places of any.

ghost use Rattle.std.specs.Prelude.{◌≡◌, length};
ghost use Rattle.range_lines.specs.Walks.{Column, number_in};

use range_lines::{RangeCell, RangeTally};

/// A tally of no choice.
pub(crate) fn no_tally() -> RangeTally
    ensures { (column : Column) → number_in result column ≡ 0 }
{
    let none = RangeCell {
        win: 0,
        tie: 0,
        lose: 0,
    };
    RangeTally {
        choices: 0,
        runouts: 0,
        weight: 0,
        cells: [none; 4],
        units: [0; 4],
    }
}

/// A tally has four places. A law: the call does nothing.
pub(crate) fn four_places(total: &RangeTally)
    ensures cells { length total.now.cells ≡ 4 }
    ensures units { length total.now.units ≡ 4 }
{
    let _cells: &[RangeCell] = &total.cells;
    let _units: &[u128] = &total.units;
}
