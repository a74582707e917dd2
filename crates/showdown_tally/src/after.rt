//! What the hands are worth after a runout, which is given by the set of each slot.

ghost use Rattle.card_sets.specs.State.{state_of};
ghost use Rattle.runout_ranges.specs.Runouts.{HasMember};
ghost use Rattle.runout_ranges.specs.Shapes.{IsShapeOf};
ghost use Rattle.showdown_tally.specs.Sides.{AreSideNumbersAfter};
ghost use Rattle.showdown_tally.specs.Tallies.{runouts_after};

use crate::dealing::{dealt_in, hands_after};
use crate::runout::{side_values, ten_places};
use crate::table::Table;
use card_sets::{CardSet, Side};
use runout_ranges::{Receiver, Shape};

/// What each hand is worth on a side after a runout, given by the set of each slot: as a number that
/// is greater for better, and None where the hand has nothing that counts.
pub fn values_after(side: Side, table: &Table, shape: &Shape, sets: &[CardSet]) -> [Option<u32>; 10]
    requires shape { IsShapeOf (state_of table.now.known) shape.now }
    requires runout { HasMember (runouts_after (state_of table.now.known)) sets.now }
    ensures { AreSideNumbersAfter side (state_of table.now.known) sets.now result }
{
    ten_places(table);
    let known = &table.known;
    let board = known.board.union(dealt_in(shape, sets, Receiver::Board));
    let full = hands_after(known, shape, sets);
    let hands = &full[..known.count as usize];
    side_values(side, known.game, hands, board)
}
