//! Laws that say in plain words what the listing of the runouts is. Each law is a call that does nothing.

ghost use Rattle.std.specs.Prelude.{◌≡◌, ◌<◌, ℕ, ◌↔◌, [], List, length, slice_index_or};
ghost use Rattle.card_sets.specs.Cards.{IsCardSet};
ghost use Rattle.card_sets.specs.State.{state_of};
ghost use Rattle.runout_ranges.specs.MoreKnown.{HasNoMoreRunouts, IsEnough, KnowsNoLess};
ghost use Rattle.runout_ranges.specs.Runouts.{HasMember};
ghost use Rattle.runout_ranges.specs.Shapes.{runouts_of, ways_of, FillsSlots};
ghost use Rattle.runout_ranges.specs.Ways.{NoneTwice};

use crate::Shape;
use card_sets::Known;

/// A list of sets is a runout of the shape exactly if it has one set for each slot, with the slot's number
/// of cards, each a rising list, no card in two of them, and only cards that may come.
pub fn law_runouts_fill_the_slots(shape: &Shape)
    ensures { (sets : List (List ℕ))
        → (HasMember (runouts_of shape.now) sets ↔ FillsSlots shape.now sets) }
{
    shape.unseen.rising();
}

/// No runout of the shape is listed twice.
pub fn law_no_runout_twice(shape: &Shape)
    ensures { NoneTwice (runouts_of shape.now) }
{
    shape.unseen.rising();
}

/// The number of runouts is the product of the binomials, slot by slot, over the cards left.
pub fn law_runouts_are_counted(shape: &Shape)
    ensures { length (runouts_of shape.now) ≡ ways_of shape.now }
{
    shape.unseen.rising();
}

/// Each hand is a set.
fn hands_are_sets(known: &Known)
    ensures { (h : ℕ) → h < length (state_of known.now).hands
        → IsCardSet (slice_index_or (state_of known.now).hands h []) }
{
    for own in &known.hands[..known.count as usize] {
        own.rising();
    }
}

/// Two states of a game have the same numbers of hands and of dead cards, and the second knows no fewer
/// cards of any hand or of the board. If enough cards may come in the first, enough may come in the
/// second, and it has no more runouts.
pub fn law_no_more_runouts(before: &Known, after: &Known)
    ensures { KnowsNoLess (state_of before.now) (state_of after.now)
        → IsEnough (state_of before.now)
        → HasNoMoreRunouts (state_of before.now) (state_of after.now) }
{
    before.board.rising();
    before.dead.rising();
    hands_are_sets(before);
    after.board.rising();
    after.dead.rising();
    hands_are_sets(after);
}
