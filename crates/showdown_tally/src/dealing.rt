//! What a runout, which is given by the set of each slot, deals to the board and to each hand.

ghost use Rattle.std.specs.Prelude.{◌≡◌, ℕ, ◌<◌, [], length, slice_index_or};
ghost use Rattle.card_sets.specs.State.{state_of};
ghost use Rattle.runout_ranges.specs.Runouts.{HasMember};
ghost use Rattle.runout_ranges.specs.Slots.{dealt, same_receiver};
ghost use Rattle.runout_ranges.specs.Shapes.{slots_of, IsShapeOf};
ghost use Rattle.showdown_tally.specs.Laws.{IsFull};
ghost use Rattle.showdown_tally.specs.Showdown.{own_after, board_after};
ghost use Rattle.showdown_tally.specs.Tallies.{runouts_after};

use card_sets::{CardSet, Known};
use runout_ranges::{Receiver, Shape};

/// Whether two receivers are the same.
#[inline]
fn same_receiver(a: Receiver, b: Receiver) -> bool
    ensures { result ≡ same_receiver a b }
{
    match (a, b) {
        (Receiver::Board, Receiver::Board) => true,
        (Receiver::Hand(a), Receiver::Hand(b)) => a == b,
        _ => false,
    }
}

/// What the sets of the slots deal to a receiver.
#[inline]
pub(crate) fn dealt_in(shape: &Shape, sets: &[CardSet], receiver: Receiver) -> CardSet
    requires { length sets.now ≡ length (slots_of shape.now) }
    ensures { result ≡ dealt (slots_of shape.now) sets.now receiver }
{
    let slots = &shape.slots[..shape.used as usize];
    for (place, slot) in slots.iter().enumerate() {
        if same_receiver(slot.receiver, receiver) {
            return sets[place];
        }
    }
    CardSet::empty()
}

/// The cards of each hand after a runout.
#[inline]
pub(crate) fn hands_after(known: &Known, shape: &Shape, sets: &[CardSet]) -> [CardSet; 10]
    requires shape { IsShapeOf (state_of known.now) shape.now }
    requires runout { HasMember (runouts_after (state_of known.now)) sets.now }
    ensures ten { length result ≡ 10 }
    ensures hands { (h : ℕ) → h < length (state_of known.now).hands
        → slice_index_or result h [] ≡ own_after (state_of known.now) sets.now h }
    ensures full { (h : ℕ) → h < length (state_of known.now).hands
        → IsFull known.now.game (own_after (state_of known.now) sets.now h)
        (board_after (state_of known.now) sets.now) }
{
    let mut full = [CardSet::empty(); 10];
    known.board.rising();
    let hands = &known.hands[..known.count as usize];
    for (hand, own) in hands.iter().enumerate() {
        let own = *own;
        own.rising();
        full[hand] = own.union(dealt_in(shape, sets, Receiver::Hand(hand as u8)));
    }
    full
}
