//! The known cards after a street.

ghost use Rattle.std.specs.Prelude.{◌≡◌, ◌≤◌, length};
ghost use Rattle.card_sets.specs.State.{state_of};
ghost use Rattle.runout_ranges.specs.Runouts.{HasMember};
ghost use Rattle.runout_ranges.specs.Shapes.{runouts_of, slots_of};
ghost use Rattle.runout_ranges.specs.Slots.{dealt, same_receiver};
ghost use Rattle.street_walk.specs.Streets.{IsNextOf, after, hands_after};

use crate::laws::known_sets;
use card_sets::{CardSet, Known};
use runout_ranges::{Receiver, Runout, Shape};

/// Returns whether two receivers are the same.
fn same_receiver(a: Receiver, b: Receiver) -> bool
    ensures { result ≡ same_receiver a b }
{
    match (a, b) {
        (Receiver::Board, Receiver::Board) => true,
        (Receiver::Hand(a), Receiver::Hand(b)) => a == b,
        _ => false,
    }
}

/// Returns the cards that the sets of the slots deal to a receiver.
fn dealt_to(shape: &Shape, sets: &[CardSet], receiver: Receiver) -> CardSet
    requires { length sets.now ≡ length (slots_of shape.now) }
    ensures { result ≡ dealt (slots_of shape.now) sets.now receiver }
{
    let slots = &shape.slots[..shape.used as usize];
    for (place, slot) in slots.iter().enumerate() {
        if same_receiver(slot.receiver, receiver) {
            return sets[place];
        }
    }
    CardSet::empty()
}

/// Adds to each hand, from 0, the cards that the sets of the slots deal to it.
fn deal_hands(hands: &mut [CardSet], shape: &Shape, sets: &[CardSet])
    requires few { length hands.old ≤ 10 }
    requires sets { length sets.now ≡ length (slots_of shape.now) }
    ensures { hands.new ≡ hands_after (slots_of shape.now) sets.now 0 hands.old }
{
    for number in 0..hands.len() {
        let more = dealt_to(shape, sets, Receiver::Hand(number as u8));
        hands[number] = hands[number].union(more);
    }
}

/// Returns the known cards after a choice of the next street's cards: those known before, and each slot's
/// cards with its receiver.
pub fn after_street(known: &Known, step: &Shape, r: &Runout) -> Known
    requires next { IsNextOf (state_of known.now) step.now }
    requires choice { HasMember (runouts_of step.now) r.now }
    ensures known { state_of result ≡ after (state_of known.now) r.now }
    ensures count { result.count ≡ known.now.count }
{
    known_sets(known);
    let sets = r.sets();
    let mut hands = known.hands;
    deal_hands(&mut hands[..known.count as usize], step, sets);
    Known {
        game: known.game,
        count: known.count,
        hands,
        board: known.board.union(dealt_to(step, sets, Receiver::Board)),
        dead: known.dead,
    }
}
