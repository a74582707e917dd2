//! The cards that a known state lacks.

ghost use Rattle.std.specs.Prelude.{◌≡◌, ◌<◌, ◌+◌, ◌++◌, [], ◌↔◌, length, sum, IsNone, IfSome};
ghost use Rattle.card_sets.specs.State.{state_of};
ghost use Rattle.runout_ranges.specs.Slots.{unseen, slots, slot_of, counts_of};
ghost use Rattle.runout_ranges.specs.Shapes.{IsShapeOf};

use crate::{Receiver, Shape, Slot};
use card_sets::{CardSet, Known};
use std::marker::Model;

/// Returns the cards in no known set.
fn unseen_cards(known: &Known) -> CardSet
    ensures { result ≡ unseen (state_of known.now) }
{
    let mut unseen = CardSet::deck().minus(known.board).minus(known.dead);
    for hand in &known.hands[..known.count as usize] {
        unseen = unseen.minus(*hand);
    }
    unseen
}

/// A list of up to eleven slots. Clauses see it as a list.
#[derive(Drop)]
struct SlotList {
    /// The number of slots.
    used: u8,
    /// The slots, followed by unused ones.
    slots: [Slot; 11],
}

impl Model for SlotList {
    ghost use Rattle.std.specs.Prelude.{List, take, ◌≤◌};
    ghost use Rattle.runout_ranges.specs.declared.shapes.Slot.{Slot};

    ghost Value = { List Slot };

    ghost view = { λ s. take s.used s.slots };

    ghost invariant = { λ s. s.used ≤ 11 };
}

impl SlotList {
    fn new() -> SlotList
        ensures { result ≡ [] }
    {
        let none = Slot {
            receiver: Receiver::Board,
            count: 0,
        };
        SlotList {
            used: 0,
            slots: [none; 11],
        }
    }

    /// Adds the slot of a receiver that lacks `count` cards, unless it lacks none.
    fn add(&mut self, receiver: Receiver, count: u8)
        requires { length self.old < 11 }
        ensures { self.new ≡ self.old ++ slot_of receiver count }
    {
        if count > 0 {
            self.slots[self.used as usize] = Slot { receiver, count };
            self.used += 1;
        }
    }

    /// Returns the number of cards that the slots need.
    fn needed(&self) -> u32
        ensures { result ≡ sum (counts_of self.now) }
    {
        let mut needed = 0;
        for slot in &self.slots[..self.used as usize] {
            needed += u32::from(slot.count);
        }
        needed
    }
}

/// Returns the slots of the receivers that lack cards.
fn lacking(known: &Known) -> SlotList
    ensures { result ≡ slots (state_of known.now) }
{
    let mut lacking = SlotList::new();
    let board = known.game.board_size().saturating_sub(known.board.count());
    lacking.add(Receiver::Board, board as u8);
    let full = known.game.own_size();
    for number in 0..known.count {
        let hand = known.hands[number as usize];
        let lacks = full.saturating_sub(hand.count());
        lacking.add(Receiver::Hand(number), lacks as u8);
    }
    lacking
}

/// Returns what is still to be dealt in a known state. `None` exactly if fewer cards may come than
/// are lacking.
pub fn shape(known: &Known) -> Option<Shape>
    ensures none { let st = state_of known.now in
        IsNone result ↔ (length (unseen st) < sum (counts_of (slots st))) }
    ensures shape { IfSome result (λ s. IsShapeOf (state_of known.now) s) }
{
    let unseen = unseen_cards(known);
    let lacking = lacking(known);
    if unseen.count() < lacking.needed() {
        return None;
    }
    Some(Shape {
        unseen,
        slots: lacking.slots,
        used: lacking.used,
    })
}
