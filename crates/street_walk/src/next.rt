//! The next street.

ghost use Rattle.std.specs.Prelude.{◌≡◌, ◌≤◌, ◌<◌, ◌^◌, ◌↔◌, sum, IsNone, IfSome};
ghost use Rattle.card_sets.specs.Games.{family_of};
ghost use Rattle.card_sets.specs.State.{state_of};
ghost use Rattle.runout_ranges.specs.Slots.{counts_of};
ghost use Rattle.runout_ranges.specs.Jobs.{IsDeckShort};
ghost use Rattle.street_walk.specs.Streets.{IsNextOf, IsLastStreet, board_gets, hand_gets, gets, next_of, divided_of, divisions};

use card_sets::{Family, Game, Known};
use runout_ranges::{Receiver, Shape, Slot, count_choices, shape};

/// Returns the number of cards that a board gets next: all that it lacks except the last two, and then one
/// at a time.
fn board_gets(lacking: u8) -> u8
    ensures { result ≡ board_gets lacking }
{
    if lacking > 2 {
        return lacking - 2;
    }
    lacking.min(1)
}

/// Returns the number of cards that a hand gets next: one in stud, and all that it lacks in other games.
fn hand_gets(game: Game, lacking: u8) -> u8
    ensures { result ≡ hand_gets (family_of game) lacking }
{
    match game.family() {
        Family::Stud => lacking.min(1),
        Family::Board | Family::Draw | Family::TripleDraw => lacking,
    }
}

/// Returns the number of cards that a receiver gets next.
fn gets(game: Game, receiver: Receiver, lacking: u8) -> u8
    ensures { result ≡ gets game receiver lacking }
{
    match receiver {
        Receiver::Board => board_gets(lacking),
        Receiver::Hand(_) => hand_gets(game, lacking),
    }
}

/// Turns the slots of all cards to come into those of the next street.
fn give_next(game: Game, slots: &mut [Slot])
    ensures { slots.new ≡ next_of game slots.old }
{
    for place in 0..slots.len() {
        let slot = slots[place];
        slots[place].count = gets(game, slot.receiver, slot.count);
    }
}

/// Returns the shape of the next street's cards. A board gets the cards that it lacks to have three, and
/// then one card at a time. Each stud hand that lacks cards gets one, and another hand all that it lacks.
/// `None` exactly if no card is lacking.
pub fn next_street(known: &Known) -> Option<Shape>
    requires enough { ¬ IsDeckShort (state_of known.now) }
    ensures none { IsNone result ↔ IsLastStreet (state_of known.now) }
    ensures next { IfSome result (λ step. IsNextOf (state_of known.now) step) }
{
    let Some(whole) = shape(known) else {
        unreachable!();
    };
    if whole.used == 0 {
        return None;
    }
    let mut slots = whole.slots;
    give_next(known.game, &mut slots[..whole.used as usize]);
    Some(Shape {
        unseen: whole.unseen,
        slots,
        used: whole.used,
    })
}

/// Returns the number of ways to divide the cards of the slots into those of the next street and those
/// that come later.
fn divided(game: Game, slots: &[Slot]) -> u64
    requires deck { sum (counts_of slots.now) ≤ 52 }
    requires fits { divided_of game slots.now < 2 ^ 64 }
    ensures { result ≡ divided_of game slots.now }
{
    let [slot, others @ ..] = slots else {
        return 1;
    };
    let now = gets(game, slot.receiver, slot.count);
    count_choices(u32::from(slot.count), u32::from(now)) * divided(game, others)
}

/// Returns the number of ways to divide one runout into the next street's cards and those that come later:
/// for each slot, the number of choices of its next cards among all that it lacks. 1 if no card is
/// lacking.
pub fn divisions(known: &Known) -> u64
    requires enough { ¬ IsDeckShort (state_of known.now) }
    ensures { result ≡ divisions (state_of known.now) }
{
    let Some(whole) = shape(known) else {
        unreachable!();
    };
    let _few = whole.unseen.count();
    divided(known.game, &whole.slots[..whole.used as usize])
}
