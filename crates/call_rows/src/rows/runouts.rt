//! Shapes and runouts of spots, counted and listed by hand.

ghost use Rattle.std.specs.Prelude.{◌<◌};

use crate::rows::deals::{Spot, known};
use card_sets::Game;
use runout_ranges::{Receiver, Runout, Shape, Slot, advance, count_runouts, first_runout, shape};

/// As Ah against Ks Kh, with 2c 4s 7d 9h on the board.
pub(crate) const TURN: Spot = (Game::Holdem, &[b"AsAh", b"KsKh"], b"2c4s7d9h", b"");

/// As Ah against Ks Kh, with 2c 7c 9c on the board.
pub(crate) const FLOP: Spot = (Game::Holdem, &[b"AsAh", b"KsKh"], b"2c7c9c", b"");

/// The flop of `FLOP`, with 2d and 2h dead.
const FLOP_WITH_DEAD_CARDS: Spot = (Game::Holdem, &[b"AsAh", b"KsKh"], b"2c7c9c", b"2d2h");

/// Single draw, two hands that keep four cards each, the deuces and the treys.
pub(crate) const DRAW: Spot = (Game::Lowball27, &[b"2c2d2h2s", b"3c3d3h3s"], b"", b"");

/// Seven card stud, two hands of four cards each, the deuces and the treys.
pub(crate) const STUD: Spot = (Game::Stud, &[b"2c2d2h2s", b"3c3d3h3s"], b"", b"");

/// Ten hands of which nothing is known.
const DARK: &[&[u8]] = &[b"", b"", b"", b"", b"", b"", b"", b"", b"", b""];

/// Single draw with ten such hands.
pub(crate) const DARK_DRAW: Spot = (Game::Lowball27, DARK, b"", b"");

/// Seven card stud with ten such hands.
pub(crate) const DARK_STUD: Spot = (Game::Stud, DARK, b"", b"");

/// One card for the board.
pub(crate) const RIVER: &[Slot] = &[Slot {
    receiver: Receiver::Board,
    count: 1,
}];

/// Two cards for the board.
pub(crate) const TURN_AND_RIVER: &[Slot] = &[Slot {
    receiver: Receiver::Board,
    count: 2,
}];

/// One card for each of two hands.
pub(crate) const ONE_EACH: &[Slot] = &[
    Slot {
        receiver: Receiver::Hand(0),
        count: 1,
    },
    Slot {
        receiver: Receiver::Hand(1),
        count: 1,
    },
];

/// Returns the cards still to come, or `None` if a spot isn't possible or too few cards are left.
fn shape_of(spot: &Spot) -> Option<Shape> {
    match known(spot) {
        Some(known) => shape(&known),
        None => None,
    }
}

/// Returns whether a shape has these slots, in this order.
pub(crate) fn has_slots(shape: &Shape, slots: &[Slot]) -> bool {
    &shape.slots[..usize::from(shape.used)] == slots
}

/// Returns the numbers of the least and the greatest card of a slot.
fn ends(runout: &Runout, slot: u8) -> (u8, u8) {
    let Some(set) = runout.sets().get(usize::from(slot)) else {
        return (52, 52);
    };
    match (set.first(), set.last()) {
        (Some(first), Some(last)) => (first.number(), last.number()),
        _ => (52, 52),
    }
}

/// What a walk over all runouts shows of a slot: the ends of its first and its last set, and the
/// number of runouts.
#[derive(Drop)]
struct Walk {
    first: (u8, u8),
    last: (u8, u8),
    count: u32,
}

/// Walks over at most a million runouts of a shape.
fn walked(shape: &Shape, slot: u8) -> Walk
    requires { slot < shape.now.used }
{
    let mut runout = Runout::new();
    first_runout(shape, &mut runout);
    let first = ends(&runout, slot);
    for count in 1..1_000_000 {
        if !advance(shape, &mut runout) {
            let last = ends(&runout, slot);
            return Walk { first, last, count };
        }
    }
    Walk {
        first,
        last: first,
        count: 0,
    }
}

/// Returns whether a shape has these slots, and a walk shows these ends of one slot and this number
/// of runouts.
fn is_walked(
    shape: &Shape,
    slots: &[Slot],
    slot: u8,
    first: (u8, u8),
    last: (u8, u8),
    count: u32,
) -> bool {
    if slot >= shape.used || !has_slots(shape, slots) {
        return false;
    }
    let seen = walked(shape, slot);
    seen.first == first && seen.last == last && seen.count == count
}

/// Returns whether the shape of a spot has these slots and this walk.
fn is_listed(
    spot: &Spot,
    slots: &[Slot],
    slot: u8,
    first: (u8, u8),
    last: (u8, u8),
    count: u32,
) -> bool {
    match shape_of(spot) {
        Some(shape) => is_walked(&shape, slots, slot, first, last, count),
        None => false,
    }
}

/// Returns the number of cards that may come.
fn unseen(spot: &Spot) -> Option<u32> {
    let shape = shape_of(spot)?;
    Some(shape.unseen.count())
}

/// 2d comes first, and Ad last.
#[test]
fn the_river_is_each_of_44_cards_once(rt: HostRuntime) {
    assert_eq!(rt; unseen(&TURN), Some(44), "the cards that may come");
    assert!(rt;
        is_listed(&TURN, RIVER, 0, (1, 1), (49, 49), 44),
        "44 rivers, from 2d to Ad"
    );
}

/// 2d 2h come first, and Ac Ad last.
#[test]
fn turn_and_river_are_chosen_once_in_either_order(rt: HostRuntime) {
    assert!(rt;
        is_listed(&FLOP, TURN_AND_RIVER, 0, (1, 2), (48, 49), 990),
        "990 pairs of cards, from 2d 2h to Ac Ad"
    );
}

/// 2s 3c come first, and Ac Ad last.
#[test]
fn dead_cards_do_not_come(rt: HostRuntime) {
    assert!(rt;
        is_listed(
            &FLOP_WITH_DEAD_CARDS,
            TURN_AND_RIVER,
            0,
            (3, 4),
            (48, 49),
            903
        ),
        "903 pairs of cards, from 2s 3c to Ac Ad"
    );
}

/// The first gets 4c first and As last, and the second 4d and Ah.
#[test]
fn the_second_hand_draws_from_what_the_first_leaves(rt: HostRuntime) {
    assert!(rt;
        is_listed(&DRAW, ONE_EACH, 0, (8, 8), (51, 51), 44 * 43),
        "the first hand draws 4c first, and As last"
    );
    assert!(rt;
        is_listed(&DRAW, ONE_EACH, 1, (9, 9), (50, 50), 44 * 43),
        "the second hand draws 4d first, and Ah last"
    );
}

/// Returns whether a spot has this number of slots and of runouts; the number is `None` if it is
/// above a limit.
fn is_counted(spot: &Spot, used: u8, limit: u64, count: Option<u64>) -> bool {
    match shape_of(spot) {
        Some(shape) => shape.used == used && count_runouts(&shape, limit).ok() == count,
        None => false,
    }
}

#[test]
fn runouts_are_counted_up_to_a_limit(rt: HostRuntime) {
    assert!(rt;
        is_counted(&TURN, 1, 44, Some(44)),
        "44 rivers aren't above a limit of 44"
    );
    assert!(rt;
        is_counted(&TURN, 1, 43, None),
        "44 rivers are above a limit of 43"
    );
    assert!(rt;
        is_counted(&STUD, 2, u64::MAX, Some(141_181_040)),
        "two hands of stud are counted"
    );
    assert!(rt;
        is_counted(&DARK_DRAW, 10, u64::MAX, None),
        "ten unknown hands are above each limit"
    );
}

#[test]
fn ten_stud_hands_need_more_than_a_deck(rt: HostRuntime) {
    assert!(rt;
        known(&DARK_STUD).is_some(),
        "ten unknown hands of stud are possible"
    );
    assert!(rt;
        shape_of(&DARK_STUD).is_none(),
        "ten hands of stud need more than a deck"
    );
}
