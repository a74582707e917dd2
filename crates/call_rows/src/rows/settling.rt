//! Hands and showdowns, settled by hand.

ghost use Rattle.std.specs.Prelude.{◌≡◌, ◌<◌, ◌+◌, ℕ, List, [], ◌∷◌, IfSome, ◌≤◌};
ghost use Rattle.card_sets.specs.State.{state_of};
ghost use Rattle.runout_ranges.specs.Shapes.{IsShapeOf};
ghost use Rattle.showdown_tally.specs.Cells.{units_at};
ghost use Rattle.showdown_tally.specs.Deals.{deal_of};
ghost use Rattle.showdown_tally.specs.Tallies.{Counts};

use crate::rows::deals::{Spot, cards, known};
use crate::rows::row_text;
use card_sets::{CardSet, Game, Known, Side};
use runout_ranges::{Runout, Shape, advance, first_runout, shape};
use showdown_tally::{Cell, Table, Tally, settle_runout, side_value};
use std::marker::Brand;
use std::sync::ledger::{Blank, Ledger};
use std::test::Fail;
use step_count::Steps;

/// The number of runouts that a hand wins, ties, and loses on a side of a pot: the pot, the hand, the
/// side, and these numbers.
pub(crate) type Ends = (u8, u8, Side, [u64; 3]);

/// The units that a hand receives of a pot: the pot, the hand, and the units.
pub(crate) type Units = (u8, u8, u64);

/// Own cards, each worth more than those before with 2c 7h 9h Th Js on the board.
const RISING: &[&[u8]] = &[
    b"4dAc", // ace high
    b"KcAd", // ace and king high
    b"3dJc", // a pair of jacks
    b"9cTd", // two pair
    b"2d2h", // three deuces
    b"3d8c", // a straight to the jack
    b"QcKd", // a straight to the king
    b"2hAh", // a flush
    b"8hJh", // a straight flush
];

/// As Ah for the main pot alone, against Qs Jd and Qh Jc, with 3c 7d 9h Ks on the board.
const TWO_POTS: Spot = (Game::Holdem, &[b"AsAh", b"QsJd", b"QhJc"], b"3c7d9hKs", b"");

/// How the first river ends: the aces win, and aren't in the side pot.
const FIRST_ENDS: &[Ends] = &[
    (0, 0, Side::High, [1, 0, 0]),
    (0, 1, Side::High, [0, 0, 1]),
    (0, 2, Side::High, [0, 0, 1]),
    (1, 0, Side::High, [0, 0, 0]),
    (1, 1, Side::High, [0, 1, 0]),
    (1, 2, Side::High, [0, 1, 0]),
    (1, 2, Side::Low, [0, 0, 0]),
];

/// The units of the hands for the first river.
const FIRST_UNITS: &[Units] = &[
    (0, 0, 5040),
    (0, 1, 0),
    (1, 1, 2520),
    (1, 2, 2520),
    (1, 0, 0),
];

/// How all 42 rivers end: four tens beat the aces.
const ALL_ENDS: &[Ends] = &[
    (0, 0, Side::High, [38, 0, 4]),
    (0, 1, Side::High, [0, 4, 38]),
    (0, 2, Side::High, [0, 4, 38]),
    (1, 1, Side::High, [0, 42, 0]),
];

/// The units of the hands for all rivers.
const ALL_UNITS: &[Units] = &[(0, 0, 38 * 5040), (0, 2, 4 * 2520), (1, 2, 42 * 2520)];

/// How the first river ends twice.
const TWICE_ENDS: &[Ends] = &[
    (0, 0, Side::High, [2, 0, 0]),
    (0, 2, Side::High, [0, 0, 2]),
    (1, 1, Side::High, [0, 2, 0]),
];

/// The units of the hands for the first river twice.
const TWICE_UNITS: &[Units] = &[(0, 0, 10080), (1, 2, 5040)];

/// Returns the worth of two cards on a side of hold'em with five on the board. The outer option is `None`
/// if these cards aren't possible.
fn value_on(side: Side, own: CardSet, board: CardSet) -> Option<Option<u32>> {
    if own.count() != 2 || board.count() != 5 || !own.is_apart(board) {
        return None;
    }
    Some(side_value(side, Game::Holdem, own, board))
}

/// Returns what `value_on` returns, with each set as a text.
fn value(side: Side, own: &[u8], board: &[u8]) -> Option<Option<u32>> {
    value_on(side, cards(own)?, cards(board)?)
}

/// Returns the worth of two cards with 2c 7h 9h Th Js on the board.
fn worth(own: &[u8]) -> Option<u32> {
    value(Side::High, own, b"2c7h9hThJs")?
}

/// Returns the first of some hands that isn't worth more than the one before it.
fn beaten(hands: &[&'static [u8]]) -> Option<&'static str> {
    let mut below = None;
    for own in hands {
        let value = worth(*own);
        if value <= below {
            return Some(row_text(*own));
        }
        below = value;
    }
    None
}

#[test]
fn better_hands_have_greater_numbers(rt: HostRuntime) {
    assert_eq!(rt; beaten(RISING), None);
}

/// Returns whether two hands are worth the same.
fn is_tie(own: &[u8], other: &[u8]) -> bool {
    match (worth(own), worth(other)) {
        (Some(value), Some(same)) => value == same,
        _ => false,
    }
}

#[test]
fn cards_that_do_not_play_do_not_count(rt: HostRuntime) {
    assert!(rt;
        is_tie(b"3dAs", b"4dAc"),
        "a card that doesn't play breaks no tie"
    );
}

/// Returns whether two cards are possible with these on the board, and have no low.
fn has_no_low(own: &[u8], board: &[u8]) -> bool {
    value(Side::Low, own, board) == Some(None)
}

#[test]
fn there_is_no_low_in_holdem(rt: HostRuntime) {
    assert!(rt;
        has_no_low(b"7cAh", b"2c3c4c5c6c"),
        "hold'em has no low, whatever the cards are"
    );
}

/// Returns three hands with two pots; the first hand has no part in the second pot.
fn main_and_side_pot(known: Option<Known>) -> Option<Table> {
    let known = known?;
    if known.count != 3 {
        return None;
    }
    Some(Table {
        known,
        pots: 2,
        eligible: [0b111, 0b110, 0, 0, 0, 0, 0, 0, 0, 0],
    })
}

/// Returns the table of the spot with two pots.
fn two_pots() -> Option<Table> {
    main_and_side_pot(known(&TWO_POTS))
}

/// Returns the tally of the first runout alone, or `None` if there is no runout.
fn first_settled<L: Ledger>(table: &Table, blank: Blank) -> Option<Tally>
    requires name { blank.name ≡ L.name }
    requires parts { blank.parts ≡ L.parts }
    requires some { 0 < blank.parts }
    ensures counts { IfSome result
        (λ t. (r : List (List ℕ)) × Counts (deal_of table.now) (r ∷ []) t) }
    ensures few { IfSome result (λ t. (p h : ℕ) → p < 10 → h < 10 → units_at t p h ≤ 10080) }
{
    let shape = shape(&table.known)?;
    let mut runout = Runout::new();
    first_runout(&shape, &mut runout);
    let mut tally = Tally::zero();
    let mut steps = Steps::<L>::new(blank);
    settle_runout(table, &shape, &runout, &mut tally, &mut steps);
    Some(tally)
}

/// Returns the tally of at most a thousand runouts of a shape, from the first. Each takes one step.
fn settled<L: Ledger>(table: &Table, shape: &Shape, steps: &mut Steps<L>) -> Tally
    requires shape { IsShapeOf (state_of table.now.known) shape.now }
    ensures { steps.new ≡ steps.old + result.runouts }
{
    let mut tally = Tally::zero();
    let mut runout = Runout::new();
    first_runout(shape, &mut runout);
    for count in 0..1000_u32 {
        settle_runout(table, shape, &runout, &mut tally, steps);
        if !advance(shape, &mut runout) {
            return tally;
        }
    }
    tally
}

/// Returns the tally of all runouts of a table, with a counter of its own.
fn all_settled<L: Ledger>(table: &Table, blank: Blank) -> Option<Tally>
    requires name { blank.name ≡ L.name }
    requires parts { blank.parts ≡ L.parts }
    requires some { 0 < blank.parts }
{
    let shape = shape(&table.known)?;
    let mut steps = Steps::<L>::new(blank);
    Some(settled(table, &shape, &mut steps))
}

/// Returns the tally of a table's runouts, if they are at most a thousand.
pub(crate) fn own_count(table: &Table) -> Option<Tally> {
    all_settled::<Brand>(table, Blank::new(1))
}

/// Returns the tally of the runouts of a table, if there is a table.
fn whole_count(table: &Option<Table>) -> Option<Tally> {
    match table {
        Some(table) => own_count(table),
        None => None,
    }
}

/// Returns the tally of the first runout of a table, if there is a table.
fn first_count(table: &Option<Table>) -> Option<Tally> {
    match table {
        Some(table) => first_settled::<Brand>(table, Blank::new(1)),
        None => None,
    }
}

/// Returns twice the tally of a table's first runout, as a sum.
fn twice_settled(table: &Table) -> Option<Tally> {
    let mut both = first_settled::<Brand>(table, Blank::new(1))?;
    let other = first_settled::<Brand>(table, Blank::new(1))?;
    both.add(&other);
    Some(both)
}

/// Returns what `twice_settled` returns of a table, if there is a table.
fn first_twice(table: &Option<Table>) -> Option<Tally> {
    match table {
        Some(table) => twice_settled(table),
        None => None,
    }
}

/// Returns whether the numbers of runouts that a hand wins, ties, and loses on a side of a pot are these.
fn has_end(tally: &Tally, end: &Ends) -> bool {
    let (pot, hand, side, [win, tie, lose]) = *end;
    pot < 10 && hand < 10 && tally.cell(pot, hand, side) == Cell { win, tie, lose }
}

/// Returns the place of the first of these for which `has_end` is false.
pub(crate) fn wrong_end(tally: &Tally, ends: &[Ends]) -> Option<usize> {
    for (place, end) in ends.iter().enumerate() {
        if !has_end(tally, end) {
            return Some(place);
        }
    }
    None
}

/// Returns the first of these hands that doesn't receive its units of its pot.
pub(crate) fn wrong_units(tally: &Tally, units: &[Units]) -> Option<Units> {
    for (pot, hand, wanted) in units {
        if *pot >= 10 || *hand >= 10 || tally.units(*pot, *hand) != *wanted {
            return Some((*pot, *hand, *wanted));
        }
    }
    None
}

#[test]
fn one_river_is_settled_in_each_pot(rt: HostRuntime) -> Result<(), Fail> {
    let tally = first_count(&two_pots()).ok_or("no tally")?;
    assert_eq!(rt; tally.runouts(), 1, "the runouts of the tally");
    assert_eq!(rt; wrong_end(&tally, FIRST_ENDS), None);
    assert_eq!(rt; wrong_units(&tally, FIRST_UNITS), None);
    Ok(())
}

#[test]
fn four_tens_of_42_rivers_beat_the_aces(rt: HostRuntime) -> Result<(), Fail> {
    let tally = whole_count(&two_pots()).ok_or("no tally")?;
    assert_eq!(rt; tally.runouts(), 42, "the runouts of the tally");
    assert_eq!(rt; wrong_end(&tally, ALL_ENDS), None);
    assert_eq!(rt; wrong_units(&tally, ALL_UNITS), None);
    Ok(())
}

#[test]
fn two_tallies_add_up(rt: HostRuntime) -> Result<(), Fail> {
    let tally = first_twice(&two_pots()).ok_or("no tally")?;
    assert_eq!(rt; tally.runouts(), 2, "the runouts of the tally");
    assert_eq!(rt; wrong_end(&tally, TWICE_ENDS), None);
    assert_eq!(rt; wrong_units(&tally, TWICE_UNITS), None);
    Ok(())
}
