//! Streets of known states, one after another, and the sums over the choices of their cards, worked out by
//! hand.

ghost use Rattle.std.specs.Prelude.{◌≡◌, ◌<◌, IfSome};
ghost use Rattle.card_sets.specs.State.{state_of};
ghost use Rattle.street_walk.specs.Streets.{IsNextOf};

use crate::rows::deals::{Spot, known};
use crate::rows::runouts::{
    DARK_DRAW, DARK_STUD, DRAW, FLOP, ONE_EACH, RIVER, STUD, TURN, TURN_AND_RIVER, has_slots,
};
use crate::rows::settling::{Ends, Units, own_count, wrong_end, wrong_units};
use card_sets::{Game, Known, Side};
use equity_job::Scratch;
use runout_ranges::{Receiver, Runout, Shape, Slot, first_runout, shape};
use showdown_tally::{Table, Tally};
use std::marker::Brand;
use std::sync::ledger::{Blank, Ledger};
use std::test::Fail;
use step_count::Steps;
use street_walk::{StreetFault, after_street, divisions, next_street, street_sum};

/// As Ah against Ks Kh, with 2c alone on the board.
const ONE_ON_BOARD: Spot = (Game::Holdem, &[b"AsAh", b"KsKh"], b"2c", b"");

/// Omaha, As Ah, which lacks two cards, against four kings, with 2c 7c 9c on the board.
const TWO_OWN_CARDS_KNOWN: Spot = (Game::Omaha, &[b"AsAh", b"KcKdKhKs"], b"2c7c9c", b"");

/// Omaha, Kc Kd Kh, which lacks a card, against a royal flush, with 4c Ts Js Qs on the board.
const THREE_OWN_CARDS_KNOWN: Spot = (Game::Omaha, &[b"KcKdKh", b"2d3dKsAs"], b"4cTsJsQs", b"");

/// One card for the board and two for the first hand.
const TURN_AND_OWN_CARDS: &[Slot] = &[
    Slot {
        receiver: Receiver::Board,
        count: 1,
    },
    Slot {
        receiver: Receiver::Hand(0),
        count: 2,
    },
];

/// The board of five clubs makes 45 ties. Of the other boards a king without an ace wins for the kings:
/// once both, 33 times the king of clubs, and 41 times that of diamonds. Each comes in two ways.
const FLOP_ENDS: &[Ends] = &[
    (0, 0, Side::High, [2 * 870, 2 * 45, 2 * 75]),
    (0, 1, Side::High, [2 * 75, 2 * 45, 2 * 870]),
];

const FLOP_UNITS: &[Units] = &[(0, 0, 2 * 870 * 5040 + 2 * 45 * 2520)];

/// Four deuces are a better low than four treys, whatever comes to them.
const DRAW_ENDS: &[Ends] = &[
    (0, 0, Side::Low, [44 * 43, 0, 0]),
    (0, 1, Side::Low, [0, 0, 44 * 43]),
];

/// A royal flush is never beaten.
const FLUSH_ENDS: &[Ends] = &[(0, 0, Side::High, [0, 0, 41 * 40])];

const FLUSH_UNITS: &[Units] = &[(0, 1, 41 * 40 * 5040)];

/// Returns the table of two or ten hands in which the first two play for a pot.
fn table_of(known: Option<Known>) -> Option<Table> {
    let known = known?;
    let eligible = [0b11, 0, 0, 0, 0, 0, 0, 0, 0, 0];
    if known.count == 2 {
        return Some(Table {
            known,
            pots: 1,
            eligible,
        });
    }
    if known.count == 10 {
        return Some(Table {
            known,
            pots: 1,
            eligible,
        });
    }
    None
}

/// Returns the shape of the next street, or `None` if too few cards are left, and after the last street.
fn step_of(known: &Known) -> Option<Shape>
    ensures { IfSome result (λ step. IsNextOf (state_of known.now) step) }
{
    let _enough = shape(known)?;
    next_street(known)
}

/// Returns the number of ways in which a runout divides, or `None` if too few cards are left.
fn divisions_of(known: &Known) -> Option<u64> {
    let _enough = shape(known)?;
    Some(divisions(known))
}

/// Returns the known cards after the first choice of the next street's cards.
fn behind_first(known: &Known, step: &Shape) -> Known
    requires { IsNextOf (state_of known.now) step.now }
{
    let mut first = Runout::new();
    first_runout(step, &mut first);
    after_street(known, step, &first)
}

/// Returns the known cards after the next street.
fn behind(known: &Known) -> Option<Known> {
    match step_of(known) {
        Some(step) => Some(behind_first(known, &step)),
        None => None,
    }
}

/// The next street of a state: its slots, how many cards may come, in how many ways a runout divides, and
/// how many cards the board and the first two hands have after it.
type Next = (&'static [Slot], u32, u64, [u32; 3]);

/// Returns the number of cards of the board and of each of the first two hands.
fn counts(known: &Known) -> [u32; 3] {
    [
        known.board.count(),
        known.hands[0].count(),
        known.hands[1].count(),
    ]
}

/// Returns whether the next street of a state is this.
fn has_next(known: &Known, street: &Next) -> bool {
    let (slots, unseen, divisions, counted) = *street;
    match step_of(known) {
        Some(step) => {
            has_slots(&step, slots)
                && step.unseen.count() == unseen
                && divisions_of(known) == Some(divisions)
                && counts(&behind_first(known, &step)) == counted
        }
        None => false,
    }
}

/// Returns whether the next street of a spot is this.
fn is_next(spot: &Spot, street: &Next) -> bool {
    match known(spot) {
        Some(known) => has_next(&known, street),
        None => false,
    }
}

/// Returns the number of cards of the board, now and after each street; 0 after the last.
fn board_sizes(known: Known) -> [u32; 5] {
    let mut sizes = [0; 5];
    let mut at = known;
    for place in 0..5 {
        sizes[place] = at.board.count();
        let Some(next) = behind(&at) else {
            return sizes;
        };
        at = next;
    }
    sizes
}

/// Returns the sum over the choices of the next street, with a counter of its own.
fn summed<L: Ledger>(table: &Table, blank: Blank) -> Result<Tally, StreetFault>
    requires name { blank.name ≡ L.name }
    requires parts { blank.parts ≡ L.parts }
    requires some { 0 < blank.parts }
{
    let mut steps = Steps::<L>::new(blank);
    let mut scratch = Scratch::new();
    street_sum(table, &mut scratch, &mut steps)
}

/// Returns the sum of a table, if it is counted.
fn sum_of(table: &Table) -> Option<Tally> {
    match summed::<Brand>(table, Blank::new(1)) {
        Ok(tally) => Some(tally),
        Err(_) => None,
    }
}

/// Returns why a table has no sum, or `None` if it has one.
fn fault_in(table: &Table) -> Option<StreetFault> {
    match summed::<Brand>(table, Blank::new(1)) {
        Ok(_) => None,
        Err(fault) => Some(fault),
    }
}

/// Returns why a table has no sum, if there is a table.
fn fault_of(table: &Option<Table>) -> Option<StreetFault> {
    match table {
        Some(table) => fault_in(table),
        None => None,
    }
}

/// Returns the table of a spot.
fn table_at(spot: &Spot) -> Option<Table> {
    table_of(known(spot))
}

/// Returns the sum of a spot, if it is counted.
fn sum_at(spot: &Spot) -> Option<Tally> {
    match table_at(spot) {
        Some(table) => sum_of(&table),
        None => None,
    }
}

/// Returns why a spot has no sum, if the spot is possible.
fn fault_at(spot: &Spot) -> Option<StreetFault> {
    fault_of(&table_at(spot))
}

/// Returns whether a number is twice another.
fn is_double(number: u64, of: u64) -> bool {
    of.checked_mul(2) == Some(number)
}

/// Returns whether each number of a pot is twice that of another tally.
fn is_twice(sum: &Tally, own: &Tally, pot: u8) -> bool
    requires { pot < 10 }
{
    for hand in 0..10 {
        for side in [Side::High, Side::Low] {
            let (a, b) = (sum.cell(pot, hand, side), own.cell(pot, hand, side));
            if !is_double(a.win, b.win) || !is_double(a.tie, b.tie) || !is_double(a.lose, b.lose) {
                return false;
            }
        }
        if !is_double(sum.units(pot, hand), own.units(pot, hand)) {
            return false;
        }
    }
    true
}

/// Returns whether each number is twice that of another tally.
fn is_twice_in_each_pot(sum: &Tally, own: &Tally) -> bool {
    for pot in 0..10 {
        if !is_twice(sum, own, pot) {
            return false;
        }
    }
    true
}

/// Returns whether the sum of a table has twice the numbers of its own count, which has this number of
/// runouts.
fn is_twice_the_count(table: &Table, runouts: u64) -> bool {
    match (sum_of(table), own_count(table)) {
        (Some(sum), Some(own)) => own.runouts() == runouts && is_twice_in_each_pot(&sum, &own),
        _ => false,
    }
}

/// The turn comes first and then the river, so each two cards come in two ways.
#[test]
fn a_runout_from_the_flop_divides_in_two_ways(rt: HostRuntime) -> Result<(), Fail> {
    assert!(rt;
        is_next(&FLOP, &(RIVER, 45, 2, [4, 2, 2])),
        "one of 45 cards comes, in two ways"
    );
    let sum = sum_at(&FLOP).ok_or("no sum")?;
    assert_eq!(rt; sum.runouts(), 45 * 44, "the runouts of the sum");
    assert_eq!(rt; wrong_end(&sum, FLOP_ENDS), None);
    assert_eq!(rt; wrong_units(&sum, FLOP_UNITS), None);
    let table = table_at(&FLOP).ok_or("no table")?;
    assert!(rt;
        is_twice_the_count(&table, 990),
        "the sum has each of the 990 runouts twice"
    );
    Ok(())
}

/// Returns the numbers of cards on the board of a spot, street by street.
fn sizes_at(spot: &Spot) -> [u32; 5] {
    match known(spot) {
        Some(known) => board_sizes(known),
        None => [0; 5],
    }
}

/// Of four cards to come two are the flop's in six ways.
#[test]
fn a_board_of_one_card_goes_to_three(rt: HostRuntime) {
    assert!(rt;
        is_next(&ONE_ON_BOARD, &(TURN_AND_RIVER, 47, 6, [3, 2, 2])),
        "two of 47 cards come, in six ways"
    );
    assert!(rt;
        sizes_at(&ONE_ON_BOARD) == [1, 3, 4, 5, 0],
        "the board has one card, then three, four, and five"
    );
}

/// Each of two hands with three cards to come gets one, in three ways. A hand that lacks none gets none.
#[test]
fn hands_of_stud_get_one_card(rt: HostRuntime) {
    assert!(rt;
        is_next(&STUD, &(ONE_EACH, 44, 9, [0, 5, 5])),
        "each hand gets a card, in nine ways"
    );
}

/// All cards come at once.
#[test]
fn hands_of_draw_get_all_cards(rt: HostRuntime) -> Result<(), Fail> {
    assert!(rt;
        is_next(&DRAW, &(ONE_EACH, 44, 1, [0, 5, 5])),
        "each hand gets a card, in one way"
    );
    let sum = sum_at(&DRAW).ok_or("no sum")?;
    assert_eq!(rt; sum.runouts(), 44 * 43, "the runouts of the sum");
    assert_eq!(rt; wrong_end(&sum, DRAW_ENDS), None);
    Ok(())
}

/// Own cards that aren't known all come with the next street, and those of the board one by one.
#[test]
fn own_cards_of_omaha_come_with_the_board(rt: HostRuntime) {
    assert!(rt;
        is_next(
            &TWO_OWN_CARDS_KNOWN,
            &(TURN_AND_OWN_CARDS, 43, 2, [4, 4, 4])
        ),
        "a card for the board and two for the first hand come, in two ways"
    );
}

#[test]
fn a_hand_that_lacks_a_card_of_omaha_is_summed(rt: HostRuntime) -> Result<(), Fail> {
    let sum = sum_at(&THREE_OWN_CARDS_KNOWN).ok_or("no sum")?;
    assert_eq!(rt; sum.runouts(), 41 * 40, "the runouts of the sum");
    assert_eq!(rt; wrong_end(&sum, FLUSH_ENDS), None);
    assert_eq!(rt; wrong_units(&sum, FLUSH_UNITS), None);
    Ok(())
}

/// Returns whether a state is that of the last street.
fn is_last(known: &Known) -> bool {
    step_of(known).is_none()
}

/// Ten hands of stud need more than a deck. Ten of draw have far too many runouts. Two of stud on fourth
/// street have 141,181,040, which divide in nine ways.
#[test]
fn sums_are_refused_by_name(rt: HostRuntime) {
    assert!(rt;
        fault_at(&DARK_STUD) == Some(StreetFault::DeckShort),
        "ten hands of stud need more than a deck"
    );
    assert!(rt;
        fault_at(&DARK_DRAW) == Some(StreetFault::AboveLimit),
        "ten hands of draw are above the limit"
    );
    assert!(rt;
        fault_at(&STUD) == Some(StreetFault::AboveLimit),
        "two hands of stud on fourth street are above the limit"
    );
}

#[test]
fn there_is_no_street_behind_the_river(rt: HostRuntime) -> Result<(), Fail> {
    assert!(rt;
        sum_at(&TURN).is_some(),
        "the river is a street after the turn"
    );
    let turn = known(&TURN).ok_or("not known")?;
    let river = behind(&turn).ok_or("no street")?;
    assert!(rt;
        fault_of(&table_of(Some(river))) == Some(StreetFault::LastStreet),
        "a sum after the river is refused"
    );
    assert!(rt; is_last(&river), "no street comes after the river");
    Ok(())
}

#[test]
fn the_laws_of_streets_can_be_called() -> Result<(), Fail> {
    let known = known(&FLOP).ok_or("not known")?;
    street_walk::law_streets_go_on(&known);
    street_walk::law_streets_add_up(&known);
    street_walk::law_final_cards_add_up(&known);
    Ok(())
}
