//! The streets, and their order in each game.

ghost use Rattle.std.specs.Prelude.{◌≡◌, ◌≤◌, slice_get};
ghost use Rattle.card_sets.specs.Games.{family_of};
ghost use Rattle.card_sets.specs.Streets.{streets_of, is_draw_street, is_street, street_after, next_street, is_last_of, is_last, board_count, cards_of_street, dealt_at_once, dealt_in_stud, dealt_on, DealAll};
ghost use Rattle.card_sets.specs.declared.games.Game.{Game};

use crate::{Family, Game};

/// A street, the showdown or the summary.
#[derive(Clone, Copy, PartialEq, Eq)]
pub enum Street {
    /// The first street: hole cards, 3rd street, or the deal of a draw game.
    First,
    /// The flop.
    Flop,
    /// The turn.
    Turn,
    /// 4th street.
    Fourth,
    /// 5th street.
    Fifth,
    /// 6th street.
    Sixth,
    /// The river, on a board or the seventh card of a stud game.
    River,
    /// The draw of a game that has one.
    Draw,
    /// The first of three draws.
    FirstDraw,
    /// The second of three draws.
    SecondDraw,
    /// The third of three draws.
    ThirdDraw,
    /// The marker of the showdown.
    ShowDown,
    /// The marker of the summary.
    Summary,
}

/// The cards that a street deals to each player.
#[derive(Clone, Copy)]
pub struct Dealt {
    /// The cards that only the player sees.
    pub down: u8,
    /// The cards that everyone sees.
    pub up: u8,
}

/// The streets of a game with a board.
const BOARD_STREETS: &[Street] = &[Street::First, Street::Flop, Street::Turn, Street::River];

/// The streets of a stud game.
const STUD_STREETS: &[Street] = &[
    Street::First,
    Street::Fourth,
    Street::Fifth,
    Street::Sixth,
    Street::River,
];

/// The streets of a game with one draw.
const DRAW_STREETS: &[Street] = &[Street::First, Street::Draw];

/// The streets of a game with three draws.
const TRIPLE_DRAW_STREETS: &[Street] = &[
    Street::First,
    Street::FirstDraw,
    Street::SecondDraw,
    Street::ThirdDraw,
];

/// Returns whether two streets are the same.
fn is_street(street: Street, other: Street) -> bool
    ensures { result ≡ is_street street other }
{
    street == other
}

/// Returns the first of some streets.
fn first_of(streets: &[Street]) -> Option<Street>
    ensures { result ≡ slice_get streets.now 0 }
{
    match streets {
        [] => None,
        [first, ..] => Some(*first),
    }
}

/// Returns the street after one in a list of streets.
fn street_after(street: Street, streets: &[Street]) -> Option<Street>
    ensures { result ≡ street_after street streets.now }
{
    match streets {
        [] => None,
        [first, others @ ..] => {
            if is_street(street, *first) {
                return first_of(others);
            }
            street_after(street, others)
        }
    }
}

/// Returns whether a street is the last of a list of streets.
fn is_last_of(street: Street, streets: &[Street]) -> bool
    ensures { result ≡ is_last_of street streets.now }
{
    match streets {
        [] => false,
        [last] => is_street(street, *last),
        [_, others @ ..] => is_last_of(street, others),
    }
}

/// Returns what a street deals if all own cards are dealt at once, on the first street.
fn dealt_at_once(size: u8, street: Street) -> Dealt
    ensures { result ≡ dealt_at_once size street }
{
    match street {
        Street::First => Dealt { down: size, up: 0 },
        _ => Dealt { down: 0, up: 0 },
    }
}

/// Returns what a street of a stud game deals.
fn dealt_in_stud(street: Street) -> Dealt
    ensures { result ≡ dealt_in_stud street }
{
    match street {
        Street::First => Dealt { down: 2, up: 1 },
        Street::Fourth | Street::Fifth | Street::Sixth => Dealt { down: 0, up: 1 },
        Street::River => Dealt { down: 1, up: 0 },
        _ => Dealt { down: 0, up: 0 },
    }
}

/// Returns the number of cards that a street adds to a board.
fn cards_of_street(street: Street) -> u8
    ensures { result ≡ cards_of_street street }
{
    match street {
        Street::Flop => 3,
        Street::Turn | Street::River => 1,
        _ => 0,
    }
}

impl Street {
    /// Returns whether players discard and draw on the street.
    pub fn is_draw(self) -> bool
        ensures { result ≡ is_draw_street self }
    {
        matches!(
            self,
            Street::Draw | Street::FirstDraw | Street::SecondDraw | Street::ThirdDraw
        )
    }
}

impl Game {
    /// Returns the streets of the game on which there is betting, in their order.
    pub fn streets(self) -> &'static [Street]
        ensures { result.now ≡ streets_of self }
    {
        match self.family() {
            Family::Board => BOARD_STREETS,
            Family::Stud => STUD_STREETS,
            Family::Draw => DRAW_STREETS,
            Family::TripleDraw => TRIPLE_DRAW_STREETS,
        }
    }

    /// Returns the next street, or the first of all if none has begun. `None` after the last street,
    /// and after a street that isn't one of the game.
    pub fn next_street(self, street: Option<Street>) -> Option<Street>
        ensures { result ≡ next_street self street }
    {
        match street {
            None => first_of(self.streets()),
            Some(street) => street_after(street, self.streets()),
        }
    }

    /// Returns whether a street is the last of the game.
    pub fn is_last(self, street: Street) -> bool
        ensures { result ≡ is_last self street }
    {
        is_last_of(street, self.streets())
    }

    /// Returns the number of cards that a street adds to the board.
    pub fn board_count(self, street: Street) -> u8
        ensures value { result ≡ board_count self street }
        ensures bound { result ≤ 3 }
    {
        match self.family() {
            Family::Board => cards_of_street(street),
            Family::Stud | Family::Draw | Family::TripleDraw => 0,
        }
    }

    /// Returns the cards that a street deals to each player, without the cards that players draw. A
    /// draw gives each player the number of cards that they discard.
    pub fn dealt_on(self, street: Street) -> Dealt
        ensures { result ≡ dealt_on self street }
    {
        match self.family() {
            Family::Stud => dealt_in_stud(street),
            Family::Board | Family::Draw | Family::TripleDraw => dealt_at_once(
                self.own_size() as u8,
                street,
            ),
        }
    }
}

/// The streets of a game together deal all cards of a player and all of the board, and contain its
/// draws.
pub fn law_streets_deal_all()
    ensures { (game : Game) → DealAll game }
{}
