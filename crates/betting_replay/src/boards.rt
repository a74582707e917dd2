//! The cards of a board, street by street, and of the second board of a hand that is run twice.

ghost use Rattle.std.specs.Prelude.{◌≡◌};
ghost use Rattle.betting_replay.specs.Boards.{is_second, named_on, named_second, no_board, board_after, second_after, before, shared_by, second_by};
ghost use Rattle.betting_replay.specs.TableAfter.{board_at, is_twice, second_board_at};

use crate::places::with_cards;
use crate::replay::Replay;
use crate::streets::same_street;
use card_sets::{Card, CardSet};
use hand_events::{BoardNumber, Event, Street};

/// The cards that came to a board, by the street on which they came.
#[derive(Clone, Copy)]
pub struct Board {
    /// The cards of the flop.
    pub flop: CardSet,
    /// The card of the turn.
    pub turn: CardSet,
    /// The card of the river.
    pub river: CardSet,
}

impl Board {
    /// Returns the board without cards.
    pub(crate) fn new() -> Board
        ensures { result ≡ no_board }
    {
        Board {
            flop: CardSet::empty(),
            turn: CardSet::empty(),
            river: CardSet::empty(),
        }
    }
}

/// Returns whether a board is the second of two.
fn is_second(board: BoardNumber) -> bool
    ensures { result ≡ is_second board }
{
    matches!(board, BoardNumber::Second)
}

/// Returns the cards that an event gives the board on a street, or the first board if there are two.
fn cards_on(street: Street, e: &Event) -> &[Card]
    ensures { result.now ≡ named_on street e.now }
{
    match e {
        Event::Street {
            street: marker,
            board,
            cards,
        } => {
            if !is_second(*board) && same_street(*marker, Some(street)) {
                cards.items()
            } else {
                &[]
            }
        }
        _ => &[],
    }
}

/// Returns the cards that an event gives to the second board on a street.
fn cards_second(street: Street, e: &Event) -> &[Card]
    ensures { result.now ≡ named_second street e.now }
{
    match e {
        Event::Street {
            street: marker,
            board,
            cards,
        } => {
            if is_second(*board) && same_street(*marker, Some(street)) {
                cards.items()
            } else {
                &[]
            }
        }
        _ => &[],
    }
}

/// Returns the only board, or the first of two, after an event.
pub(crate) fn board_after(e: &Event, board: Board) -> Board
    ensures { result ≡ board_after e.now board }
{
    match e {
        Event::Street { .. } => Board {
            flop: with_cards(board.flop, cards_on(Street::Flop, e)),
            turn: with_cards(board.turn, cards_on(Street::Turn, e)),
            river: with_cards(board.river, cards_on(Street::River, e)),
        },
        _ => board,
    }
}

/// Returns the second board after an event.
pub(crate) fn second_after(e: &Event, board: Board) -> Board
    ensures { result ≡ second_after e.now board }
{
    match e {
        Event::Street { .. } => Board {
            flop: with_cards(board.flop, cards_second(Street::Flop, e)),
            turn: with_cards(board.turn, cards_second(Street::Turn, e)),
            river: with_cards(board.river, cards_second(Street::River, e)),
        },
        _ => board,
    }
}

impl Replay {
    /// Returns the cards of the board, or of the first board if there are two, of the streets up to
    /// this one. A showdown and the summary come after all streets.
    pub fn board_at(&self, street: Street) -> CardSet
        ensures { result ≡ board_at self.now street }
    {
        let board = self.first_board;
        match street {
            Street::First => CardSet::empty(),
            Street::Flop => board.flop,
            Street::Turn => board.flop.union(board.turn),
            _ => board.flop.union(board.turn).union(board.river),
        }
    }

    /// Returns the cards of the board that came on the streets before this one.
    fn board_before(&self, street: Street) -> CardSet
        ensures { result
            ≡ before street self.now.first_board.flop self.now.first_board.turn
            self.now.first_board.river }
    {
        let board = self.first_board;
        match street {
            Street::First | Street::Flop => CardSet::empty(),
            Street::Turn => board.flop,
            Street::River => board.flop.union(board.turn),
            _ => board.flop.union(board.turn).union(board.river),
        }
    }

    /// Returns the cards that two boards share.
    fn shared_cards(&self) -> CardSet
        ensures { result
            ≡ shared_by self.now.course.split_from self.now.first_board.flop
            self.now.first_board.turn self.now.first_board.river }
    {
        match self.course.split_from {
            Some(street) => self.board_before(street),
            None => CardSet::empty(),
        }
    }

    /// Returns whether the hand is run twice: there was a street marker of a first board.
    pub fn is_twice(&self) -> bool
        ensures { result ≡ is_twice self.now }
    {
        self.course.split_from.is_some()
    }

    /// Returns the cards of the second board: those that it shares with the first, and its own. `None`
    /// exactly if there was no street marker of a second board.
    pub fn second_board(&self) -> Option<CardSet>
        ensures { result ≡ second_board_at self.now }
    {
        let second = self.second_board;
        let own = second.flop.union(second.turn).union(second.river);
        match self.course.second_street {
            Some(_) => Some(self.shared_cards().union(own)),
            None => None,
        }
    }
}
