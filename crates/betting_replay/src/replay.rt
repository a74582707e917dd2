//! The fields of a replay.

use crate::boards::Board;
use crate::course::Course;
use crate::points::Point;
use crate::seats::SeatState;
use card_sets::{CardSet, PlayerSet};
use hand_events::Header;
use std::marker::Model;

/// The events of a hand so far, with its header and its players. Clauses see it as a `ReplayState`.
#[derive(Drop)]
pub struct Replay {
    /// The header line: the game, and the stated big blind in units.
    pub(crate) header: Header,
    /// The seats of the players.
    pub(crate) players: PlayerSet,
    /// The state of each seat, by its number. Number 0 is no seat: its cards are the board's.
    pub(crate) seats: [SeatState; 11],
    /// All cards that belong to a seat or a board.
    pub(crate) named: CardSet,
    /// The cards that were discarded face up, and that no later event has named.
    pub(crate) thrown: CardSet,
    /// The cards of the board, or of the first of two, by their street.
    pub(crate) first_board: Board,
    /// The cards of the second board alone, by their street.
    pub(crate) second_board: Board,
    /// The seat of the button, by the last line that named it, or 0 if no line did.
    pub(crate) button: u8,
    /// How far the hand has come.
    pub(crate) course: Course,
    /// The first moment that was an all-in point. It remains.
    pub(crate) point: Option<Point>,
}

impl Model for Replay {
    ghost use Rattle.betting_replay.specs.Table.{ReplayState};

    ghost Value = { ReplayState };

    ghost use Rattle.betting_replay.specs.Limits.{ChipsInLimits};
    ghost use Rattle.std.specs.Prelude.{All, IfSome, ◌≤◌};

    ghost view = { λ r. record {
      header = r.header;
      players = r.players;
      seats = r.seats;
      named = r.named;
      thrown = r.thrown;
      first_board = r.first_board;
      second_board = r.second_board;
      button = r.button;
      course = r.course;
      point = r.point;
    } };

    ghost invariant = { λ r. All ChipsInLimits r.seats
        × IfSome r.course.last_actor (λ seat. seat ≤ 10)
        × (r.button ≤ 10) };
}
