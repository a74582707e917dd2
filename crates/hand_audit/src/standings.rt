//! Who stands how when the cards are shown.

ghost use Rattle.std.specs.Prelude.{◌≡◌, ℕ, ◌<◌, ◌≤◌, List, is_some, Option, IfSome};
ghost use Rattle.card_sets.specs.PlayerSets.{has_player};
ghost use Rattle.card_sets.specs.declared.games.Side.{Side};
ghost use Rattle.betting_replay.specs.Seats.{by_seat};
ghost use Rattle.betting_replay.specs.TableAfter.{final_at};
ghost use Rattle.hand_audit.specs.Showings.{second_at};
ghost use Rattle.hand_audit.specs.declared.collections.Collection.{Collection};
ghost use Rattle.hand_audit.specs.Winning.{TellsHands, TellsSecond, HasBothMarks};

use crate::orders::{by_marks, odd_order};
use crate::winners::{are_known, is_alone};
use crate::worths::{OnBoard, OnSide, full_hands};
use betting_replay::Replay;
use card_sets::{CardSet, Game, PlayerSet};
use pot_layers::OddOrder;

/// What tells who wins: what is kept of the final cards, by seat, and the button.
#[derive(Drop)]
pub(crate) struct Standings {
    /// The game.
    pub(crate) game: Game,
    /// Whose final cards are known.
    pub(crate) known: PlayerSet,
    /// What they are worth on the board.
    pub(crate) board: OnBoard,
    /// What they are worth on the second board, where the hand was run twice.
    pub(crate) second: Option<OnBoard>,
    /// The seat of the button, 0 where there is none.
    pub(crate) button: u8,
}

/// Whose final cards are known.
fn known(replay: &Replay) -> PlayerSet
    ensures { (p : ℕ) → p < 11 → has_player result p ≡ is_some (final_at replay.now p) }
{
    PlayerSet::passing(11, |seat| replay.final_cards(seat).is_some())
}

/// The second board of a hand that was run twice: with no card where none of its markers stood.
fn second_of(replay: &Replay) -> Option<CardSet>
    ensures { result ≡ second_at replay.now }
{
    if !replay.is_twice() {
        return None;
    }
    Some(replay.second_board().unwrap_or(CardSet::empty()))
}

/// What the final cards are worth on a board.
fn on_board(replay: &Replay, game: Game, board: CardSet) -> OnBoard
    ensures tells { TellsHands result game board (by_seat (final_at replay.now)) }
    ensures marks { HasBothMarks result }
{
    let hands = full_hands(replay, game, board);
    OnBoard::of_hands(game, board, &hands)
}

/// What they are worth on a second board, where there is one.
fn on_second(replay: &Replay, game: Game, second: Option<CardSet>) -> Option<OnBoard>
    ensures tells { TellsSecond result game second (by_seat (final_at replay.now)) }
    ensures marks { IfSome result HasBothMarks }
{
    let board = second?;
    Some(on_board(replay, game, board))
}

impl Standings {
    ghost use Rattle.hand_audit.specs.Winning.{Tells, TellsSide, HasMarks, IsReady};
    ghost use Rattle.hand_audit.specs.Showings.{showing_at};

    /// Returns what tells who wins after the events of a replay.
    pub(crate) fn of_replay(replay: &Replay, game: Game) -> Standings
        ensures tells { (all : List Collection) → Tells result (showing_at game replay.now all) }
        ensures ready { IsReady result }
    {
        Standings {
            game,
            known: known(replay),
            board: on_board(replay, game, replay.board()),
            second: on_second(replay, game, second_of(replay)),
            button: replay.button(),
        }
    }

    ghost use Rattle.hand_audit.specs.Settle.{Showing, is_checked, order_of};
    ghost use Rattle.hand_audit.specs.Orders.{OfSeats};
    ghost use Rattle.pot_layers.specs.Split.{IsOrder};

    /// Whether it is known who wins a pot.
    pub(crate) fn is_checked(&self, eligible: PlayerSet) -> bool
        ensures { (s : Showing) → Tells self.now s → result ≡ is_checked s eligible }
    {
        is_alone(eligible) || are_known(self.known, eligible)
    }

    /// The order in which the winners of a side get odd units.
    pub(crate) fn order(&self, on: &OnSide, winners: PlayerSet) -> OddOrder
        requires ready { IsReady self.now }
        requires marks { HasMarks on.now }
        requires seats { OfSeats winners }
        ensures value { (s : Showing) (side : Option Side) (board : List ℕ) → Tells self.now s
            → TellsSide on.now side s.game board s.hands
            → result ≡ order_of side s board winners }
        ensures order { IsOrder winners result }
    {
        if self.game.has_marks() {
            by_marks(&on.marks, winners)
        } else {
            odd_order(self.button, winners)
        }
    }
}
