//! What the hands are worth on a board.

ghost use Rattle.std.specs.Prelude.{◌≡◌, ℕ, ◌<◌, true, None, IfSome, slice_index_or};
ghost use Rattle.std.specs.Option.{option_map};
ghost use Rattle.card_sets.specs.Cards.{IsCardSet};
ghost use Rattle.betting_replay.specs.TableAfter.{final_at};
ghost use Rattle.hand_audit.specs.Settle.{value_on, first_side, second_side};
ghost use Rattle.hand_audit.specs.Winning.{Ranks, number_on, is_full, full_with};

use crate::marks::marks;
use crate::winners::winners;
use betting_replay::Replay;
use card_sets::{CardSet, Game, PlayerSet, Side, sides};
use showdown_tally::{law_values_keep_order, side_value};

/// What the hands of the seats are worth on a side of a board, by seat.
#[derive(Drop)]
pub(crate) struct OnSide {
    /// Their values, as numbers that are greater for better; none where a hand is unknown or has no value, or the game
    /// hasn't the side.
    pub(crate) values: [Option<u32>; 11],
    /// By what winners get odd units in the stud games: how high their highest cards count.
    pub(crate) marks: [u8; 11],
}

/// What they are worth on a board, on the two sides that a game may have.
#[derive(Drop)]
pub(crate) struct OnBoard {
    /// On the first side.
    pub(crate) first: OnSide,
    /// On the second.
    pub(crate) second: OnSide,
}

/// Whether these final cards can be shown down on this board.
fn is_full(game: Game, board: CardSet, own: CardSet) -> bool
    ensures { result ≡ is_full game board own }
{
    own.count() == game.own_size() && board.count() == game.board_size() && own.is_apart(board)
}

/// The final cards, where they can be shown down on this board.
pub(crate) fn full_with(game: Game, board: CardSet, own: Option<CardSet>) -> Option<CardSet>
    ensures value { result ≡ full_with game board own }
    ensures full { IfSome result (λ own. is_full game board own ≡ true) }
{
    let own = own?;
    if is_full(game, board, own) {
        Some(own)
    } else {
        None
    }
}

/// The final cards of each seat that can be shown down on this board, by seat.
pub(crate) fn full_hands(replay: &Replay, game: Game, board: CardSet) -> [Option<CardSet>; 11]
    ensures value { (p : ℕ) → p < 11
        → slice_index_or result p None ≡ full_with game board (final_at replay.now p) }
    ensures full { (p : ℕ) → p < 11
        → IfSome (slice_index_or result p None) (λ own. is_full game board own ≡ true) }
{
    let mut hands = [None; 11];
    for seat in 0..11u8 {
        hands[seat as usize] = full_with(game, board, replay.final_cards(seat));
    }
    hands
}

/// What final cards are worth on a side, and nothing where they are unknown or the game hasn't the side.
fn value_on(side: Option<Side>, game: Game, board: CardSet, own: Option<CardSet>) -> Option<u32>
    requires full { IfSome own (λ own. is_full game board own ≡ true) }
    ensures value { result ≡ option_map (number_on side game) (value_on side game board own) }
    ensures set { IfSome own (λ own. IsCardSet own) }
{
    let own = own?;
    own.rising();
    match side {
        Some(side) => side_value(side, game, own, board),
        None => None,
    }
}

/// What the final cards of each seat are worth on a side: numbers in the order of the values.
fn side_values(
    side: Option<Side>,
    game: Game,
    board: CardSet,
    hands: &[Option<CardSet>; 11],
) -> [Option<u32>; 11]
    requires full { (p : ℕ) → p < 11
        → IfSome (slice_index_or hands.now p None) (λ own. is_full game board own ≡ true) }
    ensures { Ranks side result (λ p. value_on side game board (slice_index_or hands.now p None)) }
{
    law_values_keep_order();
    board.rising();
    let mut values = [None; 11];
    for seat in 0..11usize {
        values[seat] = value_on(side, game, board, hands[seat]);
    }
    values
}

/// The first side that a pot of the game is played for.
pub(crate) fn first_side(game: Game) -> Option<Side>
    ensures { result ≡ first_side game }
{
    let [first, _] = sides(game);
    first
}

/// The second side.
pub(crate) fn second_side(game: Game) -> Option<Side>
    ensures { result ≡ second_side game }
{
    let [_, second] = sides(game);
    second
}

impl OnSide {
    ghost use Rattle.hand_audit.specs.Orders.{OfSeats};
    ghost use Rattle.hand_audit.specs.Winning.{TellsSide, HasMarks, winners_by};

    /// Returns the worth of hands that can be shown down on a board.
    fn of_hands(
        side: Option<Side>,
        game: Game,
        board: CardSet,
        hands: &[Option<CardSet>; 11],
    ) -> OnSide
        requires full { (p : ℕ) → p < 11
            → IfSome (slice_index_or hands.now p None) (λ own. is_full game board own ≡ true) }
        ensures tells { TellsSide result side game board hands.now }
        ensures marks { HasMarks result }
    {
        OnSide {
            values: side_values(side, game, board, hands),
            marks: marks(side, game, board, hands),
        }
    }

    /// The seats of a set that win the side.
    pub(crate) fn winners(&self, eligible: PlayerSet) -> PlayerSet
        ensures value { result ≡ winners_by self.now.values eligible }
        ensures seats { OfSeats result }
    {
        winners(&self.values, eligible)
    }
}

impl OnBoard {
    ghost use Rattle.hand_audit.specs.Winning.{TellsBoard, HasBothMarks};

    /// Returns the worth of hands that can be shown down on a board.
    pub(crate) fn of_hands(game: Game, board: CardSet, hands: &[Option<CardSet>; 11]) -> OnBoard
        requires full { (p : ℕ) → p < 11
            → IfSome (slice_index_or hands.now p None) (λ own. is_full game board own ≡ true) }
        ensures tells { TellsBoard result game board hands.now }
        ensures marks { HasBothMarks result }
    {
        OnBoard {
            first: OnSide::of_hands(first_side(game), game, board, hands),
            second: OnSide::of_hands(second_side(game), game, board, hands),
        }
    }
}
