//! What a hand is worth with a board and two cards more, by the ranks of the two.

ghost use Rattle.std.specs.Prelude.{◌≡◌, ◌<◌, length, IsTrue};
ghost use Rattle.card_sets.specs.Disjoint.{apart};
ghost use Rattle.card_sets.specs.Games.{has_board, own_size};
ghost use Rattle.board_ranks.specs.BoardWith.{AreRanksAnd, AreWorthWith};

use crate::board::board_with;
use crate::threes::Threes;
use card_sets::{ByRank, CardSet, Game};
use rank_high::high_of_ranks;

/// What own cards are worth on both sides, each as a number that is greater for better.
#[derive(Clone, Copy)]
pub struct Worth {
    /// As a high by ranks alone.
    pub high: u32,
    /// As a low, where there is one.
    pub low: Option<u32>,
}

/// A hand of a game with a board, and three cards of the board.
#[derive(Clone, Copy)]
pub struct HandWithBoard {
    /// The place of the hand among those of its table, from 0.
    pub hand: usize,
    /// The game.
    pub game: Game,
    /// All own cards of the hand.
    pub own: CardSet,
    /// Three cards of the board.
    pub board: CardSet,
    /// The game has a board.
    pub ghost dealt: { IsTrue (has_board game) },
    /// The hand has all its own cards.
    pub ghost full: { length own ≡ own_size game },
    /// The board lacks two cards.
    pub ghost three: { length board ≡ 3 },
    /// None of its cards is an own card.
    pub ghost apart: { IsTrue (apart own board) },
}

/// Returns what a hand is worth with the board and one card of each of two ranks more, by a full board of such cards. If there is no such
/// board, the result means nothing.
fn worth_on_board(threes: &Threes, held: &HandWithBoard, low: u8, high: u8) -> Worth
    // Any two ranks, or one twice.
    requires low { low < 13 }
    requires high { high < 13 }

    // Both numbers hold of each full board of such cards.
    ensures { AreWorthWith held.now.game held.now.own held.now.board low high
        result.high result.low }
{
    let game = held.game;
    let own = held.own;
    let board = held.board;
    own.rising();
    board.rising();
    let Some(full) = board_with(own, board, low, high) else {
        return Worth { high: 0, low: None };
    };
    Worth {
        high: threes.plain_value(held.hand, game, own, full),
        low: threes.low_value(held.hand, game, own, full),
    }
}

/// Returns what a hand is worth with the board and one card of each of two ranks more, whichever cards these are: as a high, if there were
/// no flushes, and as a low. If there are no such cards, the result means nothing. If any five cards make a hand, `worth_with` goes by how
/// many cards there are of each rank, and makes no board.
pub fn worth_with(threes: &Threes, held: &HandWithBoard, ranks: &ByRank, low: u8, high: u8) -> Worth
    // `ranks` counts the cards of each rank in the hand and on the board, with one more card of the lower rank.
    requires ranks { AreRanksAnd held.now.own held.now.board low ranks.now }

    // Any two ranks, or one twice.
    requires low { low < 13 }
    requires high { high < 13 }

    // Both numbers hold of each full board of such cards.
    ensures { AreWorthWith held.now.game held.now.own held.now.board low high
        result.high result.low }
{
    let game = held.game;
    let own = held.own;
    let board = held.board;
    own.rising();
    board.rising();
    match game {
        Game::Omaha | Game::Omaha8 => worth_on_board(threes, held, low, high),
        Game::Holdem
        | Game::Stud
        | Game::Stud8
        | Game::Razz
        | Game::Draw5
        | Game::Lowball27
        | Game::Triple27 => {
            let all = ranks.with_rank(high);
            Worth {
                high: high_of_ranks(&all).number(),
                low: None,
            }
        }
    }
}
