//! What own cards and a board are worth as a high.

ghost use Rattle.std.specs.Prelude.{◌≡◌, ◌<◌, ◌≤◌, length, IsTrue};
ghost use Rattle.card_sets.specs.Disjoint.{apart};
ghost use Rattle.card_sets.specs.Games.{has_board, own_size};
ghost use Rattle.board_ranks.specs.HighParts.{high_number, plain_number, suited_number};

use card_sets::{CardSet, Game};
use omaha_ranks::{omaha_high, omaha_plain_value, omaha_suited_value};
use rank_high::{high_by_ranks, high_of_set, high_of_suit};

/// What full own cards and a full board are worth by their ranks alone, as if there were no flushes.
#[inline]
pub fn plain_value(game: Game, own: CardSet, board: CardSet) -> u32
    requires game { IsTrue (has_board game) }
    requires own { length own ≡ own_size game }
    requires board { length board ≡ 5 }
    requires apart { IsTrue (apart own board) }
    ensures { result ≡ plain_number game own board }
{
    own.rising();
    board.rising();
    match game {
        Game::Omaha | Game::Omaha8 => omaha_plain_value(own, board),
        Game::Holdem
        | Game::Stud
        | Game::Stud8
        | Game::Razz
        | Game::Draw5
        | Game::Lowball27
        | Game::Triple27 => { high_by_ranks(own.union(board)).number() }
    }
}

/// What full own cards are worth as a flush of a suit, from 0 to 3, with cards of the board. 0 where they make none.
#[inline]
pub fn suited_value(game: Game, own: CardSet, cards: CardSet, suit: u8) -> u32
    // The game has a board, and these are all own cards of a hand.
    requires game { IsTrue (has_board game) }
    requires own { length own ≡ own_size game }

    // A suit, and up to five cards of the board, none of which is an own card.
    requires suit { suit < 4 }
    requires five { length cards ≤ 5 }
    requires apart { IsTrue (apart own cards) }

    // The best five of the suit that the game allows of them.
    ensures { result ≡ suited_number game own cards suit }
{
    own.rising();
    cards.rising();
    match game {
        Game::Omaha | Game::Omaha8 => omaha_suited_value(own, cards, suit),
        Game::Holdem
        | Game::Stud
        | Game::Stud8
        | Game::Razz
        | Game::Draw5
        | Game::Lowball27
        | Game::Triple27 => { high_of_suit(own.union(cards), suit).number() }
    }
}

/// What full own cards and a full board are worth as a high.
pub fn high_value(game: Game, own: CardSet, board: CardSet) -> u32
    requires game { IsTrue (has_board game) }
    requires own { length own ≡ own_size game }
    requires board { length board ≡ 5 }
    requires apart { IsTrue (apart own board) }
    ensures { result ≡ high_number game own board }
{
    own.rising();
    board.rising();
    match game {
        Game::Omaha | Game::Omaha8 => omaha_high(own, board),
        Game::Holdem
        | Game::Stud
        | Game::Stud8
        | Game::Razz
        | Game::Draw5
        | Game::Lowball27
        | Game::Triple27 => { high_of_set(own.union(board)).number() }
    }
}
