//! What the hands of a table are worth with each three ranks of the board, where two own cards come to three of it.

ghost use Rattle.std.specs.Prelude.{◌≡◌, ◌==◌, if◌then◌else◌, length, None, Some, IsTrue};
ghost use Rattle.card_sets.specs.Disjoint.{apart};
ghost use Rattle.card_sets.specs.Games.{has_board, own_size};
ghost use Rattle.board_ranks.specs.BoardWith.{low_number};
ghost use Rattle.board_ranks.specs.HighParts.{plain_number};

use crate::high::plain_value;
use crate::side_threes::SideThrees;
use card_sets::{CardSet, Game, Known, Memory, Side};
use std::alloc::Global;

/// Whether what hands are worth with each three ranks is worth its making: two own cards come to three of the board, of which fewer than
/// three are known. A board of which three are known has one row, which asks for 313 of the 455 threes.
fn are_wanted(known: &Known) -> bool {
    match known.game {
        Game::Omaha | Game::Omaha8 => known.board.count() < 3,
        Game::Holdem
        | Game::Stud
        | Game::Stud8
        | Game::Razz
        | Game::Draw5
        | Game::Lowball27
        | Game::Triple27 => false,
    }
}

/// A number of a low, if it is one.
#[inline]
fn some_low(worth: u32) -> Option<u32>
    ensures { result ≡ (if worth == 0 then None else Some worth) }
{
    if worth == 0 { None } else { Some(worth) }
}

/// What the hands of a table are worth with each three ranks of the board.
#[derive(Drop)]
pub struct Threes {
    /// As highs by ranks alone.
    highs: SideThrees,
    /// As lows.
    lows: SideThrees,
}

impl Threes {
    /// Makes room for the numbers of all hands, and keeps none.
    pub fn none(alloc: Global) -> Result<Threes, Memory> {
        let highs = SideThrees::none(alloc)?;
        let lows = SideThrees::none(alloc)?;
        Ok(Threes { highs, lows })
    }

    /// Makes them those of the hands of a table, where that is worth it.
    pub fn serve(&mut self, known: &Known) {
        if !are_wanted(known) {
            return;
        }
        let hands = &known.hands[..known.count as usize];
        self.highs.serve(Side::High, hands);
        if known.game.has_side(Side::Low) {
            self.lows.serve(Side::Low, hands);
        }
    }

    /// What full own cards of a hand and a full board are worth by their ranks alone, as if there were no flushes.
    #[inline]
    pub(crate) fn plain_value(&self, hand: usize, game: Game, own: CardSet, board: CardSet) -> u32
        requires game { IsTrue (has_board game) }
        requires own { length own ≡ own_size game }
        requires board { length board ≡ 5 }
        requires apart { IsTrue (apart own board) }
        ensures { result ≡ plain_number game own board }
    {
        match game {
            Game::Omaha | Game::Omaha8 => self.highs.worth(Side::High, hand, own, board),
            Game::Holdem
            | Game::Stud
            | Game::Stud8
            | Game::Razz
            | Game::Draw5
            | Game::Lowball27
            | Game::Triple27 => plain_value(game, own, board),
        }
    }

    /// What full own cards of a hand and a full board are worth as a low, turned round so that greater is better, where there is one.
    #[inline]
    pub(crate) fn low_value(
        &self,
        hand: usize,
        game: Game,
        own: CardSet,
        board: CardSet,
    ) -> Option<u32>
        requires game { IsTrue (has_board game) }
        requires own { length own ≡ own_size game }
        requires board { length board ≡ 5 }
        requires apart { IsTrue (apart own board) }
        ensures { result ≡ low_number game own board }
    {
        own.rising();
        board.rising();
        match game {
            Game::Omaha8 => some_low(self.lows.worth(Side::Low, hand, own, board)),
            Game::Holdem
            | Game::Omaha
            | Game::Stud
            | Game::Stud8
            | Game::Razz
            | Game::Draw5
            | Game::Lowball27
            | Game::Triple27 => None,
        }
    }
}
