//! The fives of a hand and a board.

ghost use Rattle.std.specs.Prelude.{◌≡◌, ◌≤◌, ◌+◌, length, IsTrue};
ghost use Rattle.card_sets.specs.Cards.{union};
ghost use Rattle.card_sets.specs.Choose.{choose};
ghost use Rattle.card_sets.specs.Disjoint.{apart};
ghost use Rattle.card_sets.specs.Games.{two_and_three, allowed, own_size, board_size};

use crate::choices::{FiveList, push_choices, push_pairs};
use crate::iterator::Fives;
use card_sets::{CardSet, Game};

/// Each five of up to seven cards.
fn any_five(cards: CardSet) -> Fives
    requires { length cards ≤ 7 }
    ensures { result ≡ choose 5 cards }
{
    cards.rising();
    let mut list = FiveList::new();
    push_choices(CardSet::empty(), CardSet::empty(), cards, 5, &mut list);
    Fives::of(list)
}

/// Each five of two of up to four own cards and three of up to five of the board, once.
pub fn two_and_three(own: CardSet, board: CardSet) -> Fives
    requires own { length own ≤ 4 }
    requires board { length board ≤ 5 }
    ensures { result ≡ two_and_three own board }
{
    board.rising();
    let mut threes = FiveList::new();
    push_choices(CardSet::empty(), CardSet::empty(), board, 3, &mut threes);
    let mut list = FiveList::new();
    push_pairs(CardSet::empty(), own, 2, &threes, &mut list);
    Fives::of(list)
}

/// Returns the own cards and the board of a game in which any five make a hand.
fn all_cards(own: CardSet, board: CardSet) -> CardSet
    requires seven { length own + length board ≤ 7 }
    requires apart { IsTrue (apart own board) }
    ensures cards { result ≡ union own board }
    ensures few { length result ≤ 7 }
{
    own.rising();
    board.rising();
    own.union(board)
}

/// Each five that the game allows of full own cards and a full board, once.
pub fn fives(game: Game, own: CardSet, board: CardSet) -> Fives
    requires own { length own ≡ own_size game }
    requires board { length board ≡ board_size game }
    requires apart { IsTrue (apart own board) }
    ensures { result ≡ allowed game own board }
{
    match game {
        Game::Omaha | Game::Omaha8 => two_and_three(own, board),
        Game::Holdem
        | Game::Stud
        | Game::Stud8
        | Game::Razz
        | Game::Draw5
        | Game::Lowball27
        | Game::Triple27 => any_five(all_cards(own, board)),
    }
}
