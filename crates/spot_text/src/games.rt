//! The games on a spot line: their words, and how many cards and players they allow.

ghost use Rattle.std.specs.Prelude.{◌≡◌};
ghost use Rattle.spot_text.specs.Games.{board_fits, game_named, hand_fits, least_own, named_among};
ghost use Rattle.spot_text.specs.Spot.{players_within};

use card_sets::{Game, Street};

/// The first of some games that a word names.
fn named_among(games: &[Game], word: &[u8]) -> Option<Game>
    ensures { result ≡ named_among games.now word.now }
{
    for game in games {
        if word == game.word().as_bytes() {
            return Some(*game);
        }
    }
    None
}

/// The game that a word names.
pub(crate) fn game_named(word: &[u8]) -> Option<Game>
    ensures { result ≡ game_named word.now }
{
    named_among(Game::all(), word)
}

/// The fewest cards that a hand may have: those of the first street, or in a draw none.
fn least_own(game: Game) -> u32
    ensures { result ≡ least_own game }
{
    if game.has_draw() {
        return 0;
    }
    let dealt = game.dealt_on(Street::First);
    u32::from(dealt.down) + u32::from(dealt.up)
}

/// Whether the game allows a hand of `count` cards.
pub(crate) fn hand_fits(game: Game, count: u32) -> bool
    ensures { result ≡ hand_fits game count }
{
    least_own(game) <= count && count <= game.own_size()
}

/// Whether the game allows a board of `count` cards: none, or three, four, or five.
pub fn board_fits(game: Game, count: u32) -> bool
    ensures { result ≡ board_fits game count }
{
    count == 0 || (count >= 3 && count <= game.board_size())
}

/// Whether `count` players are two or more, and at most `most`.
pub fn players_within(most: u8, count: u8) -> bool
    ensures { result ≡ players_within most count }
{
    2 <= count && count <= most
}
