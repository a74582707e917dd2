//! The openings of a text.

ghost use Rattle.std.specs.Prelude.{◌≡◌, ℕ, List, option_map};
ghost use Rattle.card_sets.specs.declared.games.Game.{Game};
ghost use Rattle.history_text.specs.Acts.{first_opening};

use crate::texts::behind;
use card_sets::Game;

/// A kind of opening of a text, in a hand of a game.
pub(crate) trait Opening: Copy {
    /// The words of the opening.
    ghost words_in: { Game → Self → List ℕ };

    /// Returns the words of the opening.
    fn words(self, game: Game) -> &'static [u8]
        ensures { result.now ≡ words_in game self };
}

/// Returns the first of some openings with which the text begins, and the text after its words.
pub(crate) fn first_opening<'a, X: Opening>(
    game: Game,
    openings: &[X],
    text: &'a [u8],
) -> Option<(X, &'a [u8])>
    ensures { option_map (λ read. (read.0, read.1.now)) result
        ≡ first_opening (X.words_in game) openings.now text.now }
{
    for opening in openings {
        if let Some(rest) = behind(text, opening.words(game)) {
            return Some((*opening, rest));
        }
    }
    None
}
