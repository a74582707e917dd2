//! Laws of the reading of a spot line: each function is empty, and its clauses are the laws.

ghost use Rattle.std.specs.Prelude.{◌≡◌, ℕ, List, [], ◌∷◌, ◌++◌, IsTrue, Some, Ok, is_none};
ghost use Rattle.std.specs.List.{list_all, join_with_byte};
ghost use Rattle.card_sets.specs.Cards.{has_card};
ghost use Rattle.card_sets.specs.declared.games.Game.{Game};
ghost use Rattle.spot_text.specs.Words.{words};
ghost use Rattle.spot_text.specs.Spot.{all_differ, repeated_after, spot_of};
ghost use Rattle.text_laws.specs.WrittenSpots.{is_word, spot_line, state_of_cards, MayBeWritten};

/// Words that are written with one space between them are read as these words.
pub fn law_written_words_are_read()
    ensures { (ws : List (List ℕ)) → IsTrue (list_all is_word ws) →
        words (join_with_byte 32 ws) ≡ ws }
{}

/// There is no repeated card exactly if all cards differ. After cards that differ, the first card
/// that is one of them is the repeated card.
pub fn law_the_first_repeated_card()
    ensures none { (cards : List ℕ) → is_none (repeated_after [] cards) ≡ all_differ cards }
    ensures first { (front others : List ℕ) (card : ℕ) →
        IsTrue (all_differ front) → IsTrue (has_card front card)
        → repeated_after [] (front ++ card ∷ others) ≡ Some card }
{}

/// A spot that may be written, with a game, two to ten hands, a board, and dead cards, is read as
/// that spot.
pub fn law_a_written_spot_is_read()
    ensures { (game : Game) (hands : List (List ℕ)) (board dead : List ℕ)
        → MayBeWritten game hands board dead
        → spot_of (spot_line game hands board dead) ≡ Ok (state_of_cards game hands board dead) }
{}
