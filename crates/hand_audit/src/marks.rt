//! The marks of players in the stud games, by which winners get odd units.

ghost use Rattle.std.specs.Prelude.{◌≡◌, ℕ, ◌<◌, ◌==◌, filter, map, length, true, None, IfSome, slice_index_or};
ghost use Rattle.card_sets.specs.Games.{allowed, has_marks};
ghost use Rattle.hand_choice.specs.AllowedFives.{AreFives};
ghost use Rattle.hand_audit.specs.Marks.{height, highest, top_card, mark_among, mark_by, mark_of};
ghost use Rattle.hand_audit.specs.Winning.{is_full};
ghost use Rattle.hand_audit.specs.MarkNumbers.{number_of_five, top_number};

use card_sets::{Card, CardSet, Game, Side};
use hand_choice::{Fives, fives, law_fives_have_five_cards};
use rank_high::high_of_five;
use rank_low::ace_of_five;

/// The number that a five's worth is kept as: greater is better.
fn number_of_five(side: Side, five: CardSet) -> u32
    requires { length five ≡ 5 }
    ensures { result ≡ number_of_five side five }
{
    match side {
        Side::High => high_of_five(five).number(),
        Side::Low => u32::MAX - ace_of_five(five).number(),
    }
}

/// The greatest number of some fives.
fn top_number(side: Side, fives: Fives) -> u32
    requires { AreFives fives }
    ensures { result ≡ top_number side fives }
{
    let mut top = 0;
    for five in fives {
        top = number_of_five(side, five).max(top);
    }
    top
}

/// How high a card counts: by its rank and then its suit, with the ace below the deuce on the low side.
fn height(side: Side, card: Card) -> u8
    ensures value { result ≡ height side card }
    ensures card { result < 52 }
{
    match side {
        Side::High => card.number(),
        Side::Low => (card.number() + 4) % 52,
    }
}

/// How high the highest card of a five counts.
fn top_card(side: Side, five: CardSet) -> u8
    ensures value { result ≡ top_card side five }
    ensures card { result < 52 }
{
    let mut top = 0;
    for card in five.iter() {
        top = height(side, card).max(top);
    }
    top
}

/// How high the highest card of those fives counts that have a number.
fn mark_with(side: Side, fives: Fives, number: u32) -> u8
    requires { AreFives fives }
    ensures value { result
        ≡ highest
        (map (top_card side) (filter (λ five. number_of_five side five == number) fives)) }
    ensures card { result < 52 }
{
    let mut mark = 0;
    for five in fives {
        if number_of_five(side, five) != number {
            continue;
        }
        mark = top_card(side, five).max(mark);
    }
    mark
}

/// A player's mark on a side, in a game that has marks.
fn mark_among(side: Side, game: Game, board: CardSet, own: CardSet) -> u8
    requires full { is_full game board own ≡ true }
    ensures value { result ≡ mark_among side (allowed game own board) }
    ensures card { result < 52 }
{
    own.rising();
    board.rising();
    law_fives_have_five_cards();
    let number = top_number(side, fives(game, own, board));
    mark_with(side, fives(game, own, board), number)
}

/// A player's mark on a side; 0 in the games that have no marks.
fn mark_by(side: Side, game: Game, board: CardSet, own: CardSet) -> u8
    requires { is_full game board own ≡ true }
    ensures value { result ≡ mark_by side game board own }
    ensures card { result < 52 }
{
    if game.has_marks() {
        mark_among(side, game, board, own)
    } else {
        0
    }
}

/// A player's mark on a side, 0 where his cards are unknown or the game hasn't the side.
fn mark_of(side: Option<Side>, game: Game, board: CardSet, own: Option<CardSet>) -> u8
    requires { IfSome own (λ own. is_full game board own ≡ true) }
    ensures value { result ≡ mark_of side game board own }
    ensures card { result < 52 }
{
    let Some(side) = side else {
        return 0;
    };
    match own {
        Some(own) => mark_by(side, game, board, own),
        None => 0,
    }
}

/// The marks of the players on a side, by seat.
pub(crate) fn marks(
    side: Option<Side>,
    game: Game,
    board: CardSet,
    hands: &[Option<CardSet>; 11],
) -> [u8; 11]
    requires { (p : ℕ) → p < 11
        → IfSome (slice_index_or hands.now p None) (λ own. is_full game board own ≡ true) }
    ensures value { (p : ℕ) → p < 11
        → slice_index_or result p 0 ≡ mark_of side game board (slice_index_or hands.now p None) }
    ensures cards { (p : ℕ) → p < 11 → slice_index_or result p 0 < 52 }
{
    let mut marks = [0; 11];
    for seat in 0..11usize {
        marks[seat] = mark_of(side, game, board, hands[seat]);
    }
    marks
}
