//! The greatest number that three cards of a full board have, of a table by their ranks.

ghost use Rattle.std.specs.Prelude.{◌≡◌, ◌≤◌, ◌∷◌, [], length, max};
ghost use Rattle.omaha_ranks.specs.Omaha.{best_three};
ghost use Rattle.board_ranks.specs.Threes.{three_number};

use card_sets::{Card, CardSet};

/// How many places a table has for three ranks: at 169 times the lowest, 13 times the middle one and the highest.
pub(crate) const THREES: usize = 2197;

/// The lowest of some cards, and the others.
#[derive(Clone, Copy)]
struct Lowest {
    /// The lowest.
    card: Card,
    /// The others.
    others: CardSet,
}

/// The lowest of some cards, and the others.
#[inline]
fn lowest_of(cards: CardSet) -> Lowest
    requires { 1 ≤ length cards }
    ensures { cards ≡ result.card ∷ result.others }
{
    cards.rising();
    let Some(card) = cards.first() else {
        unreachable!();
    };
    Lowest {
        card,
        others: cards.without(card),
    }
}

/// The cards of a full board, rising.
#[derive(Clone, Copy)]
pub(crate) struct FiveCards {
    /// The lowest.
    pub(crate) first: Card,
    /// The second.
    pub(crate) second: Card,
    /// The third.
    pub(crate) third: Card,
    /// The fourth.
    pub(crate) fourth: Card,
    /// The highest.
    pub(crate) fifth: Card,
}

/// The cards of a full board.
#[inline]
pub(crate) fn five_cards(board: CardSet) -> FiveCards
    requires { length board ≡ 5 }
    ensures { board
        ≡ result.first ∷ result.second ∷ result.third ∷ result.fourth ∷ result.fifth ∷ [] }
{
    let first = lowest_of(board);
    let second = lowest_of(first.others);
    let third = lowest_of(second.others);
    let fourth = lowest_of(third.others);
    let fifth = lowest_of(fourth.others);
    FiveCards {
        first: first.card,
        second: second.card,
        third: third.card,
        fourth: fourth.card,
        fifth: fifth.card,
    }
}

/// The number of three cards.
#[inline]
fn three_number(values: &[u32; THREES], low: Card, mid: Card, high: Card) -> u32
    ensures { result ≡ three_number values.now (low ∷ mid ∷ high ∷ []) }
{
    let lowest = usize::from(low.rank());
    let middle = usize::from(mid.rank());
    let highest = usize::from(high.rank());
    values[169 * lowest + 13 * middle + highest]
}

/// The greatest number of two cards and one of three others.
#[inline]
fn best_third(values: &[u32; THREES], low: Card, mid: Card, a: Card, b: Card, c: Card) -> u32
    ensures { result
        ≡ max (three_number values.now (low ∷ mid ∷ a ∷ []))
        (max (three_number values.now (low ∷ mid ∷ b ∷ []))
        (three_number values.now (low ∷ mid ∷ c ∷ []))) }
{
    let with_a = three_number(values, low, mid, a);
    let with_b = three_number(values, low, mid, b);
    let with_c = three_number(values, low, mid, c);
    with_a.max(with_b.max(with_c))
}

/// The greatest number of a card and two of three others.
#[inline]
fn best_two(values: &[u32; THREES], low: Card, a: Card, b: Card, c: Card) -> u32
    ensures { result
        ≡ max (three_number values.now (low ∷ a ∷ b ∷ []))
        (max (three_number values.now (low ∷ a ∷ c ∷ []))
        (three_number values.now (low ∷ b ∷ c ∷ []))) }
{
    let without_c = three_number(values, low, a, b);
    let without_b = three_number(values, low, a, c);
    let without_a = three_number(values, low, b, c);
    without_c.max(without_b.max(without_a))
}

/// The greatest number of three cards of a full board.
pub(crate) fn best_of_ten(values: &[u32; THREES], board: &FiveCards) -> u32
    ensures { result
        ≡ best_three (three_number values.now) (board.now.first ∷ board.now.second ∷ board.now.third ∷ board.now.fourth ∷ board.now.fifth ∷ []) }
{
    let lowest_two = best_third(
        values,
        board.first,
        board.second,
        board.third,
        board.fourth,
        board.fifth,
    );
    let with_first = best_two(values, board.first, board.third, board.fourth, board.fifth);
    let with_second = best_two(values, board.second, board.third, board.fourth, board.fifth);
    let highest = three_number(values, board.third, board.fourth, board.fifth);
    lowest_two.max(with_first.max(with_second.max(highest)))
}
