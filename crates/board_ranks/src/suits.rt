//! Where somebody may have a flush.

ghost use Rattle.std.specs.Prelude.{◌≡◌, ℕ, ◌+◌, ◌<◌, ◌≤◌, [], false, length, slice_index, slice_index_or, IsTrue, MatchOption};
ghost use Rattle.card_sets.specs.State.{state_of};
ghost use Rattle.rank_high.specs.Parts.{count_of_suit};
ghost use Rattle.board_ranks.specs.HighParts.{flush_part};
ghost use Rattle.board_ranks.specs.Suits.{AreMost, IsShort, AreFives, AreFivesWith, AreAllShort};
ghost use Rattle.board_ranks.specs.Values.{one_of};

use card_sets::{CardSet, Game, Known};

/// How many of some cards are of each suit.
#[inline]
fn suit_counts(cards: CardSet) -> [u32; 4]
    ensures value { (s : ℕ) → s < 4 → slice_index result s ≡ count_of_suit cards s }
    ensures bound { (s : ℕ) → slice_index result s ≤ 52 }
{
    [
        cards.of_suit(0).count(),
        cards.of_suit(1).count(),
        cards.of_suit(2).count(),
        cards.of_suit(3).count(),
    ]
}

/// The sums of two counts of the suits.
#[inline]
fn sums(a: [u32; 4], b: [u32; 4]) -> [u32; 4]
    requires a { (s : ℕ) → slice_index a s ≤ 104 }
    requires b { (s : ℕ) → slice_index b s ≤ 52 }
    ensures value { (s : ℕ) → s < 4 → slice_index result s ≡ slice_index a s + slice_index b s }
    ensures bound { (s : ℕ) → slice_index result s ≤ 156 }
{
    [a[0] + b[0], a[1] + b[1], a[2] + b[2], a[3] + b[3]]
}

/// The greater of two counts of each suit.
#[inline]
fn greater(a: [u32; 4], b: [u32; 4]) -> [u32; 4]
    ensures left { (s : ℕ) → s < 4 → slice_index a s ≤ slice_index result s }
    ensures right { (s : ℕ) → s < 4 → slice_index b s ≤ slice_index result s }
    ensures bound { (most : ℕ) → ((s : ℕ) → slice_index a s ≤ most)
        → ((s : ℕ) → slice_index b s ≤ most) → (s : ℕ) → slice_index result s ≤ most }
{
    [
        a[0].max(b[0]),
        a[1].max(b[1]),
        a[2].max(b[2]),
        a[3].max(b[3]),
    ]
}

/// How many own cards of a suit a flush may have: all, and in Omaha and Omaha Hi/Lo two, where there are two.
#[inline]
fn flush_part(game: Game, own: CardSet, suit: u8) -> u32
    requires { suit < 4 }
    ensures value { result ≡ flush_part game (count_of_suit own suit) }
    ensures bound { result ≤ 52 }
{
    let count = own.of_suit(suit).count();
    match game {
        Game::Omaha | Game::Omaha8 => if count < 2 { 0 } else { 2 },
        Game::Holdem
        | Game::Stud
        | Game::Stud8
        | Game::Razz
        | Game::Draw5
        | Game::Lowball27
        | Game::Triple27 => count,
    }
}

/// Returns how many cards for a flush of each suit own cards have with the board, of which `board` has the counts of suits.
#[inline]
fn flush_counts(game: Game, own: CardSet, board: [u32; 4]) -> [u32; 4]
    requires { (s : ℕ) → slice_index board s ≤ 52 }
    ensures value { (s : ℕ) → s < 4
        → slice_index result s ≡ flush_part game (count_of_suit own s) + slice_index board s }
    ensures bound { (s : ℕ) → slice_index result s ≤ 104 }
{
    [
        flush_part(game, own, 0) + board[0],
        flush_part(game, own, 1) + board[1],
        flush_part(game, own, 2) + board[2],
        flush_part(game, own, 3) + board[3],
    ]
}

/// The most cards for a flush of each suit that a hand has with the known board.
pub fn most_of(known: &Known) -> [u32; 4]
    ensures most { AreMost (state_of known.now) result }
    ensures bound { (s : ℕ) → slice_index result s ≤ 104 }
{
    let board = suit_counts(known.board);
    let mut most = [0; 4];
    let hands = &known.hands[..known.count as usize];
    for own in hands {
        let together = flush_counts(known.game, *own, board);
        let greatest = greater(most, together);
        most = greatest;
    }
    most
}

/// One where the suits are the same, and else none.
#[inline]
pub fn one_of(suit: u8, other: u8) -> u32
    ensures { result ≡ one_of suit other }
{
    if suit == other { 1 } else { 0 }
}

/// Returns whether `count` cards of a suit and two more cards are five of that suit.
#[inline]
fn is_five(count: u32, suit: u8, a: u8, b: u8) -> bool
    requires { count ≤ 156 }
    ensures { result ≡ false → count + one_of a suit + one_of b suit ≤ 4 }
{
    count + one_of(a, suit) + one_of(b, suit) > 4
}

/// Returns the first suit of which there are five cards with `counts` cards of each suit and one card of each of two suits, or 4.
#[inline]
fn first_five(counts: [u32; 4], a: u8, b: u8) -> u8
    requires { (s : ℕ) → slice_index counts s ≤ 156 }
    ensures { 4 ≤ result → IsShort counts a b }
{
    if is_five(counts[0], 0, a, b) {
        0
    } else if is_five(counts[1], 1, a, b) {
        1
    } else if is_five(counts[2], 2, a, b) {
        2
    } else if is_five(counts[3], 3, a, b) {
        3
    } else {
        4
    }
}

/// Returns, for each pair of suits, the suit of which `counts` cards and two more of the pair may be five, or 4.
#[inline]
pub(crate) fn five_suits(counts: [u32; 4]) -> [u8; 16]
    requires { (s : ℕ) → slice_index counts s ≤ 156 }
    ensures suits { AreFives counts result }
    ensures length { length result ≡ 16 }
{
    let mut suits = [4; 16];
    for place in 0..16u8 {
        suits[usize::from(place)] = first_five(counts, place / 4, place % 4);
    }
    suits
}

/// The most cards for a flush of each suit that a hand has with the known board and first cards, by the most that one has with the known
/// board alone.
#[inline]
pub fn most_with(most: [u32; 4], taken: CardSet) -> [u32; 4]
    requires { (s : ℕ) → slice_index most s ≤ 104 }
    ensures value { (s : ℕ) → s < 4
        → slice_index result s ≡ slice_index most s + count_of_suit taken s }
    ensures bound { (s : ℕ) → slice_index result s ≤ 156 }
{
    sums(most, suit_counts(taken))
}

/// Whether there are so few cards of each suit that two more never are five of one.
#[inline]
fn are_few(counts: [u32; 4]) -> bool
    ensures { IsTrue result → (s : ℕ) → s < 4 → slice_index counts s ≤ 2 }
{
    counts[0] <= 2 && counts[1] <= 2 && counts[2] <= 2 && counts[3] <= 2
}

/// The suit of which somebody may have a flush after first cards of the board, at 4 times the suit of one of the last two cards and
/// that of the other, or else 4: one of which a number for the suit and its first and last cards are more than four together. None
/// where there is no such suit for any two.
#[inline]
pub fn suits_for(most: [u32; 4], taken: CardSet) -> Option<[u8; 16]>
    requires { (s : ℕ) → slice_index most s ≤ 104 }
    ensures { MatchOption result (AreAllShort most taken)
        (λ suits. AreFivesWith most taken suits × (length suits ≡ 16)) }
{
    let together = most_with(most, taken);
    if are_few(together) {
        return None;
    }
    Some(five_suits(together))
}
