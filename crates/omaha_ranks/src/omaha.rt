//! The best of the fives with two own cards and three of the board.

ghost use Rattle.std.specs.Prelude.{◌≡◌, ◌<◌, ◌≤◌, filter, length, IsTrue};
ghost use Rattle.card_sets.specs.Disjoint.{apart};
ghost use Rattle.rank_high.specs.High.{value_of};
ghost use Rattle.omaha_ranks.specs.Omaha.{high_number, eight_number, fives, omaha_plain, omaha_suited, is_low};

use crate::best_choice::best_own;
use crate::best_five::best_high;
use crate::laws::{law_only_low_cards, law_ranks_or_a_suit};
use card_sets::{Card, CardSet, Side};
use hand_choice::two_and_three;
use rank_high::high_of_set;

/// Returns the number of the best high of one suit, 0 to 3, of own cards and a board. 0 if there are fewer
/// than two own cards of the suit or fewer than three of the board.
#[inline]
pub fn omaha_suited_value(own: CardSet, board: CardSet, suit: u8) -> u32
    requires suit { suit < 4 }
    requires own { length own ≤ 4 }
    requires board { length board ≤ 5 }
    requires apart { IsTrue (apart own board) }
    ensures { result ≡ omaha_suited own board suit }
{
    own.rising();
    board.rising();
    let own = own.of_suit(suit);
    if own.count() < 2 {
        return 0;
    }
    let board = board.of_suit(suit);
    if board.count() < 3 {
        return 0;
    }
    if own.count() == 2 && board.count() == 3 {
        return high_of_set(own.union(board)).number();
    }
    best_high(two_and_three(own, board))
}

/// Returns the number of the best high of four own cards and three to five of the board by ranks alone, as
/// if there were no flushes.
pub fn omaha_plain_value(own: CardSet, board: CardSet) -> u32
    requires own { length own ≡ 4 }
    requires least { 3 ≤ length board }
    requires most { length board ≤ 5 }
    requires apart { IsTrue (apart own board) }
    ensures { result ≡ value_of (omaha_plain own board) }
{
    own.rising();
    board.rising();
    best_own(Side::High, CardSet::empty(), own, 2, board, 0)
}

/// Returns the number of the best high of four own cards and five of the board.
pub fn omaha_high(own: CardSet, board: CardSet) -> u32
    requires own { length own ≡ 4 }
    requires board { length board ≡ 5 }
    requires apart { IsTrue (apart own board) }
    ensures { result ≡ high_number (fives own board) }
{
    own.rising();
    board.rising();
    law_ranks_or_a_suit();
    let flush = omaha_suited_value(own, board, 0)
        .max(omaha_suited_value(own, board, 1))
        .max(omaha_suited_value(own, board, 2).max(omaha_suited_value(own, board, 3)));
    best_own(Side::High, CardSet::empty(), own, 2, board, flush)
}

/// Returns the cards from ace to eight.
#[inline]
fn low_cards(s: CardSet) -> CardSet
    ensures { result ≡ filter is_low s }
{
    s.rising();
    let (Some(eight), Some(king)) = (Card::new(6, 3), Card::new(11, 3)) else {
        unreachable!();
    };
    let deck = CardSet::deck();
    s.minus(deck.above(eight).minus(deck.above(king)))
}

/// Returns the number of the best low of eight or better of four own cards and three to five of the board.
/// `None` exactly if no five qualify.
pub fn omaha_low(own: CardSet, board: CardSet) -> Option<u32>
    requires own { length own ≡ 4 }
    requires least { 3 ≤ length board }
    requires most { length board ≤ 5 }
    requires apart { IsTrue (apart own board) }
    ensures { result ≡ eight_number (fives own board) }
{
    own.rising();
    board.rising();
    law_only_low_cards();
    let low_board = low_cards(board);
    if low_board.count() < 3 {
        return None;
    }
    let worth = best_own(Side::Low, CardSet::empty(), low_cards(own), 2, low_board, 0);
    if worth == 0 {
        return None;
    }
    Some(u32::MAX - worth)
}
