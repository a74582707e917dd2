//! A full board of given ranks.

ghost use Rattle.std.specs.Prelude.{◌≡◌, ◌+◌, ◌<◌, length, IsTrue, MatchOption};
ghost use Rattle.card_sets.specs.Disjoint.{apart};
ghost use Rattle.board_ranks.specs.BoardWith.{HasNoBoard, IsBoardWith};

use crate::free::free_card;
use card_sets::CardSet;

/// A board with one card more of each of two ranks, which the own cards haven't. None where there are no such cards.
pub(crate) fn board_with(own: CardSet, board: CardSet, low: u8, high: u8) -> Option<CardSet>
    requires apart { IsTrue (apart own board) }
    requires low { low < 13 }
    requires high { high < 13 }
    ensures { MatchOption result
        (HasNoBoard own board low high)
        (λ full. IsBoardWith own board low high full × (length full ≡ length board + 2)) }
{
    own.rising();
    board.rising();
    let all = own.union(board);
    all.rising();
    let first = free_card(all, low)?;
    let more = all.with(first);
    more.rising();
    let second = free_card(more, high)?;
    let longer = board.with(first);
    longer.rising();
    let full = longer.with(second);
    full.rising();
    Some(full)
}
