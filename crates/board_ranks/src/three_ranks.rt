//! What own cards are worth with each three ranks of the board, where two of them come to three of it.

ghost use Rattle.std.specs.Prelude.{◌≡◌, ◌<◌, ◌≤◌, length, IsTrue, MatchOption};
ghost use Rattle.card_sets.specs.Disjoint.{apart};
ghost use Rattle.board_ranks.specs.Threes.{AreThrees, HasNoThree, IsThree, IsThreeWorth, two_own_worth};

use crate::board::board_with;
use crate::free::free_card;
use crate::ten_threes::{THREES, best_of_ten, five_cards};
use card_sets::{CardSet, Side};
use omaha_ranks::{omaha_low, omaha_plain_value};

/// What four own cards and three to five of the board are worth on a side: as a high by their ranks alone, or as a low, turned round so
/// that greater is better, and 0 where there is none.
pub(crate) fn two_own_worth(side: Side, own: CardSet, board: CardSet) -> u32
    requires own { length own ≡ 4 }
    requires least { 3 ≤ length board }
    requires most { length board ≤ 5 }
    requires apart { IsTrue (apart own board) }
    ensures { result ≡ two_own_worth side own board }
{
    match side {
        Side::High => omaha_plain_value(own, board),
        Side::Low => match omaha_low(own, board) {
            Some(low) => u32::MAX - low,
            None => 0,
        },
    }
}

/// Three cards of given ranks, none of which is an own card. None where there are no such cards.
fn three_cards(own: CardSet, low: u8, mid: u8, high: u8) -> Option<CardSet>
    requires low { low < 13 }
    requires mid { mid < 13 }
    requires high { high < 13 }
    ensures { MatchOption result
        (HasNoThree own low mid high)
        (λ three. IsThree own low mid high three × (length three ≡ 3)) }
{
    own.rising();
    let card = free_card(own, low)?;
    let none = CardSet::empty();
    none.rising();
    let one = none.with(card);
    board_with(own, one, mid, high)
}

/// What four own cards are worth on a side with three cards of given ranks, whichever cards these are. Where there are no such cards
/// the answer says nothing.
fn three_worth(side: Side, own: CardSet, low: u8, mid: u8, high: u8) -> u32
    requires own { length own ≡ 4 }
    requires low { low < 13 }
    requires mid { mid < 13 }
    requires high { high < 13 }
    ensures { IsThreeWorth side own low mid high result }
{
    let Some(three) = three_cards(own, low, mid, high) else {
        return 0;
    };
    two_own_worth(side, own, three)
}

/// Fills in what four own cards are worth on a side with each three ranks.
fn fill_threes(values: &mut [u32], side: Side, own: CardSet)
    requires places { length values.old ≡ 2197 }
    requires own { length own ≡ 4 }
    ensures { AreThrees side own values.new }
{
    for place in 0..THREES {
        let low = (place / 169) as u8;
        let mid = (place / 13 % 13) as u8;
        let high = (place % 13) as u8;
        if mid < low {
            continue;
        }
        if high < mid {
            continue;
        }
        values[place] = three_worth(side, own, low, mid, high);
    }
}

/// What four own cards are worth on a side with each three ranks of the board, whichever cards have them.
#[derive(Clone, Copy)]
pub(crate) struct ThreeRanks {
    /// The side.
    pub(crate) side: Side,
    /// The own cards, none where nothing is worked out.
    pub(crate) own: CardSet,
    /// The numbers, at 169 times the lowest rank, 13 times the middle one and the highest.
    values: [u32; THREES],
    /// They are right.
    ghost right: { AreThrees side own values },
}

impl ThreeRanks {
    /// Nothing is worked out.
    pub(crate) fn none() -> ThreeRanks {
        ThreeRanks {
            side: Side::High,
            own: CardSet::empty(),
            values: [0; THREES],
        }
    }

    /// Whether they are those of own cards on a side.
    #[inline]
    pub(crate) fn are_of(&self, side: Side, own: CardSet) -> bool
        ensures side { IsTrue result → self.now.side ≡ side }
        ensures own { IsTrue result → self.now.own ≡ own }
    {
        self.side == side && self.own == own
    }

    /// Makes them those of four own cards on a side.
    #[inline(never)]
    pub(crate) fn fill(&mut self, side: Side, own: CardSet)
        requires { length own ≡ 4 }
        ensures side { self.new.side ≡ side }
        ensures own { self.new.own ≡ own }
    {
        fill_threes(&mut self.values, side, own);
        self.side = side;
        self.own = own;
    }

    /// What own cards and a full board are worth on a side, where they are those of these own cards.
    #[inline]
    pub(crate) fn worth(&self, side: Side, own: CardSet, board: CardSet) -> u32
        requires same_side { self.now.side ≡ side }
        requires same_own { self.now.own ≡ own }
        requires own { length own ≡ 4 }
        requires board { length board ≡ 5 }
        requires apart { IsTrue (apart own board) }
        ensures { result ≡ two_own_worth side own board }
    {
        own.rising();
        board.rising();
        let cards = five_cards(board);
        best_of_ten(&self.values, &cards)
    }
}
