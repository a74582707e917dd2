//! What hands are worth on a side with each three ranks of the board, where two own cards come to three of it.

ghost use Rattle.std.specs.Prelude.{◌≡◌, ◌<◌, ◌≤◌, ◌++◌, ◌∷◌, [], length, vec_capacity, vec_len, IsTrue};
ghost use Rattle.card_sets.specs.Disjoint.{apart};
ghost use Rattle.board_ranks.specs.Threes.{two_own_worth};

use crate::three_ranks::{ThreeRanks, two_own_worth};
use card_sets::{CardSet, Memory, Side};
use std::alloc::Global;

/// How many hands there is room for.
const HANDS: usize = 10;

/// Adds a value at the end, where there is room for it.
fn push_in_room<T: Copy>(list: &mut Vec<T>, value: T)
    requires { vec_len list.old < vec_capacity list.old }
    ensures items { list.new.items ≡ list.old.items ++ value ∷ [] }
    ensures capacity { vec_capacity list.new ≡ vec_capacity list.old }
{
    list.push_reserved(value);
}

/// What each hand is worth on a side with each three ranks of the board. A hand's numbers are made where they are asked for first, so
/// that only those that a count uses take memory's pages.
#[derive(Drop)]
pub(crate) struct SideThrees {
    /// The numbers of each hand, in the order of the hands. Whose they are is looked at before they are used.
    list: Vec<ThreeRanks>,
    /// There is room for ten hands.
    ghost room: { 10 ≤ vec_capacity list },
}

impl SideThrees {
    /// Makes room for the numbers of all hands, and keeps none.
    pub(crate) fn none(alloc: Global) -> Result<SideThrees, Memory> {
        let list = Vec::with_capacity(alloc, HANDS)?;
        Ok(SideThrees { list })
    }

    /// Adds a place, if there is room for it.
    #[inline(never)]
    fn add_place(&mut self) {
        if self.list.len() < HANDS {
            push_in_room(&mut self.list, ThreeRanks::none());
        }
    }

    /// Makes those of a hand right for its own cards, where these are four. Hands are served in their order.
    fn serve_hand(&mut self, side: Side, hand: usize, own: CardSet) {
        if own.count() != 4 {
            return;
        }
        if self.list.len() <= hand {
            self.add_place();
        }
        if hand < self.list.len() {
            let threes = &mut self.list[hand];
            if !threes.are_of(side, own) {
                threes.fill(side, own);
            }
        }
    }

    /// Makes them those of hands.
    pub(crate) fn serve(&mut self, side: Side, hands: &[CardSet]) {
        for (hand, own) in hands.iter().enumerate() {
            self.serve_hand(side, hand, *own);
        }
    }

    /// What the own cards of a hand are worth on a side with a full board. That is looked up where the hand's are those of the own
    /// cards, and else worked out.
    pub(crate) fn worth(&self, side: Side, hand: usize, own: CardSet, board: CardSet) -> u32
        requires own { length own ≡ 4 }
        requires board { length board ≡ 5 }
        requires apart { IsTrue (apart own board) }
        ensures { result ≡ two_own_worth side own board }
    {
        if hand < self.list.len() {
            let threes = &self.list[hand];
            if threes.are_of(side, own) {
                return threes.worth(side, own, board);
            }
        }
        two_own_worth(side, own, board)
    }
}
