//! The deal of one hand.

ghost use Rattle.std.specs.Prelude.{◌≡◌, []};
ghost use Rattle.card_sets.specs.Cards.{union};
ghost use Rattle.made_hands.specs.Deals.{IsWhole, deal_of};
ghost use Rattle.made_hands.specs.Generator.{state_after};
ghost use Rattle.made_hands.specs.Lines.{compared, staked};

use crate::generator::Generator;
use card_sets::{Card, CardSet};
use rank_high::{high_of_set, law_best_numbers_keep_order};
use std::cmp::Ordering;

/// Two players' cards, the board, and the players' stacks at the beginning, in whole dollars.
#[derive(Clone, Copy)]
pub(crate) struct Deal {
    /// The two cards of A, who has the button.
    pub(crate) first: [Card; 2],
    /// The two cards of B.
    pub(crate) second: [Card; 2],
    /// The five cards of the board.
    pub(crate) board: [Card; 5],
    /// A's stack, in dollars.
    pub(crate) first_stack: u64,
    /// B's stack, in dollars.
    pub(crate) second_stack: u64,
}

/// Returns the set of some cards.
fn set_of(cards: &[Card]) -> CardSet
    ensures { result ≡ union [] cards.now }
{
    let mut set = CardSet::empty();
    for card in cards {
        set = set.with(*card);
    }
    set
}

impl Deal {
    /// Draws the deal of one hand.
    pub(crate) fn draw(generator: &mut Generator) -> Deal
        ensures state { generator.new.state ≡ state_after 11 generator.old.state }
        ensures deal { result ≡ deal_of generator.old.state }
        ensures whole { IsWhole result }
    {
        let mut left = CardSet::deck();
        let first = generator.hole_cards(&mut left);
        let second = generator.hole_cards(&mut left);
        let board = generator.board(&mut left);
        let first_stack = generator.stack();
        let second_stack = generator.stack();
        Deal {
            first,
            second,
            board,
            first_stack,
            second_stack,
        }
    }

    /// Returns how A's hand compares with B's.
    pub(crate) fn compare(&self) -> Ordering
        requires { IsWhole self.now }
        ensures { result ≡ compared self.now }
    {
        law_best_numbers_keep_order();
        let board = set_of(&self.board);
        let first = high_of_set(set_of(&self.first).union(board));
        let second = high_of_set(set_of(&self.second).union(board));
        first.cmp(&second)
    }

    /// Returns the dollars that each player puts in.
    pub(crate) fn stake(&self) -> u64
        ensures { result ≡ staked self.now }
    {
        self.first_stack.min(self.second_stack)
    }
}
