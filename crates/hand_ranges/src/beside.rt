//! The hands of a range beside a full board.

ghost use Rattle.std.specs.Prelude.{◌≡◌, ◌<◌, ◌≤◌, ◌++◌, [], ◌∷◌, length, true};
ghost use Rattle.card_sets.specs.Disjoint.{apart};
ghost use Rattle.hand_ranges.specs.Boards.{number_or_none, shown_of};
ghost use Rattle.range_lines.specs.Sound.{AreHands};
ghost use Rattle.hand_ranges.specs.Taken.{number_beside};

use card_sets::{CardSet, Game, Side};
use range_lines::{Range, RangeSpot};
use showdown_tally::side_value;
use std::marker::Model;

/// A hand of a range, and what it is worth beside a full board.
#[derive(Clone, Copy)]
pub(crate) struct Shown {
    /// Its two cards.
    pub(crate) hand: CardSet,
    /// The number of its value: greater is better.
    pub(crate) value: u32,
    /// Its weight, 1 to 100.
    pub(crate) weight: u8,
}

/// The number of a hand's value beside a full board.
#[inline]
fn value_beside(full: CardSet, hand: CardSet) -> u32
    requires five { length full ≡ 5 }
    requires two { length hand ≡ 2 }
    requires apart { apart hand full ≡ true }
    ensures { result ≡ number_or_none (number_beside full hand) }
{
    match side_value(Side::High, Game::Holdem, hand, full) {
        Some(value) => value,
        None => 0,
    }
}

/// The hands of a range that have no card of a full board. Clauses see their list.
#[derive(Drop)]
pub(crate) struct ShownRange {
    /// The hands, and after them places that aren't looked at.
    hands: [Shown; 1326],
    /// How many hands there are.
    count: u16,
}

impl Model for ShownRange {
    ghost use Rattle.std.specs.Prelude.{List, take, ◌≤◌};
    ghost use Rattle.hand_ranges.specs.declared.beside.Shown.{Shown};

    ghost Value = { List Shown };

    ghost view = { λ range. take range.count range.hands };

    ghost invariant = { λ range. range.count ≤ 1326 };
}

impl ShownRange {
    /// No hand.
    pub(crate) fn new() -> ShownRange
        ensures { result ≡ [] }
    {
        let none = Shown {
            hand: CardSet::empty(),
            value: 0,
            weight: 0,
        };
        ShownRange {
            hands: [none; 1326],
            count: 0,
        }
    }

    /// The hands.
    pub(crate) fn hands(&self) -> &[Shown]
        ensures value { result.now ≡ self.now }
        ensures few { length self.now ≤ 1326 }
    {
        &self.hands[..usize::from(self.count)]
    }

    /// Leaves no hand.
    fn clear(&mut self)
        ensures { self.new ≡ [] }
    {
        self.count = 0;
    }

    /// One hand more.
    #[inline]
    fn add(&mut self, shown: Shown)
        requires { length self.old < 1326 }
        ensures { self.new ≡ self.old ++ shown ∷ [] }
    {
        self.hands[usize::from(self.count)] = shown;
        self.count += 1;
    }

    /// Makes these the hands of a range that have no card of a full board, with their values beside it, whatever they were.
    pub(crate) fn fill(&mut self, spot: &RangeSpot, range: &Range, full: CardSet)
        // The board is full, and the hands are those of a sound spot.
        requires five { length full ≡ 5 }
        requires each { AreHands spot.now.board spot.now.dead range.now }
        requires few { length range.now ≤ 1326 }
        ensures { self.new ≡ shown_of full range.now }
    {
        self.clear();
        for w in range.hands() {
            if !w.hand.is_apart(full) {
                continue;
            }
            self.add(Shown {
                hand: w.hand,
                value: value_beside(full, w.hand),
                weight: w.weight,
            });
        }
    }
}
