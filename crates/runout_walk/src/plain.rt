//! Runouts that are settled one by one.

ghost use Rattle.std.specs.Prelude.{◌≡◌, ℕ, ◌+◌, ◌*◌, ◌<◌, ◌≤◌, ◌^◌, [], ◌∷◌, ◌++◌, List, true, length, take};
ghost use Rattle.card_sets.specs.Games.{has_side};
ghost use Rattle.card_sets.specs.State.{state_of};
ghost use Rattle.card_sets.specs.declared.games.Side.{Side};
ghost use Rattle.runout_ranges.specs.Runouts.{HasMember};
ghost use Rattle.runout_ranges.specs.Shapes.{IsShapeOf};
ghost use Rattle.showdown_tally.specs.Deals.{deal_of};
ghost use Rattle.showdown_tally.specs.SideCounts.{CountsFit, CountsGrow};
ghost use Rattle.showdown_tally.specs.Sides.{side_outcome, AreSideNumbersAfter};
ghost use Rattle.showdown_tally.specs.Tallies.{runouts_after};

use crate::counts::{add_one, ten_pots};
use crate::leaf::{Leaf, Span};
use card_sets::{CardSet, Side};
use runout_ranges::Shape;
use showdown_tally::{Table, side_outcome, values_after};
use std::sync::ledger::Ledger;
use step_count::Steps;

/// Settles runouts one by one.
#[derive(Clone, Copy)]
pub struct Plain {
    /// What is shown down for.
    pub table: Table,
    /// What is still to be dealt.
    pub shape: Shape,
    /// The shape is that of the table's known cards.
    pub ghost fitting: { IsShapeOf (state_of table.known) shape },
}

impl Plain {
    /// Settles the runouts of a table, whose shape this is.
    pub fn of(table: &Table, shape: &Shape) -> Plain
        requires shape { IsShapeOf (state_of table.now.known) shape.now }
        ensures table { result.table ≡ table.now }
        ensures shape { result.shape ≡ shape.now }
    {
        Plain {
            table: *table,
            shape: *shape,
        }
    }
}

/// The numbers of the hands' values on a side after a runout, where the game has the side.
#[inline]
fn values_on(side: Side, table: &Table, shape: &Shape, sets: &[CardSet]) -> [Option<u32>; 10]
    requires shape { IsShapeOf (state_of table.now.known) shape.now }
    requires runout { HasMember (runouts_after (state_of table.now.known)) sets.now }
    ensures { has_side side table.now.known.game ≡ true
        → AreSideNumbersAfter side (state_of table.now.known) sets.now result }
{
    if table.known.game.has_side(side) {
        return values_after(side, table, shape, sets);
    }
    [None; 10]
}

/// Who wins a side of a pot after each runout that gives the hands these values on it, by the number with their bits: nobody where the
/// game hasn't the side.
#[inline]
pub fn winners_on(table: &Table, side: Side, values: &[Option<u32>; 10], pot: u8) -> u16
    requires { pot < table.now.pots }
    ensures value { (runout : List (List ℕ))
        → (has_side side table.now.known.game ≡ true
        → AreSideNumbersAfter side (state_of table.now.known) runout values.now)
        → result ≡ side_outcome side (deal_of table.now) pot runout }
    ensures small { result < 1024 }
{
    if table.known.game.has_side(side) {
        return side_outcome(table, side, values, pot);
    }
    0
}

/// Counts one runout for each pot.
fn count_one(table: &Table, shape: &Shape, sets: &[CardSet], counts: &mut [[u32; 2048]])
    // The sets are a runout of the table, one for each slot of the shape.
    requires shape { IsShapeOf (state_of table.now.known) shape.now }
    requires runout { HasMember (runouts_after (state_of table.now.known)) sets.now }

    // Each pot has its two rows, and each of their counts has room for one more.
    requires places { 2 * length (deal_of table.now).pots ≤ length counts.old }
    requires fits { CountsFit (deal_of table.now) counts.old 1 }

    // The runout is counted once for each pot, on each side that the game has.
    ensures counts { CountsGrow (deal_of table.now) (sets.now ∷ []) counts.old counts.new }
    ensures places { length counts.new ≡ length counts.old }
{
    ten_pots(table);
    let game = table.known.game;
    let highs = values_on(Side::High, table, shape, sets);
    let lows = values_on(Side::Low, table, shape, sets);
    for pot in 0..table.pots {
        let high = winners_on(table, Side::High, &highs, pot);
        let low = winners_on(table, Side::Low, &lows, pot);
        add_one(counts, game, pot, high, low);
    }
}

/// Puts some sets to the front, and one more after them.
#[inline]
fn put_sets(sets: &mut [CardSet], front: &[CardSet], last: CardSet)
    requires { length front.now < length sets.old }
    ensures written { take (length front.now + 1) sets.new ≡ front.now ++ last ∷ [] }
    ensures places { length sets.new ≡ length sets.old }
{
    let used = front.len();
    sets[..used].copy_from_slice(front);
    sets[used] = last;
}

impl Leaf for Plain {
    ghost deal = { λ p. deal_of p.table };

    ghost depth = { λ _. 0 };

    fn depth(&self) -> u32 {
        0
    }

    fn count<L: Ledger>(&mut self, counts: &mut [[u32; 2048]], span: &Span, steps: &mut Steps<L>) {
        steps.tick();
        let mut sets = [CardSet::empty(); 11];
        put_sets(&mut sets, span.front, span.tail.taken);
        let runout = &sets[..span.front.len() + 1];
        count_one(&self.table, &self.shape, runout, counts);
    }
}
