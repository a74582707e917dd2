//! The settling of one runout.

ghost use Rattle.std.specs.Prelude.{◌≡◌, ℕ, ◌+◌, ◌<◌, ◌≤◌, [], length, slice_index_or};
ghost use Rattle.std.specs.Option.{option_map};
ghost use Rattle.card_sets.specs.State.{state_of};
ghost use Rattle.runout_ranges.specs.Runouts.{HasMember};
ghost use Rattle.runout_ranges.specs.Shapes.{IsShapeOf};
ghost use Rattle.showdown_tally.specs.Tallies.{Adds, Fits, runouts_after};
ghost use Rattle.showdown_tally.specs.Showdown.{best};
ghost use Rattle.showdown_tally.specs.Numbers.{side_number};
ghost use Rattle.showdown_tally.specs.Deals.{deal_of};
ghost use Rattle.showdown_tally.specs.Laws.{IsFull};
ghost use Rattle.showdown_tally.specs.Settling.{number_of};

use crate::dealing::{dealt_in, hands_after};
use crate::laws::law_values_keep_order;
use crate::settle::settle_pot;
use crate::table::Table;
use crate::tally::Tally;
use crate::values::{flush_suit, value_beside};
use card_sets::{CardSet, Game, PlayerSet, Side};
use runout_ranges::{Receiver, Runout, Shape};
use std::sync::ledger::Ledger;
use step_count::Steps;

/// What each of up to ten full hands is worth on a side.
#[inline]
pub(crate) fn side_values(
    side: Side,
    game: Game,
    hands: &[CardSet],
    board: CardSet,
) -> [Option<u32>; 10]
    requires few { length hands.now ≤ 10 }
    requires full { (h : ℕ) → h < length hands.now
        → IsFull game (slice_index_or hands.now h []) board }
    ensures { (h : ℕ) → h < length hands.now
        → number_of result h
        ≡ option_map (side_number side game)
        (best side game (slice_index_or hands.now h []) board) }
{
    let mut values = [None; 10];
    if hands.is_empty() || !game.has_side(side) {
        return values;
    }
    let suit = flush_suit(board);
    for (hand, own) in hands.iter().enumerate() {
        values[hand] = value_beside(side, game, *own, board, suit);
    }
    values
}

/// There are ten places for hands, and ten for pots.
#[inline]
pub(crate) fn ten_places(table: &Table)
    ensures hands { length table.now.known.hands ≡ 10 }
    ensures pots { length table.now.eligible ≡ 10 }
{
    let _hands: &[CardSet] = &table.known.hands;
    let _eligible: &[u16] = &table.eligible;
}

/// Adds a runout to a tally, which is given by the set of each slot.
#[inline]
fn settle_sets(table: &Table, shape: &Shape, sets: &[CardSet], tally: &mut Tally)
    requires shape { IsShapeOf (state_of table.now.known) shape.now }
    requires runout { HasMember (runouts_after (state_of table.now.known)) sets.now }
    requires fits { Fits (deal_of table.now) sets.now tally.old }
    ensures { Adds (deal_of table.now) sets.now tally.old tally.new }
{
    law_values_keep_order();
    ten_places(table);
    let known = &table.known;
    let game = known.game;
    let board = known.board.union(dealt_in(shape, sets, Receiver::Board));
    let full = hands_after(known, shape, sets);
    let hands = &full[..known.count as usize];
    let highs = side_values(Side::High, game, hands, board);
    let lows = side_values(Side::Low, game, hands, board);
    for pot in 0..table.pots {
        let eligible = PlayerSet::of(table.eligible[pot as usize]);
        settle_pot(game, &highs, &lows, eligible, known.count, pot, tally);
    }
    tally.end_runouts(1);
}

/// Adds one runout to a tally: how it ends for each hand that is eligible in a pot, on each side of
/// the game, and the units of each winner. It takes one step.
pub fn settle_runout<L: Ledger>(
    table: &Table,
    shape: &Shape,
    r: &Runout,
    tally: &mut Tally,
    steps: &mut Steps<L>,
)
    requires shape { IsShapeOf (state_of table.now.known) shape.now }
    requires runout { HasMember (runouts_after (state_of table.now.known)) r.now }
    requires fits { Fits (deal_of table.now) r.now tally.old }
    ensures adds { Adds (deal_of table.now) r.now tally.old tally.new }
    ensures steps { steps.new ≡ steps.old + 1 }
{
    settle_sets(table, shape, r.sets(), tally);
    steps.tick();
}
