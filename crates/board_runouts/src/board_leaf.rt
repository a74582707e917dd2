//! The pairs that may be a flush, one by one.
//!
//! There are two loops. `count_pairs` counts a pair for every pot. `count_one_pot` serves the only pot of a game with one side, and adds to one
//! row of counts without a loop over pots and sides. Without it, three hands before the flop take 1.6 times as long, and nine 1.4 times.

ghost use Rattle.std.specs.Prelude.{◌≡◌, ℕ, ◌+◌, ◌^◌, ◌<◌, [], ◌∷◌, length, slice_index};
ghost use Rattle.board_runouts.specs.Fronts.{AddPairs, AreRunoutsWith, HasRoom, HoldsFlushes, IsFlushWith, IsRunoutWith, front_deal};
ghost use Rattle.board_runouts.specs.KeptRows.{CellsGrow, pair_place};

use crate::flush::Suited;
use crate::flushes::Flushes;
use crate::front::Front;
use crate::places::{add_place, put_runout};
use crate::suited::{suited_part, suited_place};
use board_ranks::Pair;
use card_sets::Side;
use runout_walk::{all_are_hands, are_hands};
use showdown_tally::law_values_keep_order;
use std::sync::ledger::Ledger;
use step_count::Steps;

/// Counts the runout with a pair for each pot, after the suit in which somebody may have a flush is known.
#[inline(always)]
fn count_suited(
    front: &Front,
    flushes: &mut Flushes,
    pair: &Pair,
    part: &Suited,
    counts: &mut [[u32; 2048]],
)
    // After the runout a hand is worth its ranks or its flush with the part's cards.
    requires member { IsRunoutWith front.now pair.now }
    requires part { IsFlushWith front.now pair.now part.now }
    requires flushes { HoldsFlushes front.now flushes.old }
    requires room { HasRoom front.now counts.old 1 }

    // The runout is counted for each pot, and the kept flushes stay right.
    ensures counts { AddPairs front.now (pair.now ∷ []) counts.old counts.new }
    ensures flushes { HoldsFlushes front.now flushes.new }
{
    let spot = front.spot;
    let two_sides = spot.table.known.game.has_side(Side::Low);
    let at = flushes.ready(&spot.table, part);
    let flush = flushes.flush_at(at);
    // values outside the loop, since what is behind a reference would be read again after each count
    let rows = front.rows;
    let last = *pair;
    for pot in 0..spot.table.pots {
        let row = &rows[usize::from(pot)];
        let place = suited_place(front, row, flush, pot, &last, part);
        add_place(counts, two_sides, pot, place, 1);
    }
}

/// Counts the runout with a pair for each pot.
#[inline]
fn count_pair(
    front: &Front,
    tags: &[u32; 4],
    flushes: &mut Flushes,
    pair: &Pair,
    counts: &mut [[u32; 2048]],
)
    requires member { IsRunoutWith front.now pair.now }
    requires flushes { HoldsFlushes front.now flushes.old }
    requires room { HasRoom front.now counts.old 1 }

    // The pair is counted, and the kept flushes stay right.
    ensures counts { AddPairs front.now (pair.now ∷ []) counts.old counts.new }
    ensures flushes { HoldsFlushes front.now flushes.new }
{
    law_values_keep_order();
    let spot = front.spot;
    all_are_hands(&spot.table);
    let Some(part) = suited_part(front, tags, pair) else {
        put_runout(front, usize::from(pair.ranks), counts);
        return;
    };
    count_suited(front, flushes, pair, &part, counts);
}

/// Counts the runout with each of some pairs for each pot. It takes a step a pair.
#[inline(never)]
fn count_pairs<L: Ledger>(
    front: &Front,
    flushes: &mut Flushes,
    pairs: &[Pair],
    counts: &mut [[u32; 2048]],
    steps: &mut Steps<L>,
)
    requires pairs { AreRunoutsWith front.now pairs.now }
    requires flushes { HoldsFlushes front.now flushes.old }
    requires room { HasRoom front.now counts.old (length pairs.now) }

    // Each pair is counted for each pot, and the kept flushes stay right.
    ensures counts { AddPairs front.now pairs.now counts.old counts.new }
    ensures flushes { HoldsFlushes front.now flushes.new }
    ensures steps { steps.new ≡ steps.old + length pairs.now }
{
    let tags = front.tags();
    for pair in pairs {
        steps.tick();
        count_pair(front, &tags, flushes, pair, counts);
    }
}

/// Returns where the runout with a pair is counted for the only pot of a game with one side.
#[inline]
fn one_place(front: &Front, tags: &[u32; 4], flushes: &mut Flushes, pair: &Pair) -> u16
    requires pot { 0 < front.now.spot.now.table.pots }
    requires member { IsRunoutWith front.now pair.now }
    requires flushes { HoldsFlushes front.now flushes.old }

    // It is the set that wins the high, as a place of the pot's row, and the kept flushes stay right.
    ensures value { result
        ≡ pair_place (front_deal front.now) front.now.taken 0 Side.High pair.now }
    ensures small { result < 2048 }
    ensures flushes { HoldsFlushes front.now flushes.new }
{
    law_values_keep_order();
    let spot = front.spot;
    are_hands(&spot.table, 0);
    let Some(part) = suited_part(front, tags, pair) else {
        let row = &front.rows[0];
        return row.mains[usize::from(pair.ranks)];
    };
    let at = flushes.ready(&spot.table, &part);
    let flush = flushes.flush_at(at);
    let row = &front.rows[0];
    suited_place(front, row, flush, 0, pair, &part).main
}

/// Counts the runout with each of some pairs for the only pot of a game with one side. It takes a step a pair.
#[inline(never)]
fn count_one_pot<L: Ledger>(
    front: &Front,
    flushes: &mut Flushes,
    pairs: &[Pair],
    cells: &mut [u32],
    steps: &mut Steps<L>,
)
    requires pot { 0 < front.now.spot.now.table.pots }
    requires pairs { AreRunoutsWith front.now pairs.now }
    requires flushes { HoldsFlushes front.now flushes.old }

    // These are the counts of the high, each with room for all pairs.
    requires cells { length cells.old ≡ 2048 }
    requires fits { (place : ℕ) → place < 2048
        → slice_index cells.old place + length pairs.now < 2 ^ 32 }

    // Each pair is counted where the set that wins with it stands, and the kept flushes stay right.
    ensures cells { CellsGrow
        (front_deal front.now) front.now.taken 0 Side.High pairs.now cells.old cells.new }
    ensures same { length cells.new ≡ 2048 }
    ensures flushes { HoldsFlushes front.now flushes.new }
    ensures steps { steps.new ≡ steps.old + length pairs.now }
{
    let tags = front.tags();
    for pair in pairs {
        steps.tick();
        let place = one_place(front, &tags, flushes, pair);
        cells[usize::from(place)] += 1;
    }
}

/// Counts the runout with each of some pairs, for the only pot of a game with one side or for each pot. It takes a step a pair.
#[inline]
pub(crate) fn count_each<L: Ledger>(
    front: &Front,
    flushes: &mut Flushes,
    pairs: &[Pair],
    counts: &mut [[u32; 2048]],
    steps: &mut Steps<L>,
)
    requires pairs { AreRunoutsWith front.now pairs.now }
    requires flushes { HoldsFlushes front.now flushes.old }
    requires room { HasRoom front.now counts.old (length pairs.now) }

    // Each pair is counted for each pot, and the kept flushes stay right.
    ensures counts { AddPairs front.now pairs.now counts.old counts.new }
    ensures flushes { HoldsFlushes front.now flushes.new }
    ensures steps { steps.new ≡ steps.old + length pairs.now }
{
    if pairs.is_empty() {
        return;
    }
    let spot = front.spot;
    if spot.table.pots == 1 && !spot.table.known.game.has_side(Side::Low) {
        let cells = &mut counts[0];
        count_one_pot(front, flushes, pairs, cells, steps);
        return;
    }
    count_pairs(front, flushes, pairs, counts, steps);
}
