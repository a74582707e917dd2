//! A tally made from two counts for each pot: how often each set of hands wins the high, with a low
//! and without one, and how often each wins the low.
//!
//! The high's row tells the two apart, since with a low its winners share half of the pot, and without one
//! all of it. A set that never wins costs a look at its counts.

ghost use Rattle.std.specs.Prelude.{◌≡◌, ℕ, ◌+◌, ◌*◌, ◌<◌, ◌≤◌, ◌^◌, List, length};
ghost use Rattle.card_sets.specs.declared.games.Side.{Side};
ghost use Rattle.card_sets.specs.PlayerSets.{hands_below};
ghost use Rattle.showdown_tally.specs.Cells.{Grows, cell_at, cell_of, no_runout, side_place, units_at};
ghost use Rattle.showdown_tally.specs.CountShares.{CellWithin, given_cells, given_units, is_halved, places_cells, places_units, times_cells, times_units};
ghost use Rattle.showdown_tally.specs.Deals.{deal_of};
ghost use Rattle.showdown_tally.specs.SetShares.{cell_times, set_cell};
ghost use Rattle.showdown_tally.specs.Settling.{whole_of};
ghost use Rattle.showdown_tally.specs.Showdown.{part_of};
ghost use Rattle.showdown_tally.specs.SideCounts.{AreSideCounts};
ghost use Rattle.showdown_tally.specs.Tallies.{Counts};

use crate::cells::{Cell, Outcome};
use crate::runout::ten_places;
use crate::settle::part;
use crate::table::Table;
use crate::tally::Tally;
use card_sets::{Game, PlayerSet, Side};

/// A side of a pot, and those of the first `count` hands that play for it.
#[derive(Clone, Copy)]
struct Stake {
    /// The pot, from 0.
    pot: u8,
    /// The side of it.
    side: Side,
    /// The hands that are eligible.
    hands: PlayerSet,
    /// The number of hands in the deal.
    count: u8,
}

/// How a runout that a set of the first `count` hands wins ends for a hand.
#[inline]
pub(crate) fn ending(set: u16, count: u8, hand: u8) -> Outcome
    requires few { count ≤ 10 }
    requires set { set < 2 ^ count }
    requires hand { hand < count }
    ensures { cell_of result ≡ set_cell count hand set }
{
    let winners = PlayerSet::of(set);
    if !winners.has(hand) {
        Outcome::Lose
    } else if winners.count() == 1 {
        Outcome::Win
    } else {
        Outcome::Tie
    }
}

/// The units of a hand of a pot, or of half of it, that a set of the first `count` hands wins.
#[inline]
pub(crate) fn units_in(halved: bool, set: u16, count: u8, hand: u8) -> u64
    requires few { count ≤ 10 }
    requires set { set < 2 ^ count }
    requires hand { hand < count }
    ensures value { result ≡ part_of (whole_of halved) (hands_below set count) hand }
    ensures bound { result ≤ 5040 }
{
    let winners = PlayerSet::of(set);
    if winners.has(hand) {
        part(halved, winners.count())
    } else {
        0
    }
}

/// Returns the cell of `times` runouts with one outcome.
#[inline]
fn times_of(outcome: Outcome, times: u64) -> Cell
    ensures { result ≡ cell_times times (cell_of outcome) }
{
    let none = Cell {
        win: 0,
        tie: 0,
        lose: 0,
    };
    match outcome {
        Outcome::Win => Cell { win: times, ..none },
        Outcome::Tie => Cell { tie: times, ..none },
        Outcome::Lose => Cell {
            lose: times,
            ..none
        },
    }
}

/// Adds `times` runouts in which a set of hands wins a side of a pot, and the units of its winners: of
/// the pot, or of half of it.
#[inline]
fn give_set(stake: &Stake, set: u16, times: u64, halved: bool, tally: &mut Tally)
    // A set of the first hands, of up to ten, and a pot of ten.
    requires few { stake.now.count ≤ 10 }
    requires pot { stake.now.pot < 10 }
    requires set { set < 2 ^ stake.now.count }

    // A count fits 32 bits, and what stands there, at most 2^60, can grow by `times` times 5040 units.
    requires times { times < 4294967296 }
    requires cells { (h : ℕ) → h < 10
        → CellWithin (cell_at tally.old stake.now.pot h stake.now.side) 1152921504606846976 }
    requires units { (h : ℕ) → h < 10 → units_at tally.old stake.now.pot h ≤ 1152921504606846976 }

    // Each of these hands gets as many wins, ties or losses, and its part of the units as often; the others get nothing.
    ensures { Grows tally.old tally.new
        (times_cells stake.now.pot stake.now.side stake.now.hands stake.now.count set times
        stake.now.count)
        (times_units stake.now.pot stake.now.hands stake.now.count halved set times
        stake.now.count) }
{
    if times == 0 {
        return;
    }
    for hand in 0..stake.count {
        if stake.hands.has(hand) {
            let cell = times_of(ending(set, stake.count, hand), times);
            let units = units_in(halved, set, stake.count, hand) * times;
            tally.add_cell(stake.pot, hand, stake.side, cell);
            tally.give(stake.pot, hand, units);
        }
    }
}

/// The runouts of a side of a pot by its counts, and the units: of the pot, or of half of it, without
/// a low, and of half of it with one.
fn give_row(stake: &Stake, halved: bool, row: &[u32; 2048], tally: &mut Tally)
    // Up to ten hands, and a pot of ten.
    requires few { stake.now.count ≤ 10 }
    requires pot { stake.now.pot < 10 }

    // Nothing was counted on this side yet, and the units, at most 2^59, can grow.
    requires cells { (h : ℕ) → h < 10
        → cell_at tally.old stake.now.pot h stake.now.side ≡ no_runout }
    requires units { (h : ℕ) → h < 10 → units_at tally.old stake.now.pot h ≤ 576460752303423488 }

    // For each set it is as if each of its runouts had been settled.
    ensures grown { Grows tally.old tally.new
        (places_cells stake.now.pot stake.now.side stake.now.hands stake.now.count row.now
        (2 ^ stake.now.count))
        (places_units stake.now.pot stake.now.hands stake.now.count halved row.now
        (2 ^ stake.now.count)) }

    // No row gives a hand more than 5040 units for each of its 2,048 counts, which fit 32 bits.
    ensures small { (h : ℕ) → h < 10
        → units_at tally.new stake.now.pot h
        ≤ units_at tally.old stake.now.pot h + 44332308831928320 }
{
    for set in 0..1_u16 << stake.count {
        let alone = u64::from(row[set as usize]);
        let beside = u64::from(row[set as usize + 1024]);
        give_set(stake, set, alone, halved, tally);
        give_set(stake, set, beside, true, tally);
    }
}

/// Whether a side is played for half of the pot, low or no low: the low beside a high.
#[inline]
fn is_halved(game: Game, side: Side) -> bool
    ensures { result ≡ is_halved game side }
{
    match side {
        Side::High => false,
        Side::Low => game.has_side(Side::High),
    }
}

/// Where the counts of a side of a pot stand.
#[inline]
fn row_place(pot: u8, side: Side) -> usize
    ensures { result ≡ 2 * pot + side_place side }
{
    match side {
        Side::High => 2 * pot as usize,
        Side::Low => 2 * pot as usize + 1,
    }
}

/// The runouts of a side of a pot, and the units that the hands have of it, where the game is played
/// for the side.
fn give_side(table: &Table, counts: &[[u32; 2048]], pot: u8, side: Side, tally: &mut Tally)
    // The pot is one of the table, and has its two rows.
    requires pot { pot < table.now.pots }
    requires rows { 2 * table.now.pots ≤ length counts.now }

    // Nothing was counted on this side yet, and the units, at most 2^59, can grow.
    requires cells { (h : ℕ) → h < 10 → cell_at tally.old pot h side ≡ no_runout }
    requires units { (h : ℕ) → h < 10 → units_at tally.old pot h ≤ 576460752303423488 }

    // In a game that isn't played for the side nothing changes.
    ensures grown { Grows tally.old tally.new
        (given_cells table.now.known.game table.now.eligible counts.now table.now.known.count pot
        side)
        (given_units table.now.known.game table.now.eligible counts.now table.now.known.count pot
        side) }

    // No row gives a hand more than 5040 units for each of its 2,048 counts, which fit 32 bits.
    ensures small { (h : ℕ) → h < 10
        → units_at tally.new pot h ≤ units_at tally.old pot h + 44332308831928320 }
{
    ten_places(table);
    let game = table.known.game;
    if !game.has_side(side) {
        return;
    }
    let stake = Stake {
        pot,
        side,
        hands: PlayerSet::of(table.eligible[pot as usize]),
        count: table.known.count,
    };
    let row = &counts[row_place(pot, side)];
    give_row(&stake, is_halved(game, side), row, tally);
}

/// Fills a tally of no runout with `runouts` runouts, by the counts of the sides of each pot.
fn give_pots(table: &Table, runouts: u64, counts: &[[u32; 2048]], tally: &mut Tally)
    requires rows { 2 * table.now.pots ≤ length counts.now }
    requires runouts { tally.old.runouts ≡ 0 }
    requires cells { (pot hand : ℕ) (side : Side) → pot < 10 → hand < 10
        → cell_at tally.old pot hand side ≡ no_runout }
    requires units { (pot hand : ℕ) → pot < 10 → hand < 10 → units_at tally.old pot hand ≡ 0 }
    ensures { (all : List (List (List ℕ))) → length all ≡ runouts
        → AreSideCounts (deal_of table.now) all counts.now
        → Counts (deal_of table.now) all tally.new }
{
    ten_places(table);
    for pot in 0..table.pots {
        give_side(table, counts, pot, Side::High, tally);
        give_side(table, counts, pot, Side::Low, tally);
    }
    tally.end_runouts(runouts);
}

/// Makes a tally, whatever it held, that of `runouts` runouts, by how often each set of hands wins each
/// side of each pot. A pot has two rows of counts, the high's before the low's, and a set stands for
/// the number with the bits of its hands. The high's row has the runouts in which a set wins the high
/// and nobody has a low at the place of the set, and those in which somebody has one at 1,024 more; the
/// low's has those in which a set wins the low at its place. Rows of a side that the game isn't played
/// for aren't looked at, nor are places of hands that there aren't. It takes no memory, and moves no
/// tally.
pub fn fill_tally(table: &Table, runouts: u64, counts: &[[u32; 2048]], tally: &mut Tally)
    requires rows { 2 * table.now.pots ≤ length counts.now }
    ensures { (all : List (List (List ℕ))) → length all ≡ runouts
        → AreSideCounts (deal_of table.now) all counts.now
        → Counts (deal_of table.now) all tally.new }
{
    tally.clear();
    give_pots(table, runouts, counts, tally);
}
