//! Filling in who wins both sides of each pot, for each pair of ranks of the last two cards of the board.

ghost use Rattle.std.specs.Prelude.{◌≡◌, ℕ, ◌+◌, ◌<◌, ◌≤◌, List, length, slice_get, Some};
ghost use Rattle.card_sets.specs.State.{state_of};
ghost use Rattle.showdown_tally.specs.Deals.{deal_of};
ghost use Rattle.board_runouts.specs.KeptRows.{AreWorthsAfter, IsAway, IsBestAt, IsButAt, IsNamed};
ghost use Rattle.board_runouts.specs.SideRows.{IsSideRow};

use crate::row::Row;
use crate::sides::{Worths, add_rank, hand_ranks, pot_ends, worths_with};
use crate::start::Start;
use board_ranks::Threes;
use showdown_tally::Table;

/// Names what the rows from a base on are to be for: first cards of these ranks, and each pot in turn.
fn name_rows(rows: &mut [Row], base: usize, pots: u8, ranks: [u8; 3], least: u8)
    requires room { base + pots ≤ length rows.old }
    ensures names { (pot : ℕ) (row : Row) → pot < pots → slice_get rows.new (base + pot) ≡ Some row
        → IsNamed row pot ranks least }
    ensures away { (i : ℕ) → IsAway base pots i → slice_get rows.new i ≡ slice_get rows.old i }
    ensures places { length rows.new ≡ length rows.old }
{
    for pot in 0..pots {
        let row = &mut rows[base + usize::from(pot)];
        row.name(pot, ranks, least);
    }
}

/// Puts who wins each pot at a place of its row, by what the hands are worth there. The rows stand from a base on.
fn put_ends(rows: &mut [Row], base: usize, table: &Table, place: usize, worths: &Worths)
    // From the base on there is a row for each pot, with a place for each two ranks.
    requires room { base + table.now.pots ≤ length rows.old }
    requires place { place < 169 }

    // There each pot's row says who is best after any runout in which the hands are worth this.
    ensures here { (pot : ℕ) (row : Row) (runout : List (List ℕ)) → pot < table.now.pots
        → slice_get rows.new (base + pot) ≡ Some row
        → AreWorthsAfter (state_of table.now.known) runout worths.now
        → IsBestAt (deal_of table.now) pot runout row place }

    // A row changes at that place alone, and rows of no pot don't change.
    ensures others { (i : ℕ) (row : Row) → slice_get rows.new i ≡ Some row
        → (was : Row) × (slice_get rows.old i ≡ Some was) × IsButAt was place row }
    ensures away { (i : ℕ) → IsAway base table.now.pots i
        → slice_get rows.new i ≡ slice_get rows.old i }
    ensures places { length rows.new ≡ length rows.old }
{
    for pot in 0..table.pots {
        let ends = pot_ends(table, pot, worths);
        let row = &mut rows[base + usize::from(pot)];
        row.put(place, ends);
    }
}

/// Fills the rows of the pots of a table for first cards, for the pairs of ranks from the least on. They stand
/// from a base on. What each hand is worth is worked out once for all pots.
pub(crate) fn fill_rows(rows: &mut [Row], base: usize, threes: &Threes, start: &Start)
    // From the base on there is a row for each pot.
    requires room { base + start.now.spot.now.table.pots ≤ length rows.old }

    // Each pot's row is named for them, and says who is best with each two ranks, the lower one no less than the least.
    ensures names { (pot : ℕ) (row : Row) → pot < start.now.spot.now.table.pots
        → slice_get rows.new (base + pot) ≡ Some row → IsNamed row pot start.now.ranks start.now.least }
    ensures rows { (pot : ℕ) (row : Row) → pot < start.now.spot.now.table.pots
        → slice_get rows.new (base + pot) ≡ Some row
        → IsSideRow (deal_of start.now.spot.now.table) pot start.now.ranks start.now.least row.mains row.lows row.tops }

    // Rows of no pot don't change.
    ensures away { (i : ℕ) → IsAway base start.now.spot.now.table.pots i
        → slice_get rows.new i ≡ slice_get rows.old i }
    ensures places { length rows.new ≡ length rows.old }
{
    let spot = start.spot;
    let taken = start.taken;
    let ranks = start.ranks;
    let least = start.least;
    let table = &spot.table;
    table.known.board.rising();
    taken.rising();
    name_rows(rows, base, table.pots, ranks, least);
    let board = table.known.board.union(taken);
    let held = hand_ranks(&table.known, board);
    let mut more = hand_ranks(&table.known, board);
    let mut worths = Worths::none();
    for low in least..13 {
        add_rank(&table.known, &held, low, &mut more);
        for high in low..13 {
            worths_with(threes, start, &more, low, high, &mut worths);
            let place = 13 * usize::from(low) + usize::from(high);
            put_ends(rows, base, table, place, &worths);
        }
    }
}
