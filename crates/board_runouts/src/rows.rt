//! Rows that are kept from one count to the next.

ghost use Rattle.std.specs.Prelude.{◌≡◌, ℕ, ◌+◌, ◌<◌, ◌≤◌, [], length, slice_get, vec_capacity, Some, IfOk, IsTrue};
ghost use Rattle.showdown_tally.specs.Deals.{deal_of};
ghost use Rattle.showdown_tally.specs.Showdown.{Showdown};
ghost use Rattle.board_runouts.specs.Fronts.{AreReady};
ghost use Rattle.board_runouts.specs.KeptRows.{AreRows, IsAway, IsNamed};

use crate::fill::fill_rows;
use crate::row::Row;
use crate::start::Start;
use board_ranks::Threes;
use card_sets::Memory;
use std::alloc::Global;

/// How many rows there is room for.
const ROWS: usize = 192;

/// How many groups there are: one for each pair of a second and a third rank, of which there are 91, where the table has one pot or
/// two. First cards of another first rank have the same group.
const GROUPS: usize = 96;

/// Where a group has no rows yet.
const NOWHERE: u8 = 255;

/// Rows of the pots of a table. Those of all pots for the same first cards stand beside one another, and are a group. A group's rows
/// are made where it is asked for first, so that only those that a count uses take memory's pages.
#[derive(Drop)]
pub(crate) struct Rows {
    /// The first place of each group's rows, or `NOWHERE`. A row there is compared with what is asked for before it is used.
    bases: [u8; GROUPS],
    /// The rows.
    pub(crate) rows: Vec<Row>,
    /// The value of each hand with each three ranks of the board. Rows of Omaha games are filled from them.
    threes: Threes,
    /// There is room for 192 rows.
    pub(crate) ghost room: { 192 ≤ vec_capacity rows },
}

/// The group of first cards with a second and a third rank. Those that come soon after one another have groups of their own, and
/// there are no more groups than there is room for.
#[inline]
fn row_group(second: u8, third: u8, pots: u8) -> usize
    requires second { second < 14 }
    requires third { third < 14 }
    ensures { result < 96 }
{
    let second = usize::from(second);
    let pair = second * (25 - second) / 2 + usize::from(third);
    match pots {
        0..=2 => pair % GROUPS,
        3 => pair % 64,
        4 => pair % 48,
        _ => pair % 19,
    }
}

impl Rows {
    /// No rows, and room for all.
    pub(crate) fn none(alloc: Global) -> Result<Rows, Memory>
        ensures { IfOk result (λ rows. (deal : Showdown) → AreRows deal rows.rows.items) }
    {
        let rows = Vec::with_capacity(alloc, ROWS)?;
        let threes = Threes::none(alloc)?;
        Ok(Rows {
            bases: [NOWHERE; GROUPS],
            rows,
            threes,
        })
    }

    /// Drops all rows.
    pub(crate) fn clear(&mut self)
        ensures none { self.new.rows.items ≡ [] }
        ensures right { (deal : Showdown) → AreRows deal self.new.rows.items }
    {
        self.bases = [NOWHERE; GROUPS];
        self.rows.clear();
    }

    /// Returns whether the row in a place is one of a pot for first cards of these ranks.
    #[inline]
    fn has_one(&self, place: usize, pot: u8, ranks: &[u8; 3], least: u8) -> bool
        requires { place < length self.now.rows.items }
        ensures { (row : Row) → IsTrue result → slice_get self.now.rows.items place ≡ Some row
            → IsNamed row pot ranks.now least }
    {
        self.rows[place].is_for(pot, ranks, least)
    }

    /// Returns whether, from a place on, each pot has a row for first cards of these ranks.
    #[inline]
    fn has_all(&self, base: usize, pots: u8, ranks: &[u8; 3], least: u8) -> bool
        requires { base < 256 }
        ensures place { IsTrue result → base + pots ≤ length self.now.rows.items }
        ensures names { (pot : ℕ) (row : Row) → IsTrue result → pot < pots
            → slice_get self.now.rows.items (base + pot) ≡ Some row → IsNamed row pot ranks.now least }
    {
        if self.rows.len() < base + usize::from(pots) {
            return false;
        }
        for pot in 0..pots {
            if !self.has_one(base + usize::from(pot), pot, ranks, least) {
                return false;
            }
        }
        true
    }

    /// Returns the place of the first of the rows of all pots for some first cards. Rows that aren't kept are filled.
    #[inline]
    pub(crate) fn ready(&mut self, start: &Start) -> usize
        requires right { AreRows (deal_of start.now.spot.now.table) self.old.rows.items }
        ensures place { result + start.now.spot.now.table.pots ≤ length self.new.rows.items }
        ensures ready { AreReady start.now self.new.rows.items result }
    {
        let spot = start.spot;
        let ranks = start.ranks;
        let group = row_group(ranks[1], ranks[2], spot.table.pots);
        let base = usize::from(self.bases[group]);
        if self.has_all(base, spot.table.pots, &ranks, start.least) {
            return base;
        }
        self.put(group, start)
    }

    /// Makes room for `pots` more rows. If there is none, all rows are dropped.
    fn make_room(&mut self, pots: u8)
        requires { pots ≤ 10 }
        ensures room { length self.new.rows.items + pots ≤ 192 }
        ensures kept { (i : ℕ) (row : Row) → slice_get self.new.rows.items i ≡ Some row
            → slice_get self.old.rows.items i ≡ Some row }
    {
        if self.rows.len() + usize::from(pots) <= ROWS {
            return;
        }
        self.clear();
    }

    /// Adds `pots` rows with nothing in them.
    fn add_rows(&mut self, pots: u8)
        requires { length self.old.rows.items + pots ≤ 192 }
        ensures count { length self.new.rows.items ≡ length self.old.rows.items + pots }
        ensures kept { (i : ℕ) (row : Row) → i < length self.old.rows.items
            → slice_get self.new.rows.items i ≡ Some row
            → slice_get self.old.rows.items i ≡ Some row }
    {
        for _ in 0..pots {
            self.rows.push_reserved(Row::none());
        }
    }

    /// Returns the first place for the rows of a group: where they were before, or new places after all rows.
    fn place_for(&mut self, group: usize, pots: u8) -> usize
        requires group { group < 96 }
        requires few { pots ≤ 10 }
        ensures place { result + pots ≤ length self.new.rows.items }
        ensures others { (i : ℕ) (row : Row) → IsAway result pots i
            → slice_get self.new.rows.items i ≡ Some row
            → slice_get self.old.rows.items i ≡ Some row }
    {
        let kept = usize::from(self.bases[group]);
        if kept + usize::from(pots) <= self.rows.len() {
            return kept;
        }
        self.make_room(pots);
        let base = self.rows.len();
        self.add_rows(pots);
        self.bases[group] = base as u8;
        base
    }

    /// Fills the rows of a group for some first cards, and returns the place of the first row.
    #[inline(never)]
    fn put(&mut self, group: usize, start: &Start) -> usize
        requires group { group < 96 }
        requires right { AreRows (deal_of start.now.spot.now.table) self.old.rows.items }
        ensures place { result + start.now.spot.now.table.pots ≤ length self.new.rows.items }
        ensures ready { AreReady start.now self.new.rows.items result }
    {
        let spot = start.spot;
        let base = self.place_for(group, spot.table.pots);
        self.threes.serve(&spot.table.known);
        let rows = self.rows.as_mut_slice();
        fill_rows(rows, base, &self.threes, start);
        base
    }

    /// Returns the rows of all pots, the first of which is in a place.
    #[inline]
    pub(crate) fn stretch(&self, base: usize, pots: u8) -> &[Row]
        requires { base + pots ≤ length self.now.rows.items }
        ensures rows { (pot : ℕ) (row : Row) → slice_get result.now pot ≡ Some row
            → (pot < pots) × (slice_get self.now.rows.items (base + pot) ≡ Some row) }
        ensures count { length result.now ≡ pots }
    {
        &self.rows[base..base + usize::from(pots)]
    }
}
