//! Codes that are kept from one count to the next.

ghost use Rattle.std.specs.Option.{ForSome};
ghost use Rattle.std.specs.Prelude.{◌≡◌, ℕ, ◌<◌, ◌≤◌, [], length, slice_get, vec_capacity, Some, IfOk, IsTrue};
ghost use Rattle.showdown_tally.specs.Deals.{deal_of};
ghost use Rattle.showdown_tally.specs.Showdown.{Showdown};
ghost use Rattle.board_runouts.specs.Codes.{AreAllCodes};
ghost use Rattle.board_runouts.specs.SideRows.{IsSideRow};
ghost use Rattle.board_runouts.specs.declared.codes.Codes.{Codes};
ghost use Rattle.board_runouts.specs.declared.row.Row.{Row};

use crate::codes::Codes;
use crate::row::Row;
use crate::start::Start;
use card_sets::Memory;
use std::alloc::Global;

/// How many codes there is room for: one for each row.
const ROOM: usize = 192;

/// The codes of groups of rows, each in the place of the group's first row. The codes in a place are compared with what is asked for before
/// they are used.
#[derive(Drop)]
pub(crate) struct CodedRows {
    /// The codes.
    pub(crate) list: Vec<Codes>,
    /// There is room for the codes of 192 places.
    pub(crate) ghost room: { 192 ≤ vec_capacity list },
}

impl CodedRows {
    /// Makes room for all codes, and keeps none.
    pub(crate) fn none(alloc: Global) -> Result<CodedRows, Memory>
        ensures { IfOk result (λ kept. (deal : Showdown) → AreAllCodes deal kept.list.items) }
    {
        let list = Vec::with_capacity(alloc, ROOM)?;
        Ok(CodedRows { list })
    }

    /// Drops all codes.
    pub(crate) fn clear(&mut self)
        ensures none { self.new.list.items ≡ [] }
        ensures right { (deal : Showdown) → AreAllCodes deal self.new.list.items }
    {
        self.list.clear();
    }

    /// Makes the places up to one.
    fn reach(&mut self, place: usize)
        requires { place < 192 }
        ensures place { place < length self.new.list.items }
        ensures right { (deal : Showdown) → AreAllCodes deal self.old.list.items
            → AreAllCodes deal self.new.list.items }
    {
        while self.list.len() <= place {
            self.list.push_reserved(Codes::none());
        }
    }

    /// Returns the place of the codes of the rows of all pots, the first of which is in place `base`. Codes that aren't kept are made.
    #[inline]
    pub(crate) fn ready(&mut self, base: usize, rows: &[Row], start: &Start) -> usize
        // There is a row for each pot, for first cards of these ranks, and the codes are right.
        requires few { length rows.now ≤ 10 }
        requires pots { length rows.now ≡ length (deal_of start.now.spot.now.table).pots }
        requires rows { (pot : ℕ) (row : Row) → slice_get rows.now pot ≡ Some row
            → IsSideRow (deal_of start.now.spot.now.table) pot start.now.ranks start.now.least row.mains row.lows row.tops }
        requires right { AreAllCodes (deal_of start.now.spot.now.table) self.old.list.items }

        // In their place stand codes for first cards of these ranks, and all are right.
        ensures place { result < length self.new.list.items }
        ensures ranks { (codes : Codes) → slice_get self.new.list.items result ≡ Some codes
            → codes.ranks ≡ start.now.ranks }
        ensures least { (codes : Codes) → slice_get self.new.list.items result ≡ Some codes
            → codes.least ≡ start.now.least }
        ensures right { AreAllCodes (deal_of start.now.spot.now.table) self.new.list.items }
    {
        let place = base % ROOM;
        self.reach(place);
        if self.list[place].are_for(&start.ranks, start.least) {
            return place;
        }
        let codes = &mut self.list[place];
        codes.fill(rows, start.ranks, start.least);
        place
    }

    /// Returns the codes in a place, or `None` if there isn't a code for each outcome.
    #[inline]
    pub(crate) fn enough_at(&self, place: usize) -> Option<&Codes>
        requires { place < length self.now.list.items }
        ensures codes { ForSome result (λ c. slice_get self.now.list.items place ≡ Some c.now) }
        ensures enough { ForSome result (λ c. IsTrue c.now.enough) }
    {
        let codes = &self.list[place];
        if !codes.enough {
            return None;
        }
        Some(codes)
    }
}
