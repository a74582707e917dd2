//! Counting on the thread that asks.

ghost use Rattle.std.specs.Prelude.{◌≡◌, ◌<◌, OnOk};
ghost use Rattle.card_sets.specs.State.{state_of};
ghost use Rattle.range_lines.specs.Counted.{IsCountOf};
ghost use Rattle.range_lines.specs.Sound.{IsSound};
ghost use Rattle.range_lines.specs.RangeSpot.{ranges_in};
ghost use Rattle.showdown_tally.specs.Deals.{deal_of};
ghost use Rattle.showdown_tally.specs.Tallies.{Counts, runouts_after};

use card_sets::Memory;
use equity_job::{Job, Scratch};
use hand_ranges::{RangeJobFault, RangeSpot, RangeTally, count_ranges, ready_for_ranges};
use run_loop::Counter;
use showdown_tally::Tally;
use std::alloc::Global;
use std::marker::Brand;
use std::sync::ledger::Blank;
use steal_pool::count_alone;
use tally_book::{Book, Naming};

/// Counts on the thread that asks, in a room that is kept from one count to the next. It takes memory for the marks of
/// a book, and for the parts of the room that a count uses and that aren't there.
#[derive(Drop)]
pub(crate) struct Alone {
    /// Where memory is requested.
    alloc: Global,
    /// The tables, which are kept from count to count.
    scratch: Scratch,
}

impl Alone {
    /// Nothing was counted.
    pub(crate) fn new(alloc: Global) -> Alone {
        Alone {
            alloc,
            scratch: Scratch::new(),
        }
    }

    /// Makes a tally that of all runouts of a job, whatever it held.
    pub(crate) fn count_here(&mut self, job: &Job, tally: &mut Tally) -> Result<(), Memory>
        ensures { OnOk result (Counts (deal_of job.now.table)
            (runouts_after (state_of job.now.table.known)) tally.new) }
    {
        self.scratch.ready(self.alloc, job)?;
        count_booked(self.alloc, job, &mut self.scratch, tally)
    }
}

/// Makes a tally that of all runouts of a job, by a book of its own, whatever it held.
fn count_booked(
    alloc: Global,
    job: &Job,
    scratch: &mut Scratch,
    tally: &mut Tally,
) -> Result<(), Memory>
    ensures { OnOk result (Counts (deal_of job.now.table)
        (runouts_after (state_of job.now.table.known)) tally.new) }
{
    count_named::<Brand>(alloc, job, Blank::new(1), scratch, tally)
}

/// Makes a tally that of all runouts of a job, with the ledger that `N` names.
fn count_named<N: Naming>(
    alloc: Global,
    job: &Job,
    blank: Blank,
    scratch: &mut Scratch,
    tally: &mut Tally,
) -> Result<(), Memory>
    // `N` names the deal of the job, and a ledger of which no part was split off.
    requires named { deal_of job.now.table ≡ N.deal }
    requires name { blank.name ≡ N.name }
    requires parts { blank.parts ≡ N.parts }
    requires some { 0 < blank.parts }

    // The tally is that of all runouts.
    ensures { OnOk result (Counts N.deal (runouts_after N.deal.state) tally.new) }
{
    let (book, whole) = Book::<N>::start(alloc, job, blank)?;
    *tally = count_alone(job, book, whole, scratch).total;
    Ok(())
}

impl Alone {
    /// Counts a spot with ranges. Where there is no memory for the room that it uses it is counted without, which takes
    /// longer.
    pub(crate) fn ranges_here(&mut self, spot: &RangeSpot) -> Result<RangeTally, RangeJobFault>
        requires { IsSound (ranges_in spot.now) }
        ensures { IsCountOf (ranges_in spot.now) result }
    {
        let _ = ready_for_ranges(spot, self.alloc, &mut self.scratch);
        count_ranges(spot, &mut self.scratch)
    }
}

impl Counter for Alone {
    fn count(&mut self, job: &Job, _workers: u32, tally: &mut Tally) -> Result<(), Memory> {
        self.count_here(job, tally)
    }

    fn count_ranges(&mut self, spot: &RangeSpot) -> Result<RangeTally, RangeJobFault> {
        self.ranges_here(spot)
    }
}
