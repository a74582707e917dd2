//! The counter of equities, and the last equity that was counted.

ghost use Rattle.std.specs.Prelude.{◌≡◌, ⊤, OnOk, true};
ghost use Rattle.card_sets.specs.State.{state_of};
ghost use Rattle.range_lines.specs.Counted.{IsCountOf};
ghost use Rattle.range_lines.specs.Sound.{IsSound};
ghost use Rattle.range_lines.specs.RangeSpot.{ranges_in};
ghost use Rattle.even_luck.specs.Equities.{IsEquityOf, IsOfAllIn, IsOfHand, is_asked};
ghost use Rattle.hand_blocks.specs.Streets.{IsCountedStreet, IsOfStreet};
ghost use Rattle.showdown_tally.specs.Deals.{deal_of};
ghost use Rattle.showdown_tally.specs.Tallies.{Counts, runouts_after};

use card_sets::Memory;
use hand_audit::{AllIn, HandAudit, StreetState};
use job_blocks::Job;
use range_lines::{RangeJobFault, RangeSpot, RangeTally};
use report_table::Equity;
use showdown_tally::{Table, Tally};
use std::marker::{Model, PhantomData};

/// A counter of jobs, and of spots with ranges.
pub trait Counter {
    /// What is known of a call that it makes in its turn, if it makes one.
    ghost ready: { Type 0 } = { ⊤ };

    /// Replaces a tally by that of all runouts of a job, counted with at most this number of workers.
    fn count(&mut self, job: &Job, workers: u32, tally: &mut Tally) -> Result<(), Memory>
        requires { ready }
        ensures { OnOk result (Counts (deal_of job.now.table)
            (runouts_after (state_of job.now.table.known)) tally.new) };

    /// Counts a spot with ranges, on the thread that asks.
    fn count_ranges(&mut self, spot: &RangeSpot) -> Result<RangeTally, RangeJobFault>
        requires { IsSound (ranges_in spot.now) }
        ensures { IsCountOf (ranges_in spot.now) result };
}

/// A counter of equities, the number of its workers, and the last equity that was asked for. The equity is kept, so that its
/// tally is made once in a run.
#[derive(Drop)]
pub struct EquityCounter<C> {
    /// The counter.
    pub(crate) counter: C,
    /// Number of workers that the counter may have.
    pub(crate) workers: u32,
    /// The last equity that was asked for.
    pub(crate) equity: Equity,
}

impl<C> EquityCounter<C> {
    /// Creates a counter of equities that was asked for none yet.
    pub fn new(counter: C) -> EquityCounter<C>
        ensures { result.counter ≡ counter }
    {
        EquityCounter {
            counter,
            workers: 1,
            equity: Equity::NotAsked,
        }
    }
}

impl<C: Counter> EquityCounter<C> {
    /// Counts a job. Its tally is the last equity.
    fn ask_job(&mut self, job: &Job) -> Result<(), Memory>
        requires ready { C.ready }
        ensures { OnOk result (IsEquityOf (deal_of job.now.table) self.new.equity) }
    {
        if let Equity::Counted(tally) = &mut self.equity {
            return self.counter.count(job, self.workers, tally);
        }
        let mut tally = Tally::zero();
        self.counter.count(job, self.workers, &mut tally)?;
        self.equity = Equity::Counted(tally);
        Ok(())
    }
}

/// Evidence that the calls of a counter may be made. It is known to proofs alone, and has no bytes.
#[derive(Drop)]
struct Ready<C: Counter> {
    /// The type of the counter.
    of: PhantomData<C>,
}

impl<C: Counter> Model for Ready<C> {
    ghost Value = { Unit {0} };

    ghost view = { λ _. tt };

    ghost invariant = { λ _. C.ready };
}

impl<C: Counter> Ready<C> {
    /// Keeps that the calls may be made.
    fn new() -> Ready<C>
        requires ready { C.ready }
    {
        Ready { of: PhantomData }
    }

    /// A law: the calls may be made.
    fn law_ready(&self)
        ensures { C.ready }
    {
        let _ = &self.of;
    }
}

/// The equities of a run: a counter that may be called, and the last equity that was asked for.
#[derive(Drop)]
pub(crate) struct Equities<'a, C: Counter> {
    /// The counter, and the last equity.
    pub(crate) counter: &'a mut EquityCounter<C>,
    /// The calls of the counter may be made.
    ready: Ready<C>,
}

impl<'a, C: Counter> Equities<'a, C> {
    /// Returns the equities that a counter counts with at most this number of workers.
    pub(crate) fn new(counter: &'a mut EquityCounter<C>, workers: u32) -> Equities<'a, C>
        requires ready { C.ready }
    {
        counter.workers = workers;
        Equities {
            counter,
            ready: Ready::new(),
        }
    }

    /// Returns the last equity that was asked for.
    pub(crate) fn last(&self) -> &Equity
        ensures { result.now ≡ self.now.counter.now.equity }
    {
        &self.counter.equity
    }

    /// Asks for nothing.
    fn ask_nothing(&mut self)
        ensures { self.new.counter.now.equity ≡ Equity.NotAsked }
    {
        self.counter.equity = Equity::NotAsked;
    }

    /// Asks for an equity at which nobody looks.
    fn ask_any(&mut self)
        ensures { is_asked self.new.counter.now.equity ≡ true }
    {
        if !self.counter.equity.is_asked() {
            self.counter.equity = Equity::Counted(Tally::zero());
        }
    }

    /// Asks for the equity of a table: counted over all runouts, or the reason why it isn't counted.
    pub(crate) fn ask_table(&mut self, table: &Table) -> Result<(), Memory>
        ensures { OnOk result (IsEquityOf (deal_of table.now) self.new.counter.now.equity) }
    {
        self.ready.law_ready();
        match Job::make(table) {
            Ok(job) => self.counter.ask_job(&job),
            Err(fault) => {
                self.counter.equity = Equity::Refused(fault);
                Ok(())
            }
        }
    }

    /// Asks for the equity of an all-in. If the cards of the all-in aren't known, nobody looks at its equity.
    fn ask_all_in(&mut self, all_in: &AllIn) -> Result<(), Memory>
        ensures equity { OnOk result (IsOfAllIn all_in.now self.new.counter.now.equity) }
        ensures asked { OnOk result (is_asked self.new.counter.now.equity ≡ true) }
    {
        match all_in {
            AllIn::None | AllIn::Unknown => {
                self.ask_any();
                Ok(())
            }
            AllIn::Known { table, .. } => self.ask_table(table),
        }
    }

    /// Asks for the equity of a street after an all-in. If the cards of the street aren't known, nobody looks at its equity.
    pub(crate) fn ask_street(&mut self, state: &StreetState) -> Result<(), Memory>
        requires counted { IsCountedStreet state.now }
        ensures { OnOk result (IsOfStreet state.now self.new.counter.now.equity) }
    {
        if let Some(table) = &state.table {
            self.ask_table(table)?;
        }
        Ok(())
    }

    /// Asks for the equity of a hand, if it is wanted.
    pub(crate) fn ask_hand(&mut self, wanted: bool, audit: &HandAudit) -> Result<(), Memory>
        ensures equity { OnOk result (IsOfHand audit.now self.new.counter.now.equity) }
        ensures asked { OnOk result (is_asked self.new.counter.now.equity ≡ wanted) }
    {
        if !wanted {
            self.ask_nothing();
            return Ok(());
        }
        match audit {
            HandAudit::Rejected { .. } => {
                self.ask_any();
                Ok(())
            }
            HandAudit::Accepted { all_in, .. } => self.ask_all_in(all_in),
        }
    }
}
