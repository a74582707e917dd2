//! The count of a job in one walk over its runouts, with which the count by blocks is compared.

ghost use Rattle.std.specs.Prelude.{◌≡◌, ◌+◌, ◌<◌, length};
ghost use Rattle.card_sets.specs.State.{state_of};
ghost use Rattle.showdown_tally.specs.Deals.{deal_of};
ghost use Rattle.showdown_tally.specs.Tallies.{Counts, runouts_after};

use equity_job::Job;
use runout_ranges::{Runout, advance, first_runout};
use showdown_tally::{Tally, settle_runout};
use std::sync::ledger::Ledger;
use step_count::Steps;

/// Returns the tally of all runouts of a job, one runout after another. It takes one step for each runout,
/// and no memory.
pub(crate) fn count_plain<L: Ledger>(job: &Job, steps: &mut Steps<L>) -> Tally
    ensures counts { Counts (deal_of job.now.table)
        (runouts_after (state_of job.now.table.known)) result }
    ensures some { 0 < result.runouts }
    ensures steps { steps.new ≡ steps.old + length (runouts_after (state_of job.now.table.known)) }
{
    let mut runout = Runout::new();
    first_runout(&job.shape, &mut runout);
    let mut tally = Tally::zero();
    loop {
        settle_runout(&job.table, &job.shape, &runout, &mut tally, steps);
        if !advance(&job.shape, &mut runout) {
            return tally;
        }
    }
}
