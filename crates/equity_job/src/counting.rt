//! The count of a job.

ghost use Rattle.std.specs.Prelude.{◌≡◌, ◌+◌, ◌<◌, length};
ghost use Rattle.card_sets.specs.State.{state_of};
ghost use Rattle.showdown_tally.specs.Deals.{deal_of};
ghost use Rattle.showdown_tally.specs.Tallies.{Counts, runouts_after};
ghost use Rattle.job_blocks.specs.Blocks.{blocks_below};
ghost use Rattle.equity_job.specs.CountedBlocks.{IsWhole, runouts_of};

use crate::{Scratch, fill_block};
use job_blocks::Job;
use showdown_tally::Tally;
use std::marker::Brand;
use std::sync::ledger::{Blank, Ledger};
use step_count::Steps;

/// Adds to a tally of the first block of a job those of all others, one after another.
#[inline(never)]
fn add_others<L: Ledger>(job: &Job, scratch: &mut Scratch, total: &mut Tally, steps: &mut Steps<L>)
    requires { Counts (deal_of job.now.table) (blocks_below (runouts_of job.now) 1) total.old }
    ensures counts { Counts (deal_of job.now.table) (runouts_of job.now) total.new }
    ensures steps { steps.new + length (blocks_below (runouts_of job.now) 1)
        ≡ steps.old + length (runouts_of job.now) }
{
    let mut tally = Tally::zero();
    for block in 1..job.blocks() {
        fill_block(job, block, scratch, &mut tally, steps);
        total.add(&tally);
    }
}

/// Makes a tally that of all runouts of a job, one block after another. It takes one step a runout.
pub fn count_blocks<L: Ledger>(
    job: &Job,
    scratch: &mut Scratch,
    total: &mut Tally,
    steps: &mut Steps<L>,
)
    ensures counts { Counts (deal_of job.now.table)
        (runouts_after (state_of job.now.table.known)) total.new }
    ensures some { 0 < total.new.runouts }
    ensures steps { steps.new ≡ steps.old + length (runouts_after (state_of job.now.table.known)) }
{
    job.shape.unseen.rising();
    fill_block(job, 0, scratch, total, steps);
    if job.blocks() == 1 {
        return;
    }
    add_others(job, scratch, total, steps);
}

/// Makes a tally that of all runouts of a job, with a counter of steps of its own, which begins at 0.
fn count_on<L: Ledger>(job: &Job, scratch: &mut Scratch, total: &mut Tally, blank: Blank)
    requires name { blank.name ≡ L.name }
    requires parts { blank.parts ≡ L.parts }
    requires some { 0 < blank.parts }
    ensures { IsWhole job.now total.new }
{
    let mut steps = Steps::<L>::new(blank);
    count_blocks(job, scratch, total, &mut steps);
}

/// Makes a tally that of all runouts of a job, whatever it held, for a caller that counts no steps.
pub fn count_job(job: &Job, scratch: &mut Scratch, total: &mut Tally)
    ensures counts { Counts (deal_of job.now.table)
        (runouts_after (state_of job.now.table.known)) total.new }
    ensures some { 0 < total.new.runouts }
{
    count_on::<Brand>(job, scratch, total, Blank::new(1));
}
