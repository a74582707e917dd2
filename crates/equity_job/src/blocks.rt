//! The count of a block of a job's runouts.

ghost use Rattle.std.specs.Prelude.{◌≡◌, ◌+◌, ◌*◌, ◌<◌, ◌≤◌, false, length, IsTrue};
ghost use Rattle.card_sets.specs.State.{state_of};
ghost use Rattle.runout_ranges.specs.Slots.{slots};
ghost use Rattle.showdown_tally.specs.Deals.{deal_of};
ghost use Rattle.showdown_tally.specs.Tallies.{Counts, runouts_after};
ghost use Rattle.runout_walk.specs.Listing.{last_count};
ghost use Rattle.job_blocks.specs.Blocks.{block_of, blocks_of};
ghost use Rattle.equity_job.specs.CountedBlocks.{CountsBlock, FillsBlock, runouts_of};

use crate::Scratch;
use crate::span::Span;
use board_runouts::{Boards, Rivers, are_boards, are_rivers};
use draw_runouts::{Draws, are_draws};
use job_blocks::Job;
use runout_ranges::{Runout, first_runout};
use runout_walk::{Leaf, Plain, clear_counts, count_runouts_of};
use showdown_tally::{Tally, fill_tally, settle_runout};
use std::sync::ledger::Ledger;
use step_count::Steps;

/// The tally of the runouts of a block of a job, by its number from 0. It takes one step a runout,
/// and no memory.
pub fn count_block<L: Ledger>(
    job: &Job,
    block: u32,
    scratch: &mut Scratch,
    steps: &mut Steps<L>,
) -> Tally
    requires { block < blocks_of (length (runouts_after (state_of job.now.table.known))) }
    ensures counts { Counts (deal_of job.now.table)
        (block_of (runouts_after (state_of job.now.table.known)) block) result }
    ensures steps { steps.new
        ≡ steps.old + length (block_of (runouts_after (state_of job.now.table.known)) block) }
{
    let mut tally = Tally::zero();
    fill_block(job, block, scratch, &mut tally, steps);
    tally
}

/// Makes a tally that of the runouts of a block, whatever it held. The caller lends the tally, so none is moved. It takes one step a runout.
pub fn fill_block<L: Ledger>(
    job: &Job,
    block: u32,
    scratch: &mut Scratch,
    tally: &mut Tally,
    steps: &mut Steps<L>,
)
    requires { block < blocks_of (length (runouts_after (state_of job.now.table.known))) }
    ensures counts { Counts (deal_of job.now.table)
        (block_of (runouts_after (state_of job.now.table.known)) block) tally.new }
    ensures steps { steps.new
        ≡ steps.old + length (block_of (runouts_after (state_of job.now.table.known)) block) }
{
    if is_full(job) {
        settle_known(job, block, tally, steps);
        return;
    }
    let span = Span::of(job, block);
    let Scratch {
        counts,
        boards,
        draws,
    } = scratch;
    if let Some(counts) = counts {
        let table = &span.job.table;
        if 2 * usize::from(table.pots) <= counts.len() {
            let counts = counts.as_mut_slice();
            count_by_leaf(&span, counts, boards, draws, steps);
            fill_tally(table, span.end - span.first, counts, tally);
            return;
        }
    }
    fill_without(&span, boards, draws, tally, steps);
}

/// Makes a tally that of a block, with counts of its own on the stack.
fn fill_without<L: Ledger>(
    span: &Span,
    boards: &mut Option<Boards>,
    draws: &mut Option<Draws>,
    tally: &mut Tally,
    steps: &mut Steps<L>,
)
    ensures { FillsBlock span.now.job.now span.now.number tally.new steps.old steps.new }
{
    if span.job.table.pots <= 2 {
        fill_in_rows::<4, L>(span, boards, draws, tally, steps);
    } else {
        fill_in_rows::<20, L>(span, boards, draws, tally, steps);
    }
}

/// Makes a tally that of a block, with `ROWS` rows of counts of 8 kB each. They are in a frame of their own, so a count of one pot or two
/// needs 32 kB of the stack, and only more pots need 160 kB.
#[inline(never)]
fn fill_in_rows<const ROWS: usize, L: Ledger>(
    span: &Span,
    boards: &mut Option<Boards>,
    draws: &mut Option<Draws>,
    tally: &mut Tally,
    steps: &mut Steps<L>,
)
    // Each pot has its two rows, and there are at most ten pots.
    requires { (2 * span.now.job.now.table.pots ≤ ROWS) × (ROWS ≤ 20) }
    ensures { FillsBlock span.now.job.now span.now.number tally.new steps.old steps.new }
{
    let mut counts = [[0; 2048]; ROWS];
    count_by_leaf(span, &mut counts, boards, draws, steps);
    let table = &span.job.table;
    fill_tally(table, span.end - span.first, &counts, tally);
}

/// Counts the runouts of a block, whatever the counts were, with the leaf that is for what is lacking. If the tables of that leaf aren't
/// there, the runouts are settled one by one.
fn count_by_leaf<L: Ledger>(
    span: &Span,
    counts: &mut [[u32; 2048]],
    boards: &mut Option<Boards>,
    draws: &mut Option<Draws>,
    steps: &mut Steps<L>,
)
    // Each pot has its two rows.
    requires { 2 * span.now.job.now.table.pots ≤ length counts.old }
    ensures { CountsBlock span.now.job.now span.now.number counts.old counts.new steps.old steps.new }
{
    let job = span.job;
    if are_boards(&job.table, &job.shape) {
        if let Some(boards) = boards {
            boards.serve(&job.table, &job.shape);
            count_span(boards, span, counts, steps);
            return;
        }
    } else if are_draws(&job.table, &job.shape) {
        if let Some(draws) = draws {
            draws.serve(&job.table, &job.shape);
            count_span(draws, span, counts, steps);
            return;
        }
    } else if are_rivers(&job.table, &job.shape) {
        let mut rivers = Rivers::of(&job.table, &job.shape);
        count_span(&mut rivers, span, counts, steps);
        return;
    }
    let mut plain = Plain::of(&job.table, &job.shape);
    count_span(&mut plain, span, counts, steps);
}

/// Whether nobody lacks cards.
#[inline]
pub(crate) fn is_full(job: &Job) -> bool
    ensures full { IsTrue result → job.now.shape.used ≡ 0 }
    ensures lacking { result ≡ false → 0 < length (slots (state_of job.now.table.known)) }
{
    let slots = &job.shape.slots[..usize::from(job.shape.used)];
    slots.is_empty()
}

/// Counts the runouts of a block with a leaf, whatever the counts were.
#[inline(never)]
fn count_span<F: Leaf, L: Ledger>(
    leaf: &mut F,
    span: &Span,
    counts: &mut [[u32; 2048]],
    steps: &mut Steps<L>,
)
    // The leaf counts the job's deal, and the last slot lacks no fewer cards than it deals at once.
    requires deal { F.deal leaf.old ≡ deal_of span.now.job.now.table }
    requires deep { F.depth (deal_of span.now.job.now.table)
        ≤ last_count (slots (state_of span.now.job.now.table.known)) }

    // Each pot has its two rows.
    requires places { 2 * span.now.job.now.table.pots ≤ length counts.old }
    ensures { CountsBlock span.now.job.now span.now.number counts.old counts.new steps.old steps.new }
{
    let job = span.job;
    clear_counts(counts, &job.table);
    count_runouts_of(leaf, counts, &job.shape, span.first, span.end, steps);
}

/// Makes a tally that of the only runout of a job in which nobody lacks cards. It takes one step.
#[inline(never)]
fn settle_known<L: Ledger>(job: &Job, block: u32, tally: &mut Tally, steps: &mut Steps<L>)
    requires none { job.now.shape.used ≡ 0 }
    requires block { block < blocks_of (length (runouts_of job.now)) }
    ensures { FillsBlock job.now block tally.new steps.old steps.new }
{
    tally.clear();
    let mut runout = Runout::new();
    first_runout(&job.shape, &mut runout);
    settle_runout(&job.table, &job.shape, &runout, tally, steps);
}
