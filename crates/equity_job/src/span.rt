//! Where a block of a job stands in the listing of the job's runouts.

ghost use Rattle.std.specs.Prelude.{◌≡◌, ◌-◌, ◌<◌, ◌≤◌, length};
ghost use Rattle.std.specs.List.{slice_range};
ghost use Rattle.card_sets.specs.State.{state_of};
ghost use Rattle.runout_ranges.specs.Slots.{slots};
ghost use Rattle.job_blocks.specs.Blocks.{block_of, blocks_of};
ghost use Rattle.job_blocks.specs.declared.limits.TheConstants.{BLOCK};
ghost use Rattle.equity_job.specs.CountedBlocks.{runouts_of};

use job_blocks::{BLOCK, Job};

/// A block of a job in which somebody lacks cards.
#[derive(Clone, Copy)]
pub(crate) struct Span<'a> {
    /// The job.
    pub(crate) job: &'a Job,
    /// The number of the block, from 0.
    pub(crate) number: u32,
    /// The index of its first runout in the listing.
    pub(crate) first: u64,
    /// The index after its last runout.
    pub(crate) end: u64,
    /// Somebody lacks cards.
    pub(crate) ghost some: { 0 < length (slots (state_of job.now.table.known)) },
    /// The end isn't before the first runout.
    pub(crate) ghost order: { first ≤ end },
    /// Both places are in the listing.
    pub(crate) ghost inside: { end ≤ length (runouts_of job.now) },
    /// There are no more runouts than a block may have.
    pub(crate) ghost few: { end - first ≤ BLOCK },
    /// They are the block by the definition, of which the last may be short,
    pub(crate) ghost block: { slice_range (runouts_of job.now) first end ≡ block_of (runouts_of job.now) number },
    /// and all of it.
    pub(crate) ghost size: { length (block_of (runouts_of job.now) number) ≡ end - first },
}

impl<'a> Span<'a> {
    /// Returns where a block of a job stands.
    pub(crate) fn of(job: &'a Job, number: u32) -> Span<'a>
        // Somebody lacks cards, and the job has such a block.
        requires some { 0 < length (slots (state_of job.now.table.known)) }
        requires block { number < blocks_of (length (runouts_of job.now)) }

        ensures job { result.job.now ≡ job.now }
        ensures number { result.number ≡ number }
    {
        let first = u64::from(number) * BLOCK;
        let end = (first + BLOCK).min(job.runouts);
        Span {
            job,
            number,
            first,
            end,
        }
    }
}
