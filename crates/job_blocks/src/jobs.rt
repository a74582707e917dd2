//! Equities that can be counted.

ghost use Rattle.std.specs.Prelude.{◌≡◌, ◌≤◌, ◌↔◌, length, IfOk};
ghost use Rattle.std.specs.Result.{IsErrOf};
ghost use Rattle.card_sets.specs.State.{state_of};
ghost use Rattle.runout_ranges.specs.Shapes.{IsShapeOf};
ghost use Rattle.showdown_tally.specs.Tallies.{runouts_after};
ghost use Rattle.job_blocks.specs.Blocks.{blocks_of};
ghost use Rattle.runout_ranges.specs.Jobs.{IsDeckShort, IsAboveLimit};
ghost use Rattle.runout_ranges.specs.declared.limits.TheConstants.{RUNOUT_MAX};

use crate::BLOCK;
use runout_ranges::{JobFault, RUNOUT_MAX, Shape, count_runouts, shape};
use showdown_tally::Table;

/// An equity that can be counted: a table, the cards still to be dealt there, and the number of ways to
/// deal them, which is at most `RUNOUT_MAX`.
#[derive(Clone, Copy)]
pub struct Job {
    /// The known cards and the pots.
    pub table: Table,
    /// The cards still to be dealt.
    pub shape: Shape,
    /// The number of runouts.
    pub runouts: u64,
    /// The shape is that of the known cards.
    pub ghost shaped: { IsShapeOf (state_of table.known) shape },
    /// The number is that of all runouts.
    pub ghost counted: { runouts ≡ length (runouts_after (state_of table.known)) },
    /// The number is within the limit.
    pub ghost few: { runouts ≤ RUNOUT_MAX },
}

impl Job {
    /// Returns the job of a table. `DeckShort` exactly if fewer cards may come than are lacking, and `AboveLimit` exactly if
    /// enough may come and there are more than `RUNOUT_MAX` runouts.
    pub fn make(table: &Table) -> Result<Job, JobFault>
        ensures made { IfOk result (λ job. job.table ≡ table.now) }
        ensures short { IsErrOf result JobFault.DeckShort ↔ IsDeckShort (state_of table.now.known) }
        ensures above { IsErrOf result JobFault.AboveLimit
            ↔ ((¬ IsDeckShort (state_of table.now.known))
            × IsAboveLimit (state_of table.now.known)) }
    {
        let Some(shape) = shape(&table.known) else {
            return Err(JobFault::DeckShort);
        };
        let Ok(runouts) = count_runouts(&shape, RUNOUT_MAX) else {
            return Err(JobFault::AboveLimit);
        };
        Ok(Job {
            table: *table,
            shape,
            runouts,
        })
    }

    /// Returns the number of runouts.
    pub fn runouts(&self) -> u64
        ensures { result ≡ length (runouts_after (state_of self.now.table.known)) }
    {
        self.runouts
    }

    /// Returns the number of blocks with `BLOCK` runouts each. The last block may have fewer.
    pub fn blocks(&self) -> u32
        ensures { result ≡ blocks_of (length (runouts_after (state_of self.now.table.known))) }
    {
        ((self.runouts + (BLOCK - 1)) / BLOCK) as u32
    }
}
