//! The room that counts work in.

ghost use Rattle.std.specs.Prelude.{◌≡◌, ◌*◌, ◌<◌, length, IfOk, IsSome, IsTrue, OnErr, OnOk};
ghost use Rattle.equity_job.specs.Rooms.{HasRows, IsReady, newer};

use crate::blocks::is_full;
use board_runouts::{Boards, are_boards};
use card_sets::Memory;
use draw_runouts::{Draws, are_draws};
use job_blocks::Job;
use std::alloc::Global;

/// The room that counts work in. It is made without memory, and has its parts on the heap once [`Scratch::ready`] was asked for
/// them: 16 kB a pot, and tables of up to 1 MB for boards or 390 kB for draws. What it holds makes no difference to a count but
/// in time, so it is made once and lent to each: where a part isn't there, the count goes without it, runout by runout.
#[derive(Drop)]
pub struct Scratch {
    /// Two rows of counts a pot, for as many pots as were asked for.
    pub(crate) counts: Option<Vec<[u32; 2048]>>,
    /// The room of boards.
    pub(crate) boards: Option<Boards>,
    /// The room of draws.
    pub(crate) draws: Option<Draws>,
}

/// Returns `rows` rows of counts, all 0.
fn rows_of(alloc: Global, rows: usize) -> Result<Vec<[u32; 2048]>, Memory>
    ensures { IfOk result (λ counts. length counts.items ≡ rows) }
{
    let mut counts = Vec::new(alloc);
    counts.resize(rows, [0; 2048])?;
    Ok(counts)
}

/// Puts a new part in the place of an old one, where there is one.
fn renew<T: Drop>(part: &mut Option<T>, new: Option<T>)
    ensures { part.new ≡ newer new part.old }
{
    if let Some(new) = new {
        *part = Some(new);
    }
}

impl Scratch {
    /// A room without any part.
    pub fn new() -> Scratch {
        Scratch {
            counts: None,
            boards: None,
            draws: None,
        }
    }

    /// Asks for the parts that the count of a job uses and that aren't there. After `Memory` it has what it had, and every count may
    /// still be made in it.
    pub fn ready(&mut self, alloc: Global, job: &Job) -> Result<(), Memory>
        ensures ready { 0 < job.now.shape.used → OnOk result (IsReady self.new job.now) }
        ensures memory { OnErr result (self.new ≡ self.old) }
    {
        if is_full(job) {
            return Ok(());
        }
        let counts = self.more_counts(alloc, job.table.pots)?;
        let boards = self.more_boards(alloc, are_boards(&job.table, &job.shape))?;
        let draws = self.more_draws(alloc, are_draws(&job.table, &job.shape))?;
        self.take(counts, boards, draws);
        Ok(())
    }

    /// Asks for the parts that boards of up to `pots` pots use that lack two cards or more, whichever they are, if they aren't there. After
    /// `Memory` it has what it had.
    pub fn ready_for_boards(&mut self, alloc: Global, pots: u8) -> Result<(), Memory>
        ensures counts { OnOk result (HasRows (2 * pots) self.new.counts) }
        ensures boards { OnOk result (IsSome self.new.boards) }
        ensures memory { OnErr result (self.new ≡ self.old) }
    {
        let counts = self.more_counts(alloc, pots)?;
        let boards = self.more_boards(alloc, true)?;
        self.take(counts, boards, None);
        Ok(())
    }

    /// Returns whether there are `rows` rows of counts or more.
    fn has_rows(&self, rows: usize) -> bool
        ensures { IsTrue result → HasRows rows self.now.counts }
    {
        match &self.counts {
            Some(counts) => rows <= counts.len(),
            None => false,
        }
    }

    /// Two rows of counts a pot, where they aren't there.
    fn more_counts(&self, alloc: Global, pots: u8) -> Result<Option<Vec<[u32; 2048]>>, Memory>
        ensures { IfOk result (λ more. HasRows (2 * pots) (newer more self.now.counts)) }
    {
        let rows = 2 * usize::from(pots);
        if self.has_rows(rows) {
            return Ok(None);
        }
        Ok(Some(rows_of(alloc, rows)?))
    }

    /// The room of boards, where it is wanted and isn't there.
    fn more_boards(&self, alloc: Global, wanted: bool) -> Result<Option<Boards>, Memory>
        ensures { IfOk result (λ more. IsTrue wanted → IsSome (newer more self.now.boards)) }
    {
        if !wanted || self.boards.is_some() {
            return Ok(None);
        }
        Ok(Some(Boards::new(alloc)?))
    }

    /// The room of draws, where it is wanted and isn't there.
    fn more_draws(&self, alloc: Global, wanted: bool) -> Result<Option<Draws>, Memory>
        ensures { IfOk result (λ more. IsTrue wanted → IsSome (newer more self.now.draws)) }
    {
        if !wanted || self.draws.is_some() {
            return Ok(None);
        }
        Ok(Some(Draws::new(alloc)?))
    }

    /// Takes new parts in, each where there is one.
    fn take(
        &mut self,
        counts: Option<Vec<[u32; 2048]>>,
        boards: Option<Boards>,
        draws: Option<Draws>,
    )
        ensures counts { self.new.counts ≡ newer counts self.old.counts }
        ensures boards { self.new.boards ≡ newer boards self.old.boards }
        ensures draws { self.new.draws ≡ newer draws self.old.draws }
    {
        renew(&mut self.counts, counts);
        renew(&mut self.boards, boards);
        renew(&mut self.draws, draws);
    }
}
