//! Counters that are kept from job to job.

ghost use Rattle.std.specs.Prelude.{◌≤◌, IfOk, length};
ghost use Rattle.std.specs.Option.{ForSome};

use crate::BlockCounter;
use card_sets::Memory;
use job_blocks::Job;
use std::alloc::Global;

/// How many counters are kept at most, one for each worker.
const KEPT_MAX: usize = 16;

/// The counters that a run keeps from job to job, so that workers can use their tables again. At most 16 are kept.
///
/// No clause says what a kept counter contains. Each is made ready for the next job before a worker gets it.
#[derive(Drop)]
pub struct KeptCounters<C> {
    /// The kept counters, in no order, once there is room for them.
    counters: Option<Vec<C>>,
    /// No more counters are kept than there can be workers.
    ghost few: { ForSome counters (λ some. length some.items ≤ 16) },
}

impl<C: Drop> KeptCounters<C> {
    /// Returns a value that keeps no counter, and that has no room for any. It takes no memory.
    pub fn new() -> KeptCounters<C> {
        KeptCounters { counters: None }
    }

    /// Requests the room for 16 counters, if it isn't there.
    pub(crate) fn make_room(&mut self, alloc: Global) -> Result<(), Memory> {
        if self.counters.is_none() {
            self.counters = Some(Vec::with_capacity(alloc, KEPT_MAX)?);
        }
        Ok(())
    }

    /// Takes a kept counter out, if there is one.
    fn take(&mut self) -> Option<C> {
        match &mut self.counters {
            Some(counters) => counters.pop(),
            None => None,
        }
    }

    /// Keeps a counter. If there is no room for it, the counter is dropped.
    pub(crate) fn give(&mut self, counter: C) {
        let Some(counters) = &mut self.counters else {
            return;
        };
        if counters.len() < KEPT_MAX.min(counters.capacity()) {
            counters.push_reserved(counter);
        }
    }
}

impl<C: BlockCounter> KeptCounters<C> {
    /// Returns a counter that is ready for a job: a kept one, or a new one if none is kept. If memory is refused, a kept
    /// counter is lost.
    pub(crate) fn counter_for(&mut self, alloc: Global, job: &Job) -> Result<C, Memory>
        ensures { IfOk result (λ counter. C.ready job.now counter) }
    {
        let Some(mut counter) = self.take() else {
            return C::make(alloc, job);
        };
        counter.make_ready(alloc, job)?;
        Ok(counter)
    }
}
