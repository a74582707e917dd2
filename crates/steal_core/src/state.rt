//! The state of the machine.

ghost use Rattle.std.specs.Prelude.{◌≡◌, ◌||◌, not, IfOk};
ghost use Rattle.steal_core.specs.Machine.{in_range, may_not_take};

use crate::lists::{Blocks, Hands, Queues};
use card_sets::Memory;
use std::alloc::Global;

/// The place of each block.
#[derive(Drop)]
pub struct State {
    /// The workers' queues, the front first.
    pub queues: Queues,
    /// The workers' hands, each with a block or none.
    pub held: Hands,
    /// The booked blocks, in the order in which they were booked.
    pub booked: Blocks,
}

impl State {
    /// Returns whether there is a queue and a hand with that number.
    pub(crate) fn has(&self, worker: u32) -> bool
        ensures { result ≡ in_range self.now worker }
    {
        let worker = worker as usize;
        worker < self.queues.items().len() && worker < self.held.items().len()
    }

    /// Returns whether a worker may not take from a queue: one of them is out of range, the worker's hand
    /// isn't empty, or the queue is empty.
    pub(crate) fn may_not_take(&self, worker: u32, victim: u32) -> bool
        ensures { result ≡ may_not_take self.now worker victim }
    {
        !self.has(worker)
            || !self.has(victim)
            || self.held.at(worker).is_some()
            || self.queues.is_empty_at(victim)
    }

    /// Returns a copy of the state.
    pub(crate) fn copied(&self, alloc: Global) -> Result<State, Memory>
        ensures { IfOk result (λ state. state ≡ self.now) }
    {
        let queues = self.queues.copied(alloc)?;
        let held = self.held.copied(alloc)?;
        let booked = self.booked.copied(alloc)?;
        Ok(State {
            queues,
            held,
            booked,
        })
    }
}
