//! The events.

/// One move of one worker. Workers and blocks are numbers from 0.
#[derive(Clone, Copy, PartialEq, Eq)]
pub enum CoreEvent {
    /// A block goes to the back of the worker's queue.
    Push { worker: u32, block: u32 },
    /// The first block of the worker's own queue goes into its empty hand.
    Pop { worker: u32 },
    /// The first block of another worker's queue goes into the worker's empty hand.
    Steal { worker: u32, victim: u32 },
    /// The block in the worker's hand goes to the end of the booked blocks.
    Book { worker: u32 },
}

/// The result of an event.
#[derive(Clone, Copy, PartialEq, Eq)]
pub enum Stepped {
    /// The event was applied.
    Done,
    /// The event was refused, and nothing changed.
    Refused,
}
