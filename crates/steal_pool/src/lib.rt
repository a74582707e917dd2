//! The count of a job by several workers, or by one.
//!
//! `count_with_workers` has the workers of `worker_seats` count, each in a scratch of its own. `count_with_kept` keeps these scratches
//! for the next job. `count_alone` counts a job on the
//! thread that asks, with no lock, in a scratch that is lent. Both post block after block into a `Book` of `tally_book`, by which
//! the total is right.
#![tactic(auto)]

mod alone;
mod blocks;
pub mod laws;
mod own_scratch;
mod workers;

pub use alone::count_alone;
pub use worker_seats::{Gate, OpenGate};
pub use workers::{KeptScratches, count_with_kept, count_with_workers};
