//! The count of a job by several workers, whoever counts a block.
//!
//! The blocks of a job are dealt out to as many deques as there are workers, block b to the deque
//! of b modulo the workers, and after them an end mark for each worker. A worker takes from its
//! own deque until it gets an end mark there, then from the others, one after the other. So nobody
//! stands idle while a deque has blocks, and a worker that has an end mark of each deque knows that
//! nothing is left anywhere.
//!
//! What a worker takes its `BlockCounter` counts, and it posts that into the `Book` of the job, under
//! its lock. The book keeps its total whoever posts what and in which order: so the total is right
//! by the book alone, and by the caller's look at every mark after the join. That each block was
//! taken from the deques, by one worker, is a clause of `Seats`, which carries a rule over each
//! deque: `claims` has it.
//!
//! `count_with_workers` is `Seats::start`, `Seats::work` and `Seats::finish`, in this order. `count_with_kept` is
//! `Seats::start_with`, `Seats::work` and `Seats::finish_with`: workers use the counters that an earlier job left in a
//! `KeptCounters`, and leave theirs there. All memory whose refusal is answered is taken before the first worker starts. Where a thread can't be started, the caller
//! does that worker's work itself.
#![tactic(auto)]

mod claims;
mod counter;
mod desk;
mod finishing;
mod gate;
mod joins;
mod kept;
mod lanes;
pub mod laws;
mod making;
mod pushes;
mod reaches;
mod running;
mod seat;
mod seats;
mod shared_book;
mod workers;

pub use counter::BlockCounter;
pub use gate::{Gate, OpenGate};
pub use kept::KeptCounters;
pub use seats::Seats;
pub use workers::{count_with_kept, count_with_workers};
