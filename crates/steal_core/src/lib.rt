//! A pure machine of several workers: who may take which block, without any thread.
//!
//! Each worker has a queue of blocks and a hand that contains one block or none. All workers book
//! into one list. An event is one move of one worker: it pushes a block to its queue, pops the first
//! block of its queue, steals the first block of another queue, or books the block in its hand. The
//! work of several threads, in any order, is a list of such events. So what holds after every list
//! of events holds for every order in which workers may take turns.
//!
//! `law_all_booked` says so. Assume that each block of a job is once in the queues or once pushed.
//! Then after each event each block is in at most one place, and after the last event in exactly
//! one. So no block is lost and none is booked twice. If queues and hands are then empty, every
//! block is booked, and the sum over the booked blocks is that of all runouts.
//!
//! - Blocks and workers are numbers from 0. A worker has the queue and the hand of its number.
//! - `step` applies one event, and has no loop. `run_core` applies a list of events.
//! - An event is `Refused`, and changes nothing, if a worker's number is out of range, if the queue
//!   from which a block is taken is empty, if the hand isn't empty (pop, steal) or is empty (book),
//!   or if a worker would steal from itself. The events after it are applied.
//! - Clauses see queues, hands, and the booked blocks as lists.
#![tactic(auto)]

mod events;
mod lists;
mod running;
mod state;
mod steps;

pub use events::{CoreEvent, Stepped};
pub use lists::{Blocks, Hands, Queues};
pub use running::{law_all_booked, run_core};
pub use state::State;
pub use steps::step;
