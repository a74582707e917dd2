//! Why every block is taken once: the seats, call by call, and laws of their clauses.
//!
//! `Seats::start`, `Seats::work` and `Seats::finish`, in this order, are a count by several workers.
//! The laws are calls that do nothing.

pub use crate::own_scratch::OwnScratch;
pub use worker_seats::laws::{law_each_block_has_one_deque, law_each_block_is_taken_once};

/// The seats of all workers, who count in scratches.
pub type Seats<N> = worker_seats::Seats<N, OwnScratch>;
