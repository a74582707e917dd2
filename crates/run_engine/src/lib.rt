//! Who counts the equities of a run, and the top calls.
//!
//! `run` is all that the program does, and its clause `IsRun` is what is proved of it as a whole. `run_alone` is the same without threads.
//! Both are `run_with` of `run_loop`, which has the words, the reading, the report and the status, with a `Counter` of this crate:
//!
//! - `Alone` (`alone`) counts on the thread that asks.
//! - `Shared` (`shared`) has workers count a job that has many blocks, and `Alone` whatever else.
//!
//! What is written and answered is the same by the clauses. What threads there are are started by `steal_pool`.
//!
//! `made_input`, the text that the mode `made` reads, is that of `made_hands`.
#![tactic(auto)]

mod alone;
mod page;
mod runs;
mod shared;

pub use made_hands::made_input;
pub use page::run_page;
pub use run_loop::{
    Command, INPUT_MAX, Mode, WordFault, law_closed_blocks_stay, law_later_streets_are_counted,
    read_words,
};
pub use runs::{run, run_alone};
