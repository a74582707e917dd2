//! The run of the program, over whoever counts: the reading of the input, the report, the status.
//!
//! `run_with` is all that a run does, and its clause `IsRun` is what is proved of it as a whole. It asks a `Counter` for each count and
//! knows none: `run_engine` has those of the program.
//!
//! 1. *Words* (`runs`). `read_words` of `command_words` makes a `Command` of them, or none; its items are passed on here.
//! 2. *A run* (`run`). A `Run` has the command, the input, and the writer of blocks. Its calls borrow the source and the sink.
//! 3. *Reading* (`reading`). Pieces of 16 kB are given to a `Cutter` until a hand, or a line of spots, is closed. What was handed out is
//!    forgotten. More than `INPUT_MAX` bytes are too long.
//! 4. *Blocks* (`report`, `gathering`, `hands`, `spots`). Each hand or spot has a block, which is made whole in memory and then written.
//!    Where none takes long, those that a piece closes are written together. So whatever fails, what stands in the output are whole blocks
//!    of the report, but where the output itself took a part of one.
//! 5. *Sums* (`sums`, `totals`, `made`). In other modes one loop adds up the hands, and one block is written at the end.
//! 6. *Counting* (`counter`). An `EquityCounter` has a `Counter`, and the last equity that was asked for. The `Equities` of a run borrow
//!    it, and keep for proofs that its calls may be made.
//! 7. *Status* (`runs`). Which end failed is told by its count of faults, and each status has its clause.
//!
//! It owns no poker and no figure: what is written is defined in `hand_blocks` and `player_totals`, what a hand is by
//! `hand_audit`. It opens no file, since the ends are lent to it, and starts no thread.
#![tactic(auto)]

mod block_kinds;
mod closing;
mod counter;
mod gathering;
mod hands;
mod later;
mod made;
mod memory_runs;
mod plans;
mod ranges;
mod reading;
mod report;
mod run;
mod runs;
mod spots;
mod sums;
mod text_source;
mod totals;
mod units;
mod write_fault;

pub use closing::law_closed_blocks_stay;
pub use command_words::{Command, Mode, WordFault, read_words};
pub use counter::{Counter, EquityCounter};
pub use hand_cuts::INPUT_MAX;
pub use later::law_later_streets_are_counted;
pub use memory_runs::law_memory_runs_are_cut_short_by_room_alone;
pub use runs::run_with;
