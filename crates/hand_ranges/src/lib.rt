//! Ranges of hands against ranges of hands: what all choices of one hand from each come to.
//!
//! What a line says, and the block that is written of it, are in `range_lines`. Here its choices are counted:
//!
//! 1. *Limit* (`count_ranges`). The sizes of the ranges and the runouts of a choice are multiplied, and more
//!    than `RUNOUT_MAX` of them aren't counted.
//! 2. *Boards* (`boards`, `beside`). From the flop on each board that can come is taken in turn, and each hand
//!    that has no card of it is valued once beside it. Cells and units come of how often each set of hands wins
//!    (`ends`).
//! 3. *Choices* (`showdowns`, `versus`). Beside a board one hand is taken from each range in turn, and a hand that
//!    shares a card with one taken before leads nowhere. Each hand of the last range is compared with the best of
//!    those taken: two numbers and two sets of cards a choice.
//! 4. *Choice by choice* (`counts`). Before the flop there are millions of boards and few choices. There, and on a flop
//!    with few choices, each choice is a job of `equity_job`.
//!
//! The crate knows Texas Hold'em alone, and neither histories nor workers. It counts on the thread that calls
//! it, in a room that it is lent.
#![tactic(auto)]

mod beside;
mod boards;
mod counts;
mod empty;
mod ends;
mod laws;
mod showdowns;
mod sums;
mod taken;
mod versus;
mod winners;

pub use counts::{count_ranges, ready_for_ranges};
pub use laws::{
    law_choices_are_given_out, law_choices_are_walked, law_choices_have_equal_runouts,
    law_one_hand_each_is_a_spot,
};
pub use range_lines::{
    Range, RangeCell, RangeFault, RangeJobFault, RangeSpot, RangeTally, Weighted,
    law_lines_give_sound_ranges, read_ranges, write_ranges,
};
