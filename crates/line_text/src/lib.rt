//! The lines of a text in bytes, and the amounts in them.
//!
//! `next_line` returns the beginning and the end of the text of the line at a place, and the beginning
//! of the next line. `read_amount` returns the amount at a place, and its end. Both return numbers and
//! places: they copy no byte, allocate nothing, and examine no other line. The bytes needn't be UTF-8.
//! The crate knows no poker.
//!
//! A line costs one search for its newline, and a look at each blank at its end. If the end of a line
//! is known, `text_of` reads it without a search. An amount costs a look at each of its digits. No
//! clause counts these costs.
#![tactic(auto)]

mod amounts;
mod lines;

pub use amounts::{
    Amount, AmountFault, GREATEST, WrittenAmount, digit_count, number_of, read_amount, written,
};
pub use lines::{Line, law_closed_lines, next_line, text_of};
