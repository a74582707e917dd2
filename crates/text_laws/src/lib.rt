//! Laws about text: how a text in its form is read, and what a written text says.
//!
//! The crates that read and write state their results by definitions. The laws state them in other words,
//! so that an error that a definition shares with its code is found: a line, an amount, a spot, or an item
//! of a range in its form is read as it was meant, and the digits of a fraction say its number. Examples
//! in `proofs/` have lines, headers, and whole hands of histories with their results, which the prover
//! computes. Each law is a call that does nothing, and the program uses none of them.
#![tactic(auto)]

mod amounts;
mod fractions;
mod histories;
mod items;
mod lines;
mod ranges;
mod spots;

pub use amounts::law_written_amounts_are_read;
pub use fractions::{law_rounds_to_the_nearest_half_up, law_the_text_says_the_number};
pub use histories::{law_the_longest_name_counts, law_written_lines_are_read};
pub use items::{law_items_name_their_hands, law_ranges_are_bounded};
pub use lines::law_lines_read_back;
pub use ranges::law_written_ranges_are_read;
pub use spots::{
    law_a_written_spot_is_read, law_the_first_repeated_card, law_written_words_are_read,
};
