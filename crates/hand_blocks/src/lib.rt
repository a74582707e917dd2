//! The blocks of the report: what is printed of one spot, and of one hand.
//!
//! `write_spot`, `write_hand`, `write_street`, `write_results` and `write_settlement` each append one block to the bytes that
//! they are lent: all of it, or, out of memory, nothing. The crate knows of no input and of no output, of no other hand, and
//! it counts nothing: equities come with what it is to write.
//!
//! 1. *A block is whole or not there.* It is put together in a `Sheet` of its own, word by word, and appended
//!    when it is whole.
//! 2. *Both forms are one.* Which words and names make a line is said here, and how a line stands as text or as a
//!    record in `report_sheet`, so that no line is written twice in the code.
//! 3. *A number is rounded once.* What a hand may expect is that of `even_luck`, added up in 1/5040 of a unit over all
//!    pots, and then divided.
#![tactic(auto)]

mod alone;
mod blocks;
mod causes;
mod hand_equities;
mod hands;
mod results;
mod settles;
mod spot_blocks;
mod spots;
mod streets;
mod words;

pub use alone::table_alone;
pub use blocks::write_hand;
pub use results::write_results;
pub use settles::write_settlement;
pub use spot_blocks::write_spot;
pub use streets::{has_counted, write_street};
pub use words::street_word;
