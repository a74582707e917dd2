//! Lines with ranges of hands: what they say, and the blocks that are written of them. Nothing is counted here: `hand_ranges` does that.
//!
//! A line is `holdem` and two to four ranges with a `-` between. After them may stand `--` and the
//! board, and then `/` and the dead cards, as in `holdem TT+,AKs:2 - AsAh -- 2c 7d 9h / 3h`. A range
//! is one word, of items with a comma between:
//!
//! | Item | Its hands |
//! |---|---|
//! | `TT`, `TT+` | the pairs of a rank, and those from that rank on |
//! | `AKs`, `AKo`, `AK` | two ranks, the higher first, of one suit, of two suits, or of any |
//! | `A9s+`, `A9o+`, `A9+` | the same with each second rank from that on, below the first |
//! | `AsKh` | one hand |
//!
//! After an item may stand a colon and its weight, 1 to 100, and else it is 1. The weight of a hand
//! is what its items add up to.
//!
//! 1. *Reading* (`read_ranges`). A table has the weight of each hand, and each item of a word adds its weight to
//!    the hands that it names. Those with a weight that meet neither the board nor the dead cards are the range.
//! 2. *Writing* (`write_ranges`). The block of a line that is refused, of one that has no choice, or of the sums over all choices.
//!
//! The crate knows Texas Hold'em alone. Only what a line says takes memory.
#![tactic(auto)]

mod blocks;
mod faults;
mod items;
mod lines;
mod pairs;
mod read;
mod reading_laws;
mod spot;
mod tally;
mod texts;
mod walks;
mod weights;

pub use blocks::write_ranges;
pub use faults::RangeFault;
pub use read::read_ranges;
pub use reading_laws::law_lines_give_sound_ranges;
pub use spot::{Range, RangeSpot, Weighted};
pub use tally::{RangeCell, RangeJobFault, RangeTally};
