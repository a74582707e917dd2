//! The events of a hand, its names, and the faults of a line and of an event.
//!
//! An `Event` is the meaning of a line, in seats, units, and cards: who posts, acts, shows, or collects,
//! and which street begins. A `Header` has the game, the limit, and the big blind, and `Names` has the
//! names of the seat lines, by seat. A line that can't be read has a `TextFault`, and an event that the
//! rules don't allow after the earlier ones has a `BetFault`.
//!
//! The crates above use these types to read, replay, check, and write a hand. This crate reads no line and
//! knows no rule. Only `Names::add` allocates memory, for the bytes of a name.
#![tactic(auto)]

mod cards;
mod events;
mod faults;
mod names;

pub use card_sets::Street;
pub use cards::Cards;
pub use events::{Act, BoardNumber, Event, Header, Limit, Part, PostKind, PotName, TextFault};
pub use faults::BetFault;
pub use names::{Names, Seated};
