//! The fives that may be shown down, one after another.
//!
//! [`fives`] lists the fives that a game allows for full own cards and a full board: any five cards, or
//! in Omaha two own cards and three of the board. By its clause the list equals that of the definition,
//! so no five is missing and none comes twice. The fives are in the order of their cards, not of their
//! worth.
//!
//! The whole list is made first, in an array of sixty sets: 21 fives of seven cards, 60 of Omaha's nine.
//! The least card of the rest is first taken into the choice and then left out. So the taken cards
//! always lie below the rest. Nothing allocates memory.
//!
//! Use it if you need each five that a player may show, or the few fives of an Omaha flush. To rank a
//! hand, `rank_high`, `rank_low`, and `omaha_ranks` have shorter ways, which list no fives.
#![tactic(auto)]

mod choices;
mod iterator;
mod laws;
mod listing;

pub use iterator::Fives;
pub use laws::law_fives_have_five_cards;
pub use listing::{fives, two_and_three};
