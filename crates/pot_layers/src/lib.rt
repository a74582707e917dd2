//! The chips that each player of a hand put in, the pots that they make, and how a pot is split.
//!
//! Side pots are layers. Each different sum that a contender has put in is a level. The pot of a level
//! contains, from every player, the chips between the level below and this one. Its eligible players
//! are the contenders who have put in at least the level. Dead chips go into the first pot, and the
//! chips of folded players above the highest level into the last. `layers` returns the pots,
//! `uncalled` the chips that go back to a player whom nobody called, `halves` the parts for the two
//! boards of a hand that was run twice, and `split` the parts of a pot's winners.
//!
//! Clauses see pots, parts, and orders as lists. Sets of seats have bit s for seat s.
//!
//! The laws of `hand_laws` say more about pots and their parts.
#![tactic(auto)]

mod by_level;
mod laws;
mod orders;
mod paid;
mod returns;
mod splits;

pub use by_level::{Pots, layers};
pub use laws::{law_a_folded_player_is_eligible_nowhere, law_a_list_orders_its_seats};
pub use orders::OddOrder;
pub use paid::{Paid, Pot, Share, SideWinners};
pub use returns::uncalled;
pub use splits::{Shares, halves, split};
