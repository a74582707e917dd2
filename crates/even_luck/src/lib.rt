//! What a player got of a hand, what he could expect of its all-in, and what he would have got with even luck.
//!
//! An [`Equity`] is what is known of how the runouts of an all-in end: its tally, or why there is none. By a tally of all
//! runouts a hand of the table could expect of each pot the part that these runouts give it (`expected_by`), and with even
//! luck a player gets that part of what the players of the all-in got out of the pots together (`even_of`). Each is added up
//! in 1/5040 of a unit over all pots and runouts, and rounded once.
//!
//! The blocks of hands and the sums over hands both go by these figures. The crate writes nothing, counts nothing and takes no
//! memory: equities come with what they are of.
#![tactic(auto)]

mod asked;
mod equity;
mod even;
mod expected;
mod payments;
mod seats;
mod tables;

pub use asked::AskedAllIn;
pub use equity::Equity;
pub use even::even_of;
pub use expected::expected_by;
pub use payments::{got_by, got_from, got_of, payment_of};
pub use seats::hand_at;
pub use tables::{hand_count, pot_count};
