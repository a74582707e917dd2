//! The next street of a known state, and the whole counts after each choice of its cards.
//!
//! A runout deals all cards to come at once. Here they come street by street: `next_street` returns the
//! shape of the next street's cards, `after_street` the known cards after a choice of them, and
//! `street_sum` the sum of the whole counts after all choices. That sum is the count of the table
//! itself, times the number of ways in which one runout divides into the street's cards and the rest:
//! `law_streets_add_up`. `law_final_cards_add_up` says so of any number that depends on the final
//! cards. Nothing here allocates memory.
#![tactic(auto)]

mod after;
mod laws;
mod next;
mod sums;

pub use after::after_street;
pub use laws::{law_final_cards_add_up, law_streets_add_up, law_streets_go_on};
pub use next::{divisions, next_street};
pub use sums::{StreetFault, street_sum};
