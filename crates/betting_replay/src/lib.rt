//! The replay of a hand: which events the rules allow, and what they do to each seat.
//!
//! A `Replay` begins with a header and a set of players, and applies one event in each step.
//! `Replay::step` returns `Ok` if the rules allow the event after those before it, and otherwise the first
//! rule that it breaks. There are sixteen rules, in the order of `BetFault`. A refusal leaves the replay
//! unchanged. Nothing allocates memory, and the time of a step doesn't grow with the hand.
//!
//! A replay also answers the questions of a settlement and of a count of equities: the chips that each
//! seat has put in, its known cards at the end and on a street, the cards of the board and of a second
//! board, and the all-in point with the players who were in the hand there and the dead cards.
//!
//! A replay has the fields of a table (`Replay`): each seat with its chips, acts, and cards (`SeatState`),
//! the one or two boards (`Board`), and how far the hand has come (`Course`). A remark changes nothing.
//! Any other event changes the chips and acts of its seat and the course of the hand, and the cards only
//! if it moves some. Then its street begins, if it begins one, and the moment may be the all-in point.
//!
//! Clauses see a replay as a `ReplayState`, which has the same fields. Each field is defined by the list
//! of the events alone, the latest first, without running sums. `table_of` joins the fields, and a replay
//! represents the events of a hand if it equals that table (`StandsFor`). The rules are questions to the
//! table, and `legal` asks them of the table of a list.
//!
//! The laws here are those that the audit uses. The laws of `hand_laws` say more about a replay.
#![tactic(auto)]

mod accessors;
mod all_in;
mod boards;
mod counting;
mod course;
mod dealing;
mod hands;
mod judge;
mod known;
mod laws;
mod places;
mod points;
mod replay;
mod returns;
mod seats;
mod step;
mod streets;
mod turns;

pub use hand_events::BetFault;
pub use laws::{
    law_a_table_shows_dead_cards, law_a_table_shows_each_seat, law_cards_belong,
    law_places_are_apart, law_stud_cards_are_all_that_were_dealt, law_whole_boards,
};
pub use replay::Replay;
