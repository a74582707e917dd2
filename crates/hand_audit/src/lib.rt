//! The verdict on a hand: whether each line keeps to the rules, what became of the chips, and the all-in.
//!
//! `audit_hand` takes the lines of one hand, its header line first. It answers `Rejected` with the first line that departs and the cause,
//! or `Accepted` with a `Settlement` and an `AllIn`. `later_streets` tells what is known on each street after a known all-in.
//!
//! `read_hand` reads the lines once and returns a `HandRead`, which returns more: its `later_streets`, the `chips` that each seat had and
//! put in, the `parts` of each pot, and by `into_verdict` the verdict, with the settlement of a hand that is rejected for its payments
//! alone. The types of these answers are those of `hand_verdict`.
//!
//! 1. *First pass* (`first_pass`). Each line is read once, and who plays and what he is called is noted. What the lines say is kept,
//!    where they are fewer than 256.
//! 2. *Second pass* (`follow`, `hand`). What each line says is stepped by a `Replay`; of 256 lines or more each is read once more. A line departs where it can't be read, where the
//!    replay refuses it, or where a stated total isn't what the replay has counted. Later streets are noted on the way.
//! 3. *Settlement* (`settling`, `parts`, `dues`, `payments`). After the last line the pots are made. Where it is known who won a pot, by cards
//!    or since one player is left, it is split by the rules, and that is held against what was collected. A payment that is too far off
//!    has the last line depart.
//! 4. *All-in* (`all_in`, `known_tables`). The cards known at the point as a `Table`, with the pots of the whole hand; `Unknown` where those
//!    of a player who is in aren't known there.
//!
//! Clauses see no passes and no state: `audit_of` is a definition over the list of the lines. What the code has kept so far stands for the
//! lines so far (`Keeps`).
//!
//! What holds of every hand is said by the laws of `hand_laws`; `law_later_streets_know_no_less`, which a run calls, stands here.
//!
//! `Cutter`, which cuts a stream into hands or lines, is that of `hand_cuts`. Callers who read a stream need no other crate.
//!
//! It knows no other hand and prints nothing. Each call that takes memory takes the allocator, and answers `Memory` where it is refused.
#![tactic(auto)]

mod all_in;
mod at_point;
mod audit;
mod collections;
mod dues;
mod ended;
mod first_pass;
mod follow;
mod hand;
mod known_tables;
mod laws;
mod marks;
mod orders;
mod parts;
mod payments;
mod pot_names;
mod pots;
mod read;
mod seat_chips;
mod settling;
mod standings;
mod streets;
mod winners;
mod worths;

pub use audit::{audit_hand, later_streets};
pub use hand_cuts::{CutKind, Cutter, Unit};
pub use hand_verdict::{
    AllIn, AuditedChips, Cause, HandAudit, PartShare, PartShares, Payment, Payments, PotLine,
    PotLines, SeatChips, Settlement, SplitHand, StreetState, Verdict,
};
pub use laws::law_later_streets_know_no_less;
pub use read::{HandRead, read_hand};
