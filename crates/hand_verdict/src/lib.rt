//! The verdict on a hand, as it is told: types alone.
//!
//! A `HandAudit` says of a hand that a line departs, which and why (`Cause`), or that none does; then it has a `Settlement`,
//! what became of the chips pot by pot, and an `AllIn`, the moment from which it was played out with what was known there.
//! Beside a verdict there may stand its later streets (`StreetState`), what each seat had and put in (`AuditedChips`), what each
//! winner of a side of each part of a pot gets (`PartShares`), or the settlement of a hand that is rejected for its payments (`Verdict`).
//!
//! `hand_audit` makes them, and the report shows them. Nothing here looks at a line, a rule or a card, and nothing takes memory.
#![tactic(auto)]

mod cause;
mod parts;
mod seat_chips;
mod settlement;
mod streets;
mod verdicts;

pub use cause::Cause;
pub use parts::{PartShare, PartShares, SplitHand, Verdict};
pub use seat_chips::{AuditedChips, SeatChips};
pub use settlement::{Payment, Payments, PotLine, PotLines, Settlement};
pub use streets::StreetState;
pub use verdicts::{AllIn, HandAudit};
