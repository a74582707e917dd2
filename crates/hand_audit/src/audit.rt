//! The verdict on a hand.

ghost use Rattle.std.specs.Prelude.{◌≡◌, ◌+◌, ◌<◌, ◌^◌, IfOk, IsTrue, Some, length};
ghost use Rattle.line_text.specs.Lines.{lines};
ghost use Rattle.hand_audit.specs.Departs.{begins_hand};
ghost use Rattle.hand_audit.specs.Streets.{has_known_all_in, states_in};
ghost use Rattle.hand_audit.specs.Verdict.{audit_of};

use crate::read::read_hand;
use card_sets::Memory;
use hand_verdict::{HandAudit, StreetState};
use std::alloc::Global;

/// The verdict on a hand: the first line that departs from the rules and why, or else what became of
/// the chips. The bytes are the lines of the hand, its header line first; that line has the number
/// `first_line`, and the others count on from it.
pub fn audit_hand(alloc: Global, bytes: &[u8], first_line: u32) -> Result<HandAudit, Memory>
    requires header { IsTrue (begins_hand (lines bytes.now)) }
    requires numbers { first_line + length (lines bytes.now) < 2 ^ 32 }
    ensures verdict { IfOk result (λ audit. audit_of first_line (lines bytes.now) ≡ Some audit) }
{
    let hand = read_hand(alloc, bytes)?;
    Ok(hand.into_verdict(first_line).audit)
}

/// The later streets of a hand that `audit_hand` on these arguments accepts with a known all-in: those
/// that begin in the text after the all-in point and before any showdown's marker, in order, each with
/// what is known on it. Contenders, pots and dead cards are those of the all-in; of two boards the first
/// one counts.
pub fn later_streets(
    alloc: Global,
    bytes: &[u8],
    first_line: u32,
) -> Result<Vec<StreetState>, Memory>
    requires header { IsTrue (begins_hand (lines bytes.now)) }
    requires accepted { IsTrue (has_known_all_in (audit_of first_line (lines bytes.now))) }
    ensures { IfOk result (λ states. states.items ≡ states_in (lines bytes.now)) }
{
    let _ = first_line;
    let hand = read_hand(alloc, bytes)?;
    hand.later_streets(alloc)
}
