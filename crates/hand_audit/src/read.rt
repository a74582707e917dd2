//! A hand that was read. One reading of its lines gives the verdict, the later streets, the chips of each seat, and the shares of
//! its pots, each by a call of its own.

ghost use Rattle.std.specs.Prelude.{◌≡◌, ℕ, ◌+◌, ◌<◌, ◌^◌, List, IfOk, IsTrue, Some};
ghost use Rattle.line_text.specs.Lines.{lines};
ghost use Rattle.hand_verdict.specs.declared.cause.Cause.TheVariants.{Split};
ghost use Rattle.hand_verdict.specs.declared.verdicts.HandAudit.{HandAudit};
ghost use Rattle.hand_audit.specs.Departs.{begins_hand};
ghost use Rattle.hand_audit.specs.HandReads.{EndsIn, IsReadOf};
ghost use Rattle.hand_audit.specs.Lines.{SoFar};
ghost use Rattle.hand_audit.specs.Showings.{showing_of};
ghost use Rattle.hand_audit.specs.SettlementAnswers.{IsOfHand};
ghost use Rattle.hand_audit.specs.Keeping.{Keeps};
ghost use Rattle.hand_audit.specs.SeatChips.{chips_of};
ghost use Rattle.hand_audit.specs.SplitHands.{parts_given, split_by, split_of};
ghost use Rattle.hand_audit.specs.Streets.{streets_of};
ghost use Rattle.hand_audit.specs.Verdict.{accepted_by, audit_of, settlement_of};

use crate::all_in::all_in_by;
use crate::ended::EndedHand;
use crate::first_pass::players_of;
use crate::follow::{Followed, follow};
use crate::hand::AuditState;
use crate::seat_chips::{all_chips_on, no_chips};
use crate::settling::HandSettled;
use crate::streets::states_of;
use card_sets::{Memory, PlayerSet};
use hand_verdict::{
    Cause, HandAudit, PartShares, Payment, SeatChips, Settlement, SplitHand, StreetState, Verdict,
};
use history_text::{Header, Names, read_header};
use line_text::next_line;
use std::alloc::{AllocError, Global};

/// The end of a reading.
#[derive(Drop)]
enum HandEnd {
    /// A line departs, and not for its payments.
    Departs {
        /// The reason.
        cause: Cause,
        /// Whether a unit is a hundredth of the currency, not a chip; false if the header line departs.
        hundredths: bool,
    },
    /// No line departs before the end, and the chips are settled.
    Ends(EndedHand),
}

/// A hand that was read to its end or to the line that departs. It borrows nothing and knows no line number.
#[derive(Drop)]
pub struct HandRead {
    /// Number of the lines that were read after the header line.
    pub lines: usize,
    /// The end of the reading.
    end: HandEnd,
}

/// Returns the settlement of a hand.
fn settlement_of(header: &Header, state: &AuditState, settled: HandSettled) -> Settlement
    ensures { (players : ℕ) (so_far : SoFar) → Keeps state.now header.now players so_far
        → IsOfHand (showing_of header.now players so_far.events) settled
        → result ≡ settlement_of header.now players so_far.events }
{
    Settlement {
        game: header.game,
        hundredths: header.hundredths,
        rake: state.rake,
        fits: settled.fits,
        twice: state.replay.is_twice(),
        pots: settled.pots,
        paid: settled.paid,
    }
}

/// Returns the settlement of a hand that is rejected for its payments alone, with its names and players.
fn split_hand(
    header: &Header,
    players: PlayerSet,
    state: &AuditState,
    names: Names,
    settled: HandSettled,
) -> SplitHand
    ensures { (so_far : SoFar) → Keeps state.now header.now players so_far
        → names ≡ so_far.names
        → IsOfHand (showing_of header.now players so_far.events) settled
        → result ≡ split_by header.now players so_far }
{
    SplitHand {
        settlement: settlement_of(header, state, settled),
        names,
        players: players.bits(),
    }
}

/// Returns the verdict on a hand in which no line departs.
fn accepted(
    header: &Header,
    players: PlayerSet,
    state: &AuditState,
    names: Names,
    settled: HandSettled,
) -> HandAudit
    ensures { (so_far : SoFar) → Keeps state.now header.now players so_far
        → names ≡ so_far.names
        → IsOfHand (showing_of header.now players so_far.events) settled
        → result ≡ accepted_by header.now players so_far }
{
    let all_in = all_in_by(header.game, &state.replay, &settled.pots);
    HandAudit::Accepted {
        settlement: settlement_of(header, state, settled),
        all_in,
        names,
        players: players.bits(),
    }
}

/// Returns the reason for which the last line of a hand with this payment departs.
fn split_cause(pay: Payment) -> Cause
    ensures { result ≡ Split pay.seat pay.due pay.got }
{
    Cause::Split {
        seat: pay.seat,
        due: pay.due,
        got: pay.got,
    }
}

/// Returns the verdict on a hand whose chips are settled. Its last line has the number `last`.
fn ended_verdict(hand: EndedHand, last: u32) -> Verdict
    ensures audit { (all : List (List ℕ)) (first count : ℕ) → EndsIn all count hand
        → last ≡ first + count → audit_of first all ≡ Some result.audit }
    ensures split { (all : List (List ℕ)) (count : ℕ) → EndsIn all count hand
        → result.split ≡ split_of result.audit all }
{
    let EndedHand {
        header,
        players,
        names,
        state,
        settled,
    } = hand;
    let state = state.as_ref();
    if let Some(pay) = settled.beyond {
        return Verdict {
            audit: HandAudit::Rejected {
                line: last,
                cause: split_cause(pay),
                hundredths: header.hundredths,
            },
            split: Some(split_hand(&header, players, state, names, settled)),
        };
    }
    Verdict {
        audit: accepted(&header, players, state, names, settled),
        split: None,
    }
}

/// Returns the later streets of a hand whose chips are settled; none if a payment departs.
fn ended_streets(alloc: Global, hand: &EndedHand) -> Result<Vec<StreetState>, Memory>
    ensures { IfOk result (λ states. (first count : ℕ) (all : List (List ℕ)) (audit : HandAudit)
        → EndsIn all count hand.now → audit_of first all ≡ Some audit
        → states.items ≡ streets_of audit all) }
{
    let state = hand.state.as_ref();
    match hand.settled.beyond {
        Some(_) => Ok(Vec::new(alloc)),
        None => {
            let states = states_of(alloc, &hand.header, state, &hand.settled)?;
            Ok(states)
        }
    }
}

/// Returns the chips of each seat of a hand whose chips are settled; none if a payment departs.
fn ended_chips(hand: &EndedHand) -> [SeatChips; 11]
    ensures { (first count : ℕ) (all : List (List ℕ)) (audit : HandAudit)
        → EndsIn all count hand.now → audit_of first all ≡ Some audit
        → result ≡ chips_of audit all }
{
    let state = hand.state.as_ref();
    match hand.settled.beyond {
        Some(_) => no_chips(),
        None => all_chips_on(&state.replay),
    }
}

/// Copies the shares of the parts of some pots.
fn copy_parts(alloc: Global, all: &[PartShares]) -> Result<Vec<PartShares>, AllocError>
    ensures { IfOk result (λ parts. parts.items ≡ all.now) }
{
    let mut parts = Vec::new(alloc);
    for one in all {
        let mut shares = Vec::new(alloc);
        shares.extend_from_slice(one.items())?;
        parts.push(PartShares::of(shares))?;
    }
    Ok(parts)
}

/// Reads a hand, to its end or to the line that departs. The bytes are the lines of the hand, its header line first.
pub fn read_hand(alloc: Global, bytes: &[u8]) -> Result<HandRead, Memory>
    requires header { IsTrue (begins_hand (lines bytes.now)) }
    ensures read { IfOk result (λ hand. IsReadOf hand (lines bytes.now)) }
{
    let Some(head) = next_line(bytes, 0) else {
        unreachable!();
    };
    let header = match read_header(&bytes[head.first..head.end]) {
        Ok(header) => header,
        Err(fault) => {
            return Ok(HandRead {
                lines: 0,
                end: HandEnd::Departs {
                    cause: Cause::Text(fault),
                    hundredths: false,
                },
            });
        }
    };
    let found = players_of(alloc, &header, bytes, head.next)?;
    let players = found.players;
    match follow(alloc, &header, found, bytes, head.next)? {
        Followed::Departs(count, cause) => Ok(HandRead {
            lines: count,
            end: HandEnd::Departs {
                cause,
                hundredths: header.hundredths,
            },
        }),
        Followed::Ends(count, state, names, settled) => Ok(HandRead {
            lines: count,
            end: HandEnd::Ends(EndedHand {
                header,
                players,
                names,
                state,
                settled,
            }),
        }),
    }
}

impl HandRead {
    /// Returns the verdict on the hand. The header line has the number `first_line`.
    pub fn into_verdict(self, first_line: u32) -> Verdict
        requires numbers { first_line + self.lines < 2 ^ 32 }
        ensures audit { (all : List (List ℕ)) → IsReadOf self all
            → audit_of first_line all ≡ Some result.audit }
        ensures split { (all : List (List ℕ)) → IsReadOf self all
            → result.split ≡ split_of result.audit all }
    {
        let HandRead { lines, end } = self;
        let last = first_line + lines as u32;
        match end {
            HandEnd::Departs { cause, hundredths } => Verdict {
                audit: HandAudit::Rejected {
                    line: last,
                    cause,
                    hundredths,
                },
                split: None,
            },
            HandEnd::Ends(hand) => ended_verdict(hand, last),
        }
    }

    /// Returns the later streets of an accepted hand, each with what is known on it. They begin in the text after the all-in
    /// point and before any showdown's marker. A rejected hand has none.
    pub fn later_streets(&self, alloc: Global) -> Result<Vec<StreetState>, Memory>
        ensures { IfOk result (λ states. (first : ℕ) (all : List (List ℕ)) (audit : HandAudit)
            → IsReadOf self.now all → audit_of first all ≡ Some audit
            → states.items ≡ streets_of audit all) }
    {
        match &self.end {
            HandEnd::Ends(hand) => ended_streets(alloc, hand),
            HandEnd::Departs { .. } => Ok(Vec::new(alloc)),
        }
    }

    /// Returns what each seat of an accepted hand had and put in: the chips of its seat line, and its antes, posts, dead chips,
    /// calls, and bets, less what came back to it. In a rejected hand nobody had or put in anything.
    pub fn chips(&self) -> [SeatChips; 11]
        ensures { (first : ℕ) (all : List (List ℕ)) (audit : HandAudit)
            → IsReadOf self.now all → audit_of first all ≡ Some audit
            → result ≡ chips_of audit all }
    {
        match &self.end {
            HandEnd::Ends(hand) => ended_chips(hand),
            HandEnd::Departs { .. } => no_chips(),
        }
    }

    /// Returns the shares of the parts of each pot of a hand that is accepted or rejected for its payments alone. A pot has none
    /// if its winners aren't known, or if only one player may win it. Any other hand has no pots here.
    pub fn parts(&self, alloc: Global) -> Result<Vec<PartShares>, Memory>
        ensures { IfOk result (λ parts. (first : ℕ) (all : List (List ℕ)) (audit : HandAudit)
            → IsReadOf self.now all → audit_of first all ≡ Some audit
            → parts.items ≡ parts_given audit all) }
    {
        match &self.end {
            HandEnd::Ends(hand) => {
                let parts = copy_parts(alloc, &hand.settled.parts)?;
                Ok(parts)
            }
            HandEnd::Departs { .. } => Ok(Vec::new(alloc)),
        }
    }
}
