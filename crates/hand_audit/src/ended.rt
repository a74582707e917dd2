//! A hand that was read to its end.

ghost use Rattle.hand_audit.specs.SeatChips.{AreWithin};

use crate::hand::AuditState;
use crate::settling::HandSettled;
use card_sets::PlayerSet;
use history_text::{Header, Names};

/// What is kept of a hand whose chips are settled.
#[derive(Drop)]
pub(crate) struct EndedHand {
    /// What its header line says.
    pub(crate) header: Header,
    /// The players.
    pub(crate) players: PlayerSet,
    /// The seats and names of all seat lines before the first street, in their order.
    pub(crate) names: Names,
    /// The state after its last line. It is large, so it lies behind a pointer and isn't copied with the hand.
    pub(crate) state: Box<AuditState>,
    /// The settlement of its chips, and the first payment beyond its tolerance.
    pub(crate) settled: HandSettled,
    /// No seat has more than a seat line may give.
    pub(crate) ghost within: { AreWithin state.value.replay },
}
