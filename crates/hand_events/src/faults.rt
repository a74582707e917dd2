//! The rules that an event can break.

use card_sets::Card;

/// Why an event may not follow those before it: the first rule that it breaks, in this order.
#[derive(Clone, Copy, PartialEq, Eq)]
pub enum BetFault {
    /// A post, an act, or a collection by a player who has folded, a post or an act by a player with no
    /// chips left, or a collection by a seat without a player.
    NotInHand,
    /// An act while this seat owes one: the first seat that does between the last actor and the acting
    /// seat.
    OutOfTurn(u8),
    /// An act by a player who may not act: the player owes none and has acted on the street, or betting
    /// isn't open.
    NothingOwed,
    /// A check below the greatest bet of the street. The field is the amount due.
    CheckFacingBet(u64),
    /// A call of an amount that is none of these: the amount due (the field), the amount due up to the big
    /// blind on the first street, or the player's whole stack if it is less than one of them.
    CallAmount(u64),
    /// A bet on a street that has a bet.
    BetFacingBet,
    /// A raise that isn't above the greatest bet (the field), or whose amount is neither the difference to
    /// it nor, on the first street, the difference to the big blind.
    RaiseAmount(u64),
    /// A post or an act of more chips than the player has. The field is the player's stack.
    AboveStack(u64),
    /// The words that a player is all-in while chips are left, or a call, bet, or raise of the last chips
    /// without these words.
    AllInWord,
    /// A marker, a return, a collection, or the first discard of a draw while this seat owes an act.
    StreetEarly(u8),
    /// A marker that isn't the next of its game on its board or comes with one player left; a marker of
    /// two boards in a hand that isn't or may not be run twice; a showdown marker that came before or is
    /// out of order; a showdown or a summary before the last street with two players left; or a discard on
    /// a street without a draw.
    StreetOrder,
    /// A return of an amount that isn't the uncalled one, or to another seat. The field is the uncalled
    /// amount of the whole hand.
    UncalledAmount(u64),
    /// A card that belongs elsewhere, is twice in a bracket, was discarded, or comes to a board again. The
    /// field is the first such card of the event.
    CardTwice(Card),
    /// A post after the marker of the first street, or a bring-in that isn't before the first act of that
    /// street.
    PostLate,
    /// A second line of a seat.
    SeatTwice,
    /// More cards for this seat than the game gives.
    TooManyCards(u8),
}

impl BetFault {
    ghost use Rattle.std.specs.Prelude.{◌≡◌};
    ghost use Rattle.hand_events.specs.BetFaultNames.{fault_name};

    /// Returns the name of the fault, as the report writes it before the fields of the fault.
    pub fn name(&self) -> &'static str
        ensures { result.now ≡ fault_name self.now }
    {
        match self {
            BetFault::NotInHand => "NotInHand",
            BetFault::OutOfTurn(_) => "OutOfTurn",
            BetFault::NothingOwed => "NothingOwed",
            BetFault::CheckFacingBet(_) => "CheckFacingBet",
            BetFault::CallAmount(_) => "CallAmount",
            BetFault::BetFacingBet => "BetFacingBet",
            BetFault::RaiseAmount(_) => "RaiseAmount",
            BetFault::AboveStack(_) => "AboveStack",
            BetFault::AllInWord => "AllInWord",
            BetFault::StreetEarly(_) => "StreetEarly",
            BetFault::StreetOrder => "StreetOrder",
            BetFault::UncalledAmount(_) => "UncalledAmount",
            BetFault::CardTwice(_) => "CardTwice",
            BetFault::PostLate => "PostLate",
            BetFault::SeatTwice => "SeatTwice",
            BetFault::TooManyCards(_) => "TooManyCards",
        }
    }
}
