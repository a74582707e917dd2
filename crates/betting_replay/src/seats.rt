//! The chips and cards of each seat, and the acts of its player.

ghost use Rattle.std.specs.Prelude.{◌≡◌};
ghost use Rattle.betting_replay.specs.Table.{no_seat};

use card_sets::{Card, CardSet};

/// The chips of a seat, in units.
#[derive(Clone, Copy)]
pub struct Chips {
    /// Whether the hand has a seat line of the seat.
    pub seated: bool,
    /// Chips left in front of the player.
    pub stack: u64,
    /// Chips put in over the hand: antes and live chips, without returned chips.
    pub paid: u64,
    /// Dead chips put in.
    pub dead: u64,
    /// Live chips put in on the street.
    pub live: u64,
}

/// The acts of the player of a seat.
#[derive(Clone, Copy)]
pub struct Acts {
    /// Whether the player has folded.
    pub folded: bool,
    /// Whether the player has acted on the street.
    pub acted: bool,
    /// Whether the player has brought in on the street.
    pub brought_in: bool,
}

/// The cards dealt to a seat.
#[derive(Clone, Copy)]
pub struct Deals {
    /// The cards dealt on the first street, or before it.
    pub first: CardSet,
    /// The cards dealt on 4th street.
    pub fourth: CardSet,
    /// The cards dealt on 5th street.
    pub fifth: CardSet,
    /// The cards dealt on 6th street.
    pub sixth: CardSet,
    /// The cards dealt alone, which are face up.
    pub up: CardSet,
    /// The cards that weren't drawn.
    pub given: CardSet,
    /// Whether three cards were dealt at once: two face down and one face up.
    pub down: bool,
}

/// How the player of a seat drew.
#[derive(Clone, Copy)]
pub struct SeatDraws {
    /// Whether the player discarded cards that weren't shown.
    pub hidden: bool,
    /// Whether the player stood pat.
    pub pat: bool,
    /// Whether the player discarded five cards at once.
    pub five: bool,
}

/// How the player of a seat drew on the last of several draws.
#[derive(Clone, Copy)]
pub struct LastDraw {
    /// The cards that the player held by the text when the last draw began.
    pub held: CardSet,
    /// Whether the player discarded cards before the last draw that weren't shown.
    pub hidden_before: bool,
    /// The cards that the player discarded face up on the last draw.
    pub thrown: CardSet,
    /// Whether the player discarded cards on the last draw that weren't shown.
    pub hidden: bool,
    /// Whether the player stood pat on the last draw.
    pub pat: bool,
    /// Whether the player discarded five cards at once on the last draw.
    pub five: bool,
}

/// The state of a seat.
#[derive(Clone, Copy)]
pub struct SeatState {
    /// The chips of the seat, in units.
    pub chips: Chips,
    /// The acts of its player.
    pub acts: Acts,
    /// The cards that belong to the seat. Those of number 0 are the board's, or the first board's if there
    /// are two.
    pub own: CardSet,
    /// All cards dealt to the seat.
    pub dealt: CardSet,
    /// The cards that the seat holds by the text: those dealt to it, without later discards face up.
    pub held: CardSet,
    /// The last whole hand that the player showed, or that the summary gives. `None` before there is one,
    /// and again after a discard.
    pub shown: Option<CardSet>,
    /// The cards dealt to the seat, street by street.
    pub deals: Deals,
    /// The last bracket of seven cards that the player showed, or that the summary gives, in its order.
    pub seven_shown: Option<[Card; 7]>,
    /// How the player drew.
    pub draws: SeatDraws,
    /// How the player drew on the last of several draws.
    pub last_draw: LastDraw,
}

impl SeatState {
    /// Returns the state of a seat before any event.
    pub(crate) fn new() -> SeatState
        ensures { result ≡ no_seat }
    {
        SeatState {
            chips: Chips {
                seated: false,
                stack: 0,
                paid: 0,
                dead: 0,
                live: 0,
            },
            acts: Acts {
                folded: false,
                acted: false,
                brought_in: false,
            },
            own: CardSet::empty(),
            dealt: CardSet::empty(),
            held: CardSet::empty(),
            shown: None,
            deals: Deals {
                first: CardSet::empty(),
                fourth: CardSet::empty(),
                fifth: CardSet::empty(),
                sixth: CardSet::empty(),
                up: CardSet::empty(),
                given: CardSet::empty(),
                down: false,
            },
            seven_shown: None,
            draws: SeatDraws {
                hidden: false,
                pat: false,
                five: false,
            },
            last_draw: LastDraw {
                held: CardSet::empty(),
                hidden_before: false,
                thrown: CardSet::empty(),
                hidden: false,
                pat: false,
                five: false,
            },
        }
    }
}
