//! The events of a hand.

use crate::Cards;
use card_sets::{Game, Street};

/// The limit of the bets.
#[derive(Clone, Copy, PartialEq, Eq)]
pub enum Limit {
    /// `No Limit`.
    NoLimit,
    /// `Pot Limit`.
    PotLimit,
    /// `Limit`: the bets have fixed sizes. The first stake is the big blind.
    Fixed,
}

/// The contents of a header line.
#[derive(Clone, Copy, PartialEq, Eq)]
pub struct Header {
    /// The game.
    pub game: Game,
    /// The limit.
    pub limit: Limit,
    /// Whether a unit is a hundredth. Otherwise it is a chip.
    pub hundredths: bool,
    /// The stated big blind, in units.
    pub big: u64,
}

/// The part of a hand in which a line is.
#[derive(Clone, Copy)]
pub enum Part {
    /// The lines up to the first street marker, with it.
    Preamble,
    /// The lines after that, up to the summary marker, with it.
    Play,
    /// The lines after the summary marker.
    Summary,
}

/// The purpose of a post.
#[derive(Clone, Copy, PartialEq, Eq)]
pub enum PostKind {
    /// The small blind.
    Small,
    /// The big blind.
    Big,
    /// The small and the big blind at once.
    Both,
    /// The ante.
    Ante,
    /// The bring-in of a stud game.
    BringIn,
}

/// An act in turn. Amounts are in units, and aren't 0.
#[derive(Clone, Copy, PartialEq, Eq)]
pub enum Act {
    /// The player gives up the hand.
    Fold,
    /// The player puts nothing in.
    Check,
    /// The player calls, and puts this amount in.
    Call(u64),
    /// The player bets this amount.
    Bet(u64),
    /// The player raises.
    Raise {
        /// The difference between the raise and the greatest bet.
        by: u64,
        /// The player's bet on the street after the raise.
        to: u64,
    },
}

/// The pot that a collection names.
#[derive(Clone, Copy)]
pub enum PotName {
    /// `pot`.
    Only,
    /// `main pot`.
    Main,
    /// `side pot`.
    Side,
    /// `side pot-K`, K from 1 to 9.
    SideNumber(u8),
}

/// The board of a marker.
#[derive(Clone, Copy, PartialEq, Eq)]
pub enum BoardNumber {
    /// The only board, or the cards that two boards share.
    Only,
    /// The first of two boards, of a hand that is run twice.
    First,
    /// The second of two boards.
    Second,
}

/// The event of a line. Seats are 1 to 10, and amounts are in the units of the hand: hundredths or
/// chips.
///
/// `read_line` of `history_text` makes the event of a line. An event can also be made field by field,
/// with
/// its cards by [`Cards::of`]:
///
/// ```
/// let flop = Event::Street {
///     street: Street::Flop,
///     board: BoardNumber::Only,
///     cards: Cards::of(&[Card::read(*b"Kh")?, Card::read(*b"9s")?, Card::read(*b"2c")?])?,
/// };
/// ```
#[derive(Drop)]
pub enum Event {
    /// A seat line.
    Seat {
        /// The seat.
        seat: u8,
        /// The stack, in units.
        units: u64,
        /// Where the name begins in the line.
        name_first: usize,
        /// Where the name ends, after its last byte.
        name_end: usize,
    },
    /// The button.
    Button {
        /// The seat of the button.
        seat: u8,
    },
    /// A blind, an ante, or a bring-in.
    Post {
        /// The seat that posts.
        seat: u8,
        /// The purpose of the post.
        kind: PostKind,
        /// The amount.
        units: u64,
        /// Whether the line says that the player is all-in.
        all_in: bool,
    },
    /// Cards dealt to a seat.
    Deal {
        /// The seat that gets the cards.
        seat: u8,
        /// The cards of the line's last bracket.
        cards: Cards,
        /// Whether the cards are in a second bracket, which means that they were drawn.
        drawn: bool,
    },
    /// The marker of a street.
    Street {
        /// The street.
        street: Street,
        /// The board of the marker.
        board: BoardNumber,
        /// The new cards of the board.
        cards: Cards,
    },
    /// An act in turn.
    Act {
        /// The seat that acts.
        seat: u8,
        /// The act.
        act: Act,
        /// Whether the line says that the player is all-in.
        all_in: bool,
        /// The cards shown with a fold.
        shown: Cards,
    },
    /// The return of a bet that nobody called.
    Uncalled {
        /// The seat that gets the chips back.
        seat: u8,
        /// The amount.
        units: u64,
    },
    /// A collection from a pot.
    Collect {
        /// The seat that collects.
        seat: u8,
        /// The amount.
        units: u64,
        /// The pot.
        pot: PotName,
    },
    /// A show of cards.
    Show {
        /// The seat that shows.
        seat: u8,
        /// The cards shown.
        cards: Cards,
    },
    /// A muck: the player shows nothing.
    Muck {
        /// The seat that mucks.
        seat: u8,
    },
    /// The pot and the rake that the summary states.
    Total {
        /// The pot, with the rake.
        units: u64,
        /// The rake.
        rake: u64,
    },
    /// The cards of a seat in the summary.
    SeatCards {
        /// The seat.
        seat: u8,
        /// The cards of the seat.
        cards: Cards,
    },
    /// A discard.
    Discard {
        /// The seat that discards.
        seat: u8,
        /// The number of cards discarded.
        count: u8,
        /// The discarded cards that are shown.
        cards: Cards,
    },
    /// A stand-pat: the player draws no card.
    Pat {
        /// The seat that stands pat.
        seat: u8,
    },
    /// Any other line.
    Remark,
}

/// Why a line is refused.
#[derive(Clone, Copy, PartialEq, Eq, Drop)]
pub enum TextFault {
    /// A header with an unknown game or limit, or with a word before the name that makes it another
    /// game.
    UnknownGame,
    /// A header or a seat line that doesn't have its form.
    BadHeader,
    /// A player's line of no known form, or a line that names no player of the hand, or no pot.
    BadAction,
    /// A line of stars that is no marker of its game.
    BadMarker,
    /// A bracket that isn't closed, contains something other than cards, or has another number of them.
    BadCards,
    /// A line without a required amount, with other text after the amount, or with an amount of 0 that
    /// must not be 0.
    BadAmount,
    /// An amount above the greatest.
    AmountTooLarge,
    /// The hand was cancelled.
    Cancelled,
}

impl TextFault {
    ghost use Rattle.std.specs.Prelude.{◌≡◌};
    ghost use Rattle.hand_events.specs.TextFaultNames.{fault_name};

    /// Returns the name of the fault, as the report writes it.
    pub fn name(self) -> &'static str
        ensures { result.now ≡ fault_name self }
    {
        match self {
            TextFault::UnknownGame => "UnknownGame",
            TextFault::BadHeader => "BadHeader",
            TextFault::BadAction => "BadAction",
            TextFault::BadMarker => "BadMarker",
            TextFault::BadCards => "BadCards",
            TextFault::BadAmount => "BadAmount",
            TextFault::AmountTooLarge => "AmountTooLarge",
            TextFault::Cancelled => "Cancelled",
        }
    }
}
