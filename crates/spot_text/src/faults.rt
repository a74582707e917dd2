//! Why a spot line is refused.

use card_sets::Card;

/// Why a spot line is refused. They are tested in this order over the whole line.
#[derive(Clone, Copy, PartialEq, Eq, Drop)]
pub enum SpotFault {
    /// The first word is no game word, or there is no word.
    UnknownWord,
    /// A word after it is neither a card nor a mark in its place.
    BadCard,
    /// A card stands twice: the first word, from the left, that repeats an earlier one.
    TwiceCard(Card),
    /// A hand hasn't as many cards as the game allows.
    HandSize,
    /// The board hasn't as many cards as the game allows: none, or three, four or five of a board.
    BoardSize,
    /// There are fewer than two hands, or more than ten.
    PlayerCount,
    /// Fewer cards may still come than the board and the hands lack.
    DeckShort,
}

impl SpotFault {
    ghost use Rattle.std.specs.Prelude.{◌≡◌};
    ghost use Rattle.spot_text.specs.FaultNames.{fault_name};

    /// Its name, as the report writes it before what the fault carries.
    pub fn name(&self) -> &'static str
        ensures { result.now ≡ fault_name self.now }
    {
        match self {
            SpotFault::UnknownWord => "UnknownWord",
            SpotFault::BadCard => "BadCard",
            SpotFault::TwiceCard(_) => "TwiceCard",
            SpotFault::HandSize => "HandSize",
            SpotFault::BoardSize => "BoardSize",
            SpotFault::PlayerCount => "PlayerCount",
            SpotFault::DeckShort => "DeckShort",
        }
    }
}
