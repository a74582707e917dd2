//! The chips that a player put in, the chips in a pot, and the part of a winner.

/// The chips that the player of a seat put in.
#[derive(Clone, Copy)]
pub struct Paid {
    /// The seat, 1 to 10.
    pub seat: u8,
    /// Antes and live chips, without returned chips, in units.
    pub live: u64,
    /// Dead chips, in units.
    pub dead: u64,
    /// Whether the player hasn't folded.
    pub contender: bool,
}

/// A pot.
#[derive(Clone, Copy, PartialEq, Eq)]
pub struct Pot {
    /// The chips in the pot, in units.
    pub units: u64,
    /// The eligible players: bit s for seat s.
    pub eligible: u16,
}

/// The winners of the sides of a pot: bit s for seat s, and no bit if a side has no winner.
#[derive(Clone, Copy)]
pub struct SideWinners {
    /// The winners of the high, or of the only side.
    pub high: u16,
    /// The winners of the low.
    pub low: u16,
}

/// The part of a winner in a pot.
#[derive(Clone, Copy, PartialEq, Eq)]
pub struct Share {
    /// The seat.
    pub seat: u8,
    /// The units.
    pub units: u64,
    /// The number of sides that the seat wins.
    pub sides: u8,
}
