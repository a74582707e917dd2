//! The limits of a count.

/// The most runouts over which an equity is counted.
pub const RUNOUT_MAX: u64 = 200_000_000;

/// Why an equity isn't counted.
#[derive(Clone, Copy, PartialEq, Eq)]
pub enum JobFault {
    /// Fewer cards may come than the board and the hands lack.
    DeckShort,
    /// There are more than `RUNOUT_MAX` runouts.
    AboveLimit,
}
