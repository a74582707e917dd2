//! Why a line departs.

use hand_events::{BetFault, TextFault};

/// Why a line departs from the rules.
#[derive(Clone, Copy, Drop)]
pub enum Cause {
    /// Its text can't be read.
    Text(TextFault),
    /// Its event may not follow those before it.
    Bet(BetFault),
    /// The stated pot isn't what was counted.
    Chips {
        /// The stated pot, in units.
        stated: u64,
        /// All that was put in, or what was collected and the rake, in units.
        counted: u128,
    },
    /// A payment beyond its tolerance.
    Split {
        /// The seat that was paid.
        seat: u8,
        /// What the seat was due, in units.
        due: u64,
        /// What the seat got, in units.
        got: u64,
    },
    /// The hand has no line with its total.
    Unfinished,
}

impl Cause {
    ghost use Rattle.std.specs.Prelude.{◌≡◌};
    ghost use Rattle.hand_verdict.specs.CauseNames.{cause_name};

    /// Its name, as the report writes it before what the cause carries: that of its fault, where it has one.
    pub fn name(&self) -> &'static str
        ensures { result.now ≡ cause_name self.now }
    {
        match self {
            Cause::Text(fault) => fault.name(),
            Cause::Bet(fault) => fault.name(),
            Cause::Chips { .. } => "Chips",
            Cause::Split { .. } => "Split",
            Cause::Unfinished => "Unfinished",
        }
    }
}
