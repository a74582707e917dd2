//! The table of modes: each mode has a plan, which says what a run in that mode does.

ghost use Rattle.std.specs.Prelude.{◌≡◌};
ghost use Rattle.run_loop.specs.Plans.{cut_of, plan_of};

use crate::block_kinds::{BlockKind, Detail, SpotKind};
use command_words::Mode;
use hand_cuts::CutKind;

/// The sums over all hands of the input.
#[derive(Clone, Copy)]
pub(crate) enum SumKind {
    /// Each player's hands, chips, and all-ins.
    Totals,
    /// The chips that each player won or lost.
    Balance,
}

/// The output for the input that was read.
#[derive(Clone, Copy)]
pub(crate) enum Prints {
    /// One block for each spot or hand.
    Blocks(BlockKind),
    /// One block for all hands.
    Sums(SumKind),
}

/// The plan of a run.
#[derive(Clone, Copy)]
pub(crate) enum Plan {
    /// The run makes hands and reads no input.
    Makes,
    /// The run reads its input and prints this output.
    Reads(Prints),
}

/// Returns the plan of a mode. No other function depends on the mode.
pub(crate) fn plan_of(mode: Mode) -> Plan
    ensures { result ≡ plan_of mode }
{
    match mode {
        Mode::Spots => Plan::Reads(Prints::Blocks(BlockKind::Spots {
            holding: SpotKind::Cards,
        })),
        Mode::Ranges => Plan::Reads(Prints::Blocks(BlockKind::Spots {
            holding: SpotKind::Ranges,
        })),
        Mode::Check => Plan::Reads(Prints::Blocks(BlockKind::Hands {
            told: Detail::Verdict,
        })),
        Mode::Audit => Plan::Reads(Prints::Blocks(BlockKind::Hands {
            told: Detail::AllIn,
        })),
        Mode::Streets => Plan::Reads(Prints::Blocks(BlockKind::Hands {
            told: Detail::LaterStreets,
        })),
        Mode::Results => Plan::Reads(Prints::Blocks(BlockKind::Hands {
            told: Detail::Results,
        })),
        Mode::Settle => Plan::Reads(Prints::Blocks(BlockKind::Hands {
            told: Detail::Settlement,
        })),
        Mode::Totals => Plan::Reads(Prints::Sums(SumKind::Totals)),
        Mode::Balance => Plan::Reads(Prints::Sums(SumKind::Balance)),
        Mode::Made => Plan::Makes,
    }
}

impl Prints {
    /// Returns the kind of unit into which the input is cut for this output.
    pub(crate) fn cut(self) -> CutKind
        ensures { result ≡ cut_of self }
    {
        match self {
            Prints::Blocks(BlockKind::Spots { .. }) => CutKind::Lines,
            Prints::Blocks(BlockKind::Hands { .. }) | Prints::Sums(_) => CutKind::Hands,
        }
    }
}
