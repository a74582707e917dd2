//! Why a report isn't written whole.

use byte_ends::Failed;
use card_sets::Memory;

/// Why a report wasn't written whole.
#[derive(Clone, Copy)]
pub(crate) enum WriteFault {
    /// A write failed.
    Failed,
    /// Out of memory.
    Memory,
}

impl From<Failed> for WriteFault {
    ghost use Rattle.std.specs.Prelude.{◌≡◌};
    ghost use Rattle.run_loop.specs.declared.write_fault.WriteFault.TheVariants.{Failed};

    ghost from_gives = { λ _ e. e ≡ Failed };

    fn from(_: Failed) -> WriteFault {
        WriteFault::Failed
    }
}

impl From<Memory> for WriteFault {
    ghost use Rattle.std.specs.Prelude.{◌≡◌};
    ghost use Rattle.run_loop.specs.declared.write_fault.WriteFault.TheVariants.{Memory};

    ghost from_gives = { λ _ e. e ≡ Memory };

    fn from(_: Memory) -> WriteFault {
        WriteFault::Memory
    }
}
