//! The name and the unit of the sums in a row.

ghost use Rattle.std.specs.Prelude.{◌≡◌, IfOk};
ghost use Rattle.std.specs.Rc.{rc_slice_items};
ghost use Rattle.player_totals.specs.TotalsSeen.{player_of};

use std::alloc::{AllocError, Global};
use std::rc::RcSlice;

/// A player's name.
#[derive(PartialEq, Eq, PartialOrd, Ord, Drop)]
pub(crate) struct Name {
    /// The bytes of the name. Copies of the name share them.
    pub(crate) bytes: RcSlice<u8>,
}

impl Name {
    /// Creates a name from its bytes.
    pub(crate) fn of(alloc: Global, bytes: &[u8]) -> Result<Name, AllocError>
        ensures { IfOk result (λ name. rc_slice_items name.bytes ≡ bytes.now) }
    {
        Ok(Name {
            bytes: RcSlice::from_slice(alloc, bytes)?,
        })
    }

    /// Returns a copy of the name, which shares its bytes.
    pub(crate) fn copy(&self) -> Result<Name, AllocError>
        ensures { IfOk result (λ name. rc_slice_items name.bytes ≡ rc_slice_items self.now.bytes) }
    {
        Ok(Name {
            bytes: self.bytes.clone()?,
        })
    }
}

/// A name, and the unit of the hands that it is summed over: hundredths, or else chips.
#[derive(Drop)]
pub(crate) struct PlayerKey {
    /// Whether the money of the hands has hundredths.
    pub(crate) hundredths: bool,
    /// The name.
    pub(crate) name: Name,
}

impl PlayerKey {
    /// Returns a copy of the key.
    pub(crate) fn copy(&self) -> Result<PlayerKey, AllocError>
        ensures { IfOk result (λ key. player_of key ≡ player_of self.now) }
    {
        Ok(PlayerKey {
            hundredths: self.hundredths,
            name: self.name.copy()?,
        })
    }
}
