//! Who wins a pot, by the number of the last hand.

ghost use Rattle.std.specs.Prelude.{◌<◌};

/// Who wins a pot, by how the number of the last hand stands to the greatest of the others: a set of hands each, as the number with
/// their bits.
#[derive(Clone, Copy)]
pub(crate) struct Winners {
    /// The greatest number of the others.
    pub(crate) top: u32,
    /// Who wins where the number of the last hand is below it.
    pub(crate) below: u16,
    /// Where it is the same.
    pub(crate) equal: u16,
    /// Where it is above.
    pub(crate) above: u16,
    /// The first set is one of up to ten hands,
    pub(crate) ghost few_below: { below < 1024 },
    /// and so is the second,
    pub(crate) ghost few_equal: { equal < 1024 },
    /// and the third.
    pub(crate) ghost few_above: { above < 1024 },
}

impl Winners {
    /// Nobody wins.
    pub(crate) fn none() -> Winners {
        Winners {
            top: 0,
            below: 0,
            equal: 0,
            above: 0,
        }
    }
}
