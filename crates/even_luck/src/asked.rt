//! An all-in with the equity that was asked for it.

ghost use Rattle.std.specs.Prelude.{IsTrue};
ghost use Rattle.even_luck.specs.AllInEquities.{IsOfAllIn-prop};
ghost use Rattle.even_luck.specs.Equities.{IsOfAllIn, is_asked};

use crate::equity::Equity;
use hand_verdict::AllIn;

/// An all-in, and the equity that was asked for it. Both are borrowed, because a tally has 5.6 kB and belongs to the counter.
#[derive(Clone, Copy)]
pub struct AskedAllIn<'a> {
    /// The all-in.
    pub all_in: &'a AllIn,
    /// The equity of its table. If no table is known, any equity may be here, and no call looks at it.
    pub equity: &'a Equity,
    /// The equity was asked for.
    pub ghost asked: { IsTrue (is_asked equity.now) },
    /// The equity is that of the all-in's table.
    pub ghost of: { IsOfAllIn all_in.now equity.now } by { IsOfAllIn-prop all_in.now equity.now },
}
