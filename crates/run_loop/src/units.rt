//! The lines of a spot or a hand, borrowed from the input.

ghost use Rattle.std.specs.Prelude.{◌<◌, ◌+◌, ◌^◌, length};
ghost use Rattle.line_text.specs.Lines.{lines};

use report_table::Form;

/// The lines of one spot or of one hand.
#[derive(Clone, Copy)]
pub(crate) struct UnitText<'a> {
    /// Number of the first line in the input, from 1.
    pub(crate) first: u32,
    /// Bytes of the lines. In a hand, the header line comes first.
    pub(crate) bytes: &'a [u8],
    /// Each of the lines has a number.
    pub(crate) ghost few: { first + length (lines bytes.now) < 2 ^ 32 },
}

/// A spot or a hand that has a block in the report.
#[derive(Clone, Copy)]
pub(crate) struct ListedUnit<'a> {
    /// Form of the report.
    pub(crate) form: Form,
    /// Place of the block among those of the report, from 1.
    pub(crate) place: u64,
    /// Lines of the spot or the hand.
    pub(crate) text: UnitText<'a>,
}
