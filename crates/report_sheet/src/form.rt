//! The forms of the report.

/// The form of a block.
#[derive(Clone, Copy)]
pub enum Form {
    /// Lines of words.
    Text,
    /// Records of thirteen fields, the name of a player last.
    Csv,
}
