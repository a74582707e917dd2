//! The units of a stream.

/// The kind of the units of a stream.
#[derive(Clone, Copy, PartialEq, Eq)]
pub enum CutKind {
    /// Hands: a header line and the lines before the next one.
    Hands,
    /// Lines.
    Lines,
}

/// A hand or a line, by its places in the bytes of the cutter: it is `first..end`, with the newline
/// of its last line.
#[derive(Clone, Copy)]
pub struct Unit {
    /// Where the unit begins.
    pub first: usize,
    /// Where the unit ends, after its last byte.
    pub end: usize,
    /// The number of its first line in the stream, from 1.
    pub first_line: u32,
}
