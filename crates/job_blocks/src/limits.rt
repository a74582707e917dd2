//! The size of a block.

/// The number of runouts of each block except the last, which may have fewer.
pub const BLOCK: u64 = 65_536;
