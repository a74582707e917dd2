//! The size of a stream.

/// The most bytes that a stream may have: 1 GiB. So the numbers of its lines fit 32 bits.
pub const INPUT_MAX: usize = 1_073_741_824;
