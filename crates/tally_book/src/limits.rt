//! The most blocks.

use job_blocks::{BLOCK, RUNOUT_MAX};

/// The number of words of 64 bits in the set of a part.
pub const WORDS: usize = 48;

/// The number of blocks for which the set has room, 64 in each word. No job has more.
pub const BLOCKS_MAX: u32 = 3072;

const _: () = prove!((RUNOUT_MAX + (BLOCK - 1)) / BLOCK <= BLOCKS_MAX as u64);
