//! Gates that hold workers until other workers have come.

use std::sync::atomic::{AtomicU64, Ordering};
use steal_pool::Gate;

/// A bit for each of the 27 blocks of aces against kings before the flop, of 1,712,304 runouts.
const BLOCKS: u64 = (1 << 27) - 1;

/// The number of turns without a new worker after which a held worker is released.
const TURNS: u64 = 1_000_000_000;

/// Holds the worker that enters the first block until all other blocks are entered. Only another worker
/// can do this meanwhile.
#[derive(Drop)]
pub(crate) struct HoldsTheFirst {
    /// A bit for each block that was entered.
    entered: AtomicU64,
    /// Blocks that were entered twice.
    again: AtomicU64,
    /// Whether the worker was released because nobody came.
    in_vain: AtomicU64,
}

impl HoldsTheFirst {
    pub(crate) fn new() -> HoldsTheFirst {
        HoldsTheFirst {
            entered: AtomicU64::new(0),
            again: AtomicU64::new(0),
            in_vain: AtomicU64::new(0),
        }
    }

    /// Returns whether each block was entered once, and the held worker was released because all others
    /// were entered.
    pub(crate) fn was_released(&self) -> bool {
        self.in_vain.load(Ordering::SeqCst) == 0
            && self.entered.load(Ordering::SeqCst) == BLOCKS
            && self.again.load(Ordering::SeqCst) == 0
    }

    /// Returns when all blocks are entered, or when none was entered for many turns.
    fn hold(&self) {
        let mut seen = 0;
        let mut turns: u64 = 0;
        for _ in 0..u64::MAX {
            let entered = self.entered.load(Ordering::SeqCst);
            if entered == BLOCKS {
                return;
            }
            turns = if entered == seen {
                turns.saturating_add(1)
            } else {
                0
            };
            seen = entered;
            if turns >= TURNS {
                self.in_vain.store(1, Ordering::SeqCst);
                return;
            }
        }
    }
}

impl Gate for HoldsTheFirst {
    fn enter(&self, _worker: u32, block: u32) {
        let bit = 1 << (block % 64);
        let before = self.entered.fetch_or(bit, Ordering::SeqCst);
        self.again.fetch_or(before & bit, Ordering::SeqCst);
        if before == 0 {
            self.hold();
        }
    }
}

/// Holds each worker that enters until four different workers are inside.
#[derive(Drop)]
pub(crate) struct HoldsUntilFour {
    /// A bit for each worker that entered.
    inside: AtomicU64,
    /// Whether a worker was released because nobody came.
    in_vain: AtomicU64,
}

impl HoldsUntilFour {
    pub(crate) fn new() -> HoldsUntilFour {
        HoldsUntilFour {
            inside: AtomicU64::new(0),
            in_vain: AtomicU64::new(0),
        }
    }

    /// Returns whether the workers 0 to 3 were inside at once, and never another one.
    pub(crate) fn were_four(&self) -> bool {
        self.in_vain.load(Ordering::SeqCst) == 0 && self.inside.load(Ordering::SeqCst) == 0b1111
    }
}

impl Gate for HoldsUntilFour {
    fn enter(&self, worker: u32, _block: u32) {
        self.inside.fetch_or(1 << (worker % 64), Ordering::SeqCst);
        for _ in 0..TURNS {
            if self.inside.load(Ordering::SeqCst).count_ones() >= 4 {
                return;
            }
        }
        self.in_vain.store(1, Ordering::SeqCst);
    }
}

/// Whether a worker entered.
#[derive(Drop)]
pub(crate) struct Notes {
    entered: AtomicU64,
}

impl Notes {
    pub(crate) fn new() -> Notes {
        Notes {
            entered: AtomicU64::new(0),
        }
    }

    /// Returns whether a worker entered a block.
    pub(crate) fn has_some(&self) -> bool {
        self.entered.load(Ordering::SeqCst) == 1
    }
}

impl Gate for Notes {
    fn enter(&self, _worker: u32, _block: u32) {
        self.entered.store(1, Ordering::SeqCst);
    }
}
