//! Where a walk over the slots of a runout stands.

use crate::leaf::OpenSlot;
use card_sets::CardSet;
use runout_ranges::Slot;

/// A slot that is being dealt, when the slots before it have their cards.
#[derive(Clone, Copy)]
pub(crate) struct Branch<'a> {
    /// Its place among the slots, from 0.
    pub(crate) slot: usize,
    /// The slots after it.
    pub(crate) later: &'a [Slot],
    /// In how many ways these can be filled once it has its cards.
    pub(crate) each: u64,
    /// The cards that the slots before it left.
    pub(crate) unseen: CardSet,
    /// What it has, and what may come to it.
    pub(crate) tail: OpenSlot,
}

/// Some of the runouts that go on from a branch: those of their listing from one place to another.
#[derive(Clone, Copy)]
pub(crate) struct Places {
    /// The first place.
    pub(crate) lo: u64,
    /// The place after the last.
    pub(crate) hi: u64,
}
