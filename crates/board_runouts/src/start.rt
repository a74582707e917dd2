//! The first cards of a board and their ranks, by which rows and codes are found.

ghost use Rattle.std.specs.Prelude.{◌≡◌, ℕ, ◌<◌, ◌≤◌, ◌∷◌, ◌++◌, [], List, length, slice_index, slice_index_or};
ghost use Rattle.card_sets.specs.Cards.{IsRising, rank_of};
ghost use Rattle.card_sets.specs.Games.{own_size};
ghost use Rattle.card_sets.specs.State.{state_of};
ghost use Rattle.board_runouts.specs.Boards.{AreFirst};
ghost use Rattle.board_runouts.specs.SideRows.{AreRanksOf};

use crate::row::{last_rank, ranks_of};
use crate::spot::BoardSpot;
use card_sets::CardSet;

/// The first cards of a board, with their ranks.
#[derive(Clone, Copy)]
pub(crate) struct Start<'a> {
    /// The table.
    pub(crate) spot: &'a BoardSpot,
    /// The first cards.
    pub(crate) taken: CardSet,
    /// Their ranks, up to three, and 13 in each place after them.
    pub(crate) ranks: [u8; 3],
    /// The rank of the last of them. No later card has a lower rank.
    pub(crate) least: u8,
    /// The board lacks two more cards.
    pub(crate) ghost first: { AreFirst (state_of spot.now.table.known) taken },
    /// Each hand has all its own cards.
    pub(crate) ghost own: { (h : ℕ) → h < length (state_of spot.now.table.known).hands
        → length (slice_index_or (state_of spot.now.table.known).hands h [])
        ≡ own_size spot.now.table.known.game },
    /// The ranks are those of the cards.
    pub(crate) ghost ranks_are: { AreRanksOf ranks taken },
    /// A rank is at most 13.
    pub(crate) ghost bounds: { (place : ℕ) → slice_index ranks place < 14 },
    /// No card above the first ones has a lower rank than the least.
    pub(crate) ghost from_least: { (card : ℕ) (more : List ℕ) → IsRising (taken ++ card ∷ more) → least ≤ rank_of card },
}

impl<'a> Start<'a> {
    /// Makes the start of some first cards.
    #[inline]
    pub(crate) fn of(spot: &'a BoardSpot, taken: CardSet) -> Start<'a>
        requires first { AreFirst (state_of spot.now.table.known) taken }
        requires own { (h : ℕ) → h < length (state_of spot.now.table.known).hands
            → length (slice_index_or (state_of spot.now.table.known).hands h [])
            ≡ own_size spot.now.table.known.game }
        ensures spot { result.spot.now ≡ spot.now }
        ensures taken { result.taken ≡ taken }
    {
        Start {
            spot,
            taken,
            ranks: ranks_of(taken),
            least: last_rank(taken),
        }
    }
}
