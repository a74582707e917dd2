//! A table whose board alone lacks cards.

ghost use Rattle.std.specs.Prelude.{◌≡◌, ℕ, ◌<◌, ◌≤◌, [], length, slice_index, slice_index_or, true, IsTrue};
ghost use Rattle.card_sets.specs.Cards.{IsCardSet};
ghost use Rattle.card_sets.specs.Games.{has_board};
ghost use Rattle.card_sets.specs.State.{state_of};
ghost use Rattle.runout_ranges.specs.Slots.{unseen};
ghost use Rattle.showdown_tally.specs.Deals.{deal_of};
ghost use Rattle.board_runouts.specs.Boards.{IsBoardAlone};
ghost use Rattle.board_ranks.specs.Suits.{AreMost};

use crate::deal::no_table;
use board_ranks::most_of;
use card_sets::Known;
use runout_walk::ten_places;
use showdown_tally::Table;

/// A table whose board alone lacks cards, with what is looked up at each pair.
#[derive(Clone, Copy)]
pub(crate) struct BoardSpot {
    /// The table.
    pub(crate) table: Table,
    /// For each suit the most cards for a flush that a hand has with the known board.
    pub(crate) most: [u32; 4],
    /// The game has a board.
    pub(crate) ghost dealt: { has_board table.known.game ≡ true },
    /// The board alone lacks cards.
    pub(crate) ghost alone: { IsBoardAlone (state_of table.known) },
    /// No hand has more cards of a suit than `most` says.
    pub(crate) ghost greatest: { AreMost (state_of table.known) most },
    /// A count is at most that of two sets of cards.
    pub(crate) ghost few: { (s : ℕ) → slice_index most s ≤ 104 },
    /// The board is a set.
    pub(crate) ghost board: { IsCardSet table.known.board },
    /// The hands are sets.
    pub(crate) ghost hands: { (h : ℕ) → h < length (state_of table.known).hands
        → IsCardSet (slice_index_or (state_of table.known).hands h []) },
    /// The deal has a pot for each pot of the table.
    pub(crate) ghost pots: { length (deal_of table).pots ≡ table.pots },
}

/// Each hand is a set.
fn hands_are_sets(known: &Known)
    ensures { (h : ℕ) → h < length (state_of known.now).hands
        → IsCardSet (slice_index_or (state_of known.now).hands h []) }
{
    let hands = &known.hands[..known.count as usize];
    for own in hands {
        own.rising();
    }
}

impl BoardSpot {
    /// Makes the spot of a table whose board alone lacks cards.
    pub(crate) fn of(table: &Table) -> BoardSpot
        requires dealt { IsTrue (has_board table.now.known.game) }
        requires alone { IsBoardAlone (state_of table.now.known) }
        ensures { result.table ≡ table.now }
    {
        ten_places(table);
        table.known.board.rising();
        hands_are_sets(&table.known);
        let most = most_of(&table.known);
        BoardSpot {
            table: *table,
            most,
        }
    }

    /// Makes the spot of the table of no hands.
    pub(crate) fn none() -> BoardSpot
        ensures { unseen (state_of result.table.known) ≡ [] }
    {
        BoardSpot::of(&no_table())
    }
}
