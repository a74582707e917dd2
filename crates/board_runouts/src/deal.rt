//! Tables that have the same deal.

ghost use Rattle.std.specs.Prelude.{◌≡◌, [], length, IsTrue};
ghost use Rattle.card_sets.specs.Games.{has_board};
ghost use Rattle.card_sets.specs.State.{state_of};
ghost use Rattle.runout_ranges.specs.Slots.{unseen};
ghost use Rattle.showdown_tally.specs.Deals.{deal_of};
ghost use Rattle.board_runouts.specs.Boards.{IsBoardAlone};

use card_sets::{CardSet, Game, Known};
use showdown_tally::Table;

/// Whether two lists have the same sets in the same order.
fn same_hands(a: &[CardSet], b: &[CardSet]) -> bool
    ensures { IsTrue result → a.now ≡ b.now }
{
    a == b
}

/// Whether two lists of masks are the same.
fn same_masks(a: &[u16], b: &[u16]) -> bool
    ensures { IsTrue result → a.now ≡ b.now }
{
    a == b
}

/// Whether two tables have the same known cards and the same pots.
pub(crate) fn same_deal(a: &Table, b: &Table) -> bool
    ensures { IsTrue result → deal_of a.now ≡ deal_of b.now }
{
    a.known.game == b.known.game
        && a.known.count == b.known.count
        && a.pots == b.pots
        && a.known.board == b.known.board
        && a.known.dead == b.known.dead
        && same_hands(&a.known.hands, &b.known.hands)
        && same_masks(&a.eligible, &b.eligible)
}

/// A table of no hands and no pots, on which no card may come.
pub(crate) fn no_table() -> Table
    ensures dealt { IsTrue (has_board result.known.game) }
    ensures alone { IsBoardAlone (state_of result.known) }
    ensures hands { length (state_of result.known).hands ≡ 0 }
    ensures pots { result.pots ≡ 0 }
    ensures unseen { unseen (state_of result.known) ≡ [] }
{
    let none = CardSet::empty();
    let known = Known {
        game: Game::Holdem,
        count: 0,
        hands: [none; 10],
        board: none,
        dead: CardSet::deck(),
    };
    Table {
        known,
        pots: 0,
        eligible: [0; 10],
    }
}
