//! How many hands and pots a table has.

ghost use Rattle.std.specs.Prelude.{◌≡◌, ◌≤◌, length};
ghost use Rattle.card_sets.specs.State.{state_of};
ghost use Rattle.showdown_tally.specs.Deals.{deal_of};

use card_sets::Known;
use showdown_tally::Table;

/// How many hands there are.
pub fn hand_count(known: &Known) -> u8
    ensures value { result ≡ length (state_of known.now).hands }
    ensures few { result ≤ 10 }
{
    known.hands[..usize::from(known.count)].len() as u8
}

/// How many pots there are.
pub fn pot_count(table: &Table) -> u8
    ensures value { result ≡ length (deal_of table.now).pots }
    ensures few { result ≤ 10 }
{
    table.eligible[..usize::from(table.pots)].len() as u8
}
