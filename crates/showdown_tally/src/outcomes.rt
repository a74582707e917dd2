//! Who wins a pot, as one number: that with the bits of the winners.

ghost use Rattle.std.specs.Prelude.{◌≡◌, ℕ, ◌<◌, ◌≤◌, ◌^◌, ◌==◌, ◌&&◌, List};
ghost use Rattle.std.specs.Int.{bit_at};
ghost use Rattle.card_sets.specs.State.{state_of};
ghost use Rattle.card_sets.specs.declared.games.Side.{Side};
ghost use Rattle.showdown_tally.specs.Deals.{deal_of};
ghost use Rattle.card_sets.specs.PlayerSets.{set_of_players};
ghost use Rattle.showdown_tally.specs.Settling.{is_top, tops_of};
ghost use Rattle.showdown_tally.specs.Sides.{side_outcome, AreSideNumbersAfter};

use crate::laws::law_values_keep_order;
use crate::runout::ten_places;
use crate::settle::{is_top, top_value};
use crate::table::Table;
use card_sets::{PlayerSet, Side};

/// Whether a hand is eligible and has the greatest value.
#[inline]
fn wins(value: Option<u32>, top: Option<u32>, hands: PlayerSet, hand: u8) -> bool
    requires { hand < 10 }
    ensures { result ≡ ((bit_at hands hand == 1) && is_top value top) }
{
    hands.has(hand) && is_top(value, top)
}

/// The hands that have the greatest value.
#[inline]
fn winner_set(values: &[Option<u32>; 10], hands: PlayerSet, count: u8) -> PlayerSet
    requires { count ≤ 10 }
    ensures value { result ≡ set_of_players (tops_of values.now hands count) }
    ensures small { result < 2 ^ count }
{
    let top = top_value(values, hands, count);
    PlayerSet::passing(count, |hand| wins(values[hand as usize], top, hands, hand))
}

/// Who wins a side of a pot after each runout that gives the hands these values on it: bit i is set
/// where hand i does.
#[inline]
pub fn side_outcome(table: &Table, side: Side, values: &[Option<u32>; 10], pot: u8) -> u16
    requires { pot < table.now.pots }
    ensures value { (runout : List (List ℕ))
        → AreSideNumbersAfter side (state_of table.now.known) runout values.now
        → result ≡ side_outcome side (deal_of table.now) pot runout }
    ensures small { result < 1024 }
    ensures few { table.now.known.count ≤ 5 → result < 32 }
{
    law_values_keep_order();
    ten_places(table);
    let hands = PlayerSet::of(table.eligible[pot as usize]);
    winner_set(values, hands, table.known.count).bits()
}
