//! The best of some hands by numbers.

ghost use Rattle.std.specs.Prelude.{◌≡◌, ℕ, ◌<◌, ◌≤◌, if◌then◌else◌, length, slice_index};
ghost use Rattle.card_sets.specs.State.{state_of};
ghost use Rattle.card_sets.specs.PlayerSets.{AreBelow, has_player, hands_below};
ghost use Rattle.showdown_tally.specs.Deals.{deal_of};
ghost use Rattle.showdown_tally.specs.Showdown.{eligible_in};
ghost use Rattle.runout_walk.specs.Bests.{best_set, best_value};

use card_sets::{CardSet, PlayerSet};
use showdown_tally::Table;

/// The greatest number of some hands, and those that have it, as the number with their bits.
#[derive(Clone, Copy)]
pub struct Best {
    /// The number, 0 for no hands.
    pub top: u32,
    /// The hands.
    pub set: u16,
}

/// The number of a hand of a set, and else 0.
#[inline]
fn value_at(values: &[u32; 10], hands: PlayerSet, hand: u8) -> u32
    requires { hand < 10 }
    ensures { result ≡ (if has_player hands hand then slice_index values.now hand else 0) }
{
    if hands.has(hand) {
        values[usize::from(hand)]
    } else {
        0
    }
}

/// The greatest number of the first `count` hands that are in a set.
#[inline]
fn top_of(values: &[u32; 10], hands: PlayerSet, count: u8) -> u32
    requires { count ≤ 10 }
    ensures { result ≡ best_value (slice_index values.now) (hands_below hands count) }
{
    let mut top: u32 = 0;
    for hand in 0..count {
        top = top.max(value_at(values, hands, hand));
    }
    top
}

/// The best of the first `count` hands that are in a set, by numbers of the hands.
#[inline]
pub fn best_of(values: &[u32; 10], hands: PlayerSet, count: u8) -> Best
    requires { count ≤ 10 }
    ensures top { result.top ≡ best_value (slice_index values.now) (hands_below hands count) }
    ensures set { result.set ≡ best_set (slice_index values.now) (hands_below hands count) }
    ensures small { result.set < 1024 }
{
    let top = top_of(values, hands, count);
    let mut set: u16 = 0;
    for hand in 0..count {
        if hands.has(hand) && values[usize::from(hand)] == top {
            set += 1 << hand;
        }
    }
    Best { top, set }
}

/// A law: a table has ten places for hands and for pots.
#[inline]
pub fn ten_places(table: &Table)
    ensures hands { length table.now.known.hands ≡ 10 }
    ensures pots { length table.now.eligible ≡ 10 }
{
    let _hands: &[CardSet] = &table.known.hands;
    let _pots: &[u16] = &table.eligible;
}

/// A law: the eligible hands of a pot are among the hands of the table.
#[inline]
pub fn are_hands(table: &Table, pot: u8)
    requires { pot < table.now.pots }
    ensures { AreBelow (length (state_of table.now.known).hands)
        (eligible_in (deal_of table.now) pot) }
{
    ten_places(table);
}

/// A law: the eligible hands of each pot are among the hands of the table.
#[inline]
pub fn all_are_hands(table: &Table)
    ensures { (pot : ℕ) → pot < table.now.pots
        → AreBelow (length (state_of table.now.known).hands) (eligible_in (deal_of table.now) pot) }
{
    ten_places(table);
}

/// The best of the hands that are eligible in a pot, by numbers of the hands: the greatest number, and who has it.
pub fn pot_best(table: &Table, pot: u8, values: &[u32; 10]) -> Best
    requires { pot < table.now.pots }
    ensures best { (value : ℕ → ℕ)
        → ((h : ℕ) → h < length (state_of table.now.known).hands
        → slice_index values.now h ≡ value h)
        → (result.top ≡ best_value value (eligible_in (deal_of table.now) pot))
        × (result.set ≡ best_set value (eligible_in (deal_of table.now) pot)) }
    ensures small { result.set < 1024 }
{
    ten_places(table);
    let hands = PlayerSet::of(table.eligible[pot as usize]);
    best_of(values, hands, table.known.count)
}
