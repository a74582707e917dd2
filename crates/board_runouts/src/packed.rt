//! Sums of ones in the fields of codes.

ghost use Rattle.std.specs.Prelude.{◌≡◌, ℕ, ◌+◌, ◌*◌, ◌^◌, ◌<◌, ◌≤◌, ◌==◌, if◌then◌else◌, length, slice_index, true};
ghost use Rattle.card_sets.specs.Games.{has_side};
ghost use Rattle.showdown_tally.specs.Deals.{deal_of};
ghost use Rattle.showdown_tally.specs.SideCounts.{count_at};
ghost use Rattle.board_runouts.specs.Codes.{FieldsGrow};
ghost use Rattle.board_runouts.specs.Fields.{end_of, ends_of, fields_at};

use crate::codes::{Codes, ENDS};
use crate::places::{Place, add_place};
use crate::spot::BoardSpot;
use card_sets::Side;

/// How many pairs a field of a sum has room for.
pub(crate) const PIECE: usize = 511;

/// Counts `times` runouts of an outcome for each pot.
#[inline]
fn put_outcome(spot: &BoardSpot, outcome: &[u16; ENDS], times: u32, counts: &mut [[u32; 2048]])
    requires pots { spot.now.table.pots ≤ 10 }
    requires few { (end : ℕ) → slice_index outcome.now end < 2048 }
    requires counts { 2 * spot.now.table.pots ≤ length counts.old }
    requires fits { (pot place : ℕ) (side : Side) → pot < length (deal_of spot.now.table).pots
        → has_side side spot.now.table.known.game ≡ true → place < 2048
        → count_at counts.old pot side place
        + (if end_of pot side outcome.now == place then times else 0) < 2 ^ 32 }
    ensures counts { (pot place : ℕ) (side : Side) → pot < length (deal_of spot.now.table).pots
        → has_side side spot.now.table.known.game ≡ true → place < 2048
        → count_at counts.new pot side place
        ≡ count_at counts.old pot side place
        + (if end_of pot side outcome.now == place then times else 0) }
    ensures same { length counts.new ≡ length counts.old }
{
    let two_sides = spot.table.known.game.has_side(Side::Low);
    for pot in 0..spot.table.pots {
        let at = 2 * usize::from(pot);
        let main = outcome[at];
        let low = outcome[at + 1];
        let place = Place { main, low };
        add_place(counts, two_sides, pot, place, times);
    }
}

/// Adds the fields of a sum to the counts that their codes stand for, for each pot.
#[inline]
pub(crate) fn put_sum(spot: &BoardSpot, codes: &Codes, sum: u64, counts: &mut [[u32; 2048]])
    requires pots { spot.now.table.pots ≤ 10 }
    requires counts { 2 * spot.now.table.pots ≤ length counts.old }
    requires fits { (pot place : ℕ) (side : Side) → pot < length (deal_of spot.now.table).pots
        → has_side side spot.now.table.known.game ≡ true → place < 2048
        → count_at counts.old pot side place
        + fields_at (ends_of pot side codes.now.ends) sum place < 2 ^ 32 }
    ensures counts { FieldsGrow (deal_of spot.now.table) codes.now sum counts.old counts.new }
    ensures same { length counts.new ≡ length counts.old }
{
    codes.seven();
    let mut rest = sum;
    let ends: &[[u16; ENDS]] = &codes.ends;
    for outcome in ends {
        if rest == 0 {
            return;
        }
        put_outcome(spot, outcome, (rest % 512) as u32, counts);
        rest = rest / 512;
    }
}
