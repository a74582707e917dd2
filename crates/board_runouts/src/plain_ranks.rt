//! The pairs of last cards that make nobody a flush, by their ranks alone.
//!
//! There are three loops. `sum_ranks` adds by codes, and is nearly all of the time of two hands. `count_rows` counts for every pot if there are
//! more than seven outcomes. `count_mains` does the same for the only pot of a game with one side: without it, nine hands before the flop take
//! 1.4 times as long. In each loop every pair is looked up, takes its step, and is added by itself.

ghost use Rattle.std.specs.Prelude.{◌≡◌, ℕ, ◌+◌, ◌^◌, ◌<◌, length, slice_index};
ghost use Rattle.std.specs.List.{sum_by};
ghost use Rattle.runout_ranges.specs.Runouts.{HasMember};
ghost use Rattle.board_ranks.specs.Sieves.{plain_pairs, plain_ranks};
ghost use Rattle.board_runouts.specs.Fronts.{AddPairs, AreRunoutsWith, HasRoom, front_deal};
ghost use Rattle.board_runouts.specs.PlainRanks.{CodesGrow, HasCode, MainsGrow, RowsGrow};

use crate::codes::Codes;
use crate::front::Front;
use crate::packed::{PIECE, put_sum};
use crate::places::put_runout;
use crate::row::Row;
use board_ranks::Pair;
use card_sets::Side;
use runout_walk::all_are_hands;
use showdown_tally::law_values_keep_order;
use std::sync::ledger::Ledger;
use step_count::Steps;

/// Returns the sum of the ones in the fields of the codes of some ranks, each looked up and added by itself. It takes a step for each.
#[inline(never)]
fn sum_ranks<L: Ledger>(codes: &Codes, all: &[u8], steps: &mut Steps<L>) -> u64
    // The ranks are places, and have codes.
    requires inside { (ranks : ℕ) → HasMember all.now ranks → ranks < 169 }
    requires coded { (ranks : ℕ) → HasMember all.now ranks → HasCode codes.now ranks }

    // A field has room for all of them.
    requires few { length all.now < 512 }

    ensures sum { result ≡ sum_by (λ ranks. slice_index codes.now.adds ranks) all.now }
    ensures steps { steps.new ≡ steps.old + length all.now }
{
    let mut sum = 0u64;
    for ranks in all {
        steps.tick();
        sum += codes.adds[usize::from(*ranks)];
    }
    sum
}

/// Counts some ranks by their codes, for each pot, up to 511 at a time. It takes a step for each.
fn count_codes<L: Ledger>(
    front: &Front,
    codes: &Codes,
    all: &[u8],
    counts: &mut [[u32; 2048]],
    steps: &mut Steps<L>,
)
    // The ranks are places, and have codes.
    requires inside { (ranks : ℕ) → HasMember all.now ranks → ranks < 169 }
    requires coded { (ranks : ℕ) → HasMember all.now ranks → HasCode codes.now ranks }

    // Each count has room for all of them.
    requires room { HasRoom front.now counts.old (length all.now) }

    // Each is counted for each pot.
    ensures counts { CodesGrow (front_deal front.now) codes.now all.now counts.old counts.new }
    ensures same { length counts.new ≡ length counts.old }
    ensures steps { steps.new ≡ steps.old + length all.now }
{
    codes.seven();
    let spot = front.spot;
    let mut at = 0;
    while at < all.len() {
        let end = all.len().min(at + PIECE);
        let sum = sum_ranks(codes, &all[at..end], steps);
        put_sum(spot, codes, sum, counts);
        at = end;
    }
}

/// Counts some ranks where a row says who wins the high. It takes a step for each.
#[inline(never)]
fn count_mains<L: Ledger>(row: &Row, all: &[u8], cells: &mut [u32], steps: &mut Steps<L>)
    requires inside { (ranks : ℕ) → HasMember all.now ranks → ranks < 169 }
    requires cells { length cells.old ≡ 2048 }
    requires fits { (place : ℕ) → place < 2048
        → slice_index cells.old place + length all.now < 2 ^ 32 }
    ensures cells { MainsGrow row.now all.now cells.old cells.new }
    ensures same { length cells.new ≡ 2048 }
    ensures steps { steps.new ≡ steps.old + length all.now }
{
    for ranks in all {
        steps.tick();
        let place = row.mains[usize::from(*ranks)];
        cells[usize::from(place)] += 1;
    }
}

/// Counts some ranks where the rows of all pots say who wins. It takes a step for each.
#[inline(never)]
fn count_rows<L: Ledger>(
    front: &Front,
    all: &[u8],
    counts: &mut [[u32; 2048]],
    steps: &mut Steps<L>,
)
    // The ranks are places of a row.
    requires inside { (ranks : ℕ) → HasMember all.now ranks → ranks < 169 }

    // Each count has room for all of them.
    requires room { HasRoom front.now counts.old (length all.now) }

    // Each is counted for each pot.
    ensures counts { RowsGrow (front_deal front.now) front.now.rows.now all.now counts.old counts.new }
    ensures same { length counts.new ≡ length counts.old }
    ensures steps { steps.new ≡ steps.old + length all.now }
{
    for ranks in all {
        steps.tick();
        put_runout(front, usize::from(*ranks), counts);
    }
}

/// Counts the runout with each of those pairs that make nobody a flush. `all` has the ranks of these pairs. It takes a step for each.
#[inline]
pub(crate) fn count_plain<L: Ledger>(
    front: &Front,
    pairs: &[Pair],
    all: &[u8],
    counts: &mut [[u32; 2048]],
    steps: &mut Steps<L>,
)
    requires pairs { AreRunoutsWith front.now pairs.now }

    // These are the ranks of the pairs for which the front's table names no suit.
    requires ranks { all.now ≡ plain_ranks front.now.suits.now pairs.now }
    requires room { HasRoom front.now counts.old (length all.now) }

    // Each of these pairs is counted for each pot.
    ensures counts { AddPairs front.now (plain_pairs front.now.suits.now pairs.now) counts.old counts.new }
    ensures steps { steps.new ≡ steps.old + length all.now }
{
    law_values_keep_order();
    let spot = front.spot;
    all_are_hands(&spot.table);
    if let Some(codes) = front.codes {
        count_codes(front, codes, all, counts, steps);
        return;
    }
    if spot.table.pots == 1 && !spot.table.known.game.has_side(Side::Low) {
        let cells = &mut counts[0];
        let rows = front.rows;
        count_mains(&rows[0], all, cells, steps);
        return;
    }
    count_rows(front, all, counts, steps);
}
