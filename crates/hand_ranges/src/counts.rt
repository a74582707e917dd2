//! The count of ranges.

ghost use Rattle.std.specs.Prelude.{◌≡◌, ℕ, ◌+◌, ◌*◌, ◌<◌, ◌≤◌, ◌^◌, [], length, false, IfOk};
ghost use Rattle.runout_ranges.specs.declared.limits.TheConstants.{RUNOUT_MAX};
ghost use Rattle.showdown_tally.specs.Tallies.{Counts, runouts_after};
ghost use Rattle.range_lines.specs.Choices.{are_above, deal_of_choice, most_choices, runouts_of_choice};
ghost use Rattle.range_lines.specs.Counted.{IsCountOf};
ghost use Rattle.range_lines.specs.Sound.{IsSound};
ghost use Rattle.range_lines.specs.RangeSpot.{ranges_in};
ghost use Rattle.hand_ranges.specs.Taken.{chosen};
ghost use Rattle.range_lines.specs.Walks.{AreFew, AreNoneBeyond, GrowsBy, IsAllOf, IsWalk, IsWithin, added, all_added};

use crate::boards::count_by_boards;
use crate::empty::{four_places, no_tally};
use crate::sums::add_count;
use crate::taken::Taken;
use card_sets::Memory;
use equity_job::{Job, RUNOUT_MAX, Scratch, count_job};
use range_lines::{Range, RangeJobFault, RangeSpot, RangeTally};
use runout_ranges::count_choices;
use showdown_tally::Tally;
use std::alloc::Global;

/// Makes a tally the whole count of a choice.
fn count_choice(spot: &RangeSpot, taken: &Taken, scratch: &mut Scratch, tally: &mut Tally)
    requires walk { IsWalk (ranges_in spot.now) [] (chosen taken.now) }
    ensures { let deal = deal_of_choice spot.now.board spot.now.dead (chosen taken.now) in
        Counts deal (runouts_after deal.state) tally.new }
{
    taken.facts();
    let table = taken.table(spot.board, spot.dead);
    match Job::make(&table) {
        Ok(job) => count_job(&job, scratch, tally),
        Err(_) => unreachable!(),
    }
}

/// Adds the whole count of a choice, as often as it counts.
fn add_choice(
    spot: &RangeSpot,
    taken: &Taken,
    scratch: &mut Scratch,
    tally: &mut Tally,
    total: &mut RangeTally,
)
    // One hand of each range is taken.
    requires walk { IsWalk (ranges_in spot.now) [] (chosen taken.now) }

    // The tally has room for one choice more.
    requires few { total.old.choices < RUNOUT_MAX }
    requires within { IsWithin total.old }

    // It grows by what the choice adds.
    ensures grows { GrowsBy total.old total.new (added (ranges_in spot.now) (chosen taken.now)) }
    ensures within { IsWithin total.new }
{
    taken.facts();
    count_choice(spot, taken, scratch, tally);
    add_count(total, taken.count, taken.weight, tally);
}

/// Adds the whole counts of the choices that go on from some hands, each as often as it counts.
fn add_choices(
    spot: &RangeSpot,
    ranges: &[Range],
    taken: &Taken,
    scratch: &mut Scratch,
    tally: &mut Tally,
    total: &mut RangeTally,
)
    // One hand of each of the first ranges is taken.
    requires walk { IsWalk (ranges_in spot.now) ranges.now (chosen taken.now) }

    // The tally has room for all choices that may go on from them.
    requires few { total.old.choices + most_choices ranges.now ≤ RUNOUT_MAX }
    requires within { IsWithin total.old }

    // It grows by what those choices add in which no card is in two hands.
    ensures grows { GrowsBy total.old total.new
        (all_added (ranges_in spot.now) ranges.now (chosen taken.now)) }
    ensures within { IsWithin total.new }
    ensures few { total.new.choices ≤ total.old.choices + most_choices ranges.now }
{
    let [range, others @ ..] = ranges else {
        add_choice(spot, taken, scratch, tally, total);
        return;
    };
    taken.facts();
    let hands = range.hands();
    for w in hands {
        if taken.is_apart(w.hand) {
            let more = taken.with(*w, None);
            add_choices(spot, others, &more, scratch, tally, total);
        }
    }
}

/// How many choices there are, those that share a card too.
fn most_choices(ranges: &[Range]) -> u64
    requires few { AreFew ranges.now }
    requires four { length ranges.now ≤ 4 }
    ensures value { result ≡ most_choices ranges.now }
    ensures bound { result ≤ 2048 ^ length ranges.now }
{
    let [range, others @ ..] = ranges else {
        return 1;
    };
    range.hands().len() as u64 * most_choices(others)
}

/// How many runouts each choice has.
fn runouts_of_choice(spot: &RangeSpot) -> u64
    requires { IsSound (ranges_in spot.now) }
    ensures { result ≡ runouts_of_choice (ranges_in spot.now) }
{
    let board = spot.board.count();
    let known = board + spot.dead.count() + 2 * spot.ranges.len() as u32;
    count_choices(52 - known, 5 - board)
}

/// Whether the runouts of all choices are more than may be counted.
fn are_above(spot: &RangeSpot, runouts: u64) -> bool
    requires sound { IsSound (ranges_in spot.now) }
    requires runouts { runouts ≡ runouts_of_choice (ranges_in spot.now) }
    ensures { result ≡ are_above RUNOUT_MAX (ranges_in spot.now) }
{
    let choices = most_choices(&spot.ranges);
    u128::from(choices) * u128::from(runouts) > u128::from(RUNOUT_MAX)
}

/// The counts of all choices of one hand from each range in which no card is in two hands, a choice
/// at a time.
fn count_by_choices(spot: &RangeSpot, scratch: &mut Scratch) -> RangeTally
    requires sound { IsSound (ranges_in spot.now) }
    requires within { are_above RUNOUT_MAX (ranges_in spot.now) ≡ false }
    ensures { IsAllOf (ranges_in spot.now) result }
{
    let mut total = no_tally();
    let mut tally = Tally::zero();
    add_choices(
        spot,
        &spot.ranges,
        &Taken::none(),
        scratch,
        &mut tally,
        &mut total,
    );
    total
}

/// How many hands the ranges have together.
fn all_hands(ranges: &[Range]) -> u64
    requires few { AreFew ranges.now }
    requires four { length ranges.now ≤ 4 }
    ensures { result ≤ 2048 * length ranges.now }
{
    let [range, others @ ..] = ranges else {
        return 0;
    };
    range.hands().len() as u64 + all_hands(others)
}

/// Whether to count a choice at a time is faster: before the flop, where there are millions of boards, and
/// on a flop where the choices are few beside the hands that would be valued on each board. Nothing but time
/// depends on it.
fn are_few(spot: &RangeSpot) -> bool
    requires { IsSound (ranges_in spot.now) }
{
    match spot.board.count() {
        0 => true,
        3 => most_choices(&spot.ranges) < 6 * all_hands(&spot.ranges),
        _ => false,
    }
}

/// Returns the sums over all choices, by the faster of two ways.
fn count_all(spot: &RangeSpot, runouts: u64, scratch: &mut Scratch) -> RangeTally
    requires sound { IsSound (ranges_in spot.now) }
    requires runouts { runouts ≡ runouts_of_choice (ranges_in spot.now) }
    requires within { are_above RUNOUT_MAX (ranges_in spot.now) ≡ false }
    ensures { IsAllOf (ranges_in spot.now) result }
{
    if are_few(spot) {
        return count_by_choices(spot, scratch);
    }
    count_by_boards(spot, runouts)
}

/// The counts of all choices of one hand from each range in which no card is in two hands: how the
/// runouts of each end for each player and the units that they give him, as often as the choice
/// counts, added up. `AboveLimit` exactly where the runouts of all choices, those that share a card
/// too, are more than `RUNOUT_MAX`, and `NoChoice` exactly where they aren't and there is no choice
/// to count. It takes no memory.
pub fn count_ranges(spot: &RangeSpot, scratch: &mut Scratch) -> Result<RangeTally, RangeJobFault>
    requires { IsSound (ranges_in spot.now) }
    ensures count { IsCountOf (ranges_in spot.now) result }
    ensures beyond { IfOk result (λ tally.
        AreNoneBeyond (length (ranges_in spot.now).ranges) tally) }
{
    let runouts = runouts_of_choice(spot);
    if are_above(spot, runouts) {
        return Err(RangeJobFault::AboveLimit);
    }
    let mut total = count_all(spot, runouts, scratch);
    if total.choices == 0 {
        return Err(RangeJobFault::NoChoice);
    }
    four_places(&total);
    total.runouts = runouts;
    Ok(total)
}

/// Asks for the room that [`count_ranges`] uses for a spot and that isn't there: that of boards with one pot where a choice at a time
/// is counted, and none elsewhere. After `Memory` it may still be counted, and takes longer.
pub fn ready_for_ranges(
    spot: &RangeSpot,
    alloc: Global,
    scratch: &mut Scratch,
) -> Result<(), Memory>
    requires { IsSound (ranges_in spot.now) }
{
    if are_few(spot) {
        return scratch.ready_for_boards(alloc, 1);
    }
    Ok(())
}
