//! The counts of pots, by the sets of hands that win their sides.

ghost use Rattle.std.specs.Prelude.{◌≡◌, ℕ, ◌+◌, ◌*◌, ◌<◌, ◌≤◌, ◌^◌, ◌==◌, if◌then◌else◌, [], true, length, slice_index};
ghost use Rattle.card_sets.specs.Games.{has_side};
ghost use Rattle.card_sets.specs.declared.games.Side.{Side};
ghost use Rattle.showdown_tally.specs.Cells.{side_place};
ghost use Rattle.showdown_tally.specs.Deals.{deal_of};
ghost use Rattle.showdown_tally.specs.SideCounts.{AreSideCounts, count_at, low_mark};
ghost use Rattle.runout_walk.specs.OneMore.{AddsAt, AddsOne, ClearsAt, ClearsTo, set_place};

use card_sets::{Game, Side};
use showdown_tally::Table;

/// The place of a side among the rows of a pot.
#[inline]
pub fn side_row(side: Side) -> usize
    ensures value { result ≡ side_place side }
    ensures bound { result < 2 }
{
    match side {
        Side::High => 0,
        Side::Low => 1,
    }
}

/// Makes the numbers of a row zero.
fn clear(row: &mut [u32])
    ensures zero { (place : ℕ) → slice_index row.new place ≡ 0 }
    ensures places { length row.new ≡ length row.old }
{
    row.fill(0);
}

/// Makes the counts of a side of a pot 0, where the game has the side.
fn clear_side(counts: &mut [[u32; 2048]], game: Game, side: Side, pot: u8)
    requires inside { 2 * pot + 1 < length counts.old }
    ensures counts { ClearsAt game side pot counts.old counts.new }
    ensures places { length counts.new ≡ length counts.old }
{
    if game.has_side(side) {
        let row = 2 * usize::from(pot) + side_row(side);
        clear(&mut counts[row]);
    }
}

/// A law: a table has ten places for pots.
#[inline]
pub fn ten_pots(table: &Table)
    ensures { length table.now.eligible ≡ 10 }
{
    let _eligible: &[u16] = &table.eligible;
}

/// Makes the counts of a table's pots 0 on the sides that they are played for, and leaves the others as they are. A pot has two rows,
/// the high's before the low's.
pub fn clear_counts(counts: &mut [[u32; 2048]], table: &Table)
    requires places { 2 * length (deal_of table.now).pots ≤ length counts.old }
    ensures counts { ClearsTo table.now.known.game table.now.pots counts.old counts.new }
    ensures none { AreSideCounts (deal_of table.now) [] counts.new }
    ensures places { length counts.new ≡ length counts.old }
{
    ten_pots(table);
    let game = table.known.game;
    for pot in 0..table.pots {
        clear_side(counts, game, Side::High, pot);
        clear_side(counts, game, Side::Low, pot);
    }
}

/// One more at a place of a row.
#[inline]
fn add_at(row: &mut [u32], place: u16)
    requires inside { place < length row.old }
    requires fits { slice_index row.old place + 1 < 2 ^ 32 }
    ensures counts { (at : ℕ)
        → slice_index row.new at ≡ slice_index row.old at + (if place == at then 1 else 0) }
    ensures places { length row.new ≡ length row.old }
{
    row[usize::from(place)] += 1;
}

/// Adds `times` runouts at a place of a row.
#[inline]
pub fn add_times(cells: &mut [u32], place: u16, times: u32)
    requires inside { place < length cells.old }
    requires fits { slice_index cells.old place + times < 2 ^ 32 }
    ensures counts { (other : ℕ)
        → slice_index cells.new other
        ≡ slice_index cells.old other + (if place == other then times else 0) }
    ensures places { length cells.new ≡ length cells.old }
{
    cells[usize::from(place)] += times;
}

/// One more at a place of a side of a pot, where the game has the side.
#[inline]
fn add_side(counts: &mut [[u32; 2048]], game: Game, side: Side, pot: u8, place: u16)
    requires inside { 2 * pot + 1 < length counts.old }
    requires few { place < 2048 }
    requires fits { has_side side game ≡ true → count_at counts.old pot side place + 1 < 2 ^ 32 }
    ensures counts { AddsAt game side pot place counts.old counts.new }
    ensures places { length counts.new ≡ length counts.old }
{
    if game.has_side(side) {
        let row = 2 * usize::from(pot) + side_row(side);
        add_at(&mut counts[row], place);
    }
}

/// What is added to the place of a high's set where a set wins the low: nothing where nobody has one.
#[inline]
pub fn low_mark(low: u16) -> u16
    ensures value { result ≡ low_mark low }
    ensures small { result ≤ 1024 }
{
    if low == 0 { 0 } else { 1024 }
}

/// Counts one runout for a pot whose high the one set of hands wins, and whose low the other, on each side that the game has: for the
/// high at the place of its set, 1024 further where somebody has a low, and for the low at that of its set.
#[inline]
pub fn add_one(counts: &mut [[u32; 2048]], game: Game, pot: u8, high: u16, low: u16)
    // The pot has its two rows, and the sets are of up to ten hands.
    requires inside { 2 * pot + 1 < length counts.old }
    requires high { high < 1024 }
    requires low { low < 1024 }

    // On each side that the game has there is room for one more.
    requires fits { (side : Side) → has_side side game ≡ true
        → count_at counts.old pot side (set_place side high low) + 1 < 2 ^ 32 }

    // On each side that the game has one count is greater by one, and nothing else changes.
    ensures counts { AddsOne game pot high low counts.old counts.new }
    ensures places { length counts.new ≡ length counts.old }
{
    add_side(counts, game, Side::High, pot, high + low_mark(low));
    add_side(counts, game, Side::Low, pot, low);
}
