//! The weights of all hands in a range, by their two cards.

ghost use Rattle.std.specs.Prelude.{◌≡◌, ◌+◌, ◌*◌, ◌<◌, ◌≤◌, ◌==◌, ◌&&◌, nat_le, nat_lt, if◌then◌else◌, length, slice_set, true, false, IfOk, map};
ghost use Rattle.std.specs.List.{filter_map};
ghost use Rattle.range_lines.specs.Hands.{amount, is_range, entries_of, weighed, hand_of, all_pairs};
ghost use Rattle.range_lines.specs.Weights.{weight_at, pairs_in, IsTable, AddedWhere, Heavy, HeavyBeside};

use crate::items::{Entry, entry_of};
use crate::pairs::Pair;
use crate::spot::Range;
use crate::texts::Texts;
use card_sets::{Card, CardSet};
use std::alloc::{AllocError, Global};

/// How many weights a table has: 52 for each lower card, of which those of higher cards count.
pub(crate) const CELLS: usize = 52 * 52;

/// The place of the weight of two cards' hand, the lower first.
#[inline]
fn place_of(low: Card, high: Card) -> usize
    ensures value { result ≡ 52 * low + high }
    ensures bound { result < 52 * 52 }
{
    52 * usize::from(low.number()) + usize::from(high.number())
}

/// Adds to the weight of the hand of two cards, the lower first, unless it would be more than 100.
fn add_to(cells: &mut [u8], low: Card, high: Card, weight: u8) -> bool
    requires room { length cells.old ≡ 52 * 52 }
    ensures value { result ≡ nat_le (weight_at cells.old low high + weight) 100 }
    ensures changed { cells.new ≡ (if nat_le (weight_at cells.old low high + weight) 100
        then slice_set cells.old (52 * low + high) (weight_at cells.old low high + weight)
        else cells.old) }
{
    let place = place_of(low, high);
    let sum = cells[place].saturating_add(weight);
    if sum > 100 {
        return false;
    }
    cells[place] = sum;
    true
}

/// Adds an item to the hands that it names with a lower card, up to one that would weigh more than 100.
fn add_beside(cells: &mut [u8], low: Card, entry: &Entry) -> bool
    requires table { IsTable cells.old }
    ensures table { IsTable cells.new }
    ensures added { result ≡ true
        → AddedWhere entry.now (λ l h. l == low) cells.old cells.new }
    ensures heavy { result ≡ false → HeavyBeside entry.now cells.old low }
{
    let rank = entry.item.rank_beside(low);
    for suit in 0..4u8 {
        let Some(high) = Card::new(rank, suit) else {
            continue;
        };
        if low.number() < high.number() && !add_to(cells, low, high, entry.amount(low, high)) {
            return false;
        }
    }
    true
}

/// Adds an item to all hands that it names, up to one that would weigh more than 100.
fn add(cells: &mut [u8], entry: &Entry) -> bool
    requires table { IsTable cells.old }
    ensures table { IsTable cells.new }
    ensures added { result ≡ true → AddedWhere entry.now (λ l h. true) cells.old cells.new }
    ensures heavy { result ≡ false → Heavy entry.now cells.old }
{
    for number in entry.item.first_low()..entry.item.end_low() {
        let Some(low) = Card::new(number / 4, number % 4) else {
            continue;
        };
        if entry.item.has_low(low) && !add_beside(cells, low, entry) {
            return false;
        }
    }
    true
}

/// Whether a word is a range. If so each hand gets its weight in it, whatever the table held.
pub(crate) fn weigh(cells: &mut [u8], word: &[u8]) -> bool
    requires room { length cells.old ≡ 52 * 52 }
    ensures room { length cells.new ≡ 52 * 52 }
    ensures value { result ≡ is_range word.now }
    ensures weights { result ≡ true
        → pairs_in cells.new ≡ map (weighed (entries_of word.now)) all_pairs }
{
    cells.fill(0);
    for text in Texts::of(word) {
        let Some(entry) = entry_of(text) else {
            return false;
        };
        if !add(cells, &entry) {
            return false;
        }
    }
    true
}

/// The hands that have a weight and meet neither the board nor the dead cards.
pub(crate) fn range_of(
    alloc: Global,
    cells: &[u8],
    board: CardSet,
    dead: CardSet,
) -> Result<Range, AllocError>
    requires room { length cells.now ≡ 52 * 52 }
    ensures { IfOk result (λ range. range ≡ filter_map (hand_of board dead) (pairs_in cells.now)) }
{
    let mut hands = Vec::new(alloc);
    for low in CardSet::deck().iter() {
        for high in CardSet::deck().above(low).iter() {
            let pair = Pair {
                low,
                high,
                weight: cells[place_of(low, high)],
            };
            if let Some(hand) = pair.hand(board, dead) {
                hands.push(hand)?;
            }
        }
    }
    Ok(Range { hands })
}
