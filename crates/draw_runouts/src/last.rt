//! The numbers of the last hand's draws, one after the other.

ghost use Rattle.std.specs.Prelude.{◌≡◌, ℕ, ◌+◌, ◌-◌, ◌<◌, ◌≤◌, ◌++◌, List, length, map, take, slice_index};
ghost use Rattle.std.specs.List.{slice_range};
ghost use Rattle.card_sets.specs.Choose.{choose};
ghost use Rattle.draw_runouts.specs.Worth.{number_at, number_of};

use crate::numbers::{Numbers, plane_base};
use card_sets::Card;
use runout_ranges::count_choices;
use runout_walk::DECK;

/// How many draws of three cards there are of a whole deck.
pub(crate) const DRAWS: usize = 22100;

/// How many of two cards.
pub(crate) const TWOS: usize = 1326;

/// From one place of a listing to another.
#[derive(Clone, Copy)]
pub(crate) struct Range {
    /// The first place.
    pub(crate) lo: usize,
    /// The place after the last.
    pub(crate) hi: usize,
}

/// Puts the number that a row has for one of some cards after the first `used` and those of the cards before it.
#[inline(always)]
fn put_one(row: &[u32], cards: &[Card], at: usize, values: &mut [u32], used: usize)
    requires places { length row.now ≡ 52 }
    requires inside { at < length cards.now }
    requires room { used + length cards.now ≤ length values.old }
    ensures numbers { (first : List ℕ)
        → take (used + at) values.old ≡ first ++ map (slice_index row.now) (take at cards.now)
        → take (used + (at + 1)) values.new
        ≡ first ++ map (slice_index row.now) (take (at + 1) cards.now) }
    ensures room { length values.new ≡ length values.old }
{
    values[used + at] = row[usize::from(cards[at].number())];
}

/// Puts the numbers that a row has for four of some cards after those of the cards before them.
#[inline(always)]
fn put_four(row: &[u32], cards: &[Card], at: usize, values: &mut [u32], used: usize)
    requires places { length row.now ≡ 52 }
    requires inside { at + 4 ≤ length cards.now }
    requires room { used + length cards.now ≤ length values.old }
    ensures numbers { (first : List ℕ)
        → take (used + at) values.old ≡ first ++ map (slice_index row.now) (take at cards.now)
        → take (used + (at + 4)) values.new
        ≡ first ++ map (slice_index row.now) (take (at + 4) cards.now) }
    ensures room { length values.new ≡ length values.old }
{
    put_one(row, cards, at, values, used);
    put_one(row, cards, at + 1, values, used);
    put_one(row, cards, at + 2, values, used);
    put_one(row, cards, at + 3, values, used);
}

/// Puts the numbers that a row has for some cards after the first `used`, four at a turn of the loop.
#[inline]
fn put_row(row: &[u32], cards: &[Card], values: &mut [u32], used: usize)
    requires places { length row.now ≡ 52 }
    requires room { used + length cards.now ≤ length values.old }
    ensures numbers { take (used + length cards.now) values.new
        ≡ take used values.old ++ map (slice_index row.now) cards.now }
    ensures room { length values.new ≡ length values.old }
{
    let mut at = 0;
    while 4 <= cards.len() - at {
        put_four(row, cards, at, values, used);
        at += 4;
    }
    for last in at..cards.len() {
        put_one(row, cards, last, values, used);
    }
}

/// Puts the numbers of the draws of two of some rising cards after the first `used`, from one place of the listing of these draws to
/// another, where the rows of their table begin at one.
fn put_pairs(
    rows: &[[u32; DECK]],
    base: usize,
    cards: &[Card],
    range: Range,
    values: &mut [u32],
    used: usize,
)
    // From the base on the table has a row for each lower card of a draw.
    requires places { base + 52 ≤ length rows.now }

    // Both places lie in the listing of the draws, and there is room for the numbers of those between them.
    requires order { range.lo ≤ range.hi }
    requires inside { range.hi ≤ length (choose 2 cards.now) }
    requires room { used + (range.hi - range.lo) ≤ length values.old }

    // The first `used` stay, and after them stand the numbers of the draws between the places, in order.
    ensures numbers { take (used + (range.hi - range.lo)) values.new
        ≡ take used values.old
        ++ map (number_at rows.now base) (slice_range (choose 2 cards.now) range.lo range.hi) }
    ensures room { length values.new ≡ length values.old }
{
    let mut rest = cards;
    let mut lo = range.lo;
    let mut hi = range.hi;
    let mut used = used;
    while let [low, highs @ ..] = rest {
        let count = highs.len();
        let start = lo.min(count);
        let end = hi.min(count);
        let row = &rows[base + usize::from(low.number())];
        put_row(row, &highs[start..end], values, used);
        used += end - start;
        lo = lo.saturating_sub(count);
        hi = hi.saturating_sub(count);
        rest = highs;
    }
}

/// Puts the numbers of the draws of one card between two places at the front.
fn put_singles(rows: &[[u32; DECK]], cards: &[Card], range: Range, values: &mut [u32])
    // The table has a row a card; draws of one card have the first one.
    requires places { length rows.now ≡ 52 }

    // Both places lie in the listing of the draws, and there is room for the numbers of those between them.
    requires order { range.lo ≤ range.hi }
    requires inside { range.hi ≤ length cards.now }
    requires room { range.hi - range.lo ≤ length values.old }

    // A table of three cards isn't looked at, whichever it is.
    ensures numbers { (planes : List (List ℕ))
        → take (range.hi - range.lo) values.new
        ≡ map (number_of rows.now planes) (slice_range (choose 1 cards.now) range.lo range.hi) }
    ensures room { length values.new ≡ length values.old }
{
    put_row(&rows[0], &cards[range.lo..range.hi], values, 0);
}

/// Puts the numbers of the draws of two cards between two places at the front.
fn put_twos(rows: &[[u32; DECK]], cards: &[Card], range: Range, values: &mut [u32])
    // The table has a row for each lower card of a draw.
    requires places { length rows.now ≡ 52 }

    // Both places lie in the listing of the draws, and there is room for the numbers of those between them.
    requires order { range.lo ≤ range.hi }
    requires inside { range.hi ≤ length (choose 2 cards.now) }
    requires room { range.hi - range.lo ≤ length values.old }

    // A table of three cards isn't looked at, whichever it is.
    ensures numbers { (planes : List (List ℕ))
        → take (range.hi - range.lo) values.new
        ≡ map (number_of rows.now planes) (slice_range (choose 2 cards.now) range.lo range.hi) }
    ensures room { length values.new ≡ length values.old }
{
    put_pairs(rows, 0, cards, range, values, 0);
}

/// How many draws of two of some cards there are.
#[inline]
#[tactic(auto, using(crate::proofs::DrawLists::no_pairs))]
fn count_pairs(cards: &[Card]) -> usize
    requires { length cards.now ≤ 52 }
    ensures { result ≡ length (choose 2 cards.now) }
{
    if cards.len() < 2 {
        return 0;
    }
    count_choices(cards.len() as u32, 2) as usize
}

/// Puts the numbers of the draws of three cards between two places at the front.
fn put_triples(planes: &[[u32; DECK]], cards: &[Card], range: Range, values: &mut [u32])
    // There is room for the tables of all lowest cards, and a deck has no more cards.
    requires places { length planes.now ≡ 1327 }
    requires few { length cards.now ≤ 52 }

    // Both places lie in the listing of the draws, and there is room for the numbers of those between them.
    requires order { range.lo ≤ range.hi }
    requires inside { range.hi ≤ length (choose 3 cards.now) }
    requires room { range.hi - range.lo ≤ length values.old }

    // For each lowest card there is a table of the two others; that of two cards isn't looked at.
    ensures numbers { (rows : List (List ℕ))
        → take (range.hi - range.lo) values.new
        ≡ map (number_of rows planes.now) (slice_range (choose 3 cards.now) range.lo range.hi) }
    ensures room { length values.new ≡ length values.old }
{
    let mut rest = cards;
    let mut lo = range.lo;
    let mut hi = range.hi;
    let mut used = 0;
    let mut pairs = count_pairs(cards);
    while let [low, others @ ..] = rest {
        let count = pairs - others.len();
        let start = lo.min(count);
        let end = hi.min(count);
        let part = Range { lo: start, hi: end };
        let base = plane_base(*low);
        put_pairs(planes, base, others, part, values, used);
        used += end - start;
        lo = lo.saturating_sub(count);
        hi = hi.saturating_sub(count);
        pairs = count;
        rest = others;
    }
}

/// Puts the numbers of the draws of one to three of some rising cards at the front, from one place of the listing of these draws to
/// another.
#[tactic(auto, using(runout_walk::proofs::CallerLemmas::one_length))]
pub(crate) fn put_draws(numbers: &Numbers, cards: &[Card], range: Range, values: &mut [u32])
    // The numbers are of draws of one to three cards, out of those of a deck.
    requires some { 1 ≤ numbers.now.count }
    requires few { numbers.now.count ≤ 3 }
    requires short { length cards.now ≤ 52 }

    // Both places lie in the listing of the draws, and there is room for the numbers of those between them.
    requires order { range.lo ≤ range.hi }
    requires inside { range.hi ≤ length (choose numbers.now.count cards.now) }
    requires room { range.hi - range.lo ≤ length values.old }

    // At the front stand the numbers of the draws between the places, in order.
    ensures numbers { take (range.hi - range.lo) values.new
        ≡ map (number_of numbers.now.rows.items numbers.now.planes.items)
        (slice_range (choose numbers.now.count cards.now) range.lo range.hi) }
    ensures room { length values.new ≡ length values.old }
{
    let rows = numbers.rows.as_slice();
    let planes = numbers.planes.as_slice();
    if numbers.count == 1 {
        put_singles(rows, cards, range, values);
    } else if numbers.count == 2 {
        put_twos(rows, cards, range, values);
    } else {
        put_triples(planes, cards, range, values);
    }
}
