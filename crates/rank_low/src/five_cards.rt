//! The worth of five cards as a low.

ghost use Rattle.std.specs.Prelude.{◌≡◌, ◌+◌, ◌*◌, ◌<◌, ◌≤◌, length, slice_index, All};
ghost use Rattle.rank_high.specs.High.{value_of};
ghost use Rattle.rank_low.specs.Low.{low_a5, low_27, ace_number, is_run};

use crate::LowValue;
use crate::low_ranks::{low_counts, raised};
use crate::values::numbered;
use card_sets::CardSet;
use rank_high::{category, falls_by_one, group_ranks, is_flush, rank_counts, value};

/// Returns whether the ranks of the groups make a straight in which the ace is high.
#[inline]
fn is_run(ranks: &[u8]) -> bool
    ensures { result ≡ is_run ranks.now }
{
    match ranks {
        [a, b, c, d, e] => falls_by_one([*a, *b, *c, *d, *e]),
        _ => false,
    }
}

/// Returns the sizes of the first two groups as two digits.
#[inline]
fn first_sizes(counts: &[u8; 13], ranks: &[u8]) -> u32
    requires thirteen { All (λ rank. rank < 13) ranks.now }
    requires two { 2 ≤ length ranks.now }
    ensures { result
        ≡ slice_index counts.now (slice_index ranks.now 0) * 16
        + slice_index counts.now (slice_index ranks.now 1) }
{
    let first = counts[usize::from(ranks[0])];
    let second = counts[usize::from(ranks[1])];
    u32::from(first) * 16 + u32::from(second)
}

/// Returns the worth of five cards as an ace-to-five low.
pub fn ace_of_five(s: CardSet) -> LowValue
    requires { length s ≡ 5 }
    ensures { result ≡ ace_number (low_a5 s) }
{
    s.rising();
    let counts = low_counts(s);
    let groups = group_ranks(&counts);
    let sizes = first_sizes(&counts, &groups.ranks);
    numbered(value(sizes, &raised(&groups.ranks, 1)).number())
}

/// Returns the worth of five cards as a deuce-to-seven low, by their groups. `deuce_seven` returns
/// the same.
pub fn deuce_of_five(s: CardSet) -> LowValue
    requires { length s ≡ 5 }
    ensures { result ≡ value_of (low_27 s) }
{
    let groups = group_ranks(&rank_counts(s));
    let category = category(&groups, is_run(&groups.ranks), is_flush(s));
    numbered(value(category, &raised(&groups.ranks, 2)).number())
}
