//! The worth of the best five of some cards as a low, by their ranks.

ghost use Rattle.std.specs.Prelude.{◌≡◌, ℕ, ◌+◌, ◌<◌, ◌≤◌, ◌++◌, length, map, Some};
ghost use Rattle.std.specs.Option.{option_map};
ghost use Rattle.card_sets.specs.Cards.{IsCardSet, IsRising};
ghost use Rattle.card_sets.specs.Choose.{choose};
ghost use Rattle.rank_high.specs.High.{value_of};
ghost use Rattle.rank_low.specs.Low.{low_a5, low_27, ace_number, least_of, best_low, best_eight};
ghost use Rattle.rank_low.specs.Wheel.{without_wheel};

use crate::low_ranks::{low_counts, lowest_five, pair_and_three};
use crate::values::numbered;
use crate::{LowValue, ace_of_five};
use card_sets::CardSet;
use rank_high::{FLUSH, ONE_PAIR, STRAIGHT_TO_FLUSH, high_by_ranks, is_flush};

/// The sizes of five groups of one card, as digits of a number.
const FIVE_RANKS: u32 = 0x110_0000;

/// The sizes of a group of two cards and of three groups of one card, as digits of a number.
const PAIR_AND_THREE: u32 = 0x210_0000;

/// Returns the best low of all taken cards and `missing` cards of the rest, which lie above the
/// taken ones.
fn best_with(taken: CardSet, rest: CardSet, missing: u32) -> LowValue
    // The rest is a set.
    requires above { IsCardSet rest → IsRising (taken ++ rest) }
    requires five { length taken + missing ≡ 5 }
    requires enough { missing ≤ length rest }
    ensures { Some result
        ≡ option_map ace_number
        (least_of (map (λ more. low_a5 (taken ++ more)) (choose missing rest))) }
{
    if missing == 0 {
        return ace_of_five(taken);
    }
    let Some(card) = rest.first() else {
        unreachable!();
    };
    let others = rest.without(card);
    let with_card = best_with(taken.with(card), others, missing - 1);
    if others.count() < missing {
        return with_card;
    }
    let without_card = best_with(taken, others, missing);
    if without_card < with_card {
        without_card
    } else {
        with_card
    }
}

/// Returns the worth of the best five of five to seven cards as an ace-to-five low.
pub fn ace_five(s: CardSet) -> LowValue
    requires least { 5 ≤ length s }
    requires most { length s ≤ 7 }
    ensures { Some result ≡ option_map ace_number (best_low s) }
{
    s.rising();
    let counts = low_counts(s);
    if let Some(ranks) = lowest_five(&counts, 13) {
        return numbered(FIVE_RANKS + ranks);
    }
    if let Some(ranks) = pair_and_three(&counts) {
        return numbered(PAIR_AND_THREE + ranks);
    }
    best_with(CardSet::empty(), s, 5)
}

/// Returns the worth of the best five that qualify, of five to seven cards, as a low of eight or
/// better. `None` exactly if no five qualify.
pub fn eight_or_better(s: CardSet) -> Option<LowValue>
    requires least { 5 ≤ length s }
    requires most { length s ≤ 7 }
    ensures { result ≡ option_map ace_number (best_eight s) }
{
    s.rising();
    let ranks = lowest_five(&low_counts(s), 8)?;
    Some(numbered(FIVE_RANKS + ranks))
}

/// The number of ace, five, four, three, and deuce if the ace is high.
const ACE_HIGH: u32 = 0xe_5432;

/// Returns the number of five cards by ranks alone, in which five to ace is no straight. Only the
/// number of that straight ends in 1.
#[inline]
fn without_wheel(number: u32) -> u32
    ensures { result ≡ without_wheel number }
{
    if number % 16 == 1 { ACE_HIGH } else { number }
}

/// Returns the worth of five cards as a deuce-to-seven low.
pub fn deuce_seven(s: CardSet) -> LowValue
    requires { length s ≡ 5 }
    ensures { result ≡ value_of (low_27 s) }
{
    s.rising();
    let plain = without_wheel(high_by_ranks(s).number());
    if !is_flush(s) {
        return numbered(plain);
    }
    if plain < ONE_PAIR {
        numbered(plain + FLUSH)
    } else {
        numbered(plain + STRAIGHT_TO_FLUSH)
    }
}
