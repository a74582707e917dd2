//! Lows in order, and their edges. The order is by the rules of the games, worked out by hand.

use crate::rows::deals::{five, five_or_more};
use rank_low::{LowValue, ace_five, ace_of_five, deuce_of_five, deuce_seven, eight_or_better};

/// Each line beats the next as an ace-to-five low.
const ACE_TO_FIVE: &[&str] = &[
    "5c4d3h2sAcKdKh", // five to ace, whatever else there is
    "6c4d3h2sAcAdAh",
    "6c5d4h3s2cKdQh", // a straight doesn't count
    "7h5h4h2hAhKdQd", // nor does a flush
    "8c7d6h5s4cKdQh",
    "KcQdJhTs9c", // the worst with no pair
    "AcAd2h3s4c", // the best pair
    "AcAd5h3s2c", // the highest kicker is higher
    "AcAd5h4s2c",
    "AcAd5h4s3c",
    "AcAdKhQsJc",
    "2c2d4h3sAc", // an ace is the lowest kicker
    "2c2d5h4s3c",
    "KcKdQhJsTc",
    "3c3d2h2s2cAcAd",
    "KcKdKhKsQc",
];

/// Each line beats the next as a deuce-to-seven low.
const DEUCE_TO_SEVEN: &[&str] = &[
    "7c5d4h3s2c", // the best
    "7c6d4h3s2c",
    "8c5d4h3s2c",
    "Ac5d4h3s2c", // ace high, and no straight
    "AcKdQhJs9c",
    "2c2d5h4s3c", // the best pair
    "2c2d6h4s3c", // the highest kicker is higher
    "2c2d6h5s3c",
    "2c2d6h5s4c",
    "2c2dAh4s3c", // an ace is the highest kicker
    "3c3d5h4s2c",
    "2c2d2h4s3c",
    "6c5d4h3s2c", // the lowest straight
    "7h5h4h3h2h",
    "6h5h4h3h2h",
];

/// Hands, and whether they have a low of eight or better.
const EIGHTS: &[(&str, bool)] = &[
    ("8c7d6h5s4cKdQh", true),
    ("9c7d6h5s4cKdQh", false),
    ("8c7d6h5sAcAdAh", true),
    ("8c7d6h5s5c5dKh", false),
    ("2c3c4c5cAc", true),
    ("2c3c4cKcAc", false),
];

/// Returns the worth of the best of five to seven cards as an ace-to-five low, or `None` if the text
/// doesn't name as many.
fn ace(text: &str) -> Option<LowValue> {
    Some(ace_five(five_or_more(text)?))
}

/// Returns the worth of five cards as an ace-to-five low, by their groups, or `None` if the text doesn't
/// name five.
fn ace_by_groups(text: &str) -> Option<LowValue> {
    Some(ace_of_five(five(text)?))
}

/// Returns the worth of five cards as a deuce-to-seven low.
fn deuce(text: &str) -> Option<LowValue> {
    Some(deuce_seven(five(text)?))
}

/// Returns the worth of five cards as a deuce-to-seven low, by their groups.
fn deuce_by_groups(text: &str) -> Option<LowValue> {
    Some(deuce_of_five(five(text)?))
}

/// Returns whether a low is worse than the one before it, if there is one.
fn is_worse(before: Option<LowValue>, value: LowValue) -> bool {
    match before {
        Some(better) => better < value,
        None => true,
    }
}

/// Returns whether a low is that of its groups, if it has five cards.
fn is_by_groups(plain: Option<LowValue>, value: LowValue) -> bool {
    match plain {
        Some(plain) => plain == value,
        None => true,
    }
}

/// Returns the first of these hands that isn't a worse ace-to-five low than the one before it, or differs
/// by its groups.
fn wrong_ace(texts: &[&'static str]) -> Option<&'static str> {
    let mut before: Option<LowValue> = None;
    for text in texts {
        let Some(value) = ace(*text) else {
            return Some(*text);
        };
        if !is_worse(before, value) || !is_by_groups(ace_by_groups(*text), value) {
            return Some(*text);
        }
        before = Some(value);
    }
    None
}

#[test]
fn ace_to_five_lows_beat_each_other_in_order(rt: HostRuntime) {
    assert_eq!(rt; wrong_ace(ACE_TO_FIVE), None);
}

/// Returns the first of these hands that isn't a worse deuce-to-seven low than the one before it, or
/// differs by its groups.
fn wrong_deuce(texts: &[&'static str]) -> Option<&'static str> {
    let mut before: Option<LowValue> = None;
    for text in texts {
        let Some(value) = deuce(*text) else {
            return Some(*text);
        };
        if !is_worse(before, value) || deuce_by_groups(*text) != Some(value) {
            return Some(*text);
        }
        before = Some(value);
    }
    None
}

#[test]
fn deuce_to_seven_lows_beat_each_other_in_order(rt: HostRuntime) {
    assert_eq!(rt; wrong_deuce(DEUCE_TO_SEVEN), None);
}

/// Returns whether a hand qualifies as given: with a low of eight or better that is its ace-to-five low,
/// or with none.
fn is_eight(text: &str, qualifies: bool) -> bool {
    let Some(set) = five_or_more(text) else {
        return false;
    };
    match eight_or_better(set) {
        Some(low) => qualifies && low == ace_five(set),
        None => !qualifies,
    }
}

/// Returns the first of these hands that doesn't qualify as given.
fn wrong_eight(table: &[(&'static str, bool)]) -> Option<&'static str> {
    for (text, qualifies) in table {
        if !is_eight(*text, *qualifies) {
            return Some(*text);
        }
    }
    None
}

#[test]
fn a_low_is_eight_or_better(rt: HostRuntime) {
    assert_eq!(rt; wrong_eight(EIGHTS), None);
}
