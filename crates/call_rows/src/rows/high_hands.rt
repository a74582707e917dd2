//! Hands of all nine categories and their edges.

use crate::rows::deals::{five, five_or_more};
use rank_high::{HighValue, high_of_five, high_of_set};

/// Each line is beaten by the next.
const RISING: &[&str] = &[
    "7c5d4h3s2c", // the lowest hand
    "AcKdQhJs9c", // the highest with no pair
    "2c2d5h4s3c",
    "2c2dAhKsQc",
    "AcAdKhQsJc", // the highest pair
    "3c3d2h2s4c",
    "AcAd2h2s3c",
    "AcAdKhKsQc", // the highest two pair
    "2c2d2h4s3c",
    "AcAdAhKsQc", // the highest three of a kind
    "5c4d3h2sAc", // the wheel
    "6c5d4h3s2c",
    "AcKdQhJsTc", // the highest straight
    "7h5h4h3h2h", // the lowest flush
    "AhKhQhJh9h",
    "2c2d2h3s3c",
    "AcAdAhKsKc", // the highest full house
    "2c2d2h2s3c",
    "AcAdAhAsKc", // the highest four of a kind
    "5d4d3d2dAd", // the steel wheel
    "AsKsQsJsTs", // the royal flush
];

/// Fives, with the digits of their category and of the ranks of their groups, T as a to A as e.
const FIVES: &[(&str, u32)] = &[
    ("AsKsQsJsTs", 0x8edcba),
    ("9h8h7h6h5h", 0x898765),
    ("5d4d3d2dAd", 0x854321),
    ("AcAdAhAsKc", 0x7ed000),
    ("2c2d2h2sAc", 0x72e000),
    ("AcAdAhKsKc", 0x6ed000),
    ("2c2d2hAsAc", 0x62e000),
    ("AhQh9h5h3h", 0x5ec953),
    ("6h5h4h3hAh", 0x5e6543),
    ("AcKdQhJsTc", 0x4edcba),
    ("6c5d4h3s2c", 0x465432),
    ("5c4d3h2sAc", 0x454321),
    ("4c3d2hAsKc", 0x0ed432), // no straight goes on past the ace
    ("QcQdQhAs2c", 0x3ce200),
    ("AcAdKhKs2c", 0x2ed200),
    ("3c3d2h2sAc", 0x232e00),
    ("7c7dAhKs2c", 0x17ed20),
    ("2c2d5h4s3c", 0x125430),
    ("7c5d4h3s2c", 0x075432),
];

/// Six or seven cards, with the digits of their best five.
const BEST: &[(&str, u32)] = &[
    ("AcAdKhKsQcQd2h", 0x2edc00), // three pairs
    ("AcAdKhKs2c2dQh", 0x2edc00), // three pairs, a single card for the fifth
    ("9c9d9h4s4c4dAh", 0x694000), // two threes of a kind
    ("4c4d4h9s9c9dAh", 0x694000),
    ("9c9d9h4s4cAdAh", 0x69e000), // three of a kind and two pairs
    ("AhQh9h5h3h2hKs", 0x5ec953), // six of one suit
    ("KhQh9h7h5h3h2h", 0x5dc975), // seven of one suit
    ("AcAdKhQsJc4d2h", 0x1edcb0), // kickers that don't play
    ("AcKdQhJs9c3d2h", 0x0edcb9),
    ("9c8d7h6s5c4d3h", 0x498765), // seven in a row
    ("Ac2d3h4s5c6dKh", 0x465432), // six in a row, an ace below
    ("Ac2d3h4s5c5dAh", 0x454321), // the wheel beside two pairs
    ("AhKs6h5h4h3h2h", 0x865432), // a straight flush below a higher flush
    ("9h8h7h6h5cAh2h", 0x5e9876), // a straight beside a flush
    ("8c8d8h8sKcKdAh", 0x78e000), // four of a kind, and the highest kicker
    ("8c8d8h8sKcKdKh", 0x78d000), // four and three of a kind
    ("QcQdQhAs2c3d", 0x3ce300), // six cards
];

/// Hands that are worth the same, whatever their suits and their cards beyond five.
const TIES: &[(&str, &str)] = &[
    ("AcKdQhJs9c", "AsKhQdJc9s"),
    ("AhQh9h5h3h", "AsQs9s5s3s"),
    ("AcKdQhJs9c3d2h", "AcKdQhJs9c8d7h"),
    ("AcAdKhKsQcQd2h", "AcAdKhKsQc4d3h"),
    ("AhQh9h5h3h2hKs", "AhQh9h5h3hAsKs"),
];

/// Returns the number of five cards, or `None` if the text doesn't name five.
fn number_of_five(text: &str) -> Option<u32> {
    Some(high_of_five(five(text)?).number())
}

/// Returns the worth of the best five of five to seven cards, or `None` if the text doesn't name as
/// many.
fn best(text: &str) -> Option<HighValue> {
    Some(high_of_set(five_or_more(text)?))
}

/// Returns the number of the best five.
fn number_of_best(text: &str) -> Option<u32> {
    Some(best(text)?.number())
}

/// Returns the first of these fives that doesn't have its digits.
fn wrong_five(table: &[(&'static str, u32)]) -> Option<&'static str> {
    for (text, number) in table {
        if number_of_five(*text) != Some(*number) {
            return Some(*text);
        }
    }
    None
}

/// Returns the first of these hands whose best five don't have their digits.
fn wrong_best(table: &[(&'static str, u32)]) -> Option<&'static str> {
    for (text, number) in table {
        if number_of_best(*text) != Some(*number) {
            return Some(*text);
        }
    }
    None
}

/// Returns whether a hand is worth more than the one before it, if there is one.
fn is_better(value: HighValue, before: Option<HighValue>) -> bool {
    match before {
        Some(lower) => lower < value,
        None => true,
    }
}

/// Returns the first of these hands that doesn't beat the one before it, or isn't a hand.
fn beaten(texts: &[&'static str]) -> Option<&'static str> {
    let mut before: Option<HighValue> = None;
    for text in texts {
        let Some(value) = best(*text) else {
            return Some(*text);
        };
        if !is_better(value, before) {
            return Some(*text);
        }
        before = Some(value);
    }
    None
}

/// Returns whether two hands are worth the same.
fn is_tie(text: &str, other: &str) -> bool {
    match (best(text), best(other)) {
        (Some(value), Some(same)) => value == same,
        _ => false,
    }
}

/// Returns the first of these hands that isn't worth the same as the one next to it.
fn untied(table: &[(&'static str, &'static str)]) -> Option<&'static str> {
    for (text, other) in table {
        if !is_tie(*text, *other) {
            return Some(*text);
        }
    }
    None
}

#[test]
fn fives_have_the_digits_of_their_category_and_ranks(rt: HostRuntime) {
    assert_eq!(rt; wrong_five(FIVES), None);
}

#[test]
fn the_best_five_of_more_cards_are_found(rt: HostRuntime) {
    assert_eq!(rt; wrong_best(BEST), None);
}

#[test]
fn each_hand_beats_the_one_before(rt: HostRuntime) {
    assert_eq!(rt; beaten(RISING), None);
}

#[test]
fn suits_and_cards_beyond_five_break_no_tie(rt: HostRuntime) {
    assert_eq!(rt; untied(TIES), None);
}
