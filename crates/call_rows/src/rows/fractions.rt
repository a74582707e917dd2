//! Fractions, rounded once and written out.

use crate::rows::row_text;
use share_fractions::{Fixed, LONGEST_TEXT, rounded};

/// The greatest denominator: ten to the power 32.
const GREATEST: u128 = 100_000_000_000_000_000_000_000_000_000_000;

/// The greatest numerator, which is twice the greatest denominator.
const TWICE: u128 = 200_000_000_000_000_000_000_000_000_000_000;

/// Returns whether a number is written as this text at the beginning of a buffer of underscores, and these
/// bytes follow.
fn is_written(number: Fixed, text: &[u8], behind: &[u8]) -> bool {
    if number.places > 4 {
        return false;
    }
    let mut room = [b'_'; LONGEST_TEXT];
    let end = number.write(&mut room);
    &room[..end] == text && room[end..].starts_with(behind)
}

/// Returns whether a fraction with `places` decimal places is written as this text.
fn is_rounded(numerator: u128, denominator: u128, places: u32, text: &[u8]) -> bool {
    if denominator == 0 || numerator > TWICE || denominator > GREATEST || places > 4 {
        return false;
    }
    is_written(rounded(numerator, denominator, places), text, b"")
}

/// Returns the text of the first of these fractions that isn't written as its text.
fn wrong_fraction(cases: &[(u128, u128, u32, &'static [u8])]) -> Option<&'static str> {
    for (numerator, denominator, places, text) in cases {
        if !is_rounded(*numerator, *denominator, *places, text) {
            return Some(row_text(*text));
        }
    }
    None
}

const CASES: &[(u128, u128, u32, &[u8])] = &[
    (4200, 44, 2, b"95.45"),
    (200, 44, 2, b"4.55"),
    (0, 44, 2, b"0.00"),
    (4400, 44, 2, b"100.00"),
    (955, 1000, 3, b"0.955"),
    (1, 2, 0, b"1"),
    (1, 3, 0, b"0"),
    (1, 8, 2, b"0.13"),
    (1, 8, 3, b"0.125"),
    (1, 1, 3, b"1.000"),
    (7, 100, 1, b"0.1"),
    (1, 20000, 4, b"0.0001"),
    (1, 20001, 4, b"0.0000"),
    (TWICE, 1, 4, b"200000000000000000000000000000000.0000"),
    (TWICE, GREATEST, 4, b"2.0000"),
];

#[test]
fn fractions_are_rounded_half_up_and_written_with_their_places(rt: HostRuntime) {
    assert_eq!(rt; wrong_fraction(CASES), None);
}

/// Returns the greatest number with `places` decimal places.
fn greatest(places: u32) -> Fixed {
    Fixed {
        whole: u128::MAX,
        places,
    }
}

#[test]
fn the_greatest_number_is_written_whole(rt: HostRuntime) {
    assert!(rt;
        is_written(
            greatest(4),
            b"34028236692093846346337460743176821.1455",
            b""
        ),
        "the greatest number with four decimal places"
    );
    assert!(rt;
        is_written(greatest(0), b"340282366920938463463374607431768211455", b""),
        "the greatest number without decimal places"
    );
}

#[test]
fn what_stands_behind_the_text_stays(rt: HostRuntime) {
    let number = Fixed {
        whole: 9545,
        places: 2,
    };
    assert!(rt;
        is_written(number, b"95.45", b"___"),
        "the bytes after the text are unchanged"
    );
}
