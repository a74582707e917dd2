//! Lines and amounts.

use crate::rows::row_text;
use line_text::{AmountFault, GREATEST, next_line, read_amount};

/// Where the text of the line at a place begins and ends, and where the next line begins.
fn cut_at(bytes: &[u8], at: usize) -> Option<(usize, usize, usize)> {
    if at > bytes.len() {
        return None;
    }
    let line = next_line(bytes, at)?;
    Some((line.first, line.end, line.next))
}

/// Returns the place after the line at a place, if the text of the line is this.
fn behind(bytes: &[u8], at: usize, text: &[u8]) -> Option<usize> {
    if at > bytes.len() {
        return None;
    }
    let line = next_line(bytes, at)?;
    if &bytes[line.first..line.end] == text {
        Some(line.next)
    } else {
        None
    }
}

/// Returns whether the texts of all lines are these, one after another, and the walk ends at the end.
fn has_texts(bytes: &[u8], texts: &[&[u8]]) -> bool {
    let mut at = 0;
    for text in texts {
        match behind(bytes, at, text) {
            Some(next) => at = next,
            None => return false,
        }
    }
    at == bytes.len() && cut_at(bytes, at).is_none()
}

/// Returns the first of these texts that doesn't have the lines next to it.
fn wrong_cut(table: &[(&'static [u8], &[&[u8]])]) -> Option<&'static str> {
    for (bytes, texts) in table {
        if !has_texts(bytes, texts) {
            return Some(row_text(*bytes));
        }
    }
    None
}

const TEXTS: &[(&[u8], &[&[u8]])] = &[
    (b"", &[]),
    (b"\n", &[b""]),
    (b"a", &[b"a"]),
    (b"a\n", &[b"a"]),
    (b"a\n\nb", &[b"a", b"", b"b"]),
    (b"a \r\n b\r \r\nc", &[b"a", b" b", b"c"]),
    (b"a\rb\tc\t\n", &[b"a\rb\tc\t"]),
    (
        b"\xef\xbb\xbfa\n\xef\xbb\xbf \r\n\xef\xbb",
        &[b"a", b"", b"\xef\xbb"],
    ),
    (b"\xef\xbb\xbf\xef\xbb\xbfa", &[b"\xef\xbb\xbfa"]),
    (b" \xef\xbb\xbfa", &[b" \xef\xbb\xbfa"]),
];

#[test]
fn each_text_is_cut_into_its_lines(rt: HostRuntime) {
    assert_eq!(rt; wrong_cut(TEXTS), None);
}

/// Returns the first of these places of a text whose line doesn't have the places next to it.
fn wrong_place(bytes: &[u8], table: &[(usize, Option<(usize, usize, usize)>)]) -> Option<usize> {
    for (at, wanted) in table {
        if cut_at(bytes, *at) != *wanted {
            return Some(*at);
        }
    }
    None
}

const TWO_LINES: &[u8] = b"\xef\xbb\xbfab \r\ncd";

const PLACES: &[(usize, Option<(usize, usize, usize)>)] = &[
    (0, Some((3, 5, 8))),
    (8, Some((8, 10, 10))),
    (10, None),
];

#[test]
fn a_line_tells_where_its_text_and_the_next_line_begin(rt: HostRuntime) {
    assert_eq!(rt; wrong_place(TWO_LINES, PLACES), None);
}

/// Returns whether the amount at a place of a text has these units and ends at that place, or has this
/// fault.
fn is_read(
    text: &[u8],
    at: usize,
    hundredths: bool,
    wanted: Result<(u64, usize), AmountFault>,
) -> bool {
    match (read_amount(text, at, hundredths), wanted) {
        (Ok(amount), Ok((units, next))) => amount.units == units && amount.next == next,
        (Err(fault), Err(other)) => fault == other,
        _ => false,
    }
}

/// Returns the first of these texts that doesn't begin with an amount of its units and length, or doesn't
/// have its fault.
fn wrong_amount(
    table: &[(&'static [u8], bool, Result<(u64, usize), AmountFault>)],
) -> Option<&'static str> {
    for (text, hundredths, wanted) in table {
        if !is_read(text, 0, *hundredths, *wanted) {
            return Some(row_text(*text));
        }
    }
    None
}

const AMOUNTS: &[(&[u8], bool, Result<(u64, usize), AmountFault>)] = &[
    (b"$0.50", true, Ok((50, 5))),
    (b"$1 USD", true, Ok((100, 2))),
    (b"4000 in chips", false, Ok((4000, 4))),
    (b"\xe2\x82\xac2.05)", true, Ok((205, 7))),
    (b"999999999999999", false, Ok((GREATEST, 15))),
    (b"1000000000000000", false, Err(AmountFault::TooLarge)),
    (
        b"99999999999999999999999999",
        true,
        Err(AmountFault::TooLarge),
    ),
    (b"", true, Err(AmountFault::NotAmount)),
    (b"$", true, Err(AmountFault::NotAmount)),
    (b"x", true, Err(AmountFault::NotAmount)),
    (b"1.", true, Err(AmountFault::NotAmount)),
    (b"1.5", true, Err(AmountFault::NotAmount)),
    (b"1.505", true, Err(AmountFault::NotAmount)),
    (b"-1", true, Err(AmountFault::NotAmount)),
    (b"1.50", false, Err(AmountFault::NotAmount)),
];

#[test]
fn amounts_are_read(rt: HostRuntime) {
    assert_eq!(rt; wrong_amount(AMOUNTS), None);
    assert!(rt;
        is_read(b"1", 2, false, Err(AmountFault::NotAmount)),
        "there is no amount after the end of a text"
    );
}
