//! Streams in pieces.

ghost use Rattle.std.specs.Prelude.{◌≡◌, false};

use crate::rows::row_text;
use hand_cuts::{CutKind, Cutter};

/// Gives a piece to an open stream. Returns whether the piece is short, and there was memory for it.
fn takes(cutter: &mut Cutter, piece: &[u8]) -> bool
    requires { cutter.old.closed ≡ false }
    ensures { cutter.new.closed ≡ false }
{
    if cutter.given() > 1000 || piece.len() > 1000 {
        return false;
    }
    cutter.give(piece).is_ok()
}

/// Returns whether the next hand or line is this text and begins with this line. If there is no text,
/// returns whether no hand or line is left.
fn hands_out(cutter: &mut Cutter, text: &[u8], line: u32) -> bool
    ensures { cutter.new.closed ≡ cutter.old.closed }
{
    match cutter.next_unit() {
        Some(unit) => unit.first_line == line && &cutter.held()[unit.first..unit.end] == text,
        None => text.is_empty(),
    }
}

/// Returns the text of the first of these that isn't the next hand or line, with its first line. An empty
/// text says that no hand or line is left.
fn wrong_unit(cutter: &mut Cutter, units: &[(&'static [u8], u32)]) -> Option<&'static str>
    ensures { cutter.new.closed ≡ cutter.old.closed }
{
    for (text, line) in units {
        if !hands_out(cutter, text, *line) {
            return Some(row_text(*text));
        }
    }
    None
}

/// Returns the text of the first of these units that isn't returned after a piece of an open stream.
fn wrong_after(
    cutter: &mut Cutter,
    piece: &[u8],
    units: &[(&'static [u8], u32)],
) -> Option<&'static str>
    requires { cutter.old.closed ≡ false }
    ensures { cutter.new.closed ≡ false }
{
    if !takes(cutter, piece) {
        return Some("the piece isn't taken");
    }
    wrong_unit(cutter, units)
}

/// Returns the text of the first of these units that isn't returned after the end.
fn wrong_at_end(cutter: &mut Cutter, units: &[(&'static [u8], u32)]) -> Option<&'static str> {
    cutter.close();
    wrong_unit(cutter, units)
}

/// Returns whether these bytes are kept after `forget`.
fn forgets(cutter: &mut Cutter, rest: &[u8]) -> bool {
    cutter.forget();
    cutter.held() == rest
}

#[test]
fn a_hand_ends_where_a_later_header_line_has_its_newline(rt: HostRuntime) {
    let mut cutter = Cutter::new(rt.alloc(), CutKind::Hands);
    let first =
        b"\xef\xbb\xbfno hand\n\nPokerStars Hand #1\n PokerStars Hand #8\nPokerStars Game #2\r";
    assert_eq!(rt; wrong_after(&mut cutter, first, &[(b"", 0)]), None);
    let hand = b"PokerStars Hand #1\n PokerStars Hand #8\n".as_slice();
    assert_eq!(rt;
        wrong_after(
            &mut cutter,
            b"\n\nPokerStars Hand #3",
            &[(hand, 3), (b"", 0)]
        ),
        None
    );
    let last = [
        (b"PokerStars Game #2\r\n\n".as_slice(), 5),
        (b"PokerStars Hand #3".as_slice(), 7),
        (b"".as_slice(), 0),
    ];
    assert_eq!(rt; wrong_at_end(&mut cutter, &last), None);
}

#[test]
fn a_line_ends_with_its_newline_or_with_the_stream(rt: HostRuntime) {
    let mut cutter = Cutter::new(rt.alloc(), CutKind::Lines);
    assert!(rt;
        hands_out(&mut cutter, b"", 0),
        "an empty stream has no line"
    );
    assert_eq!(rt;
        wrong_after(&mut cutter, b"a\n\nb", &[(b"a\n", 1), (b"\n", 2), (b"", 0)]),
        None
    );
    assert!(rt; takes(&mut cutter, b"c"), "the last piece is taken");
    assert_eq!(rt; wrong_at_end(&mut cutter, &[(b"bc", 3), (b"", 0)]), None);
}

#[test]
fn the_lines_before_a_hand_are_forgotten(rt: HostRuntime) {
    let mut cutter = Cutter::new(rt.alloc(), CutKind::Hands);
    assert!(rt;
        takes(&mut cutter, b"a\nb\nPokerStars Hand #1\nPoker"),
        "the piece is taken"
    );
    assert!(rt;
        forgets(&mut cutter, b"PokerStars Hand #1\nPoker"),
        "the bytes from the header line on are kept"
    );
    assert_eq!(rt; cutter.given(), 28, "the forgotten bytes count too");
}

#[test]
fn what_was_handed_out_is_forgotten(rt: HostRuntime) {
    let mut cutter = Cutter::new(rt.alloc(), CutKind::Lines);
    assert_eq!(rt;
        wrong_after(&mut cutter, b"a\nPokerStars Hand #1\n", &[(b"a\n", 1)]),
        None
    );
    assert!(rt;
        forgets(&mut cutter, b"PokerStars Hand #1\n"),
        "the second line is kept"
    );
    assert!(rt;
        hands_out(&mut cutter, b"PokerStars Hand #1\n", 2),
        "the second line is returned"
    );
    assert!(rt;
        forgets(&mut cutter, b""),
        "no bytes are kept after the last line"
    );
}
