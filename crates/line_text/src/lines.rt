//! The lines of a text in bytes: where each line begins and ends, and its text.
//!
//! A line ends before a newline or at the end of the bytes. The end of the bytes right after a
//! newline is
//! no line. The text of a line has no byte order mark at its beginning, and no spaces or carriage
//! returns at its end.

ghost use Rattle.std.specs.Prelude.{◌≡◌, ◌≤◌, ◌↔◌, [], ◌∷◌, length, drop, slice_range, IsNone, IfSome, MatchOption};
ghost use Rattle.line_text.specs.Lines.{front_line, is_blank, lines, text_of, without_blanks};
ghost use Rattle.line_text.specs.Places.{IsWithin, line_at, mark_length};
ghost use Rattle.line_text.specs.Laws.{AllCloseLines};

use memchr::memchr;

/// The byte order mark of UTF-8.
const MARK: [u8; 3] = [0xef, 0xbb, 0xbf];

/// The places of a line in the bytes: its text is `first..end`, and the next line begins at `next`.
#[derive(Clone, Copy)]
pub struct Line {
    /// Where the text begins.
    pub first: usize,
    /// Where the text ends, after its last byte.
    pub end: usize,
    /// Where the next line begins, or where the bytes end.
    pub next: usize,
}

/// Returns the line that begins at a place, or `None` at the end of the bytes.
pub fn next_line(bytes: &[u8], at: usize) -> Option<Line>
    requires { at ≤ length bytes.now }
    ensures none { IsNone result ↔ (at ≡ length bytes.now) }
    ensures numbers { IfSome result (λ line. line ≡ line_at bytes.now at) }
    ensures within { IfSome result (λ line. IsWithin at (length bytes.now) line) }
    ensures texts { MatchOption result (lines (drop at bytes.now) ≡ []) (λ line.
        lines (drop at bytes.now)
        ≡ slice_range bytes.now line.first line.end ∷ lines (drop line.next bytes.now)) }
{
    if at == bytes.len() {
        return None;
    }
    let rest = &bytes[at..];
    let line = &rest[..front_line_length(rest)];
    let marked = mark_length(line);
    let first = at + marked;
    Some(Line {
        first,
        end: first + length_without_blanks(&line[marked..]),
        next: (at + line.len() + 1).min(bytes.len()),
    })
}

/// Returns the text of a line, given all its bytes without the newline. The call searches for no
/// newline.
pub fn text_of(line: &[u8]) -> &[u8]
    ensures { result.now ≡ text_of line.now }
{
    let text = &line[mark_length(line)..];
    &text[..length_without_blanks(text)]
}

/// Returns the number of bytes before the first newline. An empty line needs no search.
fn front_line_length(bytes: &[u8]) -> usize
    ensures value { result ≡ length (front_line bytes.now) }
    ensures within { result ≤ length bytes.now }
{
    let Some((first, _others)) = bytes.split_first() else {
        return 0;
    };
    if *first == b'\n' {
        return 0;
    }
    memchr(b'\n', bytes).unwrap_or(bytes.len())
}

/// Returns the length of the mark at the beginning of the line.
fn mark_length(line: &[u8]) -> usize
    ensures value { result ≡ mark_length line.now }
    ensures within { result ≤ length line.now }
{
    if line.starts_with(&MARK) { 3 } else { 0 }
}

/// Returns the length of the line without the spaces and carriage returns at its end.
fn length_without_blanks(line: &[u8]) -> usize
    ensures value { result ≡ length (without_blanks line.now) }
    ensures within { result ≤ length line.now }
{
    let mut end = line.len();
    while end > 0 && is_blank(line[end - 1]) {
        end -= 1;
    }
    end
}

/// Returns whether the byte is a space or a carriage return.
fn is_blank(byte: u8) -> bool
    ensures { result ≡ is_blank byte }
{
    byte == b' ' || byte == b'\r'
}

/// A law: the lines of the bytes up to the last newline are the first lines of all bytes, and the
/// bytes after that newline are at most one line more.
pub fn law_closed_lines()
    ensures { AllCloseLines }
{}
