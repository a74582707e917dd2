//! The hands of some bytes, one after another.

ghost use Rattle.std.specs.Prelude.{◌≡◌, ◌==◌, ◌||◌, ◌≤◌, ◌+◌, IfNone, IfSome, length};
ghost use Rattle.line_text.specs.Lines.{text_of};
ghost use Rattle.history_text.specs.Headers.{is_header};
ghost use Rattle.hand_cuts.specs.Scans.{Finds, HandsOut, HasHead, IsScan, NoUnit, SearchesAll, number_bound};
ghost use Rattle.hand_cuts.specs.declared.units.CutKind.TheVariants.{Hands};

use crate::limits::INPUT_MAX;
use crate::scan::{Head, Scan, end_of_line};
use crate::units::{CutKind, Unit};
use history_text::is_header;
use line_text::text_of;

/// Returns the next hand. A hand that no later header line closes counts only when the stream is
/// closed.
pub(crate) fn cut_hand(bytes: &[u8], closed: bool, scan: &mut Scan) -> Option<Unit>
    // The scan is that of these bytes, and the numbers of their lines fit.
    requires scan { IsScan bytes.now scan.old }
    requires few { number_bound bytes.now scan.old ≤ INPUT_MAX + 1 }

    // The scan remains one of these bytes.
    ensures scan { IsScan bytes.now scan.new }
    ensures few { number_bound bytes.now scan.new ≤ number_bound bytes.now scan.old }

    // The first hand of the rest is returned, and `None` exactly if the rest has none.
    ensures none { IfNone result (NoUnit Hands closed bytes.now scan.old scan.new) }
    ensures some { IfSome result (λ unit. HandsOut Hands closed bytes.now scan.old scan.new unit) }
{
    find_head(bytes, CutKind::Hands, scan);
    let Some(head) = scan.head else {
        return last_hand(bytes, closed, scan);
    };
    let Some(next) = next_head(bytes, scan) else {
        return last_hand(bytes, closed, scan);
    };
    scan.begin(next);
    Some(Unit {
        first: head.at,
        end: next.at,
        first_line: head.line,
    })
}

/// Searches for the first header line, up to the last newline. If lines are cut, the call does nothing.
pub(crate) fn find_head(bytes: &[u8], kind: CutKind, scan: &mut Scan)
    requires scan { IsScan bytes.now scan.old }
    requires few { number_bound bytes.now scan.old ≤ INPUT_MAX + 1 }
    ensures scan { IsScan bytes.now scan.new }
    ensures few { number_bound bytes.now scan.new ≤ number_bound bytes.now scan.old }
    ensures head { HasHead kind bytes.now scan.old scan.new }
{
    if kind == CutKind::Lines || scan.head.is_some() {
        return;
    }
    scan.head = next_head(bytes, scan);
}

/// Returns whether a header line may begin with a byte: its first letter, or the first byte of a byte
/// order mark.
fn may_begin_head(byte: u8) -> bool
    ensures { result ≡ (byte == 80 || byte == 239) }
{
    byte == b'P' || byte == 0xef
}

/// Returns whether a line is a header line. The first byte is enough for most other lines.
fn is_head(line: &[u8]) -> bool
    ensures { result ≡ is_header (text_of line.now) }
{
    let Some((first, _others)) = line.split_first() else {
        return false;
    };
    if !may_begin_head(*first) {
        return false;
    }
    is_header(text_of(line))
}

/// Moves past the next header line that has its newline. If there is none, searches all bytes and
/// returns `None`.
fn next_head(bytes: &[u8], scan: &mut Scan) -> Option<Head>
    requires scan { IsScan bytes.now scan.old }
    requires few { number_bound bytes.now scan.old ≤ INPUT_MAX + 1 }
    ensures few { number_bound bytes.now scan.new ≤ number_bound bytes.now scan.old }
    ensures none { IfNone result (SearchesAll bytes.now scan.old scan.new) }
    ensures some { IfSome result (λ head. Finds bytes.now scan.old scan.new head) }
{
    'lines: while let Some(next) = end_of_line(bytes, scan.looked, scan.searched) {
        let here = Head {
            at: scan.looked,
            line: scan.number,
        };
        scan.pass(next);
        if is_head(&bytes[here.at..next - 1]) {
            return Some(here);
        }
    }
    scan.searched = bytes.len();
    None
}

/// Returns the hand that is closed by the end of a closed stream. The bytes after the last newline are
/// its last line, or a hand of their own.
fn last_hand(bytes: &[u8], closed: bool, scan: &mut Scan) -> Option<Unit>
    // The scan is that of these bytes, the numbers of their lines fit, and no newline is left.
    requires scan { IsScan bytes.now scan.old }
    requires few { number_bound bytes.now scan.old ≤ INPUT_MAX + 1 }
    requires all { scan.old.searched ≡ length bytes.now }

    // The scan remains one of these bytes, and the numbers still fit.
    ensures scan { IsScan bytes.now scan.new }
    ensures few { number_bound bytes.now scan.new ≤ number_bound bytes.now scan.old }

    // The first hand of the rest is returned, and `None` exactly if the rest has none.
    ensures none { IfNone result (NoUnit Hands closed bytes.now scan.old scan.new) }
    ensures some { IfSome result (λ unit. HandsOut Hands closed bytes.now scan.old scan.new unit) }
{
    if !closed {
        return None;
    }
    if is_header(text_of(&bytes[scan.looked..])) {
        let last = Unit {
            first: scan.looked,
            end: bytes.len(),
            first_line: scan.number,
        };
        let Some(head) = scan.head else {
            scan.finish(bytes.len());
            return Some(last);
        };
        scan.go_on();
        return Some(Unit {
            first: head.at,
            end: last.first,
            first_line: head.line,
        });
    }
    let Some(head) = scan.head else {
        return None;
    };
    scan.finish(bytes.len());
    Some(Unit {
        first: head.at,
        end: bytes.len(),
        first_line: head.line,
    })
}
