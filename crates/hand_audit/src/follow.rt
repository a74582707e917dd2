//! The lines of a hand, one after the other.

ghost use Rattle.std.specs.Prelude.{◌≡◌, ℕ, ◌+◌, ◌≤◌, ◌<◌, ◌^◌, [], IfOk, drop, length};
ghost use Rattle.line_text.specs.Lines.{lines};
ghost use Rattle.hand_audit.specs.Keeping.{Follows, IsFound};

use crate::first_pass::PlayersFound;
use crate::hand::{AuditState, read, seat_name_said};
use crate::settling::HandSettled;
use card_sets::Memory;
use hand_verdict::Cause;
use history_text::{Header, Names};
use line_text::next_line;
use std::alloc::{AllocError, Global};

/// What comes of following the lines.
#[derive(Drop)]
pub(crate) enum Followed {
    /// How many the lines are up to the first that departs, and why it does.
    Departs(usize, Cause),
    /// The chips are settled: how many the lines are, what is kept of them, the names of the seat lines, and what
    /// became of the chips. The last line departs where a payment is beyond its tolerance, and else none does.
    Ends(usize, Box<AuditState>, Names, HandSettled),
}

/// Puts a state behind a pointer: it is large, and what moves the pointer doesn't copy it.
fn boxed(alloc: Global, state: AuditState) -> Result<Box<AuditState>, AllocError>
    ensures { IfOk result (λ kept. kept.value ≡ state) }
{
    Ok(Box::new(alloc, state)?)
}

/// Follows the lines from a place on, of a hand with this header. The first pass found who plays, what the first of them say,
/// and whom they name: their ends aren't searched for again, and nobody is named again.
pub(crate) fn follow(
    alloc: Global,
    header: &Header,
    found: PlayersFound,
    bytes: &[u8],
    start: usize,
) -> Result<Followed, Memory>
    requires { IsFound header.now bytes.now start found.read.said.items found.names
        found.read.next }
    ensures { IfOk result (λ followed.
        Follows header.now found.players (lines (drop start bytes.now)) followed) }
{
    let _ = start;
    let PlayersFound {
        players,
        read: first,
        mut names,
    } = found;
    let mut state = AuditState::new(alloc, header, players);
    let mut count = 0;
    let mut left = first.said.as_slice();
    'reads: while let Some((said, others)) = left.split_first() {
        count += 1;
        if let Some(cause) = state.take_read(header, said)? {
            return Ok(Followed::Departs(count, cause));
        }
        left = others;
    }
    let mut at = first.next;
    'lines: while let Some(line) = next_line(bytes, at) {
        count += 1;
        let text = &bytes[line.first..line.end];
        let said = read(&names, header, state.part, text);
        if let Some(cause) = state.take_read(header, &said)? {
            return Ok(Followed::Departs(count, cause));
        }
        seat_name_said(&mut names, &said, text)?;
        at = line.next;
    }
    match state.end(alloc, header.game)? {
        Ok(settled) => {
            let state = boxed(alloc, state)?;
            Ok(Followed::Ends(count, state, names, settled))
        }
        Err(cause) => Ok(Followed::Departs(count, cause)),
    }
}
