//! A stream of bytes, cut into its hands or its lines, whatever the size of its pieces.
//!
//! `Cutter::give` takes a piece, `Cutter::close` ends the stream, and `Cutter::next_unit` returns the next
//! hand or line as soon as it is closed. A newline closes a line, a later header line with a newline
//! closes a hand, and the end of the stream closes what is left. `Cutter::forget` drops the bytes handed
//! out. So the caller of a long stream keeps the bytes of one open hand and one piece.
//!
//! The crate reads from no source, and recognizes only newlines and header lines. Bytes before the first
//! header line belong to no hand.
//!
//! A `Scan` keeps how far the bytes were examined, so that a long hand in small pieces isn't examined
//! again for each piece:
//!
//! 1. The search for a newline begins where the last search ended without one.
//! 2. Each line is tested once whether it is a header line, as soon as its newline is there. The first
//!    byte is enough for most lines.
//! 3. The place and the number of the open hand's header line are kept until the next header line closes
//!    the hand.
//! 4. One move of the remaining bytes drops the bytes handed out, and the places of the scan decrease by
//!    as much.
//!
//! A new piece doesn't cause a new search of the open line: each byte is searched for a newline once, when
//! it comes. A byte is moved only when bytes before it are dropped. No clause counts the searches or the
//! moves.
#![tactic(auto)]

mod cutter;
mod hands;
mod laws;
mod limits;
mod lines;
mod scan;
mod units;

pub use cutter::Cutter;
pub use laws::{law_closed_hands_by_bytes, law_closed_units_stay};
pub use limits::INPUT_MAX;
pub use units::{CutKind, Unit};
