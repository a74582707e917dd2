//! Inputs of 1 GiB, which is the most that a run reads, and of more.

ghost use Rattle.std.specs.Prelude.{◌≤◌, None, length};
ghost use Rattle.run_rows.specs.Filled.{ReadsFilled, filled_tells};

use crate::ends::faults::{REPORT, SPOT};
use crate::histories::Hand;
use crate::reports::checks::SIDE_POTS_REPORT;
use crate::runs::{AMPLE, Part, holds, input_of, owned, sink_of};
use byte_ends::{Failed, RepeatSource, Source};
use run_engine::{INPUT_MAX, run, run_alone};
use std::alloc::Global;
use std::process::Abort;
use std::test::Fail;
use steal_pool::OpenGate;

/// A source of some bytes, then `left` bytes of long lines of one letter, and then some bytes again. Its
/// bytes are unknown to clauses.
#[derive(Drop)]
struct Filled<'a> {
    front: &'a [u8],
    filling: usize,
    byte: u8,
    back: &'a [u8],
}

/// Moves the first bytes into the beginning of a piece, as many as fit.
fn take_front<'a>(piece: &mut [u8], bytes: &'a [u8]) -> (usize, &'a [u8])
    ensures { result.0 ≤ length piece.new }
{
    let count = piece.len().min(bytes.len());
    piece[..count].copy_from_slice(&bytes[..count]);
    (count, &bytes[count..])
}

impl<'a> Source for Filled<'a> {
    ghost left = { λ _. None };

    ghost faults = { λ _. 0 };

    ghost reads = { λ _ _ read. ReadsFilled read };

    fn read(&mut self, piece: &mut [u8]) -> Result<usize, Failed> {
        if !self.front.is_empty() {
            let (count, left) = take_front(piece, self.front);
            self.front = left;
            return Ok(count);
        }
        if self.filling == 0 {
            let (count, left) = take_front(piece, self.back);
            self.back = left;
            return Ok(count);
        }
        let count = piece.len().min(self.filling);
        self.filling -= count;
        piece[..count].fill(self.byte);
        if let Some(last) = piece[..count].last_mut() {
            *last = b'\n';
        }
        Ok(count)
    }

    ghost tells = { λ _ _ read given. filled_tells read given };
}

/// The run of a mode over a source must end with this status and write this.
fn ends_over(
    rt: &impl Abort,
    alloc: Global,
    mode: &str,
    source: &mut impl Source,
    status: u8,
    written: &str,
) -> Result<(), Fail> {
    let words = owned(alloc, &[mode])?;
    let mut sink = sink_of(alloc, AMPLE)?;
    let ended = run_alone(alloc, &words, source, &mut sink);
    let is_so = ended == status && sink.bytes() == written.as_bytes();
    holds(rt, is_so, mode);
    Ok(())
}

/// Returns a source of one byte above the limit, in lines that belong to no hand.
fn above_the_limit() -> RepeatSource {
    let mut line = [b'x'; 64];
    line[63] = b'\n';
    RepeatSource::new(line, INPUT_MAX as u64 + 1, 65_536)
}

/// One byte above the limit ends the run. Lines that belong to no hand are skipped.
#[test]
fn an_input_above_the_limit_with_no_hand_gives_nothing(rt: HostRuntime) -> Result<(), Fail> {
    ends_over(&rt, rt.alloc(), "audit", &mut above_the_limit(), 5, "")
}

#[test]
fn an_input_above_the_limit_gives_nothing_by_workers(rt: HostRuntime) -> Result<(), Fail> {
    let words = owned(rt.alloc(), &["audit"])?;
    let mut sink = sink_of(rt.alloc(), AMPLE)?;
    let mut source = above_the_limit();
    let status = run(&rt, rt.alloc(), &words, &mut source, &mut sink, &OpenGate);
    assert_eq!(rt;
        status,
        5,
        "the status of a run over an input above the limit"
    );
    assert!(rt;
        sink.bytes().is_empty(),
        "a run without a hand writes nothing"
    );
    Ok(())
}

/// An input with exactly as many bytes as the limit is read whole.
#[test]
fn an_input_of_the_limit_is_read_whole(rt: HostRuntime) -> Result<(), Fail> {
    let mut source = Filled {
        front: SPOT.as_bytes(),
        filling: INPUT_MAX.saturating_sub(SPOT.len()),
        byte: b' ',
        back: b"",
    };
    ends_over(&rt, rt.alloc(), "spots", &mut source, 0, REPORT)
}

/// A hand or a line that the last byte of the limit closes must be reported. With one more byte before
/// that byte it must not be. One byte follows it.
fn is_closed_there(
    rt: &impl Abort,
    alloc: Global,
    mode: &str,
    byte: u8,
    back: &[u8],
    report: &str,
) -> Result<(), Fail> {
    let filling = INPUT_MAX.saturating_sub(back.len().saturating_sub(1));
    for (more, report) in [(0usize, report), (1, "")] {
        let mut source = Filled {
            front: b"",
            filling: filling.saturating_add(more),
            byte,
            back,
        };
        ends_over(rt, alloc, mode, &mut source, 5, report)?;
    }
    Ok(())
}

/// A spot whose newline is the last byte of the limit is reported, and a spot with one more byte isn't.
#[test]
fn a_spot_at_the_limit(rt: HostRuntime) -> Result<(), Fail> {
    let back = input_of(rt.alloc(), &[Part::Whole(SPOT), Part::Whole("x")])?;
    is_closed_there(&rt, rt.alloc(), "spots", b' ', &back, REPORT)
}

const HAND: &[Part] = &[
    Part::All(Hand::SidePots),
    Part::Lines(Hand::SidePots, 1, 1),
    Part::Whole("x"),
];

/// A hand that the last byte of the limit closes, which is the newline of the next header line, is
/// reported. With one more byte it isn't.
#[test]
fn a_hand_closed_at_the_limit(rt: HostRuntime) -> Result<(), Fail> {
    let back = input_of(rt.alloc(), HAND)?;
    is_closed_there(&rt, rt.alloc(), "check", b'x', &back, SIDE_POTS_REPORT)
}
