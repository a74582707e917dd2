//! Inputs that come in pieces.

use crate::histories::{CUT_AND_WHOLE, Hand};
use crate::reports::forms::{HAND_MODES, goes_so};
use crate::runs::{AMPLE, Edges, Part, ends, holds, input_of, run};
use std::alloc::Global;
use std::process::Abort;
use std::sync::Wait;
use std::test::Fail;
use std::thread::Threads;

/// The most bytes that a read gives.
const PIECES: [usize; 5] = [1, 2, 7, 64, 4096];

/// The mode must report the same of this input for each size of its pieces.
fn is_the_same<R: Threads + Wait + Sync + Abort>(
    rt: &R,
    alloc: Global,
    mode: &str,
    input: &[u8],
) -> Result<(), Fail> {
    let whole = run(rt, alloc, &[mode], input, AMPLE)?;
    holds(rt, whole.status == 1, mode);
    for piece in PIECES {
        goes_so(rt, alloc, mode, input, piece, &whole)?;
    }
    Ok(())
}

#[test]
fn pieces_change_nothing(rt: HostRuntime) -> Result<(), Fail> {
    let input = input_of(rt.alloc(), CUT_AND_WHOLE)?;
    for mode in HAND_MODES {
        is_the_same(&rt, rt.alloc(), mode, &input)?;
    }
    Ok(())
}

/// If a read of `piece` bytes fails after a place, the first hand must be reported.
fn is_cut_behind<R: Threads + Wait + Sync + Abort>(
    rt: &R,
    alloc: Global,
    input: &[u8],
    place: usize,
    piece: usize,
) -> Result<(), Fail> {
    let edges = Edges {
        piece,
        read_fault: Some((place / piece.max(1)) as u64),
        ..AMPLE
    };
    let report = "hand 88 rejected line 12 Unfinished\n";
    ends(rt, alloc, &["check"], edges, input, 3, &[report])
}

/// If a read fails within the second hand, the first is reported, for each size of the pieces.
#[test]
fn a_failed_read_between_pieces(rt: HostRuntime) -> Result<(), Fail> {
    let first = input_of(rt.alloc(), &[Part::Lines(Hand::SidePots, 1, 12)])?;
    let place = first.len().saturating_add(200);
    let input = input_of(rt.alloc(), CUT_AND_WHOLE)?;
    for piece in [1usize, 2, 7, 64] {
        is_cut_behind(&rt, rt.alloc(), &input, place, piece)?;
    }
    Ok(())
}
