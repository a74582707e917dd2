//! Words without a valid form, and failed reads and writes.

use crate::runs::{AMPLE, Case, Edges, NO_WRITE, Part, each_ends, ends};
use std::alloc::Global;
use std::process::Abort;
use std::sync::Wait;
use std::test::Fail;
use std::thread::Threads;

/// A spot line and its report, and the usage line.
pub(crate) const SPOT: &str = "holdem As Ah - Ks Kh -- 2c 7d 9h 4s\n";

pub(crate) const REPORT: &str = "spot 1 holdem runouts 44\n\
hand 1 high win 42 95.45 tie 0 0.00 lose 2 4.55\n\
hand 1 ev 0.955\n\
hand 2 high win 2 4.55 tie 0 0.00 lose 42 95.45\n\
hand 2 ev 0.045\n";

pub(crate) const USAGE: &str =
    "usage: equity MODE [--workers N] [--format text|csv] [--seed S] [--hands H]\n";

/// Ends whose sink has less room than the report needs.
const SMALL: Edges = Edges { room: 20, ..AMPLE };

const CASES: &[Case] = &[
    // A write fault has precedence.
    (&["--help"], NO_WRITE, &[Part::Whole(SPOT)], 4, &[]),
    (
        &["spots"],
        SMALL,
        &[Part::Whole(SPOT)],
        4,
        &["spot 1 holdem runout"],
    ),
];

#[test]
fn a_failed_write_leaves_a_front(rt: HostRuntime) -> Result<(), Fail> {
    each_ends(&rt, rt.alloc(), CASES)
}

/// The spot, and a line after it that isn't closed.
const OPEN: &str = "holdem As Ah - Ks Kh -- 2c 7d 9h 4s\nholdem As Ah";

const OPEN_REPORT: &str = "spot 2 rejected line 2 PlayerCount\n";

/// Returns the result of a run over both if a read of seven bytes fails. The eighth read finds the
/// end.
fn after_reads(call: u64) -> (u8, &'static [&'static str]) {
    if call < 6 {
        (3, &[])
    } else if call < 8 {
        (3, &[REPORT])
    } else {
        (1, &[REPORT, OPEN_REPORT])
    }
}

/// The read of this number fails, with reads of seven bytes.
fn a_read_fails<R: Threads + Wait + Sync + Abort>(
    rt: &R,
    alloc: Global,
    call: u64,
) -> Result<(), Fail> {
    let edges = Edges {
        piece: 7,
        read_fault: Some(call),
        ..AMPLE
    };
    let (status, texts) = after_reads(call);
    ends(rt, alloc, &["spots"], edges, OPEN.as_bytes(), status, texts)
}

/// A read that fails ends the input: the spots whose newline was read are reported.
#[test]
fn a_failed_read_keeps_the_closed_spots(rt: HostRuntime) -> Result<(), Fail> {
    for call in 0..24 {
        a_read_fails(&rt, rt.alloc(), call)?;
    }
    Ok(())
}
