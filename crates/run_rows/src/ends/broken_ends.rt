//! Reads that fail at any place, in each mode and form: the run reports what was closed before, and
//! nothing else.

use crate::histories::{CUT_AND_WHOLE, Hand, TWICE_REPORT};
use crate::reports::checks::SIDE_POTS_REPORT;
use crate::reports::forms::{line_count, told};
use crate::runs::{AMPLE, Edges, Part, did, front, input_of, joined, run_by_workers};
use std::alloc::Global;
use std::process::Abort;
use std::sync::Wait;
use std::test::Fail;
use std::thread::Threads;

/// The report of `audit` on aces against kings. The counts are those of a listing.
const ACES_REPORT: &str = "hand 96 accepted holdem rake 0
pot 0 gross 2000 rake 0 checked
paid 2000 y
all-in preflop runouts 1712304
pot 0 high win 1410336 82.36 tie 9308 0.54 lose 292660 17.09 x
pot 0 ev 0.826 x
pot 0 high win 292660 17.09 tie 9308 0.54 lose 1410336 82.36 y
pot 0 ev 0.174 y
expect 1653 x
expect 347 y
";

/// A mode and its input of three hands or lines, which end at these lines.
struct Broken {
    mode: &'static str,
    input: &'static [Part<'static>],
    /// The lines that close the first and the second. A hand is closed by the next header line with its
    /// newline.
    closes: (usize, usize),
    /// Whether there is one block for all, written at the end. The texts are then the reports of none, of
    /// the first, of the first two, and of all. Otherwise each hand or line has its own.
    is_sum: bool,
    texts: &'static [&'static str],
}

const CUT_HAND: &str = "PokerStars Hand #1: Hold'em No Limit (5/10)\nSeat 1: x (100 in chips)\n";

const CUT_REPORT: &str = "hand 1 rejected line 2 Unfinished\n";

const OPEN_HAND: &str = "PokerStars Hand #3: Hold'em No Limit (5/10)\nSeat 1: z (7 in chips)";

const OPEN_REPORT: &str = "hand 3 rejected line 28 Unfinished\n";

/// A hand that is cut off, one that is run twice, and one that is open.
pub(crate) const HANDS: &[Part] = &[
    Part::Whole(CUT_HAND),
    Part::All(Hand::Twice),
    Part::Whole(OPEN_HAND),
];

const TWICE_AUDIT: &str = "hand 2 accepted holdem rake 0 twice
pot 0 gross 200 rake 0 checked
paid 100 x
paid 100 y
all-in turn runouts 44
pot 0 high win 42 95.45 tie 0 0.00 lose 2 4.55 x
pot 0 ev 0.955 x
pot 0 high win 2 4.55 tie 0 0.00 lose 42 95.45 y
pot 0 ev 0.045 y
expect 191 x
expect 9 y
";

const TWICE_STREETS: &str = "hand 2 accepted holdem rake 0 twice
pot 0 gross 200 rake 0 checked
paid 100 x
paid 100 y
all-in turn runouts 44
pot 0 high win 42 95.45 tie 0 0.00 lose 2 4.55 x
pot 0 ev 0.955 x
pot 0 high win 2 4.55 tie 0 0.00 lose 42 95.45 y
pot 0 ev 0.045 y
expect 191 x
expect 9 y
street river runouts 1
pot 0 high win 1 100.00 tie 0 0.00 lose 0 0.00 x
pot 0 ev 1.000 x
pot 0 high win 0 0.00 tie 0 0.00 lose 1 100.00 y
pot 0 ev 0.000 y
";

const TWICE_RESULTS: &str = "hand 2 accepted holdem rake 0 twice
result had 100 put 100 got 100 net 0 even 91 x
result had 100 put 100 got 100 net 0 even -91 y
";

const TWICE_SETTLEMENT: &str = "hand 2 accepted holdem rake 0 twice
pot 0 gross 200 rake 0 checked
part 0 1 high units 100 odd 0 x
part 0 2 high units 100 odd 0 y
share 0 due 100 got 100 x
share 0 due 100 got 100 y
";

/// The report of a hand that is cut off after its twelfth line.
pub(crate) const TWELVE_REPORT: &str = "hand 88 rejected line 12 Unfinished\n";

const OF_HANDS: &[Broken] = &[
    Broken {
        mode: "check",
        input: CUT_AND_WHOLE,
        closes: (13, usize::MAX),
        is_sum: false,
        texts: &[TWELVE_REPORT, SIDE_POTS_REPORT],
    },
    Broken {
        mode: "check",
        input: HANDS,
        closes: (3, 27),
        is_sum: false,
        texts: &[CUT_REPORT, TWICE_REPORT, OPEN_REPORT],
    },
    Broken {
        mode: "settle",
        input: HANDS,
        closes: (3, 27),
        is_sum: false,
        texts: &[CUT_REPORT, TWICE_SETTLEMENT, OPEN_REPORT],
    },
    Broken {
        mode: "totals",
        input: HANDS,
        closes: (3, 27),
        is_sum: true,
        texts: &[
            "totals hands 0 accepted 0 rejected 0\n",
            "totals hands 1 accepted 0 rejected 1\n",
            "totals hands 2 accepted 1 rejected 1
total chips hands 1 allins 1 collected 100 expected 191 x
total chips hands 1 allins 1 collected 100 expected 9 y
",
            "totals hands 3 accepted 1 rejected 2
total chips hands 1 allins 1 collected 100 expected 191 x
total chips hands 1 allins 1 collected 100 expected 9 y
",
        ],
    },
];

/// Modes that count the all-ins of hands.
const OF_ALL_INS: &[Broken] = &[
    Broken {
        mode: "audit",
        input: HANDS,
        closes: (3, 27),
        is_sum: false,
        texts: &[CUT_REPORT, TWICE_AUDIT, OPEN_REPORT],
    },
    Broken {
        mode: "streets",
        input: HANDS,
        closes: (3, 27),
        is_sum: false,
        texts: &[CUT_REPORT, TWICE_STREETS, OPEN_REPORT],
    },
    Broken {
        mode: "results",
        input: HANDS,
        closes: (3, 27),
        is_sum: false,
        texts: &[CUT_REPORT, TWICE_RESULTS, OPEN_REPORT],
    },
    Broken {
        mode: "balance",
        input: HANDS,
        closes: (3, 27),
        is_sum: true,
        texts: &[
            "balance hands 0 accepted 0 rejected 0\n",
            "balance hands 1 accepted 0 rejected 1\n",
            "balance hands 2 accepted 1 rejected 1
balance chips hands 1 got 100 net 0 even 91 unknown 0 x
balance chips hands 1 got 100 net 0 even -91 unknown 0 y
",
            "balance hands 3 accepted 1 rejected 2
balance chips hands 1 got 100 net 0 even 91 unknown 0 x
balance chips hands 1 got 100 net 0 even -91 unknown 0 y
",
        ],
    },
];

pub(crate) const SPOTS: &[Part] = &[Part::Whole(
    "badugi As Ah
holdem As Ah - Ks Kh -- 2c 7d 9h 4s
holdem As Ah",
)];

const NO_GAME: &str = "spot 1 rejected line 1 UnknownWord\n";

const SPOT_REPORT: &str = "spot 2 holdem runouts 44
hand 1 high win 42 95.45 tie 0 0.00 lose 2 4.55
hand 1 ev 0.955
hand 2 high win 2 4.55 tie 0 0.00 lose 42 95.45
hand 2 ev 0.045
";

pub(crate) const RANGES: &[Part] = &[Part::Whole(
    "holdem KAs - AsAh
holdem AsAh - KsKh,QcQd:2 -- 2c 7d 9h 4s
holdem AsAh",
)];

const NO_RANGE: &str = "spot 1 rejected line 1 BadRange\n";

const RANGE_REPORT: &str = "spot 2 holdem choices 2 runouts 44 weight 3
hand 1 high win 126 95.45 tie 0 0.00 lose 6 4.55
hand 1 ev 0.955
hand 2 high win 6 4.55 tie 0 0.00 lose 126 95.45
hand 2 ev 0.045
";

const NO_PLAYERS: &str = "spot 3 rejected line 3 PlayerCount\n";

const OF_LINES: &[Broken] = &[
    Broken {
        mode: "spots",
        input: SPOTS,
        closes: (1, 2),
        is_sum: false,
        texts: &[NO_GAME, SPOT_REPORT, NO_PLAYERS],
    },
    Broken {
        mode: "ranges",
        input: RANGES,
        closes: (1, 2),
        is_sum: false,
        texts: &[NO_RANGE, RANGE_REPORT, NO_PLAYERS],
    },
];

/// Returns the blocks of the first `count` hands or lines.
fn blocks_of(row: &Broken, count: usize) -> &'static [&'static str] {
    if row.is_sum {
        let most = row.texts.len();
        &row.texts[count.min(most)..count.saturating_add(1).min(most)]
    } else {
        &row.texts[..count.min(row.texts.len())]
    }
}

/// Returns how many hands or lines are closed once `lines` lines of text are read.
fn closed_by(row: &Broken, lines: usize) -> usize {
    if lines >= row.closes.1 {
        2
    } else if lines >= row.closes.0 {
        1
    } else {
        0
    }
}

/// Returns the status and the blocks that are written if the read of this number fails, with reads of
/// `piece` bytes. The read after the last byte finds the end, and no later read is made.
fn told_behind(
    row: &Broken,
    input: &[u8],
    piece: usize,
    read: usize,
) -> (u8, &'static [&'static str]) {
    let place = read.saturating_mul(piece);
    if place >= input.len().saturating_add(piece) {
        (1, blocks_of(row, 3))
    } else {
        (
            3,
            blocks_of(row, closed_by(row, line_count(front(input, place)))),
        )
    }
}

/// Returns ends with reads of `piece` bytes, one of which fails, and perhaps a write that fails.
fn failing(piece: usize, read: usize, write_fault: Option<u64>) -> Edges {
    Edges {
        piece,
        read_fault: Some(read as u64),
        write_fault,
        ..AMPLE
    }
}

/// The run of a mode between these ends must end with this status and these blocks.
fn leaves<R: Threads + Wait + Sync + Abort>(
    rt: &R,
    alloc: Global,
    mode: &str,
    is_csv: bool,
    input: &[u8],
    edges: Edges,
    status: u8,
    blocks: &[&str],
) -> Result<(), Fail> {
    let left = joined(alloc, blocks)?;
    let ran = told(rt, alloc, mode, is_csv, input, edges)?;
    did(rt, &ran, status, left.as_bytes(), mode);
    Ok(())
}

/// Returns how many of the first blocks one write has, with reads of `piece` bytes. In `check` and
/// `settle`, which count no equity, these are the blocks of the hands that one read closes. If the input
/// is one piece, or in other modes, it is one block.
fn written_together(row: &Broken, input: &[u8], piece: usize) -> usize {
    if row.mode == "check" || row.mode == "settle" {
        closed_by(row, line_count(front(input, piece))).max(1)
    } else {
        1
    }
}

/// If a read and a write of blocks fail, the run must end with status 4 and the blocks before the write.
fn each_block_fails<R: Threads + Wait + Sync + Abort>(
    rt: &R,
    alloc: Global,
    row: &Broken,
    is_csv: bool,
    input: &[u8],
    piece: usize,
    read: usize,
    blocks: &[&str],
) -> Result<(), Fail> {
    let together = written_together(row, input, piece);
    for write in 0..blocks.len() {
        let before = write.saturating_mul(together);
        if before < blocks.len() {
            let edges = failing(piece, read, Some(write as u64));
            leaves(
                rt,
                alloc,
                row.mode,
                is_csv,
                input,
                edges,
                4,
                &blocks[..before],
            )?;
        }
    }
    Ok(())
}

/// If the read of this number fails, with reads of `piece` bytes, the run must end with status 3 and the
/// report of what is closed.
fn read_fails<R: Threads + Wait + Sync + Abort>(
    rt: &R,
    alloc: Global,
    row: &Broken,
    is_csv: bool,
    input: &[u8],
    piece: usize,
    read: usize,
) -> Result<(), Fail> {
    let (status, blocks) = told_behind(row, input, piece, read);
    let edges = failing(piece, read, None);
    leaves(rt, alloc, row.mode, is_csv, input, edges, status, blocks)?;
    each_block_fails(rt, alloc, row, is_csv, input, piece, read, blocks)
}

/// Tries `read_fails` for each read of `piece` bytes.
fn each_read_of<R: Threads + Wait + Sync + Abort>(
    rt: &R,
    alloc: Global,
    row: &Broken,
    is_csv: bool,
    input: &[u8],
    piece: usize,
) -> Result<(), Fail> {
    let reads = input.len() / piece.max(1);
    for read in 0..reads.saturating_add(4) {
        read_fails(rt, alloc, row, is_csv, input, piece, read)?;
    }
    Ok(())
}

/// The most bytes that a read gives, and whether the report has records.
const PIECES: [(usize, bool); 4] = [(1, false), (7, true), (64, false), (4096, true)];

/// Tries `each_read_of` for each size of a piece.
fn each_read_fails<R: Threads + Wait + Sync + Abort>(
    rt: &R,
    alloc: Global,
    row: &Broken,
) -> Result<(), Fail> {
    let input = input_of(alloc, row.input)?;
    for (piece, is_csv) in PIECES {
        each_read_of(rt, alloc, row, is_csv, &input, piece)?;
    }
    Ok(())
}

#[test]
fn any_read_of_hands_may_fail(rt: HostRuntime) -> Result<(), Fail> {
    for row in OF_HANDS {
        each_read_fails(&rt, rt.alloc(), row)?;
    }
    Ok(())
}

#[test]
fn any_read_of_all_ins_may_fail(rt: HostRuntime) -> Result<(), Fail> {
    for row in OF_ALL_INS {
        each_read_fails(&rt, rt.alloc(), row)?;
    }
    Ok(())
}

#[test]
fn any_read_of_lines_may_fail(rt: HostRuntime) -> Result<(), Fail> {
    for row in OF_LINES {
        each_read_fails(&rt, rt.alloc(), row)?;
    }
    Ok(())
}

/// A hand whose all-in several workers share, between one that is cut off and one that is open.
const SHARED: &[Part] = &[
    Part::Whole(CUT_HAND),
    Part::All(Hand::Aces),
    Part::Whole(OPEN_HAND),
];

const OF_SHARED: &[Broken] = &[
    Broken {
        mode: "audit",
        input: SHARED,
        closes: (3, 21),
        is_sum: false,
        texts: &[
            CUT_REPORT,
            ACES_REPORT,
            "hand 3 rejected line 22 Unfinished\n",
        ],
    },
    Broken {
        mode: "totals",
        input: SHARED,
        closes: (3, 21),
        is_sum: true,
        texts: &[
            "totals hands 0 accepted 0 rejected 0\n",
            "totals hands 1 accepted 0 rejected 1\n",
            "totals hands 2 accepted 1 rejected 1
total chips hands 1 allins 1 collected 0 expected 1653 x
total chips hands 1 allins 1 collected 2000 expected 347 y
",
            "totals hands 3 accepted 1 rejected 2
total chips hands 1 allins 1 collected 0 expected 1653 x
total chips hands 1 allins 1 collected 2000 expected 347 y
",
        ],
    },
];

/// The run of these words with workers, between these ends, must end with this status and these blocks.
fn leaves_by_workers<R: Threads + Wait + Sync + Abort>(
    rt: &R,
    alloc: Global,
    words: &[&str],
    input: &[u8],
    edges: Edges,
    status: u8,
    blocks: &[&str],
) -> Result<(), Fail> {
    let left = joined(alloc, blocks)?;
    let ran = run_by_workers(rt, alloc, words, input, edges)?;
    did(rt, &ran, status, left.as_bytes(), "workers");
    Ok(())
}

/// Tries each read of 200 bytes as the one that fails.
fn each_read_fails_by_workers<R: Threads + Wait + Sync + Abort>(
    rt: &R,
    alloc: Global,
    words: &[&str],
    row: &Broken,
    input: &[u8],
) -> Result<(), Fail> {
    for read in 0..6usize {
        let (status, blocks) = told_behind(row, input, 200, read);
        let edges = failing(200, read, None);
        leaves_by_workers(rt, alloc, words, input, edges, status, blocks)?;
    }
    Ok(())
}

/// Tries it with one worker and with two.
fn workers_share<R: Threads + Wait + Sync + Abort>(
    rt: &R,
    alloc: Global,
    mode: &str,
    row: &Broken,
) -> Result<(), Fail> {
    let input = input_of(alloc, row.input)?;
    for workers in ["--workers=1", "--workers=2"] {
        each_read_fails_by_workers(rt, alloc, &[mode, workers], row, &input)?;
    }
    Ok(())
}

#[test]
fn any_read_may_fail_with_workers(rt: HostRuntime) -> Result<(), Fail> {
    for row in OF_SHARED {
        workers_share(&rt, rt.alloc(), row.mode, row)?;
    }
    Ok(())
}
