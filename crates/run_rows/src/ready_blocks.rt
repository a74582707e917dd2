//! A finished block is written before the next equity is counted.

ghost use Rattle.run_rows.specs.Filled.{WritesFilled, counted_tells};
ghost use Rattle.std.specs.Prelude.{None};

use crate::histories::Hand;
use crate::runs::{AMPLE, Part, holds, input_of, owned, run_by_workers, source_of};
use byte_ends::{Failed, Sink};
use run_engine::run;
use std::alloc::Global;
use std::process::Abort;
use std::sync::Wait;
use std::sync::atomic::{AtomicU64, Ordering};
use std::test::Fail;
use std::thread::Threads;
use steal_pool::Gate;

/// The number of blocks of each equity of these inputs: aces against kings before the flop.
const BLOCKS: u64 = 27;

/// A sink that takes all bytes, and counts them where a gate can see the number. Its bytes are unknown to
/// clauses.
#[derive(Drop)]
struct CountsBytes<'a> {
    written: &'a AtomicU64,
}

impl<'a> Sink for CountsBytes<'a> {
    ghost taken = { λ _. None };

    ghost faults = { λ _. 0 };

    ghost writes = { λ _ _ write. WritesFilled write };

    fn write(&mut self, piece: &[u8]) -> Result<usize, Failed> {
        self.written.fetch_add(piece.len() as u64, Ordering::SeqCst);
        Ok(piece.len())
    }

    ghost tells = { λ _ _ write taken. counted_tells write taken };
}

/// A gate that notes how many bytes were written when a worker enters the first block of the second
/// equity.
#[derive(Drop)]
struct SeesTheSecond<'a> {
    written: &'a AtomicU64,
    /// The number of blocks entered.
    entered: AtomicU64,
    /// The number of bytes that was noted.
    seen: AtomicU64,
}

impl<'a> Gate for SeesTheSecond<'a> {
    fn enter(&self, _worker: u32, _block: u32) {
        if self.entered.fetch_add(1, Ordering::SeqCst) == BLOCKS {
            let written = self.written.load(Ordering::SeqCst);
            self.seen.store(written, Ordering::SeqCst);
        }
    }
}

/// Returns the number of bytes that a run with two workers has written when it begins to count its second
/// equity.
fn written_before<R: Threads + Wait + Sync>(
    rt: &R,
    alloc: Global,
    mode: &str,
    input: &[u8],
) -> Result<u64, Fail> {
    let words = owned(alloc, &[mode, "--workers=2"])?;
    let written = AtomicU64::new(0);
    let gate = SeesTheSecond {
        written: &written,
        entered: AtomicU64::new(0),
        seen: AtomicU64::new(0),
    };
    let mut source = source_of(alloc, input, AMPLE)?;
    let mut sink = CountsBytes { written: &written };
    let _ = run(rt, alloc, &words, &mut source, &mut sink, &gate);
    Ok(gate.seen.load(Ordering::SeqCst))
}

/// When the second equity is begun, exactly the first block must be written: as many bytes as the report
/// of the first hand or line alone. Both come in one piece.
fn is_written_first<R: Threads + Wait + Sync + Abort>(
    rt: &R,
    alloc: Global,
    mode: &str,
    first: &[Part],
    all: &[Part],
) -> Result<(), Fail> {
    let one = input_of(alloc, first)?;
    let input = input_of(alloc, all)?;
    let alone = run_by_workers(rt, alloc, &[mode, "--workers=2"], &one, AMPLE)?;
    let before = written_before(rt, alloc, mode, &input)?;
    holds(rt, before > 0 && before == alone.written.len() as u64, mode);
    Ok(())
}

/// A hand, and the hand twice with the header line of a third, which closes the second.
const HAND: &[Part] = &[Part::All(Hand::Aces)];

const HANDS: &[Part] = &[
    Part::Hands(Hand::Aces, 2),
    Part::Whole("PokerStars Hand #1: Hold'em No Limit (5/10)\n"),
];

const SPOT: &[Part] = &[Part::Whole("holdem As Ah - Ks Kh\n")];

const SPOTS: &[Part] = &[Part::Times("holdem As Ah - Ks Kh\n", 2)];

/// Each mode that may share an equity and has a block for each hand or line.
const MODES: &[(&str, &[Part], &[Part])] = &[
    ("audit", HAND, HANDS),
    ("streets", HAND, HANDS),
    ("results", HAND, HANDS),
    ("spots", SPOT, SPOTS),
];

#[test]
fn no_block_waits_for_the_next_equity(rt: HostRuntime) -> Result<(), Fail> {
    for (mode, first, all) in MODES {
        is_written_first(&rt, rt.alloc(), mode, first, all)?;
    }
    Ok(())
}
