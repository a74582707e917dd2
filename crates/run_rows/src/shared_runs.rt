//! Whole runs by several workers.

ghost use Rattle.std.specs.Prelude.{◌<◌};
ghost use Rattle.std.specs.List.Sorted.{IsStrictlyIncreasing};

use crate::runs::{holds, row_text};
use crate::spots::FIFTH_STREET;
use crate::workers::gates::{HoldsTheFirst, HoldsUntilFour, Notes};
use byte_ends::{MemorySink, MemorySource};
use run_engine::{run, run_alone};
use std::alloc::Global;
use std::process::Abort;
use std::sync::Wait;
use std::test::Fail;
use std::thread::Threads;
use steal_pool::{Gate, OpenGate};

/// Aces against kings before the flop.
const PREFLOP: &[u8] = b"holdem As Ah - Ks Kh\n";

/// A spot of 27 blocks, one of one block, two stud hands on fifth street in 11 blocks, one above the limit, and one that is rejected.
const SPOTS: &[u8] = b"holdem As Ah - Ks Kh\n\
holdem As Ah - Ks Kh -- 2c 7d 9h 4s\n\
stud As Ad Ah Ac 2c - Ks Kd Kh Kc 2d\n\
stud As Ad Ah - Ks Kd Kh\n\
holdem As Ah\n";

/// An all-in before the flop, with 1,712,304 runouts.
const ALL_IN: &str =
    "PokerStars Hand #92: Tournament #9, Freeroll  Hold'em No Limit - Level I (10/20)
Table '9 3' 2-max Seat #1 is the button
Seat 1: x (500 in chips)
Seat 2: y (480 in chips)
x: posts small blind 10
y: posts big blind 20
*** HOLE CARDS ***
Dealt to x [As Ah]
x: raises 480 to 500 and is all-in
y: calls 460 and is all-in
Uncalled bet (20) returned to x
*** FLOP *** [2c 7d 9h]
*** TURN *** [2c 7d 9h] [4s]
*** RIVER *** [2c 7d 9h 4s] [Jd]
*** SHOW DOWN ***
x: shows [As Ah] (a pair of Aces)
y: shows [Ks Kh] (a pair of Kings)
x collected 960 from pot
*** SUMMARY ***
Total pot 960 | Rake 0
Board [2c 7d 9h 4s Jd]
Seat 1: x (button) (small blind) showed [As Ah] and won (960) with a pair of Aces
Seat 2: y (big blind) showed [Ks Kh] and lost with a pair of Kings
";

/// The result of a run.
#[derive(Drop)]
struct Ran {
    status: u8,
    written: Vec<u8>,
}

/// Returns the list of calls that fail, with none in it.
fn no_call(alloc: Global) -> Vec<u64>
    ensures { IsStrictlyIncreasing result.items }
{
    Vec::new(alloc)
}

/// Returns the words of a command.
fn owned(alloc: Global, words: &[&str]) -> Result<Vec<String>, Fail> {
    let mut owned = Vec::new(alloc);
    for word in words {
        owned.push(String::from_str(alloc, word)?)?;
    }
    Ok(owned)
}

/// Returns the result of these words over this input with several workers.
fn shared<R: Threads + Wait + Sync, G: Gate + Sync>(
    rt: &R,
    alloc: Global,
    words: &[String],
    input: &[u8],
    gate: &G,
) -> Result<Ran, Fail> {
    let mut source = MemorySource::new(input.to_vec(alloc)?, 4096, no_call(alloc));
    let sink = MemorySink::new(alloc, 4096, 4096, no_call(alloc));
    let mut sink = sink.map_err(|_| "no memory for the sink")?;
    let status = run(rt, alloc, words, &mut source, &mut sink, gate);
    Ok(Ran {
        status,
        written: sink.bytes().to_vec(alloc)?,
    })
}

/// Returns the result of these words over this input on one thread.
fn alone(alloc: Global, words: &[String], input: &[u8]) -> Result<Ran, Fail> {
    let mut source = MemorySource::new(input.to_vec(alloc)?, 4096, no_call(alloc));
    let sink = MemorySink::new(alloc, 4096, 4096, no_call(alloc));
    let mut sink = sink.map_err(|_| "no memory for the sink")?;
    let status = run_alone(alloc, words, &mut source, &mut sink);
    Ok(Ran {
        status,
        written: sink.bytes().to_vec(alloc)?,
    })
}

/// Returns whether a run with `workers` workers writes the same over this input, and ends with the same
/// status.
fn is_same<R: Threads + Wait + Sync>(
    rt: &R,
    alloc: Global,
    words: &[&str],
    workers: &str,
    input: &[u8],
    one: &Ran,
) -> Result<bool, Fail> {
    let mut words = owned(alloc, words)?;
    words.push(String::from_str(alloc, workers)?)?;
    let ran = shared(rt, alloc, words.as_slice(), input, &OpenGate)?;
    Ok(ran.status == one.status && ran.written.as_slice() == one.written.as_slice())
}

/// Returns whether a run on one thread writes something, and ends with this status.
fn is_run(one: &Ran, status: u8) -> bool {
    one.status == status && !one.written.is_empty()
}

/// A run of these words over this input on one thread must end with this status. Runs with 1, 2, and 16
/// workers must write the same and end with the same status.
fn same_by_workers<R: Threads + Wait + Sync + Abort>(
    rt: &R,
    alloc: Global,
    words: &[&str],
    input: &[u8],
    status: u8,
) -> Result<(), Fail> {
    let one = alone(alloc, owned(alloc, words)?.as_slice(), input)?;
    holds(rt, is_run(&one, status), "one thread");
    for workers in ["--workers=1", "--workers=2", "--workers=16"] {
        holds(
            rt,
            is_same(rt, alloc, words, workers, input, &one)?,
            workers,
        );
    }
    Ok(())
}

#[test]
fn spots_are_the_same_by_any_number_of_workers(rt: HostRuntime) -> Result<(), Fail> {
    same_by_workers(&rt, rt.alloc(), &["spots"], SPOTS, 1)
}

#[test]
fn an_all_in_is_the_same_by_any_number_of_workers(rt: HostRuntime) -> Result<(), Fail> {
    same_by_workers(&rt, rt.alloc(), &["audit"], ALL_IN.as_bytes(), 0)?;
    same_by_workers(&rt, rt.alloc(), &["streets"], ALL_IN.as_bytes(), 0)
}

#[test]
fn made_hands_are_the_same_by_any_number_of_workers(rt: HostRuntime) -> Result<(), Fail> {
    same_by_workers(&rt, rt.alloc(), &["made", "--hands=100"], b"", 0)
}

#[test]
fn a_run_goes_on_while_one_of_two_workers_is_held(rt: HostRuntime) -> Result<(), Fail> {
    let gate = HoldsTheFirst::new();
    let words = owned(rt.alloc(), &["spots", "--workers", "2"])?;
    let ran = shared(&rt, rt.alloc(), words.as_slice(), PREFLOP, &gate)?;
    assert_eq!(rt; ran.status, 0, "the status of the run");
    assert!(rt; gate.was_released(), "the held worker was released");
    Ok(())
}

#[test]
fn a_run_has_four_workers_inside_at_once(rt: HostRuntime) -> Result<(), Fail> {
    let gate = HoldsUntilFour::new();
    let words = owned(rt.alloc(), &["spots", "--workers", "4"])?;
    let ran = shared(&rt, rt.alloc(), words.as_slice(), FIFTH_STREET, &gate)?;
    assert_eq!(rt; ran.status, 0, "the status of the run");
    assert!(rt; gate.were_four(), "four workers were inside at once");
    Ok(())
}

/// Spots with dead cards, and whether workers count their runouts. In hold'em C(37, 5) runouts make 7 blocks, C(38, 5) make 8, and
/// C(39, 5) make 9.
const AROUND_THE_BOUND: &[(&[u8], bool)] = &[
    (
        b"holdem As Ah - Ks Kh / 2c 2d 2h 2s 3c 3d 3h 3s 4c 4d 4h\n",
        false,
    ),
    (
        b"holdem As Ah - Ks Kh / 2c 2d 2h 2s 3c 3d 3h 3s 4c 4d\n",
        true,
    ),
    (b"holdem As Ah - Ks Kh / 2c 2d 2h 2s 3c 3d 3h 3s 4c\n", true),
];

#[test]
fn workers_count_from_a_bound_on(rt: HostRuntime) -> Result<(), Fail> {
    let words = owned(rt.alloc(), &["spots", "--workers", "2"])?;
    for (line, are_shared) in AROUND_THE_BOUND {
        let gate = Notes::new();
        let ran = shared(&rt, rt.alloc(), words.as_slice(), line, &gate)?;
        holds(
            &rt,
            ran.status == 0 && gate.has_some() == *are_shared,
            row_text(line),
        );
    }
    Ok(())
}
