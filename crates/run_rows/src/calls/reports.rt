//! Calls that read words and ranges, add hands to sums, and write blocks, with ample memory.

ghost use Rattle.std.specs.Prelude.{IsTrue};
ghost use Rattle.even_luck.specs.Equities.{IsOfHand};
ghost use Rattle.even_luck.specs.declared.equity.Equity.{Equity};

use crate::calls::audits::{FOLDED_BEHIND, RETURNED, audit};
use card_sets::Card;
use command_words::{Command, Mode, read_words};
use hand_audit::{AllIn, HandAudit, StreetState};
use history_text::Street;
use range_lines::{RangeFault, RangeJobFault, RangeSpot, Weighted, read_ranges, write_ranges};
use report_table::{Equity, Form, Totals, write_hand, write_spot, write_street};
use runout_ranges::JobFault;
use spot_text::SpotFault;
use std::alloc::Global;

/// Returns whether the hand is accepted without an all-in, so that any equity fits the verdict.
fn has_no_all_in(audit: &HandAudit) -> bool
    ensures { (equity : Equity) → IsTrue result → IsOfHand audit.now equity }
{
    match audit {
        HandAudit::Accepted {
            all_in: AllIn::None,
            ..
        } => true,
        _ => false,
    }
}

/// Returns the block of a hand without an all-in, and then the totals of this hand.
fn hand_blocks(alloc: Global) -> Option<Vec<u8>> {
    let audit = audit(alloc, RETURNED)?;
    if !has_no_all_in(&audit) {
        return None;
    }
    let mut out = Vec::new(alloc);
    write_hand(&mut out, b"6", &audit, &Equity::NotAsked, Form::Text).ok()?;
    let mut totals = Totals::new(alloc);
    totals
        .add(&audit, &Equity::Refused(JobFault::AboveLimit))
        .ok()?;
    totals.write(&mut out, Form::Text).ok()?;
    Some(out)
}

/// Returns the block of a street with an unknown card, and then the blocks of two refused lines.
fn other_blocks(alloc: Global) -> Option<Vec<u8>> {
    let audit = audit(alloc, FOLDED_BEHIND)?;
    let hidden = StreetState {
        street: Street::Turn,
        table: None,
    };
    let mut out = Vec::new(alloc);
    write_street(&mut out, &audit, &hidden, &Equity::NotAsked, Form::Text).ok()?;
    let spot = Err(SpotFault::PlayerCount);
    write_spot(&mut out, 3, 4, &spot, &Equity::NotAsked, Form::Text).ok()?;
    let ranges = Err(RangeFault::BadRange);
    let tally = Err(RangeJobFault::NoChoice);
    write_ranges(&mut out, 4, 6, &ranges, &tally, Form::Text).ok()?;
    Some(out)
}

/// Returns whether blocks have this text.
fn have_text(blocks: &Option<Vec<u8>>, text: &str) -> bool {
    match blocks {
        Some(bytes) => bytes.as_slice() == text.as_bytes(),
        None => false,
    }
}

const HAND_BLOCKS: &str = "hand 6 accepted holdem rake 0
pot 0 gross 100 rake 0 checked
paid 100 ann
totals hands 1 accepted 1 rejected 0
total chips hands 1 allins 0 collected 0 expected 0 ann
total chips hands 1 allins 0 collected 0 expected 0 bob
total chips hands 1 allins 0 collected 0 expected 0 cat
total chips hands 1 allins 0 collected 0 expected 0 dan
";

const OTHER_BLOCKS: &str = "street turn unknown
spot 3 rejected line 4 PlayerCount
spot 4 rejected line 6 BadRange
";

#[test]
fn blocks_are_written_with_ample_memory(rt: HostRuntime) {
    assert!(rt;
        have_text(&hand_blocks(rt.alloc()), HAND_BLOCKS),
        "the block of a hand without an all-in, and its totals"
    );
    assert!(rt;
        have_text(&other_blocks(rt.alloc()), OTHER_BLOCKS),
        "the block of an unknown street, and of two refused lines"
    );
}

/// Returns the command of some words.
fn command_of(alloc: Global, words: &[&str]) -> Option<Command> {
    let mut owned = Vec::new(alloc);
    for word in words {
        owned.push(String::from_str(alloc, word).ok()?).ok()?;
    }
    read_words(alloc, owned.as_slice()).ok()
}

/// Returns whether a command asks for results as records by sixteen workers, and has the usual seed and number of hands.
fn asks_for_results(command: &Option<Command>) -> bool {
    match command {
        Some(command) => {
            matches!(command.mode, Mode::Results)
                && matches!(command.form, Form::Csv)
                && command.workers == 16
                && command.seed == 1
                && command.hands == 100
        }
        None => false,
    }
}

/// Returns whether a hand of a range has these two cards and this weight.
fn weighs(hand: &Weighted, cards: [[u8; 2]; 2], weight: u8) -> bool {
    match (Card::read(cards[0]), Card::read(cards[1])) {
        (Some(first), Some(second)) => {
            hand.hand.has(first)
                && hand.hand.has(second)
                && hand.hand.count() == 2
                && hand.weight == weight
        }
        _ => false,
    }
}

/// Returns whether the first range has only aces, and the second has queens twice and kings once.
fn are_two_ranges(spot: &RangeSpot) -> bool {
    let [first, second] = spot.ranges.as_slice() else {
        return false;
    };
    match (first.hands(), second.hands()) {
        ([aces], [queens, kings]) => {
            weighs(aces, [*b"Ah", *b"As"], 1)
                && weighs(queens, [*b"Qc", *b"Qd"], 2)
                && weighs(kings, [*b"Kh", *b"Ks"], 1)
        }
        _ => false,
    }
}

/// Returns whether a line has these two ranges.
fn reads_two_ranges(alloc: Global, line: &[u8]) -> bool {
    match read_ranges(alloc, line) {
        Ok(spot) => are_two_ranges(&spot),
        Err(_) => false,
    }
}

#[test]
fn words_and_ranges_are_read_with_ample_memory(rt: HostRuntime) {
    let words = ["results", "--workers", "16", "--format=csv"];
    assert!(rt;
        asks_for_results(&command_of(rt.alloc(), &words)),
        "the command asks for results as records by sixteen workers"
    );
    assert!(rt;
        reads_two_ranges(rt.alloc(), b"holdem AsAh - KsKh,QcQd:2 -- 2c 7d 9h 4s"),
        "a range of aces, and one of queens twice and kings once"
    );
}
