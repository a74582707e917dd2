//! The spots of a listing: their counts by blocks, compared with the plain ones.

ghost use Rattle.std.specs.Prelude.{◌≡◌, ◌<◌};

use crate::equities::plain::count_plain;
use crate::reports::listed::spots;
use crate::runs::{holds, row_text};
use card_sets::{Known, Side};
use equity_job::{Job, Scratch, count_job};
use report_table::table_alone;
use showdown_tally::{Table, Tally};
use spot_text::read_spot;
use std::alloc::Global;
use std::marker::Brand;
use std::process::Abort;
use std::sync::ledger::{Blank, Ledger};
use step_count::Steps;

/// Returns the tally of one walk, with a counter of its own.
fn in_one_walk<L: Ledger>(job: &Job, blank: Blank) -> Tally
    requires name { blank.name ≡ L.name }
    requires parts { blank.parts ≡ L.parts }
    requires some { 0 < blank.parts }
{
    let mut steps = Steps::<L>::new(blank);
    count_plain(job, &mut steps)
}

/// Returns whether two tallies have the same numbers for a pot.
fn is_same_pot(a: &Tally, b: &Tally, pot: u8) -> bool
    requires { pot < 10 }
{
    for hand in 0..10 {
        let highs = (a.cell(pot, hand, Side::High), b.cell(pot, hand, Side::High));
        let lows = (a.cell(pot, hand, Side::Low), b.cell(pot, hand, Side::Low));
        if highs.0 != highs.1 || lows.0 != lows.1 || a.units(pot, hand) != b.units(pot, hand) {
            return false;
        }
    }
    true
}

/// Returns whether two tallies are the same.
fn is_same(a: &Tally, b: &Tally) -> bool {
    for pot in 0..10 {
        if !is_same_pot(a, b, pot) {
            return false;
        }
    }
    a.runouts() == b.runouts()
}

/// Returns the tally of a job by blocks.
fn by_blocks(job: &Job, scratch: &mut Scratch) -> Tally {
    let mut tally = Tally::zero();
    count_job(job, scratch, &mut tally);
    tally
}

/// Returns whether the runouts of a job are counted by blocks as in one walk, with the memory that the
/// count needs and without.
fn is_job_counted_alike(alloc: Global, job: &Job, scratch: &mut Scratch) -> bool {
    if scratch.ready(alloc, job).is_err() {
        return false;
    }
    let walk = in_one_walk::<Brand>(job, Blank::new(1));
    is_same(&by_blocks(job, scratch), &walk) && is_same(&by_blocks(job, &mut Scratch::new()), &walk)
}

/// Returns whether the runouts of a table are counted alike.
fn is_counted_alike(alloc: Global, table: &Table, scratch: &mut Scratch) -> bool {
    match Job::make(table) {
        Ok(job) => is_job_counted_alike(alloc, &job, scratch),
        Err(_) => false,
    }
}

/// Three hands with a main pot and two side pots: one of the last two, and one of the first and the last.
fn three_pots(known: &Known) -> Option<Table> {
    if known.count != 3 {
        return None;
    }
    Some(Table {
        known: *known,
        pots: 3,
        eligible: [0b111, 0b110, 0b101, 0, 0, 0, 0, 0, 0, 0],
    })
}

/// Returns whether the runouts of a spot line are counted alike, with one pot and, if it has three hands,
/// with side pots too.
fn is_spot_counted_alike(alloc: Global, line: &[u8], scratch: &mut Scratch) -> bool {
    let Ok(known) = read_spot(line) else {
        return false;
    };
    if let Some(table) = three_pots(&known) {
        if !is_counted_alike(alloc, &table, scratch) {
            return false;
        }
    }
    is_counted_alike(alloc, &table_alone(known), scratch)
}

/// All spots of a list must be counted alike, in their order and in the reverse, whatever the memory
/// contained before.
fn each_counts_alike(rt: &impl Abort, alloc: Global, all: &[&[u8]], scratch: &mut Scratch) {
    for line in all {
        holds(
            rt,
            is_spot_counted_alike(alloc, line, scratch),
            row_text(line),
        );
    }
    for line in all.iter().rev() {
        holds(
            rt,
            is_spot_counted_alike(alloc, line, scratch),
            row_text(line),
        );
    }
}

#[test]
fn blocks_count_what_one_walk_counts(rt: HostRuntime) {
    each_counts_alike(&rt, rt.alloc(), spots(), &mut Scratch::new());
}
