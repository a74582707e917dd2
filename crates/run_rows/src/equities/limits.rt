//! Spots on both sides of the limit on runouts, and one block of a count that would take long.

ghost use Rattle.std.specs.Prelude.{◌≡◌, ◌<◌, length};
ghost use Rattle.card_sets.specs.State.{state_of};
ghost use Rattle.job_blocks.specs.Blocks.{blocks_of};
ghost use Rattle.showdown_tally.specs.Tallies.{runouts_after};

use crate::runs::row_text;
use card_sets::Side;
use equity_job::{Job, JobFault, Scratch, count_block};
use report_table::table_alone;
use showdown_tally::{Cell, Tally};
use spot_text::read_spot;
use std::marker::Brand;
use std::sync::ledger::{Blank, Ledger};
use std::test::Fail;
use step_count::Steps;

/// Two stud hands on the fourth street.
const FOURTH_STREET: &[u8] = b"stud As Ad Ah Ac - Ks Kd Kh Kc";

/// Spot lines, each with the numbers of its runouts and of its blocks if it is counted.
const SIZES: &[(&[u8], Option<(u64, u32)>)] = &[
    (FOURTH_STREET, Some((141_181_040, 2155))),
    (b"stud As Ad Ah - Ks Kd Kh", None),
    (
        b"stud As Ad Ah Ac 2c - Ks Kd Kh Kc 2d - Qs Qd Qh Qc 2h",
        None,
    ),
    (
        b"stud As Ad Ah Ac 2c - Ks Kd Kh Kc 2d - Qs Qd Qh Qc 2h / 2s",
        Some((175_301_280, 2675)),
    ),
];

/// Returns the job of a spot line.
fn job_of(line: &[u8]) -> Option<Job> {
    let Ok(known) = read_spot(line) else {
        return None;
    };
    match Job::make(&table_alone(known)) {
        Ok(job) => Some(job),
        Err(JobFault::DeckShort | JobFault::AboveLimit) => None,
    }
}

/// Returns the first of these spot lines that doesn't have its numbers of runouts and of blocks.
fn wrong_size(table: &[(&'static [u8], Option<(u64, u32)>)]) -> Option<&'static str> {
    for (line, sizes) in table {
        let found = match job_of(line) {
            Some(job) => Some((job.runouts(), job.blocks())),
            None => None,
        };
        if found != *sizes {
            return Some(row_text(*line));
        }
    }
    None
}

/// One dead card more or less decides whether a spot is counted.
#[test]
fn most_runouts_and_more(rt: HostRuntime) {
    assert_eq!(rt; wrong_size(SIZES), None);
}

/// Returns the tally of the first block of a job, with a counter of its own.
fn first_block<L: Ledger>(job: &Job, blank: Blank) -> Tally
    requires some_block { 0 < blocks_of (length (runouts_after (state_of job.now.table.known))) }
    requires name { blank.name ≡ L.name }
    requires parts { blank.parts ≡ L.parts }
    requires some { 0 < blank.parts }
{
    let mut steps = Steps::<L>::new(blank);
    let mut scratch = Scratch::new();
    count_block(job, 0, &mut scratch, &mut steps)
}

/// Returns whether a hand wins `win` runouts of a tally, and loses `lose`.
fn wins(tally: &Tally, hand: u8, win: u64, lose: u64) -> bool
    requires { hand < 10 }
{
    tally.cell(0, hand, Side::High) == Cell { win, tie: 0, lose }
}

/// Four aces win each runout of the first block, whatever else comes to them and to the kings.
#[test]
fn the_first_of_many_blocks(rt: HostRuntime) -> Result<(), Fail> {
    let job = job_of(FOURTH_STREET).ok_or("no job")?;
    assert!(rt; 0 < job.blocks(), "the spot has a block");
    let tally = first_block::<Brand>(&job, Blank::new(1));
    assert!(rt;
        wins(&tally, 0, 65_536, 0),
        "the aces win each runout of the block"
    );
    assert!(rt;
        wins(&tally, 1, 0, 65_536),
        "the kings lose each runout of the block"
    );
    assert!(rt; wins(&tally, 2, 0, 0), "there is no third hand");
    assert_eq!(rt; tally.runouts(), 65_536, "the runouts of the block");
    Ok(())
}
