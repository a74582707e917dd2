//! The words of the command: options in any place, each once, with values within bounds; and reports as
//! records of CSV.

use crate::ends::faults::{REPORT, SPOT, USAGE};
use crate::runs::{Told, each_told};
use std::test::Fail;

/// Options come before the mode or after it, with their values after an equals sign or as the next word,
/// up to their bounds.
const IN_FORM: &[&[&str]] = &[
    &["--workers", "16", "spots"],
    &["spots", "--workers=1"],
    &["--format", "text", "--", "spots"],
    &["--seed=4294967295", "spots", "--hands", "0000010000"],
    &[
        "--hands=0",
        "--seed=0",
        "--workers=2",
        "--format=text",
        "spots",
    ],
];

/// These have no valid form: a word that isn't a mode; an option twice, without a value, or with a value
/// beyond its bounds or that isn't a number; a value that begins with a hyphen; an unknown option; and a
/// second mode.
const IN_NO_FORM: &[&[&str]] = &[
    &[],
    &["--help"],
    &["spot"],
    &["spots", "spots"],
    &[""],
    &["SPOTS"],
    &["spots", "--workers"],
    &["spots", "--workers=0"],
    &["spots", "--workers", "17"],
    &["spots", "--workers="],
    &["spots", "--workers=00000000002"],
    &["spots", "--workers=+2"],
    &["spots", "--workers=2", "--workers=2"],
    &["spots", "--format=CSV"],
    &["spots", "--format", "--", "text"],
    &["spots", "--seed=4294967296"],
    &["spots", "--seed", "-1"],
    &["spots", "--hands=10001"],
    &["spots", "--hand=1"],
    &["spots", "-w"],
    &["spots", "--", "--workers=2"],
    &["spots", "--", "check"],
    &["--workers=2"],
];

const CSV: &[&[&str]] = &[&["spots", "--format", "csv"], &["--format=csv", "spots"]];

const RECORDS: &str = "\
spot,1,holdem,runouts,44,,,,,,,,\n\
hand,1,high,win,42,95.45,tie,0,0.00,lose,2,4.55,\n\
hand,1,ev,0.955,,,,,,,,,\n\
hand,2,high,win,2,4.55,tie,0,0.00,lose,42,95.45,\n\
hand,2,ev,0.045,,,,,,,,,\n";

/// A rejected line is a record too.
const REJECTED: &str = "spot,1,rejected,line,1,UnknownWord,,,,,,,\n";

/// Words without a valid form give the usage line. A record of CSV has thirteen fields: the words from the
/// left, and the name in the last.
const TOLD: &[Told] = &[
    (IN_FORM, SPOT, 0, REPORT),
    (IN_NO_FORM, SPOT, 2, USAGE),
    (CSV, SPOT, 0, RECORDS),
    (&[&["spots", "--format=csv"]], "badugi As Ah\n", 1, REJECTED),
];

#[test]
fn options_stand_in_any_place(rt: HostRuntime) -> Result<(), Fail> {
    each_told(&rt, rt.alloc(), TOLD)
}
