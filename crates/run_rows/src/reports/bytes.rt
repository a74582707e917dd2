//! The bytes of the input: marks, blanks, ends of lines, and lines that aren't spots.

use crate::runs::{AMPLE, Row, each_reports, ends};
use std::test::Fail;

const TWO: &str = "\
spot 1 holdem runouts 44\n\
hand 1 high win 42 95.45 tie 0 0.00 lose 2 4.55\n\
hand 1 ev 0.955\n\
hand 2 high win 2 4.55 tie 0 0.00 lose 42 95.45\n\
hand 2 ev 0.045\n\
spot 2 holdem runouts 44\n\
hand 1 high win 42 95.45 tie 0 0.00 lose 2 4.55\n\
hand 1 ev 0.955\n\
hand 2 high win 2 4.55 tie 0 0.00 lose 42 95.45\n\
hand 2 ev 0.045\n";

/// A byte order mark, carriage returns, tabs, blank lines, and a missing last newline change nothing.
/// An empty input has an empty report.
const INPUTS: &[Row] = &[
    (
        "holdem As Ah - Ks Kh -- 2c 7d 9h 4s\nholdem As Ah - Ks Kh -- 2c 7d 9h 4s\n",
        0,
        TWO,
    ),
    (
        "\u{feff}holdem As Ah - Ks Kh -- 2c 7d 9h 4s\r\n\r\nholdem As Ah - Ks Kh -- 2c 7d 9h 4s",
        0,
        TWO,
    ),
    (
        "\n \t \n  holdem\tAs  Ah -\tKs Kh -- 2c 7d 9h 4s  \r \n\nholdem As Ah - Ks Kh -- 2c 7d 9h 4s\r",
        0,
        TWO,
    ),
    ("", 0, ""),
    ("\n", 0, ""),
    (" \t\r\n \n", 0, ""),
    ("\u{feff}", 0, ""),
];

#[test]
fn marks_and_blanks_are_passed_over(rt: HostRuntime) -> Result<(), Fail> {
    each_reports(&rt, rt.alloc(), &["spots"], INPUTS)
}

const OTHERS: &[u8] = b"poker As Ah

holdem As Ah - Ks Kh -- 2c 7d 9h 4s
holdem \xff\xfe - Ks Kh -- 2c 7d 9h 4s
holdem As Ah - As Kh -- 2c 7d 9h 4s";

const OTHERS_REPORT: &str = "\
spot 1 rejected line 1 UnknownWord\n\
spot 2 holdem runouts 44\n\
hand 1 high win 42 95.45 tie 0 0.00 lose 2 4.55\n\
hand 1 ev 0.955\n\
hand 2 high win 2 4.55 tie 0 0.00 lose 42 95.45\n\
hand 2 ev 0.045\n\
spot 3 rejected line 4 BadCard\n\
spot 4 rejected line 5 TwiceCard As\n";

/// A line that isn't a spot is rejected with its number, and the other lines are counted.
#[test]
fn the_other_spots_are_answered(rt: HostRuntime) -> Result<(), Fail> {
    ends(
        &rt,
        rt.alloc(),
        &["spots"],
        AMPLE,
        OTHERS,
        1,
        &[OTHERS_REPORT],
    )
}
