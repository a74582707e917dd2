//! Lines of very many words and bytes.

use crate::runs::{AMPLE, Case, Part, each_ends};
use std::test::Fail;

const LONG_REPORT: &str = "\
spot 1 rejected line 1 TwiceCard As\n\
spot 2 rejected line 2 UnknownWord\n\
spot 3 holdem runouts 1\n\
hand 1 high win 1 100.00 tie 0 0.00 lose 0 0.00\n\
hand 1 ev 1.000\n\
hand 2 high win 0 0.00 tie 0 0.00 lose 1 100.00\n\
hand 2 ev 0.000\n";

/// Sixty thousand cards on a line, and a line of a megabyte, are refused and lose nothing.
const LONG: &[Case] = &[(
    &["spots"],
    AMPLE,
    &[
        Part::Whole("holdem"),
        Part::Times(" As", 60_000),
        Part::Whole("\n"),
        Part::Times("0123456789", 100_000),
        Part::Whole("\nholdem As Ah - Ks Kh -- 2c 7d 9h 4s Jc\n"),
    ],
    1,
    &[LONG_REPORT],
)];

#[test]
fn long_lines_are_refused(rt: HostRuntime) -> Result<(), Fail> {
    each_ends(&rt, rt.alloc(), LONG)
}
