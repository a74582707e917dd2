//! More of everything than the other tests have, so that no run ends out of memory that it could have:
//! ranges, names, digits, lines, and the bytes of a hand.

use crate::histories::Hand;
use crate::reports::checks::SIDE_POTS_REPORT;
use crate::runs::{AMPLE, Case, Edges, LAST, Part, each_ends, ends};
use std::alloc::{AllocError, Global};
use std::test::Fail;

/// Four ranges of one hand each with a full board, on which nothing goes with any hand.
const FOUR_RANGES: &str = "holdem AsAh - KsKh - QsQh - JsJh -- 2c 7d 9h 4s 3d\n";

const FOUR_REPORT: &str = "spot 1 holdem choices 1 runouts 1 weight 1
hand 1 high win 1 100.00 tie 0 0.00 lose 0 0.00
hand 1 ev 1.000
hand 2 high win 0 0.00 tie 0 0.00 lose 1 100.00
hand 2 ev 0.000
hand 3 high win 0 0.00 tie 0 0.00 lose 1 100.00
hand 3 ev 0.000
hand 4 high win 0 0.00 tie 0 0.00 lose 1 100.00
hand 4 ev 0.000
";

/// A hand whose number has 17 digits, and its record.
const LONG_NUMBER: &str =
    "PokerStars Hand #12345678901234567: Hold'em No Limit (5/10)\nSeat 1: x (100 in chips)\n";

const LONG_RECORD: &str = "hand,12345678901234567,rejected,line,2,Unfinished,,,,,,,\n";

/// A line of chat of 100 bytes.
const CHAT: &str =
    "a said, \"0123456789 0123456789 0123456789 0123456789 0123456789 0123456789 0123456789 0123456789 !\"\n";

/// A hand with 42,000 of these lines: 4.2 MB.
const LONG_HAND: &[Part] = &[
    Part::Lines(Hand::SidePots, 1, 12),
    Part::Times(CHAT, 42_000),
    Part::Lines(Hand::SidePots, 13, LAST),
];

/// A hand that begins with line 1,000,001 and is cut off after its twelfth, and the hand itself.
const FAR_HANDS: &[Part] = &[
    Part::Times("\n", 1_000_000),
    Part::Lines(Hand::SidePots, 1, 12),
    Part::All(Hand::SidePots),
];

const FAR_SPOT: &[Part] = &[Part::Times("\n", 1_000_000), Part::Whole("holdem As Ah\n")];

const CASES: &[Case] = &[
    (
        &["ranges"],
        AMPLE,
        &[Part::Whole(FOUR_RANGES)],
        0,
        &[FOUR_REPORT],
    ),
    (
        &["check", "--format=csv"],
        AMPLE,
        &[Part::Whole(LONG_NUMBER)],
        1,
        &[LONG_RECORD],
    ),
    (&["check"], AMPLE, LONG_HAND, 0, &[SIDE_POTS_REPORT]),
    (
        &["check"],
        AMPLE,
        FAR_HANDS,
        1,
        &[
            "hand 88 rejected line 1000012 Unfinished\n",
            SIDE_POTS_REPORT,
        ],
    ),
    (
        &["spots"],
        AMPLE,
        FAR_SPOT,
        1,
        &["spot 1 rejected line 1000001 PlayerCount\n"],
    ),
];

#[test]
fn large_inputs_are_answered(rt: HostRuntime) -> Result<(), Fail> {
    each_ends(&rt, rt.alloc(), CASES)
}

/// The number of hands, each with three players whose names no other hand has.
const HANDS: u32 = 334;

/// Adds a hand that nobody calls, by its number.
fn add_hand(alloc: Global, out: &mut String, number: u32) -> Result<(), AllocError> {
    let hand = format!(in alloc;
        "PokerStars Hand #4: Hold'em No Limit ($0.50/$1.00 USD)
Table 'T' 3-max Seat #1 is the button
Seat 1: a{number} ($50 in chips)
Seat 2: b{number} ($50 in chips)
Seat 3: c{number} ($50 in chips)
b{number}: posts small blind $0.50
c{number}: posts big blind $1
*** HOLE CARDS ***
a{number}: folds
b{number}: folds
Uncalled bet ($0.50) returned to c{number}
c{number} collected $1 from pot
*** SUMMARY ***
Total pot $1 | Rake $0
"
    )?;
    out.push_str(&hand)
}

/// Adds the totals of its three players.
fn add_totals(alloc: Global, out: &mut String, number: u32) -> Result<(), AllocError> {
    let lines = format!(in alloc;
        "total hundredths hands 1 allins 0 collected 0.00 expected 0.00 a{number}
total hundredths hands 1 allins 0 collected 0.00 expected 0.00 b{number}
total hundredths hands 1 allins 0 collected 0.00 expected 0.00 c{number}
"
    )?;
    out.push_str(&lines)
}

/// Ends with room for a line for each name.
const LONG_TOTALS: Edges = Edges {
    room: 131_072,
    ..AMPLE
};

/// Each of 1,002 names has its totals.
#[test]
fn many_names_have_totals(rt: HostRuntime) -> Result<(), Fail> {
    let alloc = rt.alloc();
    let mut input = String::new(alloc);
    let mut report = String::from_str(alloc, "totals hands 334 accepted 334 rejected 0\n")?;
    for number in 0..HANDS {
        add_hand(alloc, &mut input, number)?;
        add_totals(alloc, &mut report, number)?;
    }
    ends(
        &rt,
        alloc,
        &["totals"],
        LONG_TOTALS,
        input.as_bytes(),
        0,
        &[&report],
    )
}
