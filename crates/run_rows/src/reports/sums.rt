//! Sums by name over all hands, and over made hands. The expectations of each hand were listed by hand.
//! The units of made hands are those of a program outside this repository that lists runouts.

use crate::histories::Hand;
use crate::runs::{AMPLE, Case, Edges, NO_WRITE, ONE_READ, Part, each_ends};
use std::test::Fail;

/// The totals of a cash hand and a tournament hand. Players who folded before the all-in have no share of
/// it.
const BOTH: &str = "totals hands 3 accepted 2 rejected 1\n\
total hundredths hands 1 allins 0 collected 0.00 expected 0.00 anna\n\
total hundredths hands 1 allins 0 collected 0.00 expected 0.00 bo\n\
total hundredths hands 1 allins 1 collected 118.50 expected 100.83 carl\n\
total hundredths hands 1 allins 1 collected 0.00 expected 20.17 dora\n\
total hundredths hands 1 allins 0 collected 0.00 expected 0.00 emil\n\
total hundredths hands 1 allins 0 collected 0.00 expected 0.00 hero\n\
total chips hands 1 allins 1 collected 3500 expected 2214 a\n\
total chips hands 1 allins 1 collected 0 expected 36 b\n\
total chips hands 1 allins 1 collected 0 expected 1250 c\n";

/// The totals of the tournament hand alone.
const ALONE: &str = "totals hands 1 accepted 1 rejected 0\n\
total chips hands 1 allins 1 collected 3500 expected 2214 a\n\
total chips hands 1 allins 1 collected 0 expected 36 b\n\
total chips hands 1 allins 1 collected 0 expected 1250 c\n";

/// The report on three and on a hundred made hands with seed 1, and on forty with seed 9.
const THREE: &str = "made hands 3 accepted 3 runouts 2970 first 4309200 second 10659600\n";

const FORTY: &str = "made hands 40 accepted 40 runouts 39600 first 94431960 second 105152040\n";

/// Each hand has 990 runouts, and each runout gives 5040 units. The two sums add up to 498960000.
const HUNDRED: &str =
    "made hands 100 accepted 100 runouts 99000 first 255928680 second 243031320\n";

const NO_HANDS: &str = "made hands 0 accepted 0 runouts 0 first 0 second 0\n";

const TWO_UNITS: &[Part] = &[
    Part::All(Hand::SixSeats),
    Part::All(Hand::SidePots),
    Part::Lines(Hand::SidePots, 1, 12),
];

const CASES: &[Case] = &[
    // Each name in each unit has a line, in the order of the first seat lines. A rejected hand counts as
    // one hand.
    (&["totals", "--format=text"], AMPLE, TWO_UNITS, 1, &[BOTH]),
    // After a failed read the closed hands have their totals, and a failed write leaves nothing.
    (
        &["totals"],
        ONE_READ,
        &[Part::Hands(Hand::SidePots, 2)],
        3,
        &[ALONE],
    ),
    (
        &["totals"],
        NO_WRITE,
        &[Part::Hands(Hand::SidePots, 2)],
        4,
        &[],
    ),
];

#[test]
fn totals_of_hands_in_two_units(rt: HostRuntime) -> Result<(), Fail> {
    each_ends(&rt, rt.alloc(), CASES)
}

/// Ends without a successful read.
const NO_READ: Edges = Edges {
    read_fault: Some(0),
    ..AMPLE
};

const SPOT: &[Part] = &[Part::Whole("holdem As Ah\n")];

const MADE: &[Case] = &[
    (&["made", "--hands=3"], NO_READ, SPOT, 0, &[THREE]),
    (
        &["made", "--seed=1", "--hands=3", "--workers=16"],
        NO_READ,
        SPOT,
        0,
        &[THREE],
    ),
    (
        &["made", "--seed=9", "--hands=40"],
        NO_READ,
        SPOT,
        0,
        &[FORTY],
    ),
    (
        &["made", "--seed=1", "--hands=100"],
        NO_READ,
        SPOT,
        0,
        &[HUNDRED],
    ),
    (&["made", "--hands=0"], NO_READ, SPOT, 0, &[NO_HANDS]),
];

/// Made hands are audited, whatever the input and the number of workers are.
#[test]
fn made_hands_come_to_a_line(rt: HostRuntime) -> Result<(), Fail> {
    each_ends(&rt, rt.alloc(), MADE)
}
