//! Histories with their verdicts. The expected lines are worked out by hand from the rules.

use crate::histories::{CUT_AND_WHOLE, Hand};
use crate::runs::{AMPLE, Case, Change, Changed, LAST, ONE_READ, Part, each_change, each_ends};
use std::test::Fail;

/// The report on the hand with side pots.
pub(crate) const SIDE_POTS_REPORT: &str = "hand 88 accepted holdem rake 0\n\
pot 0 gross 1500 rake 0 checked\n\
paid 1500 a\n\
pot 1 gross 2000 rake 0 checked\n\
paid 2000 a\n";

const SIX_SEATS_REPORT: &str = "hand 240000000001 accepted holdem rake 2.50\n\
pot 0 gross 121.00 rake 2.50 checked\n\
paid 118.50 carl\n";

/// Lines of the hand with side pots.
const SIDE_POTS_CHANGES: &[Change] = &[
    (
        10,
        "c: checks\n",
        "hand 88 rejected line 10 OutOfTurn seat 2\n",
    ),
    (
        10,
        "b: calls 49\n",
        "hand 88 rejected line 10 CallAmount 50\n",
    ),
    (
        21,
        "*** RIVER *** [7h 8h 2c Qs] [As]\n",
        "hand 88 rejected line 23 CardTwice As\n",
    ),
    (
        33,
        "Seat 3: c (big blind) showed [9h As] and lost\n",
        "hand 88 rejected line 33 CardTwice As\n",
    ),
    (
        29,
        "Total pot 3400 | Rake 0\n",
        "hand 88 rejected line 29 Chips 3400 3500\n",
    ),
    (
        29,
        "Total pot 3500 | Rake 10\n",
        "hand 88 rejected line 29 Chips 3500 3510\n",
    ),
    (
        20,
        "Uncalled bet (2400) returned to a\n",
        "hand 88 rejected line 20 UncalledAmount 2500\n",
    ),
    (
        29,
        "Total pot 3501 Main pot 1500. Side pot 2001. | Rake 0\n",
        "hand 88 rejected line 29 Chips 3501 3500\n",
    ),
    (29, "", "hand 88 rejected line 32 Unfinished\n"),
    (
        3,
        "Seat 1: a (1000000000000000 in chips)\n",
        "hand 88 rejected line 3 AmountTooLarge\n",
    ),
    (
        4,
        "Seat 2: a (500 in chips)\n",
        "hand 88 rejected line 4 BadHeader\n",
    ),
    (
        5,
        "Seat 3: c (1500 in chips)\nSeat 11: z (5 in chips)\n",
        "hand 88 rejected line 6 BadHeader\n",
    ),
    (
        12,
        "*** FLOP *** [7h 8h 7h]\n",
        "hand 88 rejected line 12 CardTwice 7h\n",
    ),
    (
        12,
        "*** FLOP *** [7h 8h\n",
        "hand 88 rejected line 12 BadCards\n",
    ),
    (
        1,
        "PokerStars Hand #88: Badugi Limit (50/100)\n",
        "hand 88 rejected line 1 UnknownGame\n",
    ),
];

/// Lines of a hand of two players for money.
const HEADS_UP_CHANGES: &[Change] = &[
    (
        11,
        "y z: calls $2\n",
        "hand 2 rejected line 11 CallAmount 0.00\n",
    ),
    (12, "", "hand 2 rejected line 12 StreetEarly seat 1\n"),
    (
        12,
        "x: checks\n",
        "hand 2 rejected line 12 CheckFacingBet 2.00\n",
    ),
    (
        24,
        "Total pot $7 | Rake $0\n",
        "hand 2 rejected line 24 Chips 7.00 6.00\n",
    ),
];

const CHANGED: &[Changed] = &[
    ("check", Hand::SidePots, SIDE_POTS_CHANGES),
    ("check", Hand::HeadsUp, HEADS_UP_CHANGES),
];

/// A changed line changes the verdict.
#[test]
fn another_line_has_another_verdict(rt: HostRuntime) -> Result<(), Fail> {
    each_change(&rt, rt.alloc(), CHANGED)
}

/// The report on a hand that is cut off.
const CUT_REPORT: &str = "hand 88 rejected line 12 Unfinished\n";

const HEADER: &str = "PokerStars Hand #1: Hold'em No Limit (1/2)\n";

/// A hand of more than a megabyte, and one after it.
const LONG: &[Part] = &[
    Part::Lines(Hand::SidePots, 1, 8),
    Part::Times("a said, \"hm\"\n", 100_000),
    Part::Lines(Hand::SidePots, 9, LAST),
    Part::Whole(HEADER),
];

const HEADER_REPORT: &str = "hand 1 rejected line 100034 Unfinished\n";

const TOTALS: &str = "totals hands 1000 accepted 0 rejected 1000\n";

/// Of 42 rivers `5s` gives carl a full house, and `Js` four of a kind; the other seven spades are dora's.
const SIX_SEATS_AUDIT: &str = "hand 240000000001 accepted holdem rake 2.50\n\
pot 0 gross 121.00 rake 2.50 checked\n\
paid 118.50 carl\n\
all-in turn runouts 42\n\
pot 0 high win 35 83.33 tie 0 0.00 lose 7 16.67 carl\n\
pot 0 ev 0.833 carl\n\
pot 0 high win 7 16.67 tie 0 0.00 lose 35 83.33 dora\n\
pot 0 ev 0.167 dora\n\
expect 100.83 carl\n\
expect 20.17 dora\n";

const MARKED: &[Case] = &[
    // A byte order mark, carriage returns, chat, and a time-out change nothing.
    (
        &["check"],
        AMPLE,
        &[Part::All(Hand::SixSeats)],
        0,
        &[SIX_SEATS_REPORT],
    ),
    (
        &["audit"],
        AMPLE,
        &[Part::All(Hand::SixSeats)],
        0,
        &[SIX_SEATS_AUDIT],
    ),
];

#[test]
fn marks_and_chat_are_no_matter(rt: HostRuntime) -> Result<(), Fail> {
    each_ends(&rt, rt.alloc(), MARKED)
}

const BEGUN: &[Case] = &[
    // After a failed read the last hand is open.
    (&["check"], ONE_READ, CUT_AND_WHOLE, 3, &[CUT_REPORT]),
    (
        &["check"],
        AMPLE,
        LONG,
        1,
        &[SIDE_POTS_REPORT, HEADER_REPORT],
    ),
    // A thousand header lines are as many hands.
    (
        &["totals"],
        AMPLE,
        &[Part::Times(HEADER, 1_000)],
        1,
        &[TOTALS],
    ),
];

#[test]
fn hands_end_where_the_next_begins(rt: HostRuntime) -> Result<(), Fail> {
    each_ends(&rt, rt.alloc(), BEGUN)
}
