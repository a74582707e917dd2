//! A hand of Razz and a hand of Single Draw, with changed lines. The verdicts are worked out by hand: the
//! board of neither hand can change the winner.

use crate::histories::Hand;
use crate::runs::{Change, Changed, each_change};
use std::test::Fail;

pub(crate) const RAZZ: &str =
    "PokerStars Hand #90: Tournament #9, Freeroll  Razz Limit - Level I (10/20) - 2023/01/15 22:00:00 ET
Table '9 1' 8-max
Seat 1: x (31 in chips)
Seat 2: y (500 in chips)
x: posts the ante 1
y: posts the ante 1
*** 3rd STREET ***
Dealt to x [As 2d 3h]
Dealt to y [Kc]
y: brings in for 3
x: raises 7 to 10
y: calls 7
*** 4th STREET ***
Dealt to x [As 2d 3h] [4c]
Dealt to y [Kc] [Kd]
x: checks
y: checks
*** 5th STREET ***
Dealt to x [As 2d 3h 4c] [5s]
Dealt to y [Kc Kd] [Qc]
x: bets 20 and is all-in
y: calls 20
*** 6th STREET ***
Dealt to x [As 2d 3h 4c 5s] [6d]
Dealt to y [Kc Kd Qc] [Qd]
*** RIVER ***
Dealt to x [As 2d 3h 4c 5s 6d] [Th]
*** SHOW DOWN ***
x: shows [As 2d 3h 4c 5s 6d Th] (Lo: 5,4,3,2,A)
y: mucks hand
x collected 62 from pot
*** SUMMARY ***
Total pot 62 | Rake 0
Seat 1: x showed [As 2d 3h 4c 5s 6d Th] and won (62) with Lo: 5,4,3,2,A
Seat 2: y mucked [8c 8d Kc Kd Qc Qd 9h]
";

pub(crate) const DRAW: &str =
    "PokerStars Hand #91: Tournament #9, Freeroll  Single Draw 2-7 Lowball No Limit - Level I (10/20)
Table '9 2' 7-max Seat #1 is the button
Seat 1: x (100 in chips)
Seat 2: y (100 in chips)
x: posts small blind 10
y: posts big blind 20
*** DEALING HANDS ***
Dealt to x [7c 5d 4h 3s 2c]
x: raises 80 to 100 and is all-in
y: calls 80 and is all-in
x: stands pat on [7c 5d 4h 3s 2c]
y: stands pat
*** SHOW DOWN ***
x: shows [7c 5d 4h 3s 2c]
y: shows [8d 6h 5s 4c 2d]
x collected 200 from pot
*** SUMMARY ***
Total pot 200 | Rake 0
";

/// Lines that stud refuses.
const RAZZ_CHANGES: &[Change] = &[
    (
        8,
        "Dealt to x [As 2d]\n",
        "hand 90 rejected line 8 BadCards\n",
    ),
    (
        14,
        "Dealt to x [As 2d 3h] [4c 5c]\n",
        "hand 90 rejected line 14 BadCards\n",
    ),
    (
        17,
        "y: discards 1 card\n",
        "hand 90 rejected line 17 BadAction\n",
    ),
    (
        18,
        "*** 6th STREET ***\n",
        "hand 90 rejected line 18 StreetOrder\n",
    ),
    (
        23,
        "*** FLOP *** [2c 7d 9h]\n",
        "hand 90 rejected line 23 BadMarker\n",
    ),
    (
        28,
        "Dealt to x [As 2d 3h 4c 5s 6d Th] [9s]\n",
        "hand 90 rejected line 28 TooManyCards seat 1\n",
    ),
];

/// Lines that single draw refuses. In five card draw the same hands are ranked as high hands, and eight
/// high beats seven high.
const DRAW_CHANGES: &[Change] = &[
    (
        1,
        "PokerStars Hand #91: Tournament #9, Freeroll  5 Card Draw No Limit - Level I (10/20)\n",
        "hand 91 rejected line 18 Split seat 1 due 0 got 200\n",
    ),
    (
        8,
        "Dealt to x [7c 5d 4h 3s]\n",
        "hand 91 rejected line 8 BadCards\n",
    ),
    (
        9,
        "x: brings in for 3\n",
        "hand 91 rejected line 9 BadAction\n",
    ),
    (10, "", "hand 91 rejected line 10 StreetEarly seat 2\n"),
    (
        11,
        "x: discards 2 cards [7c]\n",
        "hand 91 rejected line 11 BadCards\n",
    ),
    (
        12,
        "*** DRAW ***\n",
        "hand 91 rejected line 12 StreetOrder\n",
    ),
    (
        14,
        "x: discards 1 card\n",
        "hand 91 rejected line 14 StreetOrder\n",
    ),
];

/// Lines that all games but stud and draw refuse.
const BOARD_CHANGES: &[Change] = &[
    (
        6,
        "b: brings in for 50\n",
        "hand 88 rejected line 6 BadAction\n",
    ),
    (
        14,
        "c: stands pat\n",
        "hand 88 rejected line 14 BadAction\n",
    ),
];

/// A hand with a seat number of twenty digits.
pub(crate) const LONG_SEATS: &str = "PokerStars Hand #5: Hold'em No Limit ($1/$2 USD)
Seat 1: a ($50 in chips)
a collected $5 from pot
Seat 18446744073709551616: b ($50 in chips)
Seat 2: c ($50 in chips)
a: posts small blind $1
";

/// Other numbers in its fifth line. Seat numbers of any length are compared: the second line of a number
/// ends the search for players. So a is no player, and a's post follows it.
const SEAT_CHANGES: &[Change] = &[
    (
        5,
        "Seat 18446744073709551617: c ($50 in chips)\n",
        "hand 5 rejected line 4 BadHeader\n",
    ),
    (
        5,
        "Seat 18446744073709551616: c ($50 in chips)\n",
        "hand 5 rejected line 3 NotInHand\n",
    ),
    (
        5,
        "Seat 0018446744073709551616: c ($50 in chips)\n",
        "hand 5 rejected line 3 NotInHand\n",
    ),
];

const CHANGED: &[Changed] = &[
    ("audit", Hand::Razz, RAZZ_CHANGES),
    ("audit", Hand::SingleDraw, DRAW_CHANGES),
    ("audit", Hand::SidePots, BOARD_CHANGES),
    ("audit", Hand::LongSeats, SEAT_CHANGES),
];

/// Lines that only stud and draw refuse, lines that all other games refuse, and seat numbers.
#[test]
fn refusals_of_stud_and_draw(rt: HostRuntime) -> Result<(), Fail> {
    each_change(&rt, rt.alloc(), CHANGED)
}
