//! Hands of triple draw and of five card draw, with changed lines. The verdicts are worked out by hand.

use crate::histories::Hand;
use crate::runs::{Change, Changed, each_change};
use std::test::Fail;

pub(crate) const TRIPLE: &str = "PokerStars Hand #92: Triple Draw 2-7 Lowball Limit (10/20)
Table '9 3' 6-max Seat #1 is the button
Seat 1: x (60 in chips)
Seat 2: y (60 in chips)
x: posts small blind 5
y: posts big blind 10
*** DEALING HANDS ***
Dealt to x [7c 5d 4h 3s Kc]
x: calls 5
y: checks
*** FIRST DRAW ***
y: discards 2 cards
x: discards 1 card [Kc]
Dealt to x [7c 5d 4h 3s] [Qd]
y: checks
x: checks
*** SECOND DRAW ***
y: stands pat
x: discards 1 card [Qd]
Dealt to x [7c 5d 4h 3s] [Jh]
y: bets 50 and is all-in
x: calls 50 and is all-in
*** THIRD DRAW ***
y: stands pat
x: discards 1 card [Jh]
Dealt to x [7c 5d 4h 3s] [Kc]
*** SHOW DOWN ***
y: shows [8d 6h 5s 4c 2d]
x: shows [7c 5d 4h 3s Kc]
y collected 120 from pot
*** SUMMARY ***
Total pot 120 | Rake 0
";

/// Lines that triple draw refuses.
const TRIPLE_CHANGES: &[Change] = &[
    (
        10,
        "y: stands pat\n",
        "hand 92 rejected line 10 StreetOrder\n",
    ),
    (11, "*** DRAW ***\n", "hand 92 rejected line 11 BadMarker\n"),
    (
        17,
        "*** THIRD DRAW ***\n",
        "hand 92 rejected line 17 StreetOrder\n",
    ),
    (
        24,
        "y: discards 1 card [7c]\n",
        "hand 92 rejected line 24 CardTwice 7c\n",
    ),
    (
        28,
        "y: shows [Kc 6h 5s 4c 2d]\n",
        "hand 92 rejected line 28 CardTwice Kc\n",
    ),
];

pub(crate) const DRAW5: &str = "PokerStars Hand #94: 5 Card Draw Pot Limit (10/20)
Table '9 5' 6-max Seat #1 is the button
Seat 1: x (100 in chips)
Seat 2: y (101 in chips)
x: posts small blind 10
y: posts big blind 20
*** DEALING HANDS ***
Dealt to x [8d 6h 5s 4c 2d]
Dealt to y [7c 5d 4h 3s Kh]
x: raises 80 to 100 and is all-in
y: calls 80
x: stands pat on [8d 6h 5s 4c 2d]
y: discards 1 card [Kh]
Dealt to y [7c 5d 4h 3s] [2c]
*** SHOW DOWN ***
y: shows [7c 5d 4h 3s 2c]
x: shows [8d 6h 5s 4c 2d]
x collected 200 from pot
*** SUMMARY ***
Total pot 200 | Rake 0
";

/// Lines that five card draw refuses.
const DRAW5_CHANGES: &[Change] = &[
    (
        18,
        "y collected 200 from pot\n",
        "hand 94 rejected line 20 Split seat 1 due 200 got 0\n",
    ),
    (
        12,
        "*** FIRST DRAW ***\n",
        "hand 94 rejected line 12 BadMarker\n",
    ),
    (
        14,
        "Dealt to y [7c 5d 4h 3s] [Kh]\n",
        "hand 94 rejected line 14 CardTwice Kh\n",
    ),
];

const CHANGED: &[Changed] = &[
    ("audit", Hand::Triple, TRIPLE_CHANGES),
    ("audit", Hand::Draw5, DRAW5_CHANGES),
];

#[test]
fn refusals_of_triple_draw_and_five_card_draw(rt: HostRuntime) -> Result<(), Fail> {
    each_change(&rt, rt.alloc(), CHANGED)
}
