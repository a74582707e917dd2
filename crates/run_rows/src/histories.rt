//! Histories of hands.

use crate::reports::more_games::{DRAW5, TRIPLE};
use crate::reports::other_games::{DRAW, LONG_SEATS, RAZZ};
use crate::runs::{LAST, Part};

/// The hands from which inputs are made.
#[derive(Clone, Copy)]
pub(crate) enum Hand {
    SixSeats,
    SidePots,
    HeadsUp,
    Twice,
    Aces,
    Razz,
    SingleDraw,
    Triple,
    Draw5,
    LongSeats,
}

/// A cash hand of six seats, with chat, a time-out, a call on the turn that is all-in, and a mucked hand. It has a byte
/// order mark before it and a carriage return at the end of each line.
const SIX_SEATS: &str = "\u{feff}\
PokerStars Hand #240000000001: Hold'em No Limit ($0.50/$1.00 USD) - 2023/01/15 20:11:05 ET\r\n\
Table 'Halley IV' 6-max Seat #3 is the button\r\n\
Seat 1: anna ($100 in chips)\r\n\
Seat 2: bo ($84.50 in chips)\r\n\
Seat 3: carl ($120.25 in chips)\r\n\
Seat 4: dora ($60 in chips)\r\n\
Seat 5: emil ($100 in chips)\r\n\
Seat 6: hero ($97 in chips)\r\n\
dora: posts small blind $0.50\r\n\
emil: posts big blind $1\r\n\
*** HOLE CARDS ***\r\n\
Dealt to hero [Qc 7d]\r\n\
hero: folds\r\n\
anna has timed out\r\n\
anna: folds\r\n\
bo: folds\r\n\
carl: raises $2 to $3\r\n\
dora: calls $2.50\r\n\
emil: folds\r\n\
emil said, \"gl\"\r\n\
*** FLOP *** [2s 9s Jd]\r\n\
dora: checks\r\n\
carl: bets $4\r\n\
dora: calls $4\r\n\
*** TURN *** [2s 9s Jd] [5h]\r\n\
dora: bets $53 and is all-in\r\n\
carl: calls $53\r\n\
*** RIVER *** [2s 9s Jd 5h] [3c]\r\n\
*** SHOW DOWN ***\r\n\
carl: shows [Jh Jc] (three of a kind, Jacks)\r\n\
dora: mucks hand\r\n\
carl collected $118.50 from pot\r\n\
*** SUMMARY ***\r\n\
Total pot $121 | Rake $2.50\r\n\
Board [2s 9s Jd 5h 3c]\r\n\
Seat 1: anna folded before Flop (didn't bet)\r\n\
Seat 2: bo folded before Flop (didn't bet)\r\n\
Seat 3: carl (button) showed [Jh Jc] and won ($118.50) with three of a kind, Jacks\r\n\
Seat 4: dora (small blind) mucked [As Ks]\r\n\
Seat 5: emil (big blind) folded before Flop\r\n\
Seat 6: hero folded before Flop (didn't bet)\r\n";

/// A hand of a tournament with three stacks all-in on the turn, and so with a main pot and a side pot.
const SIDE_POTS: &str = "\
PokerStars Hand #88: Tournament #7, $4.40+$0.60 USD Hold'em No Limit - Level V (50/100) - 2023/01/15 21:00:00 ET\n\
Table '7 1' 9-max Seat #1 is the button\n\
Seat 1: a (4000 in chips)\n\
Seat 2: b (500 in chips)\n\
Seat 3: c (1500 in chips)\n\
b: posts small blind 50\n\
c: posts big blind 100\n\
*** HOLE CARDS ***\n\
a: calls 100\n\
b: calls 50\n\
c: checks\n\
*** FLOP *** [7h 8h 2c]\n\
b: checks\n\
c: checks\n\
a: checks\n\
*** TURN *** [7h 8h 2c] [Qs]\n\
b: bets 400 and is all-in\n\
c: raises 1000 to 1400 and is all-in\n\
a: raises 2500 to 3900 and is all-in\n\
Uncalled bet (2500) returned to a\n\
*** RIVER *** [7h 8h 2c Qs] [3d]\n\
*** SHOW DOWN ***\n\
a: shows [As Ad] (a pair of Aces)\n\
c: shows [9h Th] (high card Queen)\n\
a collected 2000 from side pot\n\
b: shows [Kc Kd] (a pair of Kings)\n\
a collected 1500 from main pot\n\
*** SUMMARY ***\n\
Total pot 3500 Main pot 1500. Side pot 2000. | Rake 0\n\
Board [7h 8h 2c Qs 3d]\n\
Seat 1: a (button) showed [As Ad] and won (3500) with a pair of Aces\n\
Seat 2: b (small blind) showed [Kc Kd] and lost with a pair of Kings\n\
Seat 3: c (big blind) showed [9h Th] and lost with high card Queen\n";

/// A hand of two players that is checked down after one bet.
const HEADS_UP: &str = "\
PokerStars Hand #2: Hold'em No Limit ($0.50/$1.00 USD)\n\
Table 'T' 2-max Seat #1 is the button\n\
Seat 1: x ($50 in chips)\n\
Seat 2: y z ($50 in chips)\n\
x: posts small blind $0.50\n\
y z: posts big blind $1\n\
*** HOLE CARDS ***\n\
x: calls $0.50\n\
y z: checks\n\
*** FLOP *** [2c 7d 9h]\n\
y z: bets $2\n\
x: calls $2\n\
*** TURN *** [2c 7d 9h] [4s]\n\
y z: checks\n\
x: checks\n\
*** RIVER *** [2c 7d 9h 4s] [Jc]\n\
y z: checks\n\
x: checks\n\
*** SHOW DOWN ***\n\
y z: shows [Ks Kh]\n\
x: shows [As Ah]\n\
x collected $6 from pot\n\
*** SUMMARY ***\n\
Total pot $6 | Rake $0\n";

/// A short hand of two players that is run twice, all-in on the turn.
const TWICE: &str = "\
PokerStars Hand #2: Hold'em No Limit (5/10)\n\
Table 'T' 2-max Seat #1 is the button\n\
Seat 1: x (100 in chips)\n\
Seat 2: y (100 in chips)\n\
x: posts small blind 5\n\
y: posts big blind 10\n\
*** HOLE CARDS ***\n\
x: calls 5\n\
y: checks\n\
*** FLOP *** [2c 7d 9h]\n\
y: checks\n\
x: checks\n\
*** TURN *** [2c 7d 9h] [4s]\n\
y: bets 90 and is all-in\n\
x: calls 90 and is all-in\n\
*** FIRST RIVER *** [2c 7d 9h 4s] [Jd]\n\
*** SECOND RIVER *** [2c 7d 9h 4s] [Kc]\n\
*** SHOW DOWN ***\n\
y: shows [Ks Kh]\n\
x: shows [As Ah]\n\
x collected 100 from pot\n\
y collected 100 from pot\n\
*** SUMMARY ***\n\
Total pot 200 | Rake 0\n";

/// Aces against kings, all-in before the flop.
const ACES: &str = "PokerStars Hand #96: Hold'em No Limit (10/20)
Table '9 7' 2-max Seat #1 is the button
Seat 1: x (1000 in chips)
Seat 2: y (1000 in chips)
x: posts small blind 10
y: posts big blind 20
*** HOLE CARDS ***
x: raises 980 to 1000 and is all-in
y: calls 980 and is all-in
*** FLOP *** [2c 7c 9c]
*** TURN *** [2c 7c 9c] [Kd]
*** RIVER *** [2c 7c 9c Kd] [4h]
*** SHOW DOWN ***
y: shows [Ks Kh]
x: shows [As Ah]
y collected 2000 from pot
*** SUMMARY ***
Total pot 2000 | Rake 0
";

/// Returns the text of a hand.
pub(crate) fn text_of(hand: Hand) -> &'static str {
    match hand {
        Hand::SixSeats => SIX_SEATS,
        Hand::SidePots => SIDE_POTS,
        Hand::HeadsUp => HEADS_UP,
        Hand::Twice => TWICE,
        Hand::Aces => ACES,
        Hand::Razz => RAZZ,
        Hand::SingleDraw => DRAW,
        Hand::Triple => TRIPLE,
        Hand::Draw5 => DRAW5,
        Hand::LongSeats => LONG_SEATS,
    }
}

/// The report of `check` on the hand that is run twice.
pub(crate) const TWICE_REPORT: &str = "hand 2 accepted holdem rake 0 twice\n\
pot 0 gross 200 rake 0 checked\n\
paid 100 x\n\
paid 100 y\n";

/// The hand with side pots, cut off after the flop, and the whole of it.
pub(crate) const CUT_AND_WHOLE: &[Part] = &[
    Part::Lines(Hand::SidePots, 1, 12),
    Part::All(Hand::SidePots),
];
