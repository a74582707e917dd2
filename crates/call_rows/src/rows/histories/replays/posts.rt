//! Posts and returns, counted by hand.

ghost use Rattle.std.specs.Prelude.{◌<◌};

use super::{DOLLARS, THREE_NAMES, all_stand, refused_line};
use crate::rows::histories::names::names_of;
use betting_replay::Replay;
use history_text::Names;
use std::test::Fail;

/// A big blind that is short, a second small blind, and a raise over the stated big blind.
const RAISED: [&[u8]; 10] = [
    b"Seat 1: ann ($50 in chips)",
    b"Seat 2: bob ($0.60 in chips)",
    b"Seat 3: cat ($50 in chips)",
    b"ann: posts small blind $0.50",
    b"bob: posts big blind $0.60 and is all-in",
    b"cat: posts small blind $0.50",
    b"*** HOLE CARDS ***",
    b"cat: raises $1 to $2",
    b"ann: calls $1.50",
    b"*** FLOP *** [2c 7d 9h]",
];

/// An ante of one player, calls up to a short big blind, and the return of a bet.
const CALLED: [&[u8]; 12] = [
    b"Seat 1: ann ($50 in chips)",
    b"Seat 2: bob ($0.60 in chips)",
    b"Seat 3: cat ($50 in chips)",
    b"ann: posts the ante $0.10",
    b"ann: posts small blind $0.50",
    b"bob: posts big blind $0.60 and is all-in",
    b"*** HOLE CARDS ***",
    b"cat: calls $1",
    b"ann: calls $0.50",
    b"*** FLOP *** [2c 7d 9h]",
    b"ann: bets $2",
    b"cat: folds",
];

/// A return that only the sums of the street allow.
const RETURNED: [&[u8]; 1] = [b"Uncalled bet ($2) returned to ann"];

/// Both blinds at once.
const BOTH: [&[u8]; 8] = [
    b"Seat 1: ann ($50 in chips)",
    b"Seat 2: bob ($50 in chips)",
    b"Seat 3: cat ($50 in chips)",
    b"ann: posts small blind $0.50",
    b"bob: posts big blind $1",
    b"cat: posts small & big blinds $1.50",
    b"*** HOLE CARDS ***",
    b"cat: checks",
];

/// Returns whether a seat has these chips in after some lines: live and dead.
fn is_paid(names: &Names, lines: &[&'static [u8]], seat: u8, live: u64, dead: u64) -> bool
    requires { seat < 11 }
{
    let mut replay = Replay::new(&DOLLARS, 14);
    if !all_stand(&mut replay, names, lines) {
        return false;
    }
    let paid = replay.paid(seat);
    paid.live == live && paid.dead == dead
}

#[test]
fn posts_are_live_or_dead(rt: HostRuntime) -> Result<(), Fail> {
    let names = names_of(rt.alloc(), THREE_NAMES).ok_or("no memory")?;
    assert!(rt;
        is_paid(&names, &RAISED, 3, 200, 50),
        "a second small blind is dead, next to live chips"
    );
    assert!(rt;
        is_paid(&names, &BOTH, 3, 100, 50),
        "of both blinds the small one is dead"
    );
    Ok(())
}

#[test]
fn a_bet_comes_back_by_the_street(rt: HostRuntime) -> Result<(), Fail> {
    let names = names_of(rt.alloc(), THREE_NAMES).ok_or("no memory")?;
    let mut replay = Replay::new(&DOLLARS, 14);
    assert_eq!(rt; refused_line(&mut replay, &names, &CALLED), None);
    assert_eq!(rt;
        replay.paid(1).live,
        310,
        "the bet is in the pot before its return"
    );
    assert_eq!(rt; refused_line(&mut replay, &names, &RETURNED), None);
    assert_eq!(rt;
        replay.paid(1).live,
        110,
        "the bet isn't in the pot after its return"
    );
    assert_eq!(rt; replay.stack(1), 4890, "Ann has the bet back");
    Ok(())
}
