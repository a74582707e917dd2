//! Made hands, compared with those that another program made by the same rules.

use made_hands::made_input;
use std::alloc::Global;

/// The first two hands of seed 1. In the first A has more chips than B, and in the second fewer.
const TWO_OF_SEED_1: &str = "PokerStars Hand #1: Hold'em No Limit ($0.50/$1.00 USD)\n\
Table 'Made' 2-max Seat #1 is the button\n\
Seat 1: A ($162 in chips)\n\
Seat 2: B ($31 in chips)\n\
A: posts small blind $0.50\n\
B: posts big blind $1\n\
*** HOLE CARDS ***\n\
A: calls $0.50\n\
B: checks\n\
*** FLOP *** [Kd Qc 2c]\n\
B: bets $30 and is all-in\n\
A: calls $30\n\
*** TURN *** [Kd Qc 2c] [4c]\n\
*** RIVER *** [Kd Qc 2c 4c] [8d]\n\
*** SHOW DOWN ***\n\
B: shows [Ac 6c]\n\
A: shows [Qh 6h]\n\
B collected $62 from pot\n\
*** SUMMARY ***\n\
Total pot $62 | Rake $0\n\
PokerStars Hand #2: Hold'em No Limit ($0.50/$1.00 USD)\n\
Table 'Made' 2-max Seat #1 is the button\n\
Seat 1: A ($125 in chips)\n\
Seat 2: B ($190 in chips)\n\
A: posts small blind $0.50\n\
B: posts big blind $1\n\
*** HOLE CARDS ***\n\
A: calls $0.50\n\
B: checks\n\
*** FLOP *** [9h Kd 4c]\n\
B: bets $189 and is all-in\n\
A: calls $124 and is all-in\n\
Uncalled bet ($65) returned to B\n\
*** TURN *** [9h Kd 4c] [4d]\n\
*** RIVER *** [9h Kd 4c 4d] [5c]\n\
*** SHOW DOWN ***\n\
B: shows [2c 9s]\n\
A: shows [6h Th]\n\
B collected $250 from pot\n\
*** SUMMARY ***\n\
Total pot $250 | Rake $0\n";

/// The first hand of seed 9.
const ONE_OF_SEED_9: &str = "PokerStars Hand #1: Hold'em No Limit ($0.50/$1.00 USD)\n\
Table 'Made' 2-max Seat #1 is the button\n\
Seat 1: A ($188 in chips)\n\
Seat 2: B ($21 in chips)\n\
A: posts small blind $0.50\n\
B: posts big blind $1\n\
*** HOLE CARDS ***\n\
A: calls $0.50\n\
B: checks\n\
*** FLOP *** [7h Ts 7d]\n\
B: bets $20 and is all-in\n\
A: calls $20\n\
*** TURN *** [7h Ts 7d] [9c]\n\
*** RIVER *** [7h Ts 7d 9c] [As]\n\
*** SHOW DOWN ***\n\
B: shows [8c 6c]\n\
A: shows [5s 2s]\n\
B collected $42 from pot\n\
*** SUMMARY ***\n\
Total pot $42 | Rake $0\n";

/// The first hand of seed 13, a tie.
const ONE_OF_SEED_13: &str = "PokerStars Hand #1: Hold'em No Limit ($0.50/$1.00 USD)\n\
Table 'Made' 2-max Seat #1 is the button\n\
Seat 1: A ($105 in chips)\n\
Seat 2: B ($27 in chips)\n\
A: posts small blind $0.50\n\
B: posts big blind $1\n\
*** HOLE CARDS ***\n\
A: calls $0.50\n\
B: checks\n\
*** FLOP *** [Kc 2c Td]\n\
B: bets $26 and is all-in\n\
A: calls $26\n\
*** TURN *** [Kc 2c Td] [5s]\n\
*** RIVER *** [Kc 2c Td 5s] [8s]\n\
*** SHOW DOWN ***\n\
B: shows [5h 6c]\n\
A: shows [5d 4c]\n\
A collected $27 from pot\n\
B collected $27 from pot\n\
*** SUMMARY ***\n\
Total pot $54 | Rake $0\n";

/// A seed, a number of hands, and their text.
const MADE: &[(u64, u32, &str)] = &[
    (1, 2, TWO_OF_SEED_1),
    (9, 1, ONE_OF_SEED_9),
    (13, 1, ONE_OF_SEED_13),
    (1, 0, ""),
];

/// Returns whether the hands of a seed have this text.
fn is_made(alloc: Global, seed: u64, hands: u32, text: &str) -> bool {
    match made_input(alloc, seed, hands) {
        Ok(made) => made.as_slice() == text.as_bytes(),
        Err(_) => false,
    }
}

/// Returns the first of these seeds whose hands don't have their text, and the number of hands.
fn wrong_seed(alloc: Global, table: &[(u64, u32, &str)]) -> Option<(u64, u32)> {
    for (seed, hands, text) in table {
        if !is_made(alloc, *seed, *hands, *text) {
            return Some((*seed, *hands));
        }
    }
    None
}

#[test]
fn hands_are_those_of_another_program(rt: HostRuntime) {
    assert_eq!(rt; wrong_seed(rt.alloc(), MADE), None);
}

/// Returns whether the text of 200 hands has the most bytes that it may have.
fn is_long(alloc: Global, seed: u64) -> bool {
    match made_input(alloc, seed, 200) {
        Ok(made) => made.len() > 200 * 400 && made.len() <= 200 * 1000,
        Err(_) => false,
    }
}

#[test]
fn ample_memory_suffices(rt: HostRuntime) {
    assert!(rt;
        is_long(rt.alloc(), u64::MAX),
        "200 hands have 400 to 1,000 bytes each on average"
    );
}
