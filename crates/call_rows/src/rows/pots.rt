//! Pots, returns and splits, worked out by hand.

ghost use Rattle.std.specs.Prelude.{◌<◌, ◌^◌};
ghost use Rattle.pot_layers.specs.Pots.{put_in_all};
ghost use Rattle.pot_layers.specs.Split.{IsOrder};

use pot_layers::{OddOrder, Paid, Pot, Share, SideWinners, halves, layers, split, uncalled};
use std::alloc::Global;

/// Three players all-in, one of them with less than the others.
const THREE: [Paid; 3] = [
    Paid {
        seat: 1,
        live: 1500,
        dead: 0,
        contender: true,
    },
    Paid {
        seat: 2,
        live: 500,
        dead: 0,
        contender: true,
    },
    Paid {
        seat: 3,
        live: 1500,
        dead: 0,
        contender: true,
    },
];

/// The second has folded, with more in than the others; the first has dead chips too.
const FOLDED: [Paid; 3] = [
    Paid {
        seat: 1,
        live: 100,
        dead: 50,
        contender: true,
    },
    Paid {
        seat: 2,
        live: 300,
        dead: 0,
        contender: false,
    },
    Paid {
        seat: 3,
        live: 200,
        dead: 0,
        contender: true,
    },
];

const THREE_POTS: &[Pot] = &[
    Pot {
        units: 1500,
        eligible: 14,
    },
    Pot {
        units: 2000,
        eligible: 10,
    },
];

const FOLDED_POTS: &[Pot] = &[
    Pot {
        units: 350,
        eligible: 10,
    },
    Pot {
        units: 300,
        eligible: 8,
    },
];

/// Five units for two winners. The second winner is first in the odd order.
const FIVE: &[Share] = &[
    Share {
        seat: 1,
        units: 2,
        sides: 1,
    },
    Share {
        seat: 2,
        units: 3,
        sides: 1,
    },
];

/// Seven units for the winner of the high and the winner of the low.
const SEVEN: &[Share] = &[
    Share {
        seat: 1,
        units: 4,
        sides: 1,
    },
    Share {
        seat: 2,
        units: 3,
        sides: 1,
    },
];

/// Returns whether the pots of what some players paid are these.
fn has_pots(alloc: Global, paid: &[Paid], pots: &[Pot]) -> bool
    requires { put_in_all paid.now < 2 ^ 64 }
{
    match layers(alloc, paid) {
        Ok(all) => all.items() == pots,
        Err(_) => false,
    }
}

#[test]
fn three_all_in_make_two_pots(rt: HostRuntime) {
    assert!(rt;
        has_pots(rt.alloc(), &THREE, THREE_POTS),
        "1500 for all three, and 2000 for two"
    );
    assert!(rt;
        uncalled(&THREE).is_none(),
        "two players paid the most, so nothing is uncalled"
    );
}

#[test]
fn dead_and_folded_chips_are_in_the_pots(rt: HostRuntime) {
    assert!(rt;
        has_pots(rt.alloc(), &FOLDED, FOLDED_POTS),
        "350 for both players, and 300 for one"
    );
    assert!(rt;
        uncalled(&FOLDED) == Some((2, 100)),
        "100 of the folded seat 2 are uncalled"
    );
}

/// The chips of a lone player, and of one with dead chips alone, without and with another player.
const LONE: [Paid; 1] = [Paid {
    seat: 4,
    live: 100,
    dead: 10,
    contender: true,
}];

const LONE_WITHOUT_LIVE: [Paid; 1] = [Paid {
    seat: 4,
    live: 0,
    dead: 10,
    contender: true,
}];

const TWO_WITHOUT_LIVE: [Paid; 2] = [
    Paid {
        seat: 4,
        live: 0,
        dead: 10,
        contender: true,
    },
    Paid {
        seat: 5,
        live: 0,
        dead: 10,
        contender: true,
    },
];

#[test]
fn all_of_a_lone_player_is_uncalled(rt: HostRuntime) {
    assert!(rt;
        uncalled(&LONE) == Some((4, 100)),
        "all live chips of a lone player are uncalled"
    );
    assert!(rt;
        uncalled(&LONE_WITHOUT_LIVE) == Some((4, 0)),
        "a lone player may have no live chips"
    );
    assert!(rt;
        uncalled(&TWO_WITHOUT_LIVE).is_none(),
        "dead chips alone are never uncalled"
    );
}

/// Returns whether these units are split into these parts.
fn has_shares(
    alloc: Global,
    units: u64,
    winners: SideWinners,
    high: &OddOrder,
    low: &OddOrder,
    shares: &[Share],
) -> bool
    requires some { 0 < winners.high }
    requires high { IsOrder winners.high high.now }
    requires low { IsOrder winners.low low.now }
{
    match split(alloc, units, winners, high, low) {
        Ok(all) => all.items() == shares,
        Err(_) => false,
    }
}

#[test]
fn units_left_over_go_by_the_order(rt: HostRuntime) {
    let both = SideWinners { high: 6, low: 0 };
    let second_first = OddOrder::of([2, 1, 0, 0, 0, 0, 0, 0, 0, 0], 2);
    assert!(rt;
        has_shares(rt.alloc(), 5, both, &second_first, &OddOrder::none(), FIVE),
        "seat 2 is first in the order, and receives 3 of 5 units"
    );
}

#[test]
fn the_high_half_is_rounded_up(rt: HostRuntime) {
    let one_each = SideWinners { high: 2, low: 4 };
    let first = OddOrder::of([1, 0, 0, 0, 0, 0, 0, 0, 0, 0], 1);
    let second = OddOrder::of([2, 0, 0, 0, 0, 0, 0, 0, 0, 0], 1);
    assert!(rt;
        has_shares(rt.alloc(), 7, one_each, &first, &second, SEVEN),
        "the winner of the high receives 4 of 7 units"
    );
}

#[test]
fn the_first_of_two_halves_is_rounded_up(rt: HostRuntime) {
    assert!(rt; halves(101) == [51, 50], "the halves of 101 are 51 and 50");
    assert!(rt; halves(1) == [1, 0], "the halves of 1 are 1 and 0");
    assert!(rt;
        halves(u64::MAX) == [1 << 63, (1 << 63) - 1],
        "the greatest number has two halves"
    );
}
