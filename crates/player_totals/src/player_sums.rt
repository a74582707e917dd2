//! What a hand gives one of its players.

ghost use Rattle.std.specs.Prelude.{◌≡◌, ◌<◌, ◌≤◌, ◌^◌};
ghost use Rattle.even_luck.specs.Equities.{IsEquityOf, IsFull};
ghost use Rattle.player_totals.specs.Totals.{collected_by, hand_all_in, known_sums, no_sums, seat_sums, total_line};
ghost use Rattle.player_totals.specs.TotalsSeen.{AreOfHands, plus, totals_are_sums};
ghost use Rattle.showdown_tally.specs.Deals.{deal_of};

use crate::player_key::PlayerKey;
use crate::sums::{Gives, Sums};
use crate::total_lines::total_line;
use even_luck::{AskedAllIn, Equity, expected_by, got_by, got_from, hand_at, pot_count};
use hand_verdict::{AllIn, Settlement};
use report_sheet::Sheet;
use showdown_tally::{Table, Tally};
use std::alloc::AllocError;

/// What hands of one unit of money come to for a player.
#[derive(Clone, Copy)]
pub struct PlayerSums {
    /// How many hands he plays.
    pub hands: u64,
    /// How many of them have a counted all-in in which he is a contender.
    pub all_ins: u64,
    /// What he collected in those, in units.
    pub collected: u128,
    /// What he could expect in those, rounded once a hand.
    pub expected: u128,
}

impl PlayerSums {
    /// The sums of no hands.
    const NONE: PlayerSums = PlayerSums {
        hands: 0,
        all_ins: 0,
        collected: 0,
        expected: 0,
    };

    /// The sums of a hand that the player plays without a counted all-in.
    const HAND_ALONE: PlayerSums = PlayerSums {
        hands: 1,
        all_ins: 0,
        collected: 0,
        expected: 0,
    };
}

impl Sums for PlayerSums {
    ghost nothing = { no_sums };

    ghost plus = { plus };

    ghost AreOf = { AreOfHands };

    ghost laws = { totals_are_sums };

    ghost line = { total_line };

    fn none() -> PlayerSums {
        PlayerSums::NONE
    }

    fn with(&self, more: &PlayerSums) -> PlayerSums {
        PlayerSums {
            hands: self.hands + more.hands,
            all_ins: self.all_ins + more.all_ins,
            collected: self.collected + more.collected,
            expected: self.expected + more.expected,
        }
    }

    fn write_line(&self, sheet: &mut Sheet, key: &PlayerKey) -> Result<(), AllocError> {
        total_line(sheet, key, self)
    }
}

/// A hand in which no line departs: its settlement, and its all-in with the equity of that.
#[derive(Clone, Copy)]
pub(crate) struct PlayedHand<'a> {
    /// The settlement of the hand.
    pub(crate) settlement: &'a Settlement,
    /// The all-in of the hand, with its equity.
    pub(crate) all_in: AskedAllIn<'a>,
}

impl<'a> Gives<PlayerSums> for PlayedHand<'a> {
    ghost share = { λ hand. seat_sums hand.settlement.now hand.all_in.all_in.now };

    fn sums(&self, seat: u8) -> PlayerSums {
        seat_sums(self.settlement, &self.all_in, seat)
    }
}

/// Returns the amount that a seat collected from the first `count` pots of a hand and from its payments.
fn collected_by(settlement: &Settlement, count: u8, seat: u8) -> u128
    requires { count ≤ 10 }
    ensures value { result ≡ collected_by settlement.now count seat }
    ensures bound { result ≤ 2 ^ 95 }
{
    let mut collected = 0;
    for k in 0..count {
        collected += u128::from(got_from(settlement.pots.items(), k, seat));
    }
    collected + u128::from(got_by(settlement.paid.items(), seat))
}

/// A hand with a counted all-in in which the player has a hand of the table.
fn hand_all_in(
    settlement: &Settlement,
    table: &Table,
    tally: &Tally,
    seat: u8,
    hand: u8,
) -> PlayerSums
    requires some { 0 < tally.now.runouts }
    requires hand { hand < 10 }
    requires full { IsFull (deal_of table.now) tally.now }
    ensures value { result ≡ hand_all_in settlement.now (deal_of table.now) seat hand }
    ensures small { AreOfHands 1 result }
{
    PlayerSums {
        hands: 1,
        all_ins: 1,
        collected: collected_by(settlement, pot_count(table), seat),
        expected: expected_by(settlement.pots.items(), table, tally, hand),
    }
}

/// Returns what a hand with a counted all-in gives a seat, by a tally of all its runouts.
fn counted_sums(
    settlement: &Settlement,
    seats: &[u8; 10],
    table: &Table,
    tally: &Tally,
    seat: u8,
) -> PlayerSums
    requires some { 0 < tally.now.runouts }
    requires full { IsFull (deal_of table.now) tally.now }
    ensures value { result ≡ known_sums settlement.now seats.now (deal_of table.now) seat }
    ensures small { AreOfHands 1 result }
{
    match hand_at(seats, table, seat) {
        Some(hand) => hand_all_in(settlement, table, tally, seat, hand),
        None => PlayerSums::HAND_ALONE,
    }
}

/// A hand with a known all-in, which is counted or refused.
fn known_sums(
    settlement: &Settlement,
    seats: &[u8; 10],
    table: &Table,
    equity: &Equity,
    seat: u8,
) -> PlayerSums
    requires { IsEquityOf (deal_of table.now) equity.now }
    ensures value { result ≡ known_sums settlement.now seats.now (deal_of table.now) seat }
    ensures small { AreOfHands 1 result }
{
    match equity.counted(table) {
        Some(tally) => counted_sums(settlement, seats, table, tally, seat),
        None => PlayerSums::HAND_ALONE,
    }
}

/// What a hand in which no line departs gives a seat that plays, with the equity of its all-in.
fn seat_sums(settlement: &Settlement, asked: &AskedAllIn, seat: u8) -> PlayerSums
    ensures value { result ≡ seat_sums settlement.now asked.now.all_in.now seat }
    ensures small { AreOfHands 1 result }
{
    match asked.all_in {
        AllIn::None | AllIn::Unknown => PlayerSums::HAND_ALONE,
        AllIn::Known { seats, table, .. } => {
            known_sums(settlement, seats, table, asked.equity, seat)
        }
    }
}
