//! What a hand gives one of its players towards his balance.

ghost use Rattle.std.specs.Prelude.{◌≡◌};
ghost use Rattle.hand_verdict.specs.SeatSums.{chips_at};
ghost use Rattle.player_totals.specs.Balance.{balance_line, no_balance, seat_balance};
ghost use Rattle.player_totals.specs.BalanceSeen.{AreOfSeats, balance_is_sums, both};

use crate::balance_lines::balance_line;
use crate::player_key::PlayerKey;
use crate::sums::{Gives, Sums};
use even_luck::{AskedAllIn, even_of, got_of};
use hand_verdict::{SeatChips, Settlement};
use report_sheet::Sheet;
use std::alloc::AllocError;

/// What hands of one unit of money come to for a player, won and lost.
#[derive(Clone, Copy)]
pub struct BalanceSums {
    /// How many hands he plays.
    pub hands: u64,
    /// What he got in them, in units.
    pub got: u128,
    /// What he put in.
    pub put: u128,
    /// What he would have got with even luck, rounded once a hand; what he got, where that isn't known.
    pub even: u128,
    /// Of how many of the hands it isn't known.
    pub unknown: u64,
}

impl Sums for BalanceSums {
    ghost nothing = { no_balance };

    ghost plus = { both };

    ghost AreOf = { AreOfSeats };

    ghost laws = { balance_is_sums };

    ghost line = { balance_line };

    fn none() -> BalanceSums {
        BalanceSums {
            hands: 0,
            got: 0,
            put: 0,
            even: 0,
            unknown: 0,
        }
    }

    fn with(&self, more: &BalanceSums) -> BalanceSums {
        BalanceSums {
            hands: self.hands + more.hands,
            got: self.got + more.got,
            put: self.put + more.put,
            even: self.even + more.even,
            unknown: self.unknown + more.unknown,
        }
    }

    fn write_line(&self, sheet: &mut Sheet, key: &PlayerKey) -> Result<(), AllocError> {
        balance_line(sheet, key, self)
    }
}

/// What a seat put in.
fn put_of(chips: &[SeatChips; 11], seat: u8) -> u64
    ensures { result ≡ (chips_at chips.now seat).put }
{
    match chips.as_slice().get(usize::from(seat)) {
        Some(of_seat) => of_seat.put,
        None => 0,
    }
}

/// A hand in which no line departs: its settlement, its all-in with the equity of that, and what each seat
/// had and put in.
#[derive(Clone, Copy)]
pub(crate) struct SettledHand<'a> {
    /// The settlement of the hand.
    pub(crate) settlement: &'a Settlement,
    /// The all-in of the hand, with its equity.
    pub(crate) all_in: AskedAllIn<'a>,
    /// The chips that each seat had and put in, by its number.
    pub(crate) chips: &'a [SeatChips; 11],
}

impl<'a> Gives<BalanceSums> for SettledHand<'a> {
    ghost share = { λ hand. seat_balance hand.settlement.now hand.all_in.all_in.now hand.chips.now };

    fn sums(&self, seat: u8) -> BalanceSums {
        let got = got_of(self.settlement, seat);
        let put = u128::from(put_of(self.chips, seat));
        match even_of(self.settlement, &self.all_in, seat) {
            Some(even) => BalanceSums {
                hands: 1,
                got,
                put,
                even,
                unknown: 0,
            },
            None => BalanceSums {
                hands: 1,
                got,
                put,
                even: got,
                unknown: 1,
            },
        }
    }
}
