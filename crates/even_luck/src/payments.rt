//! What a seat got of a hand.

ghost use Rattle.std.specs.Prelude.{◌≡◌, ◌^◌, ◌≤◌, ◌==◌, find};
ghost use Rattle.std.specs.Option.{option_copied};
ghost use Rattle.even_luck.specs.Figures.{paid_from};
ghost use Rattle.hand_verdict.specs.SeatSums.{got_by, got_of};

use hand_verdict::{Payment, PotLine, Settlement};

/// The first payment of a seat.
pub fn payment_of(payments: &[Payment], seat: u8) -> Option<&Payment>
    ensures { option_copied result ≡ find (λ pay. pay.seat == seat) payments.now }
{
    payments.iter().find(|pay| pay.seat == seat)
}

/// What a seat got, by payments of which it has at most one.
pub fn got_by(payments: &[Payment], seat: u8) -> u64
    ensures { result ≡ got_by payments.now seat }
{
    match payment_of(payments, seat) {
        Some(pay) => pay.got,
        None => 0,
    }
}

/// What a seat got out of a pot; nothing where the pot isn't there.
pub fn got_from(pots: &[PotLine], k: u8, seat: u8) -> u64
    ensures { result ≡ got_by (paid_from pots.now k) seat }
{
    match pots.get(usize::from(k)) {
        Some(pot) => got_by(pot.paid.items(), seat),
        None => 0,
    }
}

/// All that a seat got of a hand.
pub fn got_of(settlement: &Settlement, seat: u8) -> u128
    ensures value { result ≡ got_of settlement.now seat }
    ensures bound { result ≤ 2 ^ 95 }
{
    let pots = settlement.pots.items();
    let _count = pots.len();
    let mut got = 0u128;
    for pot in pots {
        got += u128::from(got_by(pot.paid.items(), seat));
    }
    got + u128::from(got_by(settlement.paid.items(), seat))
}
