//! What each seat got of a pot, and what it is due.

ghost use Rattle.std.specs.Prelude.{◌≡◌, ℕ, ◌+◌, ◌<◌, ◌≤◌, ◌==◌, ◌^◌, if◌then◌else◌, nat_lt, slice_index_or, IfOk};
ghost use Rattle.hand_audit.specs.Settle.{is_payment, distance, payments_from, beyond_among};
ghost use Rattle.hand_audit.specs.SettlementAnswers.{payment_by, sides_by};
ghost use Rattle.hand_audit.specs.Collections.{taken_from, got_from};
ghost use Rattle.hand_audit.specs.Parts.{units_in_all};
ghost use Rattle.hand_audit.specs.PotNames.{counts_from};

use crate::collections::Collection;
use crate::dues::Dues;
use crate::pot_names::{Source, counts_from, units_if};
use hand_verdict::Payment;
use std::alloc::{AllocError, Global};

/// A sum for each seat, by its number.
type SeatUnits = [u128; 11];

/// Adds units to the sum of a seat.
fn add_to_seat(sums: &mut SeatUnits, seat: u8, units: u64)
    requires room { (p : ℕ) → slice_index_or sums.old p 0 < 2 ^ 127 }
    ensures added { (p : ℕ) → p < 11 → slice_index_or sums.new p 0
        ≡ slice_index_or sums.old p 0 + (if seat == p then units else 0) }
    ensures others { (p : ℕ) → slice_index_or sums.new p 0
        ≤ slice_index_or sums.old p 0 + units }
{
    if seat < 11 {
        sums[seat as usize] += u128::from(units);
    }
}

/// What each seat collected from a source.
fn got_by_seat(all: &[Collection], source: Source) -> SeatUnits
    ensures { (p : ℕ) → p < 11 → slice_index_or result p 0
        ≡ got_from (counts_from source) p all.now }
{
    let _count = all.len();
    let mut sums = [0; 11];
    for one in all {
        let counts = counts_from(source, one.pot);
        add_to_seat(&mut sums, one.seat, units_if(counts, one.units));
    }
    sums
}

/// The sum of a seat.
fn units_at(sums: &SeatUnits, seat: u8) -> u64
    requires seat { seat < 11 }
    requires room { slice_index_or sums.now seat 0 < 2 ^ 64 }
    ensures { result ≡ slice_index_or sums.now seat 0 }
{
    sums[seat as usize] as u64
}

/// The payment of a seat that got so much and is given so much.
fn payment(checked: bool, got: u64, given: u64, seat: u8) -> Payment
    ensures { result ≡ record { seat = seat; got = got; due = if checked then given else got } }
{
    let due = if checked { given } else { got };
    Payment { seat, got, due }
}

/// Whether there is something to pay.
fn is_payment(pay: Payment) -> bool
    ensures { result ≡ is_payment pay }
{
    0 < pay.got || 0 < pay.due
}

/// How far two amounts are apart.
fn distance(a: u64, b: u64) -> u64
    ensures { result ≡ distance a b }
{
    a.max(b) - a.min(b)
}

/// Returns whether a payment is further from what is due than its tolerance.
fn is_beyond(pay: Payment, tolerance: u128) -> bool
    ensures { result ≡ nat_lt tolerance (distance pay.got pay.due) }
{
    tolerance < u128::from(distance(pay.got, pay.due))
}

/// The payments of a pot, by rising seat.
pub(crate) fn payments(
    alloc: Global,
    dues: &Dues,
    all: &[Collection],
    source: Source,
) -> Result<Vec<Payment>, AllocError>
    requires taken { taken_from (counts_from source) all.now < 2 ^ 64 }
    requires given { units_in_all dues.now.parts < 2 ^ 64 }
    ensures { IfOk result (λ pays. pays.items
        ≡ payments_from (payment_by dues.now (counts_from source) all.now) 1 10) }
{
    let got = got_by_seat(all, source);
    let mut pays = Vec::new(alloc);
    for seat in 1..11 {
        let pay = payment(dues.checked, units_at(&got, seat), dues.due(seat), seat);
        if !is_payment(pay) {
            continue;
        }
        pays.push(pay)?;
    }
    Ok(pays)
}

/// The first of some payments that is beyond its tolerance: one unit for each side of a part that the seat
/// wins.
pub(crate) fn first_beyond(pays: &[Payment], dues: &Dues) -> Option<Payment>
    ensures { result ≡ beyond_among (sides_by dues.now) pays.now }
{
    match pays {
        [] => None,
        [pay, others @ ..] => {
            if is_beyond(*pay, dues.sides(pay.seat)) {
                Some(*pay)
            } else {
                first_beyond(others, dues)
            }
        }
    }
}
