//! How a pot is split.

ghost use Rattle.std.specs.Prelude.{◌≡◌, ℕ, ◌+◌, ◌-◌, ◌/◌, ◌%◌, ◌<◌, ◌≤◌, ◌^◌, ◌==◌, IfOk, length, min};
ghost use Rattle.std.specs.List.{sum_by};
ghost use Rattle.pot_layers.specs.Split.{given, side_share, halves, high_half, low_half, sides_won, shares_from, shares, IsOrder, given_in_all};

use crate::orders::OddOrder;
use crate::paid::{Share, SideWinners};
use card_sets::{Items, Memory, PlayerSet};
use std::alloc::{AllocError, Global};

/// The parts of a pot, by rising seat. Clauses see it as a list.
pub type Shares = Items<Share>;

/// Returns the units of a seat if each seat of an order gets `each`, and the first `extra` of them
/// get one more.
fn given(each: u64, extra: u64, order: &[u8], seat: u8) -> u64
    requires { each + extra < 2 ^ 64 }
    ensures value { result ≡ given each extra order.now seat }
    ensures within { result ≤ each + extra }
{
    let mut extra = extra;
    for first in order {
        if *first == seat {
            return each + extra.min(1);
        }
        extra = extra.saturating_sub(1);
    }
    0
}

/// Returns the units that a seat gets of a side.
fn side_share(units: u64, order: &[u8], seat: u8) -> u64
    ensures value { result ≡ side_share units order.now seat }
    ensures within { result ≤ units }
{
    if order.is_empty() {
        return 0;
    }
    let count = order.len() as u64;
    given(units / count, units % count, order, seat)
}

/// Returns the number of sides that a seat wins.
fn sides_won(winners: SideWinners, seat: u8) -> u8
    requires { seat < 11 }
    ensures value { result ≡ sides_won winners.high winners.low seat }
    ensures few { result ≤ 2 }
{
    PlayerSet::of(winners.high).has(seat) as u8 + PlayerSet::of(winners.low).has(seat) as u8
}

/// Returns the two halves of some units, the first rounded up and the second down.
pub fn halves(units: u64) -> [u64; 2]
    ensures { result ≡ halves units }
{
    [units / 2 + units % 2, units / 2]
}

/// Returns the half of the high, rounded up, or all units if nobody wins the low.
fn high_half(units: u64, low: u16) -> u64
    ensures value { result ≡ high_half units low }
    ensures within { result ≤ units }
{
    if low == 0 {
        return units;
    }
    let [first, _] = halves(units);
    first
}

/// Returns the half of the low, rounded down.
fn low_half(units: u64, low: u16) -> u64
    ensures { result ≡ low_half units low }
{
    if low == 0 {
        return 0;
    }
    let [_, second] = halves(units);
    second
}

/// Returns the parts of the winners of a pot.
fn parts(
    alloc: Global,
    units: u64,
    winners: SideWinners,
    high_order: &[u8],
    low_order: &[u8],
) -> Result<Vec<Share>, AllocError>
    ensures { IfOk result
        (λ parts. parts.items
        ≡ shares_from units winners.high winners.low high_order.now low_order.now 1 10) }
{
    let mut parts = Vec::new(alloc);
    let high = high_half(units, winners.low);
    let low = low_half(units, winners.low);
    for seat in 1..11 {
        let sides = sides_won(winners, seat);
        if sides == 0 {
            continue;
        }
        parts.push(Share {
            seat,
            units: side_share(high, high_order, seat) + side_share(low, low_order, seat),
            sides,
        })?;
    }
    Ok(parts)
}

/// Returns the parts of a pot's winners, by rising seat. Each side goes to its winners in equal
/// parts, and the units left over go one each in the order given for the side. If both sides have
/// winners, the half of the high is rounded up. The high has winners, and each order lists the
/// winners of its side, each once. In a game with only a low, the winners of the low are passed as
/// those of the high.
#[tactic(auto, unfolding(crate::specs::Split::shares))]
pub fn split(
    alloc: Global,
    units: u64,
    winners: SideWinners,
    high_order: &OddOrder,
    low_order: &OddOrder,
) -> Result<Shares, Memory>
    requires some { 0 < winners.high }
    requires high { IsOrder winners.high high_order.now }
    requires low { IsOrder winners.low low_order.now }
    ensures parts { IfOk result
        (λ all. all ≡ shares units winners.high winners.low high_order.now low_order.now) }
    ensures whole { IfOk result (λ all. given_in_all all ≡ units) }
{
    let items = parts(
        alloc,
        units,
        winners,
        high_order.as_slice(),
        low_order.as_slice(),
    )?;
    Ok(Shares::of(items))
}
