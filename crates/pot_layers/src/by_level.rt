//! The pots of a hand: one walk over the levels, the lowest first.

ghost use Rattle.std.specs.Prelude.{◌≡◌, ℕ, ◌+◌, ◌-◌, ◌<◌, ◌≤◌, ◌^◌, ◌&&◌, ◌==◌, min, nat_le, IfOk, true, [], map, Some};
ghost use Rattle.std.specs.List.{sum_by};
ghost use Rattle.pot_layers.specs.Pots.{pots, between, above, all_dead, any_contender, reaches, reaching, least_above, lesser, held, put_in_all, more_first, more_last, pots_from, levels, or_one, highest};

use crate::paid::{Paid, Pot};
use card_sets::{Items, Memory, PlayerSet};
use std::alloc::{AllocError, Global};

/// The pots of a hand, the main pot first. Clauses see it as a list.
pub type Pots = Items<Pot>;

/// Returns the chips that all players paid between two levels.
fn between(paid: &[Paid], low: u64, high: u64) -> u64
    requires { sum_by (λ p. p.live) paid.now < 2 ^ 64 }
    ensures { result ≡ between paid.now low high }
{
    let mut units = 0;
    for player in paid {
        units += player.live.min(high).saturating_sub(player.live.min(low));
    }
    units
}

/// Returns the lesser of two sums, the first of which may be missing.
fn lesser(least: Option<u64>, sum: u64) -> u64
    ensures { lesser least sum ≡ Some result }
{
    match least {
        None => sum,
        Some(least) => least.min(sum),
    }
}

/// Returns the least sum above a level that a contender has paid.
fn least_above(low: u64, paid: &[Paid]) -> Option<u64>
    ensures { result ≡ least_above low paid.now }
{
    let mut least = None;
    for player in paid {
        if player.contender && player.live > low {
            least = Some(lesser(least, player.live));
        }
    }
    least
}

/// Returns whether the seat is that of a contender who has paid up to a level.
fn reaches(paid: &[Paid], level: u64, seat: u8) -> bool
    ensures { result ≡ reaches paid.now level seat }
{
    paid.iter()
        .any(|p| p.seat == seat && p.contender && level <= p.live)
}

/// Returns the contenders who have paid up to a level: bit s for seat s.
fn reaching(paid: &[Paid], level: u64) -> u16
    ensures { result ≡ reaching paid.now level }
{
    PlayerSet::passing(11, |seat| reaches(paid, level, seat)).bits()
}

/// Returns the pot of each level, and the highest level.
fn each_level(alloc: Global, paid: &[Paid]) -> Result<Vec<Pot>, AllocError>
    requires { sum_by (λ p. p.live) paid.now < 2 ^ 64 }
    ensures { IfOk result (λ pots. pots.items ≡ pots_from paid.now 0 (levels paid.now)) }
{
    let mut pots = Vec::new(alloc);
    let mut low = 0;
    while let Some(level) = least_above(low, paid) {
        pots.push(Pot {
            units: between(paid, low, level),
            eligible: reaching(paid, level),
        })?;
        low = level;
    }
    Ok(pots)
}

/// Returns the highest sum that a contender has paid.
fn highest(paid: &[Paid]) -> u64
    ensures { result ≡ highest paid.now }
{
    let mut greatest = 0;
    for player in paid {
        if player.contender {
            greatest = greatest.max(player.live);
        }
    }
    greatest
}

/// Returns whether there is a contender.
fn any_contender(paid: &[Paid]) -> bool
    ensures { result ≡ any_contender paid.now }
{
    paid.iter().any(|p| p.contender)
}

/// Returns the chips paid above a level.
fn above(paid: &[Paid], level: u64) -> u64
    requires { above paid.now level < 2 ^ 64 }
    ensures { result ≡ above paid.now level }
{
    paid.iter().map(|p| p.live.saturating_sub(level)).sum()
}

/// Returns all dead chips.
fn all_dead(paid: &[Paid]) -> u64
    requires { sum_by (λ p. p.dead) paid.now < 2 ^ 64 }
    ensures { result ≡ all_dead paid.now }
{
    paid.iter().map(|p| p.dead).sum()
}

/// Adds units to the first pot.
fn add_first(pots: &mut [Pot], units: u64)
    requires { held pots.old + units < 2 ^ 64 }
    ensures { pots.new ≡ more_first units pots.old }
{
    if let [first, ..] = pots {
        first.units += units;
    }
}

/// Adds units to the last pot.
fn add_last(pots: &mut [Pot], units: u64)
    requires { held pots.old + units < 2 ^ 64 }
    ensures { pots.new ≡ more_last units pots.old }
{
    let count = pots.len();
    if count > 0 {
        let last = pots[count - 1];
        pots[count - 1] = Pot {
            units: last.units + units,
            eligible: last.eligible,
        };
    }
}

/// Adds units to the last pot and to the first.
fn add_rest(pots: &mut [Pot], last: u64, first: u64)
    requires { held pots.old + last + first < 2 ^ 64 }
    ensures { pots.new ≡ more_first first (more_last last pots.old) }
{
    add_last(pots, last);
    add_first(pots, first);
}

/// Returns the pots by level, or one pot of all contenders if none of them has paid.
fn all_levels(alloc: Global, paid: &[Paid]) -> Result<Vec<Pot>, AllocError>
    requires { sum_by (λ p. p.live) paid.now < 2 ^ 64 }
    ensures { IfOk result
        (λ pots. pots.items ≡ or_one paid.now (pots_from paid.now 0 (levels paid.now))) }
{
    let mut pots = each_level(alloc, paid)?;
    if pots.is_empty() && any_contender(paid) {
        pots.push(Pot {
            units: 0,
            eligible: reaching(paid, 0),
        })?;
    }
    Ok(pots)
}

/// Returns the pots of a hand, from what its players put in. If there is a contender, there is at
/// least one pot, and the pots contain all chips put in. The sums of these chips fit 64 bits.
#[tactic(auto, unfolding(crate::specs::Pots::pots))]
pub fn layers(alloc: Global, paid: &[Paid]) -> Result<Pots, Memory>
    requires { put_in_all paid.now < 2 ^ 64 }
    ensures pots { IfOk result (λ all. all ≡ pots paid.now) }
    ensures whole { any_contender paid.now ≡ true
        → IfOk result (λ all. held all ≡ put_in_all paid.now) }
{
    let mut items = all_levels(alloc, paid)?;
    let above = above(paid, highest(paid));
    let dead = all_dead(paid);
    add_rest(&mut items, above, dead);
    Ok(Pots::of(items))
}
