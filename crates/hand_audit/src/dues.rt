//! What each seat is due of a pot.

ghost use Rattle.std.specs.Prelude.{◌≡◌, ◌<◌, ◌^◌, ℕ, [], false, length, IfOk};
ghost use Rattle.hand_audit.specs.SettlementAnswers.{AreDues, due_by, is_lone, sides_by};
ghost use Rattle.hand_audit.specs.Parts.{sides_in, units_in_all, units_of};
ghost use Rattle.hand_audit.specs.Settle.{Showing, parts_of};
ghost use Rattle.hand_audit.specs.Winning.{Tells, IsReady, IsDecided};

use crate::parts::part_shares;
use crate::pot_names::units_if;
use crate::standings::Standings;
use crate::winners::is_alone;
use card_sets::{Memory, PlayerSet};
use hand_verdict::{PartShare, PartShares};
use std::alloc::Global;

/// What the rules give of a pot.
#[derive(Drop)]
pub(crate) struct Dues {
    /// Whether the winners of the pot are known.
    pub(crate) checked: bool,
    /// The players who may win it.
    pub(crate) eligible: PlayerSet,
    /// The units that its winners get.
    pub(crate) units: u64,
    /// Number of its parts: two if the hand was run twice.
    pub(crate) boards: u8,
    /// The shares of its parts. There are none if only one player may win it.
    pub(crate) parts: PartShares,
}

/// Returns the number of parts of each pot: one for each board.
fn count_parts(standings: &Standings) -> u8
    ensures { (s : Showing) (units : ℕ) → Tells standings.now s
        → result ≡ length (parts_of s units) }
{
    match &standings.second {
        None => 1,
        Some(_second) => 2,
    }
}

/// Returns what some shares give a seat.
fn units_of(parts: &[PartShare], seat: u8) -> u128
    ensures { result ≡ units_of seat parts.now }
{
    let _count = parts.len();
    let mut units = 0u128;
    for part in parts {
        units += u128::from(units_if(part.seat == seat, part.units));
    }
    units
}

/// Returns how many of some shares are a seat's.
fn sides_in(parts: &[PartShare], seat: u8) -> u128
    ensures { result ≡ sides_in seat parts.now }
{
    let _count = parts.len();
    let mut sides = 0u128;
    for part in parts {
        sides += u128::from(units_if(part.seat == seat, 1));
    }
    sides
}

impl Dues {
    /// Returns what the rules give of a pot with these players and units.
    pub(crate) fn of_pot(
        alloc: Global,
        standings: &Standings,
        eligible: PlayerSet,
        units: u64,
    ) -> Result<Dues, Memory>
        requires { IsReady standings.now }
        ensures dues { IfOk result (λ dues. (s : Showing) → Tells standings.now s
            → IsDecided s eligible → AreDues dues s eligible units) }
        ensures few { IfOk result (λ dues. units_in_all dues.parts < 2 ^ 64) }
    {
        let checked = standings.is_checked(eligible);
        let parts = part_shares(alloc, standings, checked, eligible, units)?;
        Ok(Dues {
            checked,
            eligible,
            units,
            boards: count_parts(standings),
            parts,
        })
    }

    /// Returns what is known of a pot whose winners aren't known: nothing.
    pub(crate) fn unknown(alloc: Global) -> Dues
        ensures checked { result.checked ≡ false }
        ensures eligible { result.eligible ≡ 0 }
        ensures units { result.units ≡ 0 }
        ensures boards { result.boards ≡ 0 }
        ensures parts { result.parts ≡ [] }
    {
        Dues {
            checked: false,
            eligible: PlayerSet::empty(),
            units: 0,
            boards: 0,
            parts: PartShares::of(Vec::new(alloc)),
        }
    }

    /// Returns whether a seat is the only one that may win the pot.
    fn is_lone(&self, seat: u8) -> bool
        ensures { result ≡ is_lone self.now.eligible seat }
    {
        is_alone(self.eligible) && seat < 11 && self.eligible.has(seat)
    }

    /// Returns the units that a seat is due: all of them if it alone may win the pot.
    pub(crate) fn due(&self, seat: u8) -> u64
        requires { units_in_all self.now.parts < 2 ^ 64 }
        ensures { result ≡ due_by self.now seat }
    {
        if self.is_lone(seat) {
            return self.units;
        }
        units_of(self.parts.items(), seat) as u64
    }

    /// Returns how many sides of parts a seat wins: one of each part if it alone may win the pot.
    pub(crate) fn sides(&self, seat: u8) -> u128
        ensures { result ≡ sides_by self.now seat }
    {
        if self.is_lone(seat) {
            return u128::from(self.boards);
        }
        sides_in(self.parts.items(), seat)
    }
}
