//! Which pot a collection names, and what was collected from it.

ghost use Rattle.std.specs.Prelude.{◌≡◌, ℕ, ◌+◌, ◌<◌, ◌^◌, ◌==◌, ◌&&◌, if◌then◌else◌, length, is_some};
ghost use Rattle.std.specs.List.{list_all, list_any};
ghost use Rattle.hand_audit.specs.Collections.{taken_from, any_from};
ghost use Rattle.hand_audit.specs.PotNames.{pot_named, names_pot, counts_from, each_taken, fits};

use crate::collections::Collection;
use history_text::PotName;
use pot_layers::Pot;

/// Returns the number of the pot that a name is for, if a hand has `count` pots.
#[tactic(auto, unfolding(crate::specs::PotNames::pot_named))]
fn pot_named(count: usize, pot: PotName) -> Option<usize>
    ensures { result ≡ pot_named count pot }
{
    match pot {
        PotName::Only => { if count == 1 { Some(0) } else { None } }
        PotName::Main => { if count >= 2 { Some(0) } else { None } }
        PotName::Side => { if count == 2 { Some(1) } else { None } }
        PotName::SideNumber(n) => {
            if count >= 3 && n >= 1 && (n as usize) < count {
                Some(n as usize)
            } else {
                None
            }
        }
    }
}

/// Whether a name is for a pot.
fn names_pot(count: usize, k: usize, pot: PotName) -> bool
    ensures { result ≡ names_pot count k pot }
{
    match pot_named(count, pot) {
        Some(place) => place == k,
        None => false,
    }
}

/// Which collections count.
#[derive(Clone, Copy)]
pub enum Source {
    /// All of the hand.
    Any,
    /// The collections from one pot.
    Numbered {
        /// Number of the hand's pots.
        count: usize,
        /// The pot, from 0.
        number: usize,
    },
}

/// Whether a collection from the pot of a name counts.
pub(crate) fn counts_from(source: Source, pot: PotName) -> bool
    ensures { result ≡ counts_from source pot }
{
    match source {
        Source::Any => true,
        Source::Numbered { count, number } => names_pot(count, number, pot),
    }
}

/// Units that count where a test holds.
pub(crate) fn units_if(test: bool, units: u64) -> u64
    ensures { result ≡ (if test then units else 0) }
{
    if test { units } else { 0 }
}

/// What was collected from a source.
pub(crate) fn taken_from(all: &[Collection], source: Source) -> u128
    ensures value { result ≡ taken_from (counts_from source) all.now }
    ensures room { result < 2 ^ 127 }
{
    let _count = all.len();
    let mut units = 0u128;
    for one in all {
        let counts = counts_from(source, one.pot);
        units += u128::from(units_if(counts, one.units));
    }
    units
}

/// Whether something was collected from a pot.
fn any_from(all: &[Collection], count: usize, k: usize) -> bool
    ensures { result ≡ any_from (names_pot count k) all.now }
{
    all.iter().any(|one| names_pot(count, k, one.pot))
}

/// Whether each of the pots, numbered from one on, has a collection, and no more than it holds.
fn each_taken(pots: &[Pot], all: &[Collection], count: usize, k: usize) -> bool
    requires { k + length pots.now < 2 ^ 64 }
    ensures { result ≡ each_taken count k pots.now all.now }
{
    match pots {
        [] => true,
        [pot, others @ ..] => {
            any_from(all, count, k)
                && taken_from(all, Source::Numbered { count, number: k }) <= u128::from(pot.units)
                && each_taken(others, all, count, k + 1)
        }
    }
}

/// Whether each collection names a pot.
fn all_named(all: &[Collection], count: usize) -> bool
    ensures { result ≡ list_all (λ c. is_some (pot_named count c.pot)) all.now }
{
    all.iter().all(|one| pot_named(count, one.pot).is_some())
}

/// Whether each collection names a pot, each pot has one, and no pot has more collected than it holds.
#[tactic(auto, unfolding(crate::specs::PotNames::fits))]
pub(crate) fn fits(pots: &[Pot], all: &[Collection]) -> bool
    ensures { result ≡ fits pots.now all.now }
{
    all_named(all, pots.len()) && each_taken(pots, all, pots.len(), 0)
}
