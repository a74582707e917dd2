//! The players with their sums, in the order in which they were added.
//!
//! 1. *Rows*. An `IndexMap` contains the rows. The key of a row is the unit of its hands and the number of its name.
//! 2. *Numbers*. An ordered map of std gives a name its number when its first row is inserted: 0, 1, and so on.
//!
//! The hash of a row therefore depends on the order of the names, and not on their bytes. Nobody can choose names that all fall into
//! one part of the hash table.

ghost use Rattle.std.specs.Prelude.{◌≡◌, ℕ, ◌+◌, ◌≤◌, ◌^◌, [], ◌∷◌, ◌++◌, Some, false, length, take, slice_get, option_map, IfOk, OnOk, OnErr};
ghost use Rattle.std.specs.BTreeMap.{get};
ghost use Rattle.std.specs.List.{IsDistinct, list_any};
ghost use Rattle.std.specs.Map.{keys_of};
ghost use Rattle.std.specs.Option.{option_copied};
ghost use Rattle.player_totals.specs.SumsSeen.{AllAreOf, with_more};
ghost use Rattle.player_totals.specs.Totals.{same_player};
ghost use Rattle.player_totals.specs.TotalsSeen.{AreNumbers, name_cmp, player_of, row_key};
ghost use Rattle.player_totals.specs.declared.player_key.Name.{Name};

use crate::player_key::{Name, PlayerKey};
use crate::sums::Sums;
use indexmap::IndexMap;
use std::alloc::{AllocError, Global};
use std::collections::BTreeMap;
use std::marker::Model;

/// The key of a player's row.
#[derive(Clone, Copy, PartialEq, Eq, Hash)]
pub(crate) struct RowKey {
    /// Whether the money of the hands has hundredths.
    pub(crate) hundredths: bool,
    /// The number of the player's name.
    pub(crate) number: usize,
}

/// A player with their sums.
#[derive(Drop)]
pub(crate) struct PlayerRow<S> {
    /// The name and the unit.
    pub(crate) key: PlayerKey,
    /// The sums over the hands of this player.
    pub(crate) sums: S,
}

/// The players with their sums, in the order in which they were added. Clauses see them as a plain list.
#[derive(Drop)]
pub(crate) struct Players<S> {
    /// A row for each player.
    rows: IndexMap<RowKey, PlayerRow<S>>,
    /// The number of each name that has one. A name without a row may have a number, after an insertion was refused.
    numbers: BTreeMap<Name, usize>,
}

impl<S> Model for Players<S> {
    ghost use Rattle.std.specs.Prelude.{List};
    ghost use Rattle.player_totals.specs.Totals.{Player};
    ghost use Rattle.player_totals.specs.TotalsSeen.{AreRows, seen_rows};

    ghost Value = { List (Player × S) };

    ghost view = { λ p. seen_rows p.rows.entries };

    ghost invariant = { λ p. AreRows p.numbers p.rows.entries };
}

/// Returns the number of a name. A name without a number gets the next one. If memory is refused, no name gets one.
fn number_of(numbers: &mut BTreeMap<Name, usize>, name: &Name) -> Result<usize, AllocError>
    requires { AreNumbers numbers.old }
    ensures number { IfOk result (λ number. get name_cmp numbers.new name.now ≡ Some number) }
    ensures kept { (other : Name) (number : ℕ) → get name_cmp numbers.old other ≡ Some number
        → get name_cmp numbers.new other ≡ Some number }
    ensures numbers { AreNumbers numbers.new }
{
    if let Some(number) = numbers.get(name) {
        return Ok(*number);
    }
    let number = numbers.len();
    numbers.insert(name.copy()?, number)?;
    Ok(number)
}

/// Returns the key of a player's row, or `None` if the name has no number.
fn row_key(numbers: &BTreeMap<Name, usize>, key: &PlayerKey) -> Option<RowKey>
    ensures { result ≡ row_key numbers.now key.now }
{
    match numbers.get(&key.name) {
        Some(number) => Some(RowKey {
            hundredths: key.hundredths,
            number: *number,
        }),
        None => None,
    }
}

impl<S: Sums> Players<S> {
    /// No player.
    pub(crate) fn new(alloc: Global) -> Players<S>
        ensures { result ≡ [] }
    {
        Players {
            rows: IndexMap::new(alloc),
            numbers: BTreeMap::new(alloc),
        }
    }

    /// Where memory for keys comes from.
    pub(crate) fn allocator(&self) -> Global {
        *self.rows.allocator()
    }

    /// How many there are.
    pub(crate) fn len(&self) -> usize
        ensures { result ≡ length self.now }
    {
        self.rows.len()
    }

    /// The player at a place.
    pub(crate) fn at(&self, place: usize) -> Option<&PlayerRow<S>>
        ensures { option_map (λ row. (player_of row.key, row.sums)) (option_copied result)
            ≡ slice_get self.now place }
    {
        match self.rows.get_index(place) {
            Some((_, row)) => Some(row),
            None => None,
        }
    }

    /// Whether a player is there.
    pub(crate) fn has(&self, key: &PlayerKey) -> bool
        ensures { result ≡ list_any (λ entry. same_player (player_of key.now) entry.0) self.now }
    {
        match row_key(&self.numbers, key) {
            Some(under) => self.rows.contains_key(&under),
            None => false,
        }
    }

    /// Puts a player who isn't there at the end, with the sums of no hand. Out of memory leaves all as it was.
    pub(crate) fn push(&mut self, key: &PlayerKey) -> Result<(), AllocError>
        requires { list_any (λ entry. same_player (player_of key.now) entry.0) self.old ≡ false }
        ensures added { OnOk result (self.new ≡ self.old ++ (player_of key.now, S.nothing) ∷ []) }
        ensures memory { OnErr result (self.new ≡ self.old) }
    {
        let under = RowKey {
            hundredths: key.hundredths,
            number: number_of(&mut self.numbers, &key.name)?,
        };
        let row = PlayerRow {
            key: key.copy()?,
            sums: S::none(),
        };
        self.rows.insert(under, row)?;
        Ok(())
    }

    /// Takes all players beyond a count of them out.
    pub(crate) fn truncate(&mut self, count: usize)
        requires { count ≤ length self.old }
        ensures { self.new ≡ take count self.old }
    {
        self.rows.truncate(count);
    }

    /// Adds to the sums of a player, where he has some.
    pub(crate) fn add(&mut self, key: &PlayerKey, more: &S)
        requires sums { AllAreOf S.AreOf (2 ^ 32 + 1) self.old }
        requires more { S.AreOf 1 more.now }
        ensures added { self.new ≡ with_more S.plus self.old (player_of key.now) more.now }
        ensures distinct { IsDistinct same_player (keys_of self.old) }
    {
        if let Some(under) = row_key(&self.numbers, key) {
            if let Some(row) = self.rows.get_mut(&under) {
                row.sums = row.sums.with(more);
            }
        }
    }
}
