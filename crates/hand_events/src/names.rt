//! The names of a hand.

ghost use Rattle.std.specs.Prelude.{◌≡◌, [], ◌∷◌, ◌++◌, length, map, option_map, slice_get, OnOk, OnErr};
ghost use Rattle.hand_events.specs.Names.{is_seated, is_taken, name_of, seat_named};
ghost use Rattle.hand_events.specs.Seated.{pair};

use card_sets::Memory;
use std::alloc::Global;
use std::marker::Model;

/// A seat and its name.
#[derive(Drop)]
pub struct Seated {
    /// The seat.
    pub seat: u8,
    /// The bytes of the name.
    pub name: Vec<u8>,
}

/// The names of a hand's seat lines so far. Clauses see the list of pairs of a seat and the bytes
/// of its name, in the order of the lines.
#[derive(Drop)]
pub struct Names {
    /// The allocator of the names.
    alloc: Global,
    /// The seats with their names, in the order of the lines.
    seats: Vec<Seated>,
}

impl Model for Names {
    ghost use Rattle.std.specs.Prelude.{List, ℕ, map};
    ghost use Rattle.hand_events.specs.Seated.{pair};

    ghost Value = { List (ℕ × List ℕ) };

    ghost view = { λ names. map pair names.seats.items };
}

impl Names {
    /// Returns the list without names.
    pub fn new(alloc: Global) -> Names
        ensures { result ≡ [] }
    {
        Names {
            alloc,
            seats: Vec::new(alloc),
        }
    }

    /// Adds a name at the end. `Memory` changes nothing.
    pub fn add(&mut self, seat: u8, name: &[u8]) -> Result<(), Memory>
        ensures added { OnOk result (self.new ≡ self.old ++ (seat, name.now) ∷ []) }
        ensures refused { OnErr result (self.new ≡ self.old) }
    {
        let name = name.to_vec(self.alloc)?;
        match self.seats.push(Seated { seat, name }) {
            Ok(()) => Ok(()),
            Err(_) => Err(Memory),
        }
    }

    /// Returns the first name of a seat, byte for byte, or `None` if the seat has no name.
    pub fn name_of(&self, seat: u8) -> Option<&[u8]>
        ensures { option_map (λ name. name.now) result ≡ name_of seat self.now }
    {
        name_of(&self.seats, seat)
    }

    /// Returns the number of names.
    pub fn count(&self) -> usize
        ensures { result ≡ length self.now }
    {
        self.seats.len()
    }

    /// Returns the seat and the name at a place, byte for byte; places count from 0.
    pub fn at(&self, place: usize) -> Option<(u8, &[u8])>
        ensures { option_map (λ who. (who.0, who.1.now)) result ≡ slice_get self.now place }
    {
        let who = self.seats.get(place)?;
        Some((who.seat, who.name.as_slice()))
    }

    /// Returns the seats and their names, in the order of the lines.
    pub fn seats(&self) -> &[Seated]
        ensures { map pair result.now ≡ self.now }
    {
        self.seats.as_slice()
    }

    /// Returns the seat whose name is the whole text.
    pub fn named(&self, text: &[u8]) -> Option<u8>
        ensures { result ≡ seat_named text.now self.now }
    {
        named(&self.seats, text)
    }

    /// Returns whether a seat has a name in the hand.
    pub fn is_seated(&self, seat: u8) -> bool
        ensures { result ≡ is_seated seat self.now }
    {
        is_seated(&self.seats, seat)
    }

    /// Returns whether another seat has the name.
    pub fn is_taken(&self, seat: u8, name: &[u8]) -> bool
        ensures { result ≡ is_taken seat name.now self.now }
    {
        is_taken(&self.seats, seat, name)
    }
}

/// Returns the seat whose name is the whole text.
fn named(seats: &[Seated], text: &[u8]) -> Option<u8>
    ensures { result ≡ seat_named text.now (map pair seats.now) }
{
    for who in seats {
        if who.name.as_slice() == text {
            return Some(who.seat);
        }
    }
    None
}

/// Returns the first name of a seat.
fn name_of(seats: &[Seated], seat: u8) -> Option<&[u8]>
    ensures { option_map (λ name. name.now) result ≡ name_of seat (map pair seats.now) }
{
    for who in seats {
        if who.seat == seat {
            return Some(who.name.as_slice());
        }
    }
    None
}

/// Returns whether a seat is one of these.
fn is_seated(seats: &[Seated], seat: u8) -> bool
    ensures { result ≡ is_seated seat (map pair seats.now) }
{
    for who in seats {
        if who.seat == seat {
            return true;
        }
    }
    false
}

/// Returns whether another seat has the name.
fn is_taken(seats: &[Seated], seat: u8, name: &[u8]) -> bool
    ensures { result ≡ is_taken seat name.now (map pair seats.now) }
{
    for who in seats {
        if who.name.as_slice() == name && who.seat != seat {
            return true;
        }
    }
    false
}
