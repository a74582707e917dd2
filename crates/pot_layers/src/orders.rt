//! The order in which odd units are given.

ghost use Rattle.std.specs.Prelude.{◌≡◌, ◌<◌, ◌≤◌, [], ◌∷◌, ◌++◌, take, length};

use std::marker::Model;

/// Up to ten seats, in the order in which they get odd units. Clauses see the list of them.
#[derive(Drop)]
pub struct OddOrder {
    /// The seats, followed by unused ones.
    seats: [u8; 10],
    /// The number of seats.
    count: u8,
}

impl Model for OddOrder {
    ghost use Rattle.std.specs.Prelude.{List, ℕ, ◌≤◌, take};

    ghost Value = { List ℕ };

    ghost view = { λ o. take o.count o.seats };

    ghost invariant = { λ o. o.count ≤ 10 };
}

impl OddOrder {
    /// Returns the first `count` of these ten seats.
    pub fn of(seats: [u8; 10], count: u8) -> OddOrder
        requires { count ≤ 10 }
        ensures { result ≡ take count seats }
    {
        OddOrder { seats, count }
    }

    /// Returns the order without seats.
    pub fn none() -> OddOrder
        ensures { result ≡ [] }
    {
        OddOrder {
            seats: [0; 10],
            count: 0,
        }
    }

    /// Adds a seat after the others.
    pub fn push(&mut self, seat: u8)
        requires { length self.old < 10 }
        ensures { self.new ≡ self.old ++ seat ∷ [] }
    {
        self.seats[self.count as usize] = seat;
        self.count += 1;
    }

    /// Returns the seats, in order.
    pub fn as_slice(&self) -> &[u8]
        ensures { result.now ≡ self.now }
    {
        &self.seats[..self.count as usize]
    }
}
