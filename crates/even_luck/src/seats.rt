//! The seats of the hands of a table, which are given hand by hand.

ghost use Rattle.std.specs.Prelude.{◌≡◌, ◌<◌, ◌≤◌, ◌==◌, IfSome, length, position};
ghost use Rattle.even_luck.specs.Seats.{contenders, hand_at};
ghost use Rattle.showdown_tally.specs.Deals.{deal_of};

use crate::tables::hand_count;
use showdown_tally::Table;

/// The first place of a seat.
fn place_of(seats: &[u8], seat: u8) -> Option<usize>
    ensures value { result ≡ position (λ other. other == seat) seats.now }
    ensures within { IfSome result (λ place. place < length seats.now) }
{
    seats.iter().position(|other| *other == seat)
}

/// Which hand of the table a seat has, where it is a contender.
pub fn hand_at(seats: &[u8; 10], table: &Table, seat: u8) -> Option<u8>
    ensures value { result ≡ hand_at seats.now (deal_of table.now) seat }
    ensures within { IfSome result (λ hand. hand < 10) }
{
    let seats = &seats[..usize::from(hand_count(&table.known))];
    match place_of(seats, seat) {
        Some(hand) => Some(hand as u8),
        None => None,
    }
}

/// The seats of the contenders of an all-in.
pub(crate) fn contenders<'a>(seats: &'a [u8; 10], table: &Table) -> &'a [u8]
    ensures value { result.now ≡ contenders seats.now (deal_of table.now) }
    ensures few { length result.now ≤ 10 }
{
    &seats[..usize::from(hand_count(&table.known))]
}
