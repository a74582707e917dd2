//! Who wins a side of a pot.

ghost use Rattle.std.specs.Prelude.{◌≡◌, ◌<◌};
ghost use Rattle.std.specs.List.{list_all};
ghost use Rattle.card_sets.specs.PlayerSets.{has_player, seats_in};
ghost use Rattle.showdown_tally.specs.Settling.{number_of};
ghost use Rattle.hand_audit.specs.Orders.{OfSeats};
ghost use Rattle.hand_audit.specs.Settle.{is_alone};
ghost use Rattle.hand_audit.specs.Winning.{is_beaten, is_unbeaten, wins, winners_by};

use card_sets::PlayerSet;

/// Whether a value is beaten by another.
fn is_beaten(mine: Option<u32>, other: Option<u32>) -> bool
    ensures { result ≡ is_beaten mine other }
{
    match (mine, other) {
        (Some(mine), Some(other)) => mine < other,
        _ => false,
    }
}

/// Whether no seat of a set has a value that beats one.
fn is_unbeaten(values: &[Option<u32>; 11], seats: PlayerSet, mine: Option<u32>) -> bool
    ensures { result ≡ is_unbeaten values.now seats mine }
{
    for seat in seats.seats().each() {
        if is_beaten(mine, values[seat as usize]) {
            return false;
        }
    }
    true
}

/// Whether a seat of a set has a value that no other's beats.
#[tactic(auto, unfolding(crate::specs::Winning::wins))]
fn wins(values: &[Option<u32>; 11], seats: PlayerSet, seat: u8) -> bool
    requires { seat < 11 }
    ensures { result ≡ wins values.now seats seat }
{
    let value = values[seat as usize];
    0 < seat && seats.has(seat) && value.is_some() && is_unbeaten(values, seats, value)
}

/// The seats of a set that have a value which no other's beats.
pub(crate) fn winners(values: &[Option<u32>; 11], seats: PlayerSet) -> PlayerSet
    ensures value { result ≡ winners_by values.now seats }
    ensures seats { OfSeats result }
{
    PlayerSet::passing(11, |seat| wins(values, seats, seat))
}

/// Whether a set has one seat alone.
pub(crate) fn is_alone(seats: PlayerSet) -> bool
    ensures { result ≡ is_alone seats }
{
    seats.seats().count() == 1
}

/// Whether all seats of a set are among some.
pub(crate) fn are_known(known: PlayerSet, seats: PlayerSet) -> bool
    ensures { result ≡ list_all (has_player known) (seats_in seats) }
{
    for seat in seats.seats().each() {
        if !known.has(seat) {
            return false;
        }
    }
    true
}
