//! The uncalled part of a bet.

ghost use Rattle.std.specs.Prelude.{◌≡◌, ℕ, drop};
ghost use Rattle.pot_layers.specs.Uncalled.{is_reached, rival, alone_in, uncalled};

use crate::paid::Paid;

/// Returns whether another seat has at least this live sum.
fn is_reached(paid: &[Paid], seat: u8, live: u64) -> bool
    ensures { result ≡ is_reached paid.now seat live }
{
    paid.iter()
        .any(|player| player.seat != seat && live <= player.live)
}

/// Returns the greatest live sum of another seat, 0 if there is none.
fn rival(paid: &[Paid], seat: u8) -> u64
    ensures { result ≡ rival paid.now seat }
{
    let mut greatest = 0;
    for player in paid {
        if player.seat != seat {
            greatest = greatest.max(player.live);
        }
    }
    greatest
}

/// Returns the seat with the greatest live sum, if no other seat has that sum, and the difference
/// to the second greatest sum in units. The second greatest sum is 0 if there is no other player,
/// so the whole live sum of a lone player is uncalled, even 0. `None` exactly if two seats have the
/// greatest sum, or there is no seat.
#[tactic(auto, using(crate::proofs::RivalSums::rival_within))]
pub fn uncalled(paid: &[Paid]) -> Option<(u8, u64)>
    ensures { result ≡ uncalled paid.now }
{
    for player in paid {
        if !is_reached(paid, player.seat, player.live) {
            return Some((player.seat, player.live - rival(paid, player.seat)));
        }
    }
    None
}
