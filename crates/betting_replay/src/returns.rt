//! The return of a bet that nobody called.

ghost use Rattle.std.specs.Prelude.{◌≡◌, ◌<◌};
ghost use Rattle.betting_replay.specs.Returns.{live_by, hand_sums, street_sums, is_return, return_fits, units_of, uncalled_due};

use crate::replay::Replay;
use pot_layers::{Paid, uncalled};

/// Returns whether `units` of the seat are the uncalled amount.
fn is_return(uncalled: Option<(u8, u64)>, seat: u8, units: u64) -> bool
    ensures { result ≡ is_return uncalled seat units }
{
    match uncalled {
        None => false,
        Some((alone, over)) => alone == seat && over == units,
    }
}

impl Replay {
    /// Returns the chips that a seat has put in live on the street.
    #[tactic(auto, unfolding(crate::specs::Returns::live_by))]
    fn live_paid(&self, seat: u8) -> Paid
        requires { seat < 11 }
        ensures { result ≡ live_by self.now seat }
    {
        Paid {
            live: self.live(seat),
            ..self.paid(seat)
        }
    }

    /// Returns the chips that the ten seats have put in over the hand.
    #[tactic(auto, unfolding(crate::specs::Returns::hand_sums))]
    fn hand_sums(&self) -> [Paid; 10]
        ensures { result ≡ hand_sums self.now }
    {
        [
            self.paid(1),
            self.paid(2),
            self.paid(3),
            self.paid(4),
            self.paid(5),
            self.paid(6),
            self.paid(7),
            self.paid(8),
            self.paid(9),
            self.paid(10),
        ]
    }

    /// Returns the chips that the ten seats have put in live on the street.
    #[tactic(auto, unfolding(crate::specs::Returns::street_sums))]
    fn street_sums(&self) -> [Paid; 10]
        ensures { result ≡ street_sums self.now }
    {
        [
            self.live_paid(1),
            self.live_paid(2),
            self.live_paid(3),
            self.live_paid(4),
            self.live_paid(5),
            self.live_paid(6),
            self.live_paid(7),
            self.live_paid(8),
            self.live_paid(9),
            self.live_paid(10),
        ]
    }

    /// Returns whether `units` of the seat may be returned.
    #[tactic(auto, unfolding(crate::specs::Returns::return_fits))]
    pub(crate) fn return_fits(&self, seat: u8, units: u64) -> bool
        ensures { result ≡ return_fits self.now seat units }
    {
        is_return(uncalled(&self.hand_sums()), seat, units)
            || is_return(uncalled(&self.street_sums()), seat, units)
    }

    /// Returns the number of units that are uncalled over the whole hand.
    pub(crate) fn uncalled_due(&self) -> u64
        ensures { result ≡ uncalled_due self.now }
    {
        match uncalled(&self.hand_sums()) {
            None => 0,
            Some((_, over)) => over,
        }
    }
}
