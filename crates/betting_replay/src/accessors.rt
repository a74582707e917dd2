//! The questions to a replay about its hand.

ghost use Rattle.std.specs.Prelude.{◌≡◌, ℕ, ◌+◌, ◌^◌, ◌<◌, ◌≤◌};
ghost use Rattle.card_sets.specs.PlayerSets.{has_player};
ghost use Rattle.betting_replay.specs.Accounts.{paid_by, stack_at, contenders};

use crate::replay::Replay;
use hand_events::Street;
use pot_layers::Paid;

impl Replay {
    /// Returns the chips that a seat has put in over the hand, in units, and whether its player hasn't
    /// folded.
    #[tactic(auto, unfolding(crate::specs::Accounts::paid_by))]
    pub fn paid(&self, seat: u8) -> Paid
        requires { seat < 11 }
        ensures value { result ≡ paid_by self.now seat }
        ensures room { result.live + result.dead < 10 ^ 15 }
    {
        let chips = self.seats[seat as usize].chips;
        Paid {
            seat,
            live: chips.paid,
            dead: chips.dead,
            contender: self.is_contender(seat),
        }
    }

    /// Returns the players who haven't folded: bit s for seat s.
    pub fn contenders(&self) -> u16
        ensures { result ≡ contenders self.now }
    {
        self.contender_set().bits()
    }

    /// Returns the seat of the button, by the last line that named it, or 0 if no line did.
    pub fn button(&self) -> u8
        ensures value { result ≡ self.now.button }
        ensures few { result ≤ 10 }
    {
        self.button
    }

    /// Returns whether a player has the seat.
    pub fn is_player(&self, seat: u8) -> bool
        requires { seat < 11 }
        ensures { result ≡ has_player self.now.players seat }
    {
        self.players.has(seat)
    }

    /// Returns the street: that of the last marker, also of a showdown or the summary, or the draw that
    /// a discard or a stand-pat began. `None` exactly before the first marker.
    pub fn street(&self) -> Option<Street>
        ensures { result ≡ self.now.course.street }
    {
        self.course.street
    }

    /// Returns the chips left in front of the player of a seat, in units.
    pub fn stack(&self, seat: u8) -> u64
        requires { seat < 11 }
        ensures { result ≡ stack_at self.now seat }
    {
        self.seats[seat as usize].chips.stack
    }
}
