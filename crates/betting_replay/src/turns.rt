//! The turns: who owes an act, who may act, and who is next.

ghost use Rattle.std.specs.Prelude.{◌≡◌, ℕ, ◌+◌, ◌-◌, ◌<◌, ◌≤◌, ◌&&◌, nat_le, nat_lt, true, false, None, IfSome, IsNone};
ghost use Rattle.card_sets.specs.PlayerSets.{has_player};
ghost use Rattle.betting_replay.specs.Seats.{first_from, first_between, first_after};
ghost use Rattle.betting_replay.specs.Accounts.{contenders};
ghost use Rattle.betting_replay.specs.Turns.{live_at, greatest, is_contender, contender_count, has_chips, any_shown, is_open, is_played, rivals, is_pending, owes, may_act, owes_before, next_to_act, due, has_level, due_to_level};

use crate::replay::Replay;
use card_sets::PlayerSet;

impl Replay {
    /// Returns the live chips that a seat has put in on the street.
    pub(crate) fn live(&self, seat: u8) -> u64
        requires { seat < 11 }
        ensures { result ≡ live_at self.now seat }
    {
        self.seats[seat as usize].chips.live
    }

    /// Returns the greatest live sum of a seat on the street.
    #[tactic(auto, unfolding(crate::specs::Turns::greatest))]
    pub(crate) fn greatest(&self) -> u64
        ensures { result ≡ greatest self.now }
    {
        let mut greatest = 0;
        for seat in 0..11 {
            greatest = greatest.max(self.live(seat));
        }
        greatest
    }

    /// Returns whether the seat's player has not folded.
    #[tactic(auto, unfolding(crate::specs::Turns::is_contender))]
    pub(crate) fn is_contender(&self, seat: u8) -> bool
        requires { seat < 11 }
        ensures { result ≡ is_contender self.now seat }
    {
        self.is_player(seat) && !self.seats[seat as usize].acts.folded
    }

    /// Returns the players who have not folded.
    pub(crate) fn contender_set(&self) -> PlayerSet
        ensures { result ≡ contenders self.now }
    {
        let mut set = PlayerSet::empty();
        for seat in 0..11 {
            if !self.is_contender(seat) {
                continue;
            }
            set = set.with(seat);
        }
        set
    }

    /// Returns whether two or more players haven't folded. The search ends at the second one.
    pub(crate) fn two_contend(&self) -> bool
        ensures { result ≡ nat_le 2 (contender_count self.now) }
    {
        let mut one = false;
        for seat in 0..11 {
            if !self.is_contender(seat) {
                continue;
            }
            if one {
                return true;
            }
            one = true;
        }
        false
    }

    /// Returns whether the seat has chips left.
    pub(crate) fn has_chips(&self, seat: u8) -> bool
        requires { seat < 11 }
        ensures { result ≡ has_chips self.now seat }
    {
        self.seats[seat as usize].chips.stack > 0
    }

    /// Returns whether the seat's player has not folded and has chips left.
    pub(crate) fn is_funded(&self, seat: u8) -> bool
        requires { seat < 11 }
        ensures { result ≡ (is_contender self.now seat && has_chips self.now seat) }
    {
        self.is_contender(seat) && self.has_chips(seat)
    }

    /// Returns whether there was a showdown marker of any board.
    pub(crate) fn any_shown(&self) -> bool
        ensures { result ≡ any_shown self.now.course.showdowns }
    {
        let shown = self.course.showdowns;
        shown.plain || shown.first || shown.second
    }

    /// Returns whether betting is open.
    pub(crate) fn is_open(&self) -> bool
        ensures { result ≡ is_open self.now }
    {
        self.course.opened && !self.any_shown()
    }

    /// Returns whether another contender has chips left. The search ends at the first one.
    fn has_rival(&self, seat: u8) -> bool
        ensures { result ≡ nat_lt 0 (rivals self.now seat) }
    {
        for rival in 0..11 {
            if rival != seat && self.is_funded(rival) {
                return true;
            }
        }
        false
    }

    /// Returns whether the seat is below the greatest live sum, or has a rival and has neither acted nor
    /// brought in.
    #[tactic(auto, unfolding(crate::specs::Turns::is_pending))]
    fn is_pending(&self, seat: u8, most: u64) -> bool
        requires few { seat < 11 }
        requires most { most ≡ greatest self.now }
        ensures { result ≡ is_pending self.now seat }
    {
        let acts = self.seats[seat as usize].acts;
        self.live(seat) < most || !acts.acted && !acts.brought_in && self.has_rival(seat)
    }

    /// Returns whether a player may owe an act: betting is open, and two players are in the hand.
    fn is_played(&self) -> bool
        ensures { result ≡ is_played self.now }
    {
        self.is_open() && self.two_contend()
    }

    /// Returns whether the seat owes an act, given that a player may, and given the greatest live sum.
    #[tactic(auto, unfolding(crate::specs::Turns::owes))]
    fn is_owing(&self, seat: u8, most: u64) -> bool
        requires few { seat < 11 }
        requires played { is_played self.now ≡ true }
        requires most { most ≡ greatest self.now }
        ensures { result ≡ owes self.now seat }
    {
        self.is_contender(seat) && self.has_chips(seat) && self.is_pending(seat, most)
    }

    /// Returns whether the seat owes an act.
    #[tactic(auto, unfolding(crate::specs::Turns::owes))]
    fn owes_act(&self, seat: u8) -> bool
        requires { seat < 11 }
        ensures { result ≡ owes self.now seat }
    {
        self.is_played() && self.is_owing(seat, self.greatest())
    }

    /// Returns whether the seat may act. Most seats haven't acted on the street, so this is tested first.
    #[tactic(auto, unfolding(crate::specs::Turns::may_act))]
    pub(crate) fn may_act(&self, seat: u8) -> bool
        requires { seat < 11 }
        ensures { result ≡ may_act self.now seat }
    {
        self.is_open()
            && self.is_contender(seat)
            && self.has_chips(seat)
            && (!self.seats[seat as usize].acts.acted || self.owes_act(seat))
    }

    /// Returns whether a player in a range of seats has chips left and hasn't folded. Nobody else owes an
    /// act.
    fn any_funded(&self, from: u8, end: u8) -> bool
        requires order { from ≤ end }
        requires few { end ≤ 11 }
        ensures { result ≡ false → first_from (owes self.now) from (end - from) ≡ None }
    {
        for seat in from..end {
            if self.is_funded(seat) {
                return true;
            }
        }
        false
    }

    /// Returns the first seat in a range that owes an act. Most often there is none between two actors, so
    /// the seats that might are tested first.
    fn first_owing(&self, from: u8, end: u8) -> Option<u8>
        requires order { from ≤ end }
        requires few { end ≤ 11 }
        ensures value { result ≡ first_from (owes self.now) from (end - from) }
    {
        if !self.any_funded(from, end) {
            return None;
        }
        if !self.is_played() {
            return None;
        }
        let most = self.greatest();
        for seat in from..end {
            if self.is_owing(seat, most) {
                return Some(seat);
            }
        }
        None
    }

    /// Returns the first seat that owes an act strictly between two seats, around the table.
    fn owes_between(&self, from: u8, to: u8) -> Option<u8>
        requires from { from ≤ 10 }
        requires some { 1 ≤ to }
        requires to { to ≤ 10 }
        ensures { result ≡ first_between (owes self.now) from to }
    {
        if from < to {
            return self.first_owing(from + 1, to);
        }
        self.first_owing(from + 1, 11).or(self.first_owing(1, to))
    }

    /// Returns the first seat that owes an act strictly between the last actor and the seat.
    pub(crate) fn owes_before(&self, seat: u8) -> Option<u8>
        requires some { 1 ≤ seat }
        requires few { seat ≤ 10 }
        ensures { result ≡ owes_before self.now seat }
    {
        self.owes_between(self.course.last_actor?, seat)
    }

    /// Returns the first seat that owes an act after the last actor, or from seat 1 on if nobody has
    /// acted. `None` exactly if nobody owes one.
    pub fn owes(&self) -> Option<u8>
        ensures value { result ≡ next_to_act self.now }
        ensures nobody { IsNone result → (p : ℕ) → 1 ≤ p → p ≤ 10 → owes self.now p ≡ false }
        ensures one { IfSome result (λ seat. owes self.now seat ≡ true) }
    {
        match self.course.last_actor {
            None => self.first_owing(1, 11),
            Some(last) => self
                .first_owing(last + 1, 11)
                .or(self.first_owing(1, last + 1)),
        }
    }
}
