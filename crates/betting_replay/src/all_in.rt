//! The moment after which a hand is played out without acts.

ghost use Rattle.std.specs.Prelude.{◌≡◌, ℕ, ◌<◌, ◌&&◌, nat_le, not, is_none};
ghost use Rattle.betting_replay.specs.Table.{own_at};
ghost use Rattle.betting_replay.specs.AllIn.{funded_count, is_point, point_on, point_now, point_street, point_contenders, had_folded, cards_of_seats, dead_at};
ghost use Rattle.betting_replay.specs.Counting.{pointed};

use crate::points::Point;
use crate::replay::Replay;
use card_sets::{CardSet, PlayerSet};
use hand_events::Street;

/// Returns a point on a street, with the contenders there.
fn point_on(street: Option<Street>, contenders: u16) -> Option<Point>
    ensures { result ≡ point_on street contenders }
{
    Some(Point {
        street: street?,
        contenders,
    })
}

impl Replay {
    /// Returns whether at most one contender has chips left. The search ends at the second one.
    pub(crate) fn few_funded(&self) -> bool
        ensures { result ≡ nat_le (funded_count self.now) 1 }
    {
        let mut one = false;
        for seat in 0..11 {
            if !self.is_funded(seat) {
                continue;
            }
            if one {
                return false;
            }
            one = true;
        }
        true
    }

    /// Returns whether nobody can bet any more and cards are to come. Most often two contenders have chips
    /// left, so this is tested first.
    #[tactic(auto, unfolding(crate::specs::AllIn::is_point))]
    fn is_point(&self) -> bool
        ensures { result ≡ is_point self.now }
    {
        self.course.opened
            && self.few_funded()
            && self.two_contend()
            && self.owes().is_none()
            && !self.course.last_begun
    }

    /// Returns the all-in point of this moment, if it is one.
    #[tactic(auto, unfolding(crate::specs::AllIn::point_now))]
    fn point_now(&self) -> Option<Point>
        ensures { result ≡ point_now self.now }
    {
        if self.is_point() {
            point_on(self.course.street, self.contenders())
        } else {
            None
        }
    }

    /// Returns whether no moment so far was an all-in point, and a street is still to come.
    fn awaits_point(&self) -> bool
        ensures { result ≡ (is_none self.now.point && not self.now.course.last_begun) }
    {
        self.point.is_none() && !self.course.last_begun
    }

    /// Keeps the first all-in point. The seats are examined only while the point can still come.
    #[tactic(auto, unfolding(crate::specs::Counting::pointed))]
    pub(crate) fn keep_point(&mut self)
        ensures { self.new ≡ pointed self.old }
    {
        if self.awaits_point() {
            self.point = self.point_now();
        }
    }

    /// Returns the street of the all-in point. This is the first moment after the marker of the first
    /// street at which two or more players are in the hand, at most one of them has chips left, nobody
    /// owes an act, and the last street is to come. `None` exactly if no moment so far was one.
    pub fn all_in_point(&self) -> Option<Street>
        ensures { result ≡ point_street self.now.point }
    {
        match self.point {
            Some(point) => Some(point.street),
            None => None,
        }
    }

    /// Returns the players who hadn't folded at the all-in point: bit s for seat s. 0 if there is no such
    /// point.
    pub fn all_in_contenders(&self) -> u16
        ensures { result ≡ point_contenders self.now.point }
    {
        match self.point {
            Some(point) => point.contenders,
            None => 0,
        }
    }

    /// Returns whether the player of a seat had folded at a point.
    fn had_folded(&self, point: Point, seat: u8) -> bool
        requires { seat < 11 }
        ensures { result ≡ had_folded self.now.players point seat }
    {
        seat > 0 && self.is_player(seat) && !PlayerSet::of(point.contenders).has(seat)
    }

    /// Returns the cards of all players who had folded at a point.
    fn cards_of_folded(&self, point: Point) -> CardSet
        ensures { result ≡ cards_of_seats (had_folded self.now.players point) (own_at self.now) 11 }
    {
        let mut cards = CardSet::empty();
        for seat in 0..11 {
            if !self.had_folded(point, seat) {
                continue;
            }
            cards = cards.union(self.seats[seat as usize].own);
        }
        cards
    }

    /// Returns the cards that are dead at the all-in point: all cards discarded face up, and the cards of
    /// all players who had folded there, by the whole text. No cards if there is no such point.
    #[tactic(auto, unfolding(crate::specs::AllIn::dead_at))]
    pub fn dead(&self) -> CardSet
        ensures { result ≡ dead_at self.now }
    {
        match self.point {
            Some(point) => self.thrown.union(self.cards_of_folded(point)),
            None => CardSet::empty(),
        }
    }
}
