//! Sets of players, by the numbers of their seats or of their hands.

ghost use Rattle.std.specs.Prelude.{◌≡◌, ◌≤◌, ◌<◌, ◌%◌, ◌^◌, ◌&&◌, Bool, ℕ, nat_lt, length, slice_get, IfSome};
ghost use Rattle.std.specs.Iterator.{YieldsFirst, item_count};
ghost use Rattle.card_sets.specs.PlayerSets.{has_player, players_where, with_player, without_player, players_in, seats_in, hands_below};

use std::marker::Model;

/// A set of players, each by the number of their seat at the table, 1 to 10, or of their hand in a
/// deal, 0 to 9. Clauses see it as the number with a bit for each player.
#[derive(Clone, Copy)]
pub struct PlayerSet {
    /// Bit p for player p.
    bits: u16,
}

impl Model for PlayerSet {
    ghost use Rattle.std.specs.Prelude.{ℕ, ◌<◌, ◌^◌};

    ghost Value = { ℕ };

    ghost view = { λ s. s.bits };

    ghost invariant = { λ s. s.bits < 2 ^ 16 };

    ghost inverse = { λ n. record { bits = n } };
}

impl PlayerSet {
    /// Returns the empty set.
    #[inline]
    pub fn empty() -> PlayerSet
        ensures { result ≡ 0 }
    {
        PlayerSet { bits: 0 }
    }

    /// Returns the set with a player p for each bit p of a number.
    #[inline]
    pub fn of(bits: u16) -> PlayerSet
        ensures { result ≡ bits }
    {
        PlayerSet { bits }
    }

    /// Returns the number with a bit p for each player p.
    #[inline]
    pub fn bits(self) -> u16
        ensures { result ≡ self }
    {
        self.bits
    }

    /// Returns whether the player is in the set.
    #[inline]
    pub fn has(self, player: u8) -> bool
        requires { player < 16 }
        ensures { result ≡ has_player self player }
    {
        (self.bits >> player) & 1 == 1
    }

    /// Returns the set with one more player.
    #[inline]
    pub fn with(self, player: u8) -> PlayerSet
        requires { player < 16 }
        ensures { result ≡ with_player self player }
    {
        PlayerSet {
            bits: self.bits | (1 << player),
        }
    }

    /// Returns the set without the player.
    #[inline]
    pub fn without(self, player: u8) -> PlayerSet
        requires { player < 16 }
        ensures { result ≡ without_player self player }
    {
        PlayerSet {
            bits: self.bits & !(1 << player),
        }
    }

    /// Returns the lowest player. `None` exactly if the set is empty.
    #[inline]
    pub fn first(self) -> Option<u8>
        ensures value { result ≡ slice_get (players_in self) 0 }
        ensures bound { IfSome result (λ player. player < 16) }
        ensures set { self < 2 ^ 16 }
    {
        if self.bits == 0 {
            return None;
        }
        Some(self.bits.trailing_zeros() as u8)
    }

    /// Returns the number of players.
    #[inline]
    pub fn count(self) -> u8
        ensures value { result ≡ length (players_in self) }
        ensures bound { result ≤ 16 }
    {
        self.bits.count_ones() as u8
    }

    /// Returns the players who sit at the table: the seats 1 to 10 of the set.
    #[inline]
    pub fn seats(self) -> PlayerSet
        ensures value { result ≡ players_where (λ p. nat_lt 0 p && has_player self p) 11 }
        ensures seats { players_in result ≡ seats_in self }
    {
        PlayerSet {
            bits: self.bits & 0x7fe,
        }
    }

    /// Returns the players below a number: the hands of a deal that has `count` hands.
    #[inline]
    pub fn below(self, count: u8) -> PlayerSet
        requires { count < 16 }
        ensures value { result ≡ self % 2 ^ count }
        ensures hands { players_in result ≡ hands_below self count }
    {
        PlayerSet {
            bits: self.bits & ((1 << count) - 1),
        }
    }

    /// Returns the set of the players below `end` that pass a test.
    #[inline]
    pub fn passing<F: Fn(u8) -> bool>(end: u8, test: F) -> PlayerSet
        requires few { end ≤ 16 }
        requires callable { (p : ℕ) → p < end → F.pre test p }
        ensures { (passes : ℕ → Bool)
            → ((p : ℕ) (pass : Bool) → p < end → F.post test p pass → pass ≡ passes p)
            → result ≡ players_where passes end }
    {
        let mut set = PlayerSet::empty();
        for player in 0..end {
            if !test(player) {
                continue;
            }
            set = set.with(player);
        }
        set
    }

    /// Returns the players, rising.
    #[inline]
    pub fn each(self) -> Players
        ensures { result.rest ≡ self }
    {
        Players { rest: self }
    }
}

/// The players of a set, rising.
#[derive(Drop)]
pub struct Players {
    /// The players left.
    rest: PlayerSet,
}

impl Iterator for Players {
    type Item = u8;

    ghost next_gives = { YieldsFirst (λ s. players_in s.rest) };

    ghost remaining = { item_count (λ s. players_in s.rest) };

    #[inline]
    fn next(&mut self) -> Option<u8> {
        let player = self.rest.first()?;
        self.rest = self.rest.without(player);
        Some(player)
    }
}
