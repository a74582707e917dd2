//! What a hand adds to the sums of the players, by their names and the unit of their hands.

ghost use Rattle.std.specs.Prelude.{◌≡◌, ℕ, ◌+◌, ◌^◌, ◌≤◌, ◌==◌, true, length, map, take, is_some, option_map, IfOk, OnOk, OnErr};
ghost use Rattle.std.specs.Int.{bit_at};
ghost use Rattle.hand_events.specs.Names.{seat_named};
ghost use Rattle.player_totals.specs.SumsSeen.{AllAreOf, seated_share, with_given, with_player, with_players};
ghost use Rattle.player_totals.specs.Totals.{playing};
ghost use Rattle.player_totals.specs.TotalsSeen.{first_at, has_name, named_player, player_at, player_of};

use crate::player_key::{Name, PlayerKey};
use crate::player_rows::Players;
use crate::sums::{Gives, Sums};
use card_sets::{Memory, PlayerSet};
use hand_events::Names;
use std::alloc::{AllocError, Global};

/// The key of a name in a unit.
fn key_of(alloc: Global, hundredths: bool, name: &[u8]) -> Result<PlayerKey, AllocError>
    ensures { IfOk result (λ key. player_of key ≡ named_player hundredths name.now) }
{
    let name = Name::of(alloc, name)?;
    Ok(PlayerKey { hundredths, name })
}

/// Who plays in a hand, and the unit of its money.
#[derive(Clone, Copy)]
pub(crate) struct Lineup<'a> {
    /// Whether a unit is a hundredth of the currency, not a chip.
    pub(crate) hundredths: bool,
    /// The seats and names of the hand.
    pub(crate) names: &'a Names,
    /// The players: bit s is set if seat s plays.
    pub(crate) players: u16,
}

/// Whether a seat plays.
fn plays(players: u16, seat: u8) -> bool
    ensures { result ≡ (bit_at players seat == 1) }
{
    seat < 16 && PlayerSet::of(players).has(seat)
}

impl<'a> Lineup<'a> {
    /// The keys of the names of all seat lines, in their order.
    pub(crate) fn keys(&self, alloc: Global) -> Result<Vec<PlayerKey>, AllocError>
        ensures { IfOk result (λ keys. map player_of keys.items
            ≡ map (λ who. named_player self.now.hundredths who.1) self.now.names.now) }
    {
        let seats = self.names.seats();
        let mut keys = Vec::new(alloc);
        for who in seats {
            keys.push(key_of(alloc, self.hundredths, &who.name)?)?;
        }
        Ok(keys)
    }

    /// The seat and the name of the seat line at a place, where the seat plays.
    fn player_at(&self, place: usize) -> Option<(u8, &'a [u8])>
        ensures { option_map (λ who. (who.0, who.1.now)) result
            ≡ player_at self.now.names.now self.now.players place }
    {
        match self.names.at(place) {
            Some((seat, name)) if plays(self.players, seat) => Some((seat, name)),
            _ => None,
        }
    }

    /// Whether the seat line at a place has the name and a seat that plays.
    fn has_name_at(&self, place: usize, name: &[u8]) -> bool
        ensures { result ≡ has_name name.now (player_at self.now.names.now self.now.players place) }
    {
        match self.player_at(place) {
            Some((_, other)) => other == name,
            None => false,
        }
    }

    /// Whether a seat line before a place has the name and a seat that plays.
    fn has_before(&self, place: usize, name: &[u8]) -> bool
        requires { place ≤ length self.now.names.now }
        ensures { result ≡ is_some
            (seat_named name.now (playing (take place self.now.names.now) self.now.players)) }
    {
        for earlier in 0..place {
            if self.has_name_at(earlier, name) {
                return true;
            }
        }
        false
    }

    /// Returns what `player_at` returns, if no earlier seat that plays has the name.
    fn first_at(&self, place: usize) -> Option<(u8, &'a [u8])>
        requires { place ≤ length self.now.names.now }
        ensures { option_map (λ who. (who.0, who.1.now)) result
            ≡ first_at self.now.names.now self.now.players place }
    {
        match self.player_at(place) {
            Some((seat, name)) if !self.has_before(place, name) => Some((seat, name)),
            _ => None,
        }
    }
}

/// Gives a player sums of no hand, at the end, where he has none yet.
fn add_player<S: Sums>(players: &mut Players<S>, key: &PlayerKey) -> Result<(), AllocError>
    ensures added { OnOk result (players.new
        ≡ with_player S.nothing players.old (player_of key.now)) }
    ensures kept { take (length players.old) players.new ≡ players.old }
{
    if players.has(key) {
        return Ok(());
    }
    players.push(key)
}

/// Gives each player of a hand sums of no hand, where he has none yet. Takes the keys of the names of its seat
/// lines. Out of memory some first of the players have got theirs.
fn add_each_player<S: Sums>(
    players: &mut Players<S>,
    keys: &[PlayerKey],
    lineup: &Lineup,
) -> Result<(), AllocError>
    requires keys { map player_of keys.now
        ≡ map (λ who. named_player lineup.now.hundredths who.1) lineup.now.names.now }
    ensures added { OnOk result (players.new
        ≡ with_players S.nothing players.old
        (map (λ who. named_player lineup.now.hundredths who.1)
        (playing lineup.now.names.now lineup.now.players))) }
    ensures kept { take (length players.old) players.new ≡ players.old }
{
    for place in 0..lineup.names.count() {
        if let Some((_, _)) = lineup.player_at(place) {
            add_player(players, &keys[place])?;
        }
    }
    Ok(())
}

/// Gives each player of a hand sums of no hands, if the player has none yet. Out of memory, it leaves the players unchanged.
fn add_players<S: Sums>(
    players: &mut Players<S>,
    keys: &[PlayerKey],
    lineup: &Lineup,
) -> Result<(), Memory>
    requires keys { map player_of keys.now
        ≡ map (λ who. named_player lineup.now.hundredths who.1) lineup.now.names.now }
    ensures added { OnOk result (players.new
        ≡ with_players S.nothing players.old
        (map (λ who. named_player lineup.now.hundredths who.1)
        (playing lineup.now.names.now lineup.now.players))) }
    ensures memory { OnErr result (players.new ≡ players.old) }
{
    let before = players.len();
    match add_each_player(players, keys, lineup) {
        Ok(()) => Ok(()),
        Err(error) => {
            players.truncate(before);
            Err(Memory::from(error))
        }
    }
}

/// Adds what a hand in which no line departs gives each of its players. Takes the keys of the names of its
/// seat lines.
fn add_sums<S: Sums, H: Gives<S>>(
    players: &mut Players<S>,
    keys: &[PlayerKey],
    lineup: &Lineup,
    hand: &H,
)

    // Each name of the seat lines has its key.
    requires keys { map player_of keys.now
        ≡ map (λ who. named_player lineup.now.hundredths who.1) lineup.now.names.now }

    // The sums have room for one hand more, and each player gets what the hand gives him.
    requires sums { AllAreOf S.AreOf (2 ^ 32) players.old }
    ensures added { players.new
        ≡ with_given S.plus (seated_share S.nothing lineup.now.hundredths (H.share hand.now)
        (playing lineup.now.names.now lineup.now.players)) players.old }
    ensures small { (count : ℕ) → AllAreOf S.AreOf count players.old
        → AllAreOf S.AreOf (count + 1) players.new }
{
    for place in 0..lineup.names.count() {
        if let Some((seat, _)) = lineup.first_at(place) {
            let more = hand.sums(seat);
            players.add(&keys[place], &more);
        }
    }
}

/// Adds a hand in which no line departs: its players have sums, and each gets what it gives him. Out of memory it
/// changes nothing.
pub(crate) fn add_hand<S: Sums, H: Gives<S>>(
    players: &mut Players<S>,
    lineup: &Lineup,
    hand: &H,
) -> Result<(), Memory>

    // The sums have room for one hand more.
    requires sums { AllAreOf S.AreOf (2 ^ 32) players.old }
    ensures added { OnOk result (players.new
        ≡ with_given S.plus (seated_share S.nothing lineup.now.hundredths (H.share hand.now)
        (playing lineup.now.names.now lineup.now.players))
        (with_players S.nothing players.old
        (map (λ who. named_player lineup.now.hundredths who.1)
        (playing lineup.now.names.now lineup.now.players)))) }
    ensures small { OnOk result ((count : ℕ) → AllAreOf S.AreOf count players.old
        → AllAreOf S.AreOf (count + 1) players.new) }
    ensures memory { OnErr result (players.new ≡ players.old) }
{
    // Before anything is changed: no memory for the keys then leaves the players as they were.
    let keys = lineup.keys(players.allocator())?;
    add_players(players, &keys, lineup)?;
    add_sums(players, &keys, lineup, hand);
    Ok(())
}
