//! The first pass over the lines of a hand: who plays.

ghost use Rattle.std.specs.Prelude.{◌≡◌, ℕ, ◌+◌, ◌≤◌, ◌<◌, ◌++◌, ◌∷◌, [], List, All, IfOk, IfSome, false, slice_index_or, Option, OnOk, option_map, drop, length};
ghost use Rattle.line_text.specs.Amounts.{digit_count, number_of};
ghost use Rattle.line_text.specs.Lines.{lines};
ghost use Rattle.hand_events.specs.declared.events.Event.{Event};
ghost use Rattle.hand_events.specs.declared.events.Header.{Header};
ghost use Rattle.hand_events.specs.declared.events.Part.TheVariants.{Preamble};
ghost use Rattle.history_text.specs.Within.{IsSeated};
ghost use Rattle.betting_replay.specs.Limits.{Fits};
ghost use Rattle.betting_replay.specs.Seats.{by_seat};
ghost use Rattle.hand_audit.specs.Lines.{SoFar, nothing, seat_number, seat_at, is_again, with_seat, player_of, players_in, players_of};
ghost use Rattle.hand_audit.specs.Keeping.{IsFound};
ghost use Rattle.hand_audit.specs.Passing.{HasNumbers, HasReads, Notes, Passes, Took, digits_text, with_read};

use crate::hand::{LineSaid, part_after, read, seat_name};
use card_sets::{Memory, PlayerSet};
use history_text::{Event, Header, Names, Part, seat_digits};
use line_text::next_line;
use std::alloc::{AllocError, Global};
use std::collections::BTreeSet;

/// A hand with this number of lines or more is read again, and what its lines say isn't kept, so that it needs no more memory.
const READS_MAX: usize = 256;

/// How many reads there is room for at first: those of most hands.
const READS_ROOM: usize = 64;

/// What the pass keeps of the lines so far.
#[derive(Drop)]
pub(crate) struct PlayerScan<'a> {
    /// The seats and names of the seat lines.
    pub(crate) names: Names,
    /// The part of the next line.
    pub(crate) part: Part,
    /// Who plays.
    pub(crate) players: PlayerSet,
    /// The numbers of the seat lines that stood, digit by digit: they may be of any length.
    pub(crate) seats: BTreeSet<&'a [u8]>,
    /// What the first lines were found to say, at most `READS_MAX` of them.
    pub(crate) reads: Vec<LineSaid>,
}

/// What was read of the first lines.
#[derive(Drop)]
pub(crate) struct LinesRead {
    /// What they say.
    pub(crate) said: Vec<LineSaid>,
    /// Where the next line begins.
    pub(crate) next: usize,
}

/// What the first pass finds: who plays, what the first lines say, and whom they name. Of a hand of `READS_MAX` lines
/// or more these are no lines, and it is read anew.
#[derive(Drop)]
pub(crate) struct PlayersFound {
    /// The players.
    pub(crate) players: PlayerSet,
    /// What was read of the first lines.
    pub(crate) read: LinesRead,
    /// The seats and names of their seat lines.
    pub(crate) names: Names,
}

/// Digits without the zeros before their number; none where they say 0.
fn without_zeros(digits: &[u8]) -> &[u8]
    requires { digit_count digits.now ≡ length digits.now }
    ensures { result.now ≡ digits_text (number_of digits.now) }
{
    for (first, digit) in digits.iter().enumerate() {
        if *digit != b'0' {
            return &digits[first..];
        }
    }
    &[]
}

/// The number of a seat line, in form or not, a seat or not.
#[tactic(auto, unfolding(crate::specs::Lines::seat_number))]
fn seat_number(line: &[u8]) -> Option<&[u8]>
    ensures { option_map (λ digits. digits.now) result
        ≡ option_map digits_text (seat_number line.now) }
{
    Some(without_zeros(seat_digits(line)?))
}

/// The number of a seat line of the Preamble.
fn seat_at(part: Part, line: &[u8]) -> Option<&[u8]>
    ensures { option_map (λ digits. digits.now) result
        ≡ option_map digits_text (seat_at part line.now) }
{
    match part {
        Part::Preamble => seat_number(line),
        Part::Play | Part::Summary => None,
    }
}

/// Whether a seat line of this number stood.
fn is_again(seats: &BTreeSet<&[u8]>, seat: Option<&[u8]>) -> bool
    ensures { (before : List ℕ) (number : Option ℕ)
        → option_map (λ digits. digits.now) seat.entry ≡ option_map digits_text number
        → HasNumbers seats.now before → result ≡ is_again before number }
{
    match seat {
        Some(seat) => seats.contains(seat),
        None => false,
    }
}

/// A seat line of this number stands.
fn note_seat<'a>(seats: &mut BTreeSet<&'a [u8]>, seat: Option<&'a [u8]>) -> Result<(), AllocError>
    ensures { OnOk result ((before : List ℕ) (number : Option ℕ)
        → option_map (λ digits. digits.now) seat.entry ≡ option_map digits_text number
        → HasNumbers seats.old before → HasNumbers seats.new (with_seat before number)) }
{
    if let Some(seat) = seat {
        seats.insert(seat)?;
    }
    Ok(())
}

/// The seat that an event makes a player.
fn player_of(e: &Event) -> Option<u8>
    requires { Fits e.now }
    ensures value { result ≡ player_of e.now }
    ensures few { IfSome result (λ seat. seat < 11) }
{
    match *e {
        Event::Post { seat, .. }
        | Event::Deal { seat, .. }
        | Event::Act { seat, .. }
        | Event::Discard { seat, .. }
        | Event::Pat { seat } => Some(seat),
        _ => None,
    }
}

/// The players with the seat that an event makes one.
fn with_player_of(players: PlayerSet, e: &Event) -> PlayerSet
    requires { Fits e.now }
    ensures { (h : List Event) → players ≡ players_in h → result ≡ players_in (e.now ∷ h) }
{
    match player_of(e) {
        Some(seat) => players.with(seat),
        None => players,
    }
}

/// What a line says is kept, where there is room for it.
#[inline]
fn keep_read(reads: &mut Vec<LineSaid>, said: LineSaid) -> Result<(), AllocError>
    ensures { OnOk result (reads.new.items ≡ with_read reads.old.items said) }
{
    if reads.len() < READS_MAX {
        reads.push(said)?;
    }
    Ok(())
}

impl<'a> PlayerScan<'a> {
    /// Of no line.
    fn new(alloc: Global) -> Result<PlayerScan<'a>, AllocError>
        ensures passes { IfOk result (λ pass. Passes pass nothing []) }
        ensures reads { IfOk result (λ pass. (header : Header) (bytes : List ℕ) (start : ℕ)
            → start ≤ length bytes → HasReads pass header bytes start start) }
    {
        Ok(PlayerScan {
            names: Names::new(alloc),
            part: Part::Preamble,
            players: PlayerSet::empty(),
            seats: BTreeSet::new(alloc),
            reads: Vec::with_capacity(alloc, READS_ROOM)?,
        })
    }

    /// Goes on by a line, and says whether it is a second seat line of its number. A line that can't be read adds
    /// nothing.
    fn take(&mut self, header: &Header, line: &'a [u8]) -> Result<bool, Memory>
        requires { All IsSeated self.old.names }
        ensures took { IfOk result (λ ends. (so_far : SoFar) (seats : List ℕ)
            → Passes self.old so_far seats
            → Took self.new header.now so_far seats line.now ends) }
        ensures notes { IfOk result (λ ends.
            Notes self.old self.new header.now line.now ends) }
    {
        let seat = seat_at(self.part, line);
        if is_again(&self.seats, seat) {
            return Ok(true);
        }
        note_seat(&mut self.seats, seat)?;
        let said = read(&self.names, header, self.part, line);
        match &said {
            Ok(e) => {
                seat_name(&mut self.names, e, line)?;
                self.players = with_player_of(self.players, e);
                self.part = part_after(e, self.part);
                keep_read(&mut self.reads, said)?;
                Ok(false)
            }
            Err(_fault) => {
                keep_read(&mut self.reads, said)?;
                Ok(false)
            }
        }
    }

    /// What was found of the lines from a place on, where the next begins at another.
    fn ends(self, alloc: Global, start: usize, at: usize) -> PlayersFound
        ensures players { result.players ≡ self.entry.players }
        ensures found { (header : Header) (bytes : List ℕ) → start ≤ length bytes
            → HasReads self.entry header bytes start at
            → IsFound header bytes start result.read.said.items result.names result.read.next }
    {
        let players = self.players;
        if self.reads.len() < READS_MAX {
            return PlayersFound {
                players,
                read: LinesRead {
                    said: self.reads,
                    next: at,
                },
                names: self.names,
            };
        }
        PlayersFound {
            players,
            read: LinesRead {
                said: Vec::new(alloc),
                next: start,
            },
            names: Names::new(alloc),
        }
    }
}

/// The players of a hand, by the lines from a place on, and what the first of these lines say and where they stand.
pub(crate) fn players_of(
    alloc: Global,
    header: &Header,
    bytes: &[u8],
    start: usize,
) -> Result<PlayersFound, Memory>
    requires { start ≤ length bytes.now }
    ensures players { IfOk result (λ passed. passed.players
        ≡ players_of header.now (lines (drop start bytes.now))) }
    ensures found { IfOk result (λ passed.
        IsFound header.now bytes.now start passed.read.said.items passed.names passed.read.next) }
{
    let mut pass = PlayerScan::new(alloc)?;
    let mut at = start;
    'lines: while let Some(line) = next_line(bytes, at) {
        if pass.take(header, &bytes[line.first..line.end])? {
            return Ok(pass.ends(alloc, start, at));
        }
        at = line.next;
    }
    Ok(pass.ends(alloc, start, at))
}
