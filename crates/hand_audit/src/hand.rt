//! What is kept of the lines of a hand so far.

ghost use Rattle.std.specs.Prelude.{◌≡◌, ℕ, ◌+◌, ◌≤◌, ◌<◌, ◌^◌, ◌∷◌, ◌++◌, [], true, IfOk, OnOk, All, IsTrue, List};
ghost use Rattle.pot_layers.specs.Pots.{pots, put_in_all};
ghost use Rattle.hand_audit.specs.Winning.{AreDecided};
ghost use Rattle.hand_events.specs.declared.events.Event.{Event};
ghost use Rattle.hand_events.specs.declared.events.Header.{Header};
ghost use Rattle.betting_replay.specs.Later.{listed};
ghost use Rattle.betting_replay.specs.TableAfter.{StandsFor};
ghost use Rattle.hand_audit.specs.Lines.{SoFar, nothing, part_after, read_at, named_by, with_event};
ghost use Rattle.hand_audit.specs.Collections.{collected_by, taken};
ghost use Rattle.hand_audit.specs.SettlementAnswers.{IsOfHand};
ghost use Rattle.hand_audit.specs.Showings.{paid_in, rake_by, showing_at};
ghost use Rattle.hand_audit.specs.Departs.{is_total, total_cause, event_cause};
ghost use Rattle.hand_audit.specs.Keeping.{Keeps, Goes, HasName, IsRead, IsSaid, IsSound, EndsAs, names_by};
ghost use Rattle.history_text.specs.Within.{IsSeated};

use crate::collections::Collection;
use crate::pot_names::{Source, taken_from};
use crate::pots::pots_of;
use crate::settling::{HandSettled, settle};
use crate::standings::Standings;
use betting_replay::{
    Replay, law_a_table_shows_each_seat, law_cards_belong, law_places_are_apart, law_whole_boards,
};
use card_sets::{Game, Memory, PlayerSet};
use hand_verdict::Cause;
use history_text::{Event, Header, Names, Part, Street, TextFault, read_line};
use pot_layers::law_a_folded_player_is_eligible_nowhere;
use std::alloc::{AllocError, Global};

/// What is kept of the lines of a hand so far.
#[derive(Drop)]
pub(crate) struct AuditState {
    /// The replay of their events.
    pub(crate) replay: Replay,
    /// The part of the next line.
    pub(crate) part: Part,
    /// What was collected, in the order of the lines.
    pub(crate) collections: Vec<Collection>,
    /// The later streets that began, in the order of the lines.
    pub(crate) streets: Vec<Street>,
    /// The stated rake; 0 before a total line.
    pub(crate) rake: u64,
    /// Whether a total line stood.
    pub(crate) total: bool,
}

/// The part of the line after an event.
pub(crate) fn part_after(e: &Event, part: Part) -> Part
    ensures { result ≡ part_after e.now part }
{
    match *e {
        Event::Street {
            street: Street::Summary,
            ..
        } => Part::Summary,
        Event::Street {
            street: Street::First,
            ..
        } => match part {
            Part::Preamble => Part::Play,
            _ => part,
        },
        _ => part,
    }
}

/// Whether an event is a total.
fn is_total(e: &Event) -> bool
    ensures { result ≡ is_total e.now }
{
    matches!(e, Event::Total { .. })
}

/// The stated rake after an event.
fn rake_by(e: &Event, before: u64) -> u64
    ensures { result ≡ rake_by e.now before }
{
    match *e {
        Event::Total { rake, .. } => rake,
        _ => before,
    }
}

/// A seat line seats its name.
pub(crate) fn seat_name(names: &mut Names, e: &Event, line: &[u8]) -> Result<(), Memory>
    requires { HasName e.now line.now }
    ensures { OnOk result (names.new ≡ named_by e.now line.now names.old) }
{
    match *e {
        Event::Seat {
            seat,
            name_first,
            name_end,
            ..
        } => names.add(seat, &line[name_first..name_end]),
        _ => Ok(()),
    }
}

/// Seats the name of a line that was read, if it is a seat line.
pub(crate) fn seat_name_said(names: &mut Names, said: &LineSaid, line: &[u8]) -> Result<(), Memory>
    requires { IfOk said.now (λ e. HasName e line.now) }
    ensures { OnOk result (names.new ≡ names_by said.now line.now names.old) }
{
    match said {
        Ok(e) => seat_name(names, e, line),
        Err(_fault) => Ok(()),
    }
}

/// A collection is kept.
#[inline]
fn collect(all: &mut Vec<Collection>, e: &Event) -> Result<(), AllocError>
    ensures { OnOk result (all.new.items ≡ all.old.items ++ collected_by e.now) }
{
    match *e {
        Event::Collect { seat, units, pot } => {
            all.push(Collection { seat, units, pot })?;
            Ok(())
        }
        _ => Ok(()),
    }
}

/// A later street that began is kept.
#[inline]
fn note(streets: &mut Vec<Street>, begun: Option<Street>) -> Result<(), AllocError>
    ensures { OnOk result (streets.new.items ≡ streets.old.items ++ listed begun) }
{
    if let Some(street) = begun {
        streets.push(street)?;
    }
    Ok(())
}

/// What a line was found to say, or its fault.
pub(crate) type LineSaid = Result<Event, TextFault>;

/// What a line says. Its seat is one of the table's, its amounts are within the greatest, and its name
/// within the line.
pub(crate) fn read(names: &Names, header: &Header, part: Part, line: &[u8]) -> LineSaid
    requires { All IsSeated names.now }
    ensures { IsRead names.now header.now part line.now result }
{
    read_line(names, header, part, line)
}

/// What was collected, and the rake.
fn with_rake(taken: u128, rake: u64) -> u128
    requires { taken < 2 ^ 127 }
    ensures { result ≡ taken + rake }
{
    taken + u128::from(rake)
}

impl AuditState {
    /// Of no line, in a hand with this header and these players.
    pub(crate) fn new(alloc: Global, header: &Header, players: PlayerSet) -> AuditState
        ensures keeps { Keeps result header.now players nothing }
        ensures sound { IsSound result }
    {
        AuditState {
            replay: Replay::new(header, players.bits()),
            part: Part::Preamble,
            collections: Vec::new(alloc),
            streets: Vec::new(alloc),
            rake: 0,
            total: false,
        }
    }

    /// What all players have put in.
    fn put_in(&self) -> u64
        ensures { result ≡ put_in_all (paid_in self.now.replay) }
    {
        let mut units = 0u64;
        for seat in 1..11 {
            if !self.replay.is_player(seat) {
                continue;
            }
            let paid = self.replay.paid(seat);
            units += paid.live + paid.dead;
        }
        units
    }

    /// Why a total line departs.
    fn total_cause(&self, e: &Event) -> Option<Cause>
        ensures { result
            ≡ total_cause (put_in_all (paid_in self.now.replay))
            (taken self.now.collections.items) e.now }
    {
        let Event::Total { units, rake } = *e else {
            return None;
        };
        let put_in = self.put_in();
        if units != put_in {
            return Some(Cause::Chips {
                stated: units,
                counted: u128::from(put_in),
            });
        }
        let counted = with_rake(taken_from(&self.collections, Source::Any), rake);
        if u128::from(units) != counted {
            return Some(Cause::Chips {
                stated: units,
                counted,
            });
        }
        None
    }

    /// Goes on by a line that says this, or says why it departs.
    pub(crate) fn take_read(
        &mut self,
        header: &Header,
        said: &LineSaid,
    ) -> Result<Option<Cause>, Memory>
        requires sound { IsSound self.old }
        requires said { IsSaid header.now self.old.part said.now }
        ensures sound { OnOk result (IsSound self.new) }
        ensures goes { IfOk result (λ cause. (players : ℕ) (so_far : SoFar) (line : List ℕ)
            → Keeps self.old header.now players so_far
            → said.now ≡ read_at header.now so_far line
            → Goes self.new header.now players so_far line (read_at header.now so_far line) cause) }
    {
        let e = match said {
            Ok(e) => e,
            Err(fault) => return Ok(Some(Cause::Text(*fault))),
        };
        if let Event::Remark = *e {
            // It may stand anywhere, and changes nothing that is kept.
            return Ok(None);
        }
        let amiss = self.total_cause(e);
        let begun = self.replay.later_begun(e);
        if let Err(fault) = self.replay.step(e) {
            return Ok(Some(Cause::Bet(fault)));
        }
        if let Some(cause) = amiss {
            return Ok(Some(cause));
        }
        collect(&mut self.collections, e)?;
        note(&mut self.streets, begun)?;
        self.part = part_after(e, self.part);
        self.rake = rake_by(e, self.rake);
        self.total = is_total(e) || self.total;
        Ok(None)
    }

    /// What became of the chips, after a total line.
    fn settle(&self, alloc: Global, game: Game) -> Result<HandSettled, Memory>
        requires sound { IsSound self.now }
        requires total { self.now.total ≡ true }
        ensures { IfOk result (λ settled.
            AreDecided (showing_at game self.now.replay self.now.collections.items)
            (pots (paid_in self.now.replay))
            → IsOfHand (showing_at game self.now.replay self.now.collections.items)
            settled) }
    {
        let all = pots_of(alloc, &self.replay)?;
        let standings = Standings::of_replay(&self.replay, game);
        settle(alloc, &standings, all.items(), &self.collections)
    }

    /// What comes of the end of a hand of this game: what became of its chips, with the payment for which its last
    /// line departs, where there is one; or why that departs without a settlement.
    pub(crate) fn end(
        &self,
        alloc: Global,
        game: Game,
    ) -> Result<Result<HandSettled, Cause>, Memory>
        requires sound { IsSound self.now }
        ensures { IfOk result (λ end. (header : Header) (players : ℕ) (so_far : SoFar)
            → Keeps self.now header players so_far → header.game ≡ game
            → EndsAs header players so_far.events end) }
    {
        if !self.total {
            return Ok(Err(Cause::Unfinished));
        }
        law_places_are_apart();
        law_cards_belong();
        law_whole_boards();
        law_a_table_shows_each_seat();
        law_a_folded_player_is_eligible_nowhere();
        let settled = self.settle(alloc, game)?;
        Ok(Ok(settled))
    }
}
