//! The streets: which street may come next, and what changes when one begins.

ghost use Rattle.std.specs.Prelude.{◌≡◌, ℕ, Option, Some, ◌<◌, ◌≤◌};
ghost use Rattle.betting_replay.specs.Events.{SeatFits};
ghost use Rattle.betting_replay.specs.Streets.{same_street, is_drawing, begun_by_drawing, is_later, is_end, is_number, begins, begins_on, shows_on};
ghost use Rattle.betting_replay.specs.Sums.{is_last_of};
ghost use Rattle.betting_replay.specs.Faults.{verdict, fault_with, may_part, next_only, next_first, next_second, next_on, all_begun, may_end, shows_next, marker_stands, draw_stands, street_early, street_order};
ghost use Rattle.betting_replay.specs.Counting.{begins_last, cleared, begun_with, begun};
ghost use Rattle.betting_replay.specs.Later.{is_of_second, if_later, later_by, later_begun};
ghost use Rattle.betting_replay.specs.Turns.{next_to_act};
ghost use Rattle.hand_events.specs.declared.faults.BetFault.TheVariants.{StreetEarly};

use crate::counting::clear_seats;
use crate::judge::fault_if;
use crate::replay::Replay;
use card_sets::Game;
use hand_events::{BetFault, BoardNumber, Event, Street};

/// Returns the street that the first discard or stand-pat begins, in a game with one draw.
fn begun_by_drawing(game: Game, street: Option<Street>) -> Option<Street>
    ensures { result ≡ begun_by_drawing game street }
{
    if same_street(Street::Draw, game.next_street(street)) {
        Some(Street::Draw)
    } else {
        None
    }
}

/// Returns whether a street is the next one, or the street of the hand.
pub(crate) fn same_street(street: Street, next: Option<Street>) -> bool
    ensures { result ≡ same_street street next }
{
    match next {
        Some(next) => street == next,
        None => false,
    }
}

/// Returns whether the hand is on a street with a draw.
fn is_drawing(street: Option<Street>) -> bool
    ensures { result ≡ is_drawing street }
{
    match street {
        Some(street) => street.is_draw(),
        None => false,
    }
}

/// Returns whether a street has betting and isn't the first.
fn is_later(street: Street) -> bool
    ensures { result ≡ is_later street }
{
    !matches!(street, Street::First | Street::ShowDown | Street::Summary)
}

/// Returns whether a street is a showdown or the summary.
fn is_end(street: Street) -> bool
    ensures { result ≡ is_end street }
{
    matches!(street, Street::ShowDown | Street::Summary)
}

/// Returns whether two markers are of the same board.
fn is_number(number: BoardNumber, other: BoardNumber) -> bool
    ensures { result ≡ is_number number other }
{
    number == other
}

/// Returns the street that an event begins on a board.
pub(crate) fn begins_on(number: BoardNumber, e: &Event) -> Option<Street>
    ensures { result ≡ begins_on number e.now }
{
    match *e {
        Event::Street { street, board, .. } => {
            if is_number(number, board) && !is_end(street) {
                Some(street)
            } else {
                None
            }
        }
        _ => None,
    }
}

/// Returns whether an event is a showdown marker of a board.
pub(crate) fn shows_on(number: BoardNumber, e: &Event) -> bool
    ensures { result ≡ shows_on number e.now }
{
    match *e {
        Event::Street { street, board, .. } => {
            is_number(number, board) && street == Street::ShowDown
        }
        _ => false,
    }
}

/// Returns whether the hand is on the last street of the game.
fn is_last_of(game: Game, street: Option<Street>) -> bool
    ensures { result ≡ is_last_of game street }
{
    match street {
        Some(street) => game.is_last(street),
        None => false,
    }
}

/// Returns the next street on the only board, given the next street of the game.
fn next_only(twice: Option<Street>, next: Option<Street>) -> Option<Street>
    ensures { result ≡ next_only twice next }
{
    match twice {
        None => next,
        Some(_) => None,
    }
}

/// Returns the next street on the first of two boards. If there aren't two boards yet, they may begin
/// with this street.
fn next_first(
    may: bool,
    twice: Option<Street>,
    marker: BoardNumber,
    next: Option<Street>,
) -> Option<Street>
    ensures { result ≡ next_first may twice marker next }
{
    match (twice, marker) {
        (None, _) => { if may { next } else { None } }
        (Some(_), BoardNumber::First) => next,
        (Some(_), BoardNumber::Only | BoardNumber::Second) => None,
    }
}

/// Returns the next street on the second board. After the last street of the first board it is the street
/// from which on there are two.
fn next_second(
    twice: Option<Street>,
    marker: BoardNumber,
    last: bool,
    next: Option<Street>,
) -> Option<Street>
    ensures { result ≡ next_second twice marker last next }
{
    let from = twice?;
    match marker {
        BoardNumber::Only => None,
        BoardNumber::First => { if last { Some(from) } else { None } }
        BoardNumber::Second => next,
    }
}

/// Returns the street that an event begins.
fn begins(game: Game, street: Option<Street>, e: &Event) -> Option<Street>
    ensures { result ≡ begins game street e.now }
{
    match *e {
        Event::Street { street: marker, .. } => Some(marker),
        Event::Discard { .. } | Event::Pat { .. } => begun_by_drawing(game, street),
        _ => None,
    }
}

/// Returns whether an event is a marker of a second board.
fn is_of_second(e: &Event) -> bool
    ensures { result ≡ is_of_second e.now }
{
    match *e {
        Event::Street { board, .. } => board == BoardNumber::Second,
        _ => false,
    }
}

/// Returns a street that has betting and isn't the first.
fn if_later(street: Option<Street>) -> Option<Street>
    ensures { result ≡ if_later street }
{
    match street {
        Some(street) => { if is_later(street) { Some(street) } else { None } }
        None => None,
    }
}

/// Returns the street after the first that an event begins, on the first board if there are two.
fn later_by(game: Game, street: Option<Street>, e: &Event) -> Option<Street>
    ensures { result ≡ later_by game street e.now }
{
    if is_of_second(e) {
        None
    } else {
        if_later(begins(game, street, e))
    }
}

impl Replay {
    /// Returns the street after the first that an event would begin after the all-in point, with no
    /// showdown marker before it. `None` if the event is a marker of a second board.
    pub fn later_begun(&self, e: &Event) -> Option<Street>
        ensures { result ≡ later_begun self.now e.now }
    {
        if self.point.is_some() && !self.any_shown() {
            later_by(self.header.game, self.course.street, e)
        } else {
            None
        }
    }

    /// Resets live sums, acts, and turns.
    fn clear(&mut self)
        ensures { self.new ≡ cleared self.old }
    {
        clear_seats(&mut self.seats);
        self.course.last_actor = None;
    }

    /// Begins a street.
    fn begin(&mut self, street: Street)
        ensures { self.new ≡ begun_with (Some street) self.old }
    {
        let last = self.header.game.is_last(street);
        self.course.street = Some(street);
        self.course.opened = street == Street::First || self.course.opened;
        self.course.last_begun = last || self.course.last_begun;
        if is_later(street) {
            self.clear();
        }
    }

    /// Begins the street of the event, if it begins one.
    #[tactic(auto, unfolding(crate::specs::Counting::begun))]
    pub(crate) fn begin_with(&mut self, e: &Event)
        ensures { self.new ≡ begun self.old e.now }
    {
        if let Some(street) = begins(self.header.game, self.course.street, e) {
            self.begin(street);
        }
    }

    /// Returns whether the last street has begun, before the event or with it.
    pub(crate) fn begins_last(&self, e: &Event) -> bool
        ensures { result ≡ begins_last self.now e.now }
    {
        let game = self.header.game;
        is_last_of(game, begins(game, self.course.street, e)) || self.course.last_begun
    }

    /// Returns a fault if somebody owes an act.
    fn all_acted(&self) -> Result<(), BetFault>
        ensures { result ≡ verdict (fault_with StreetEarly (next_to_act self.now)) }
    {
        match self.owes() {
            Some(seat) => Err(BetFault::StreetEarly(seat)),
            None => Ok(()),
        }
    }

    /// Returns `StreetEarly` if the event ends a street while somebody owes an act.
    #[tactic(auto, unfolding(crate::specs::Faults::street_early))]
    pub(crate) fn street_in_time(&self, e: &Event) -> Result<(), BetFault>
        ensures { result ≡ verdict (street_early self.now e.now) }
    {
        match *e {
            Event::Street { .. } | Event::Uncalled { .. } | Event::Collect { .. } => {
                self.all_acted()
            }
            Event::Discard { .. } | Event::Pat { .. } => {
                if begun_by_drawing(self.header.game, self.course.street).is_some() {
                    self.all_acted()
                } else {
                    Ok(())
                }
            }
            _ => Ok(()),
        }
    }

    /// Returns whether the hand may be run twice from the next street on: it has a board, and at most one
    /// player has chips left.
    #[tactic(auto, unfolding(crate::specs::Faults::may_part))]
    fn may_part(&self) -> bool
        ensures { result ≡ may_part self.now }
    {
        self.header.game.has_board() && self.course.opened && self.few_funded()
    }

    /// Returns the next street on a board.
    fn next_on(&self, board: BoardNumber) -> Option<Street>
        ensures { result ≡ next_on self.now board }
    {
        let next = self.header.game.next_street(self.course.street);
        match board {
            BoardNumber::Only => next_only(self.course.split_from, next),
            BoardNumber::First => next_first(
                self.may_part(),
                self.course.split_from,
                self.course.marker,
                next,
            ),
            BoardNumber::Second => {
                let last = is_last_of(self.header.game, self.course.street);
                next_second(self.course.split_from, self.course.marker, last, next)
            }
        }
    }

    /// Returns whether the last street has begun, on both boards if there are two.
    fn all_begun(&self) -> bool
        ensures { result ≡ all_begun self.now }
    {
        self.course.last_begun
            && (self.course.split_from.is_none()
                || is_last_of(self.header.game, self.course.second_street))
    }

    /// Returns whether the hand may end: all streets have begun, or one player is left.
    fn may_end(&self) -> bool
        ensures { result ≡ may_end self.now }
    {
        self.all_begun() || !self.two_contend()
    }

    /// Returns whether a showdown marker is in order. Each comes once. Those of two boards come only in a
    /// hand that is run twice, and that of the second board after another one.
    fn shows_next(&self, board: BoardNumber) -> bool
        ensures { result ≡ shows_next self.now board }
    {
        match board {
            BoardNumber::Only => !self.any_shown(),
            BoardNumber::First => self.course.split_from.is_some() && !self.any_shown(),
            BoardNumber::Second => {
                self.course.split_from.is_some()
                    && self.any_shown()
                    && !self.course.showdowns.second
            }
        }
    }

    /// Returns whether a marker is allowed.
    fn marker_stands(&self, board: BoardNumber, street: Street) -> bool
        ensures { result ≡ marker_stands self.now board street }
    {
        match street {
            Street::ShowDown => self.shows_next(board) && self.may_end(),
            Street::Summary => is_number(BoardNumber::Only, board) && self.may_end(),
            _ => same_street(street, self.next_on(board)) && self.two_contend(),
        }
    }

    /// Returns whether a discard or a stand-pat is allowed.
    fn draw_stands(&self) -> bool
        ensures { result ≡ draw_stands self.now }
    {
        is_drawing(self.course.street)
            || begun_by_drawing(self.header.game, self.course.street).is_some()
                && self.two_contend()
    }

    /// Returns `StreetOrder` if a marker, a discard, or a stand-pat is out of order.
    #[tactic(auto, unfolding(crate::specs::Faults::street_order))]
    pub(crate) fn street_in_order(&self, e: &Event) -> Result<(), BetFault>
        ensures { result ≡ verdict (street_order self.now e.now) }
    {
        match *e {
            Event::Street { street, board, .. } => {
                fault_if(!self.marker_stands(board, street), BetFault::StreetOrder)
            }
            Event::Discard { .. } | Event::Pat { .. } => {
                fault_if(!self.draw_stands(), BetFault::StreetOrder)
            }
            _ => Ok(()),
        }
    }
}
