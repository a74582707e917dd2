//! How far a hand has come.

ghost use Rattle.std.specs.Prelude.{◌≡◌, ◌≤◌, IfSome};
ghost use Rattle.betting_replay.specs.Events.{SeatFits};
ghost use Rattle.betting_replay.specs.Table.{no_course};
ghost use Rattle.betting_replay.specs.Counting.{course_after, showdowns_after};

use crate::points::Showdowns;
use crate::streets::{begins_on, shows_on};
use hand_events::{BoardNumber, Event, PostKind, Street};

/// How far a hand has come: its street, its markers, and the last actor.
#[derive(Clone, Copy)]
pub struct Course {
    /// The street of the hand: that of the last marker, also of a showdown or the summary, or the draw
    /// that a discard or a stand-pat began. `None` exactly before the first marker.
    pub street: Option<Street>,
    /// Whether the first street has begun. It remains true.
    pub opened: bool,
    /// Whether the last street has begun, on the first board if there are two. It remains true.
    pub last_begun: bool,
    /// Whether a small blind was posted. A later small blind is dead.
    pub small_posted: bool,
    /// The seat of the last actor of the street, 1 to 10. `None` before the first act of the street.
    pub last_actor: Option<u8>,
    /// The board of the last marker, or the only board before any marker.
    pub marker: BoardNumber,
    /// The showdown markers so far.
    pub showdowns: Showdowns,
    /// The street from which on there are two boards. `None` if the hand isn't run twice.
    pub split_from: Option<Street>,
    /// The street of the second board. `None` if there was no marker of a second board.
    pub second_street: Option<Street>,
}

impl Course {
    /// Returns the course before the first event.
    pub(crate) fn new() -> Course
        ensures { result ≡ no_course }
    {
        Course {
            street: None,
            opened: false,
            last_begun: false,
            small_posted: false,
            last_actor: None,
            marker: BoardNumber::Only,
            showdowns: Showdowns {
                plain: false,
                first: false,
                second: false,
            },
            split_from: None,
            second_street: None,
        }
    }
}

/// Returns the showdown markers after an event.
fn showdowns_after(e: &Event, before: Showdowns) -> Showdowns
    ensures { result ≡ showdowns_after e.now before }
{
    Showdowns {
        plain: shows_on(BoardNumber::Only, e) || before.plain,
        first: shows_on(BoardNumber::First, e) || before.first,
        second: shows_on(BoardNumber::Second, e) || before.second,
    }
}

/// Applies an event to the course, without the street that it begins. Each kind of event changes only what
/// it concerns.
pub(crate) fn note_course(e: &Event, course: &mut Course)
    requires seat { SeatFits e.now }
    requires few { IfSome course.old.last_actor (λ seat. seat ≤ 10) }
    ensures value { course.new ≡ course_after e.now course.old }
    ensures few { IfSome course.new.last_actor (λ seat. seat ≤ 10) }
{
    match *e {
        Event::Street { board, .. } => {
            course.marker = board;
            course.showdowns = showdowns_after(e, course.showdowns);
            course.split_from = course.split_from.or(begins_on(BoardNumber::First, e));
            course.second_street = begins_on(BoardNumber::Second, e).or(course.second_street);
        }
        Event::Post { kind, .. } => {
            course.small_posted = kind == PostKind::Small || course.small_posted;
        }
        Event::Act { seat, .. } => {
            course.last_actor = Some(seat);
        }
        _ => {}
    }
}
