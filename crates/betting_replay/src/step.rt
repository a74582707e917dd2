//! A step of a replay: one event.

ghost use Rattle.std.specs.Prelude.{◌≡◌, ℕ, [], ◌∷◌, List, None, OnOk, OnErr, ◌<◌, ◌≤◌};
ghost use Rattle.hand_events.specs.declared.events.Event.{Event};
ghost use Rattle.hand_events.specs.declared.events.Header.{Header};
ghost use Rattle.betting_replay.specs.Events.{SeatFits, button_after};
ghost use Rattle.betting_replay.specs.Limits.{AmountsFit};
ghost use Rattle.betting_replay.specs.TableAfter.{StandsFor};
ghost use Rattle.betting_replay.specs.Counting.{moves_cards, paid_after, dealt_after, noted_after, counted};
ghost use Rattle.betting_replay.specs.Faults.{verdict, legal, fault_at};

use crate::boards::{Board, board_after, second_after};
use crate::counting::pay_seat;
use crate::course::{Course, note_course};
use crate::dealing::deal_seat;
use crate::places::{cards_named, cards_thrown, seat_of, with_cards, with_given, without_cards};
use crate::replay::Replay;
use crate::seats::SeatState;
use card_sets::{CardSet, PlayerSet};
use hand_events::{BetFault, Event, Header};

/// Returns the seat of the button after an event, given the seat before it.
fn button_after(e: &Event, before: u8) -> u8
    requires seat { SeatFits e.now }
    requires few { before ≤ 10 }
    ensures value { result ≡ button_after e.now before }
    ensures few { result ≤ 10 }
{
    match *e {
        Event::Button { seat } => seat,
        _ => before,
    }
}

/// Returns whether an event may give a card a place, take one away, or say how a player draws.
fn moves_cards(e: &Event) -> bool
    ensures { result ≡ moves_cards e.now }
{
    match e {
        Event::Deal { .. }
        | Event::Street { .. }
        | Event::Show { .. }
        | Event::SeatCards { .. }
        | Event::Discard { .. }
        | Event::Pat { .. } => true,
        Event::Act { shown, .. } => !shown.items().is_empty(),
        _ => false,
    }
}

impl Replay {
    /// Creates the replay of a hand before its first event. Bit s of `players` is set if seat s
    /// plays.
    pub fn new(header: &Header, players: u16) -> Replay
        ensures { StandsFor result header.now players [] }
    {
        Replay {
            header: *header,
            players: PlayerSet::of(players),
            seats: [SeatState::new(); 11],
            named: CardSet::empty(),
            thrown: CardSet::empty(),
            first_board: Board::new(),
            second_board: Board::new(),
            button: 0,
            course: Course::new(),
            point: None,
        }
    }

    /// Applies the event to the chips and acts of its seat.
    #[tactic(auto, unfolding(crate::specs::Counting::paid_after))]
    fn count_chips(&mut self, e: &Event)
        requires seat { SeatFits e.now }
        requires amounts { AmountsFit e.now }
        requires legal { fault_at self.old e.now ≡ None }
        ensures { self.new ≡ paid_after self.old e.now }
    {
        let place = seat_of(e) as usize;
        let big = self.header.big;
        let posted = self.course.small_posted;
        pay_seat(big, posted, e, &mut self.seats[place]);
    }

    /// Applies the event to the cards of its seat, and to the open cards.
    #[tactic(auto, unfolding(crate::specs::Counting::dealt_after))]
    fn count_cards(&mut self, e: &Event)
        requires { SeatFits e.now }
        ensures { self.new ≡ dealt_after self.old e.now }
    {
        let place = seat_of(e) as usize;
        let game = self.header.game;
        let street = self.course.street;
        let late = self.begins_last(e);
        let cards = cards_named(e);
        deal_seat(game, street, late, e, &mut self.seats[place]);
        self.named = with_given(game, e, cards, self.named);
        self.thrown = with_cards(without_cards(self.thrown, cards), cards_thrown(e));
        self.first_board = board_after(e, self.first_board);
        self.second_board = second_after(e, self.second_board);
    }

    /// Applies the event to the button and the course of the hand.
    #[tactic(auto, unfolding(crate::specs::Counting::noted_after))]
    fn note(&mut self, e: &Event)
        requires { SeatFits e.now }
        ensures { self.new ≡ noted_after self.old e.now }
    {
        self.button = button_after(e, self.button);
        note_course(e, &mut self.course);
    }

    /// Applies an event that passed each test. Cards are examined only if the event moves some.
    #[tactic(auto, unfolding(crate::specs::Counting::counted))]
    fn count(&mut self, e: &Event)
        requires seat { SeatFits e.now }
        requires amounts { AmountsFit e.now }
        requires legal { fault_at self.old e.now ≡ None }
        ensures { self.new ≡ counted self.old e.now }
    {
        self.count_chips(e);
        if moves_cards(e) {
            self.count_cards(e);
        }
        self.note(e);
    }

    /// Applies the event if the rules allow it. Otherwise returns the first rule that the event
    /// breaks and leaves the replay unchanged. Seats of the event are 1 to 10, and its amounts are
    /// below 10^15 units. The rules judge everything else.
    pub fn step(&mut self, e: &Event) -> Result<(), BetFault>
        requires seats { SeatFits e.now }
        requires amounts { AmountsFit e.now }
        ensures verdict { (header : Header) (players : ℕ) (h : List Event)
            → StandsFor self.old header players h
            → result ≡ verdict (legal header players h e.now) }
        ensures ok { OnOk result ((header : Header) (players : ℕ) (h : List Event)
            → StandsFor self.old header players h → StandsFor self.new header players (e.now ∷ h)) }
        ensures err { OnErr result (self.new ≡ self.old) }
    {
        if let Event::Remark = *e {
            return Ok(());
        }
        self.judge(e)?;
        self.count(e);
        self.begin_with(e);
        self.keep_point();
        Ok(())
    }
}
