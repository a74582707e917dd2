//! The cards dealt to a seat, street by street, and how its player drew.

ghost use Rattle.std.specs.Prelude.{◌≡◌, ℕ, length, []};
ghost use Rattle.betting_replay.specs.Counting.{seat_dealt};
ghost use Rattle.betting_replay.specs.Dealing.{counts_on, dealt_on, up_by, given_by, deals_three, hides, stands_pat, discards_five, deals_after, draws_after, last_draw_after};

use crate::hands::{cards_dealt, held_after, row_by, shown_after};
use crate::places::{cards_given, cards_thrown, with_cards, with_given};
use crate::seats::{Deals, LastDraw, SeatDraws, SeatState};
use crate::streets::same_street;
use card_sets::{Card, Game};
use hand_events::{Event, Street};

/// Returns whether a deal counts for a street while the hand is on a street.
fn counts_on(place: Street, now: Option<Street>) -> bool
    ensures { result ≡ counts_on place now }
{
    match (place, now) {
        (Street::First, None) => true,
        _ => same_street(place, now),
    }
}

/// Returns the cards that an event deals on a street.
fn dealt_on(place: Street, now: Option<Street>, e: &Event) -> &[Card]
    ensures { result.now ≡ dealt_on place now e.now }
{
    if counts_on(place, now) {
        cards_dealt(e)
    } else {
        &[]
    }
}

/// Returns a card that is dealt alone.
fn up_by(e: &Event) -> &[Card]
    ensures { result.now ≡ up_by e.now }
{
    let cards = cards_dealt(e);
    if cards.len() == 1 { cards } else { &[] }
}

/// Returns the cards of a deal that aren't drawn.
fn given_by(e: &Event) -> &[Card]
    ensures { result.now ≡ given_by e.now }
{
    match e {
        Event::Deal { cards, drawn, .. } => { if *drawn { &[] } else { cards.items() } }
        _ => &[],
    }
}

/// Returns whether an event deals three cards at once.
fn deals_three(e: &Event) -> bool
    ensures { result ≡ deals_three e.now }
{
    cards_dealt(e).len() == 3
}

/// Returns the cards dealt to a seat, after an event about it.
fn deals_after(now: Option<Street>, e: &Event, deals: Deals) -> Deals
    ensures { result ≡ deals_after now e.now deals }
{
    Deals {
        first: with_cards(deals.first, dealt_on(Street::First, now, e)),
        fourth: with_cards(deals.fourth, dealt_on(Street::Fourth, now, e)),
        fifth: with_cards(deals.fifth, dealt_on(Street::Fifth, now, e)),
        sixth: with_cards(deals.sixth, dealt_on(Street::Sixth, now, e)),
        up: with_cards(deals.up, up_by(e)),
        given: with_cards(deals.given, given_by(e)),
        down: deals_three(e) || deals.down,
    }
}

/// Returns whether a discard doesn't show all its cards.
fn hides(e: &Event) -> bool
    ensures { result ≡ hides e.now }
{
    match e {
        Event::Discard { count, cards, .. } => cards.count() < *count as usize,
        _ => false,
    }
}

/// Returns whether an event is a stand-pat.
fn stands_pat(e: &Event) -> bool
    ensures { result ≡ stands_pat e.now }
{
    matches!(e, Event::Pat { .. })
}

/// Returns whether an event is a discard of five.
fn discards_five(e: &Event) -> bool
    ensures { result ≡ discards_five e.now }
{
    match e {
        Event::Discard { count, .. } => *count == 5,
        _ => false,
    }
}

/// Returns how a player drew, after an event about their seat.
fn draws_after(e: &Event, draws: SeatDraws) -> SeatDraws
    ensures { result ≡ draws_after e.now draws }
{
    SeatDraws {
        hidden: hides(e) || draws.hidden,
        pat: stands_pat(e) || draws.pat,
        five: discards_five(e) || draws.five,
    }
}

/// Returns how a player drew on the last draw, after an event about their seat. `late` is whether the last
/// street has begun, with the event or before it.
fn last_draw_after(late: bool, e: &Event, last: LastDraw) -> LastDraw
    ensures { result ≡ last_draw_after late e.now last }
{
    if late {
        LastDraw {
            thrown: with_cards(last.thrown, cards_thrown(e)),
            hidden: hides(e) || last.hidden,
            pat: stands_pat(e) || last.pat,
            five: discards_five(e) || last.five,
            ..last
        }
    } else {
        LastDraw {
            held: held_after(e, last.held),
            hidden_before: hides(e) || last.hidden_before,
            ..last
        }
    }
}

/// Applies an event about a seat to its cards and draws, in a hand of this game on this street. `late` is
/// whether the last street has begun, with the event or before it.
pub(crate) fn deal_seat(
    game: Game,
    now: Option<Street>,
    late: bool,
    e: &Event,
    seat: &mut SeatState,
)
    ensures { seat.new ≡ seat_dealt game now late e.now seat.old }
{
    seat.own = with_given(game, e, cards_given(e), seat.own);
    seat.dealt = with_cards(seat.dealt, cards_dealt(e));
    seat.held = held_after(e, seat.held);
    seat.shown = shown_after(game, e, seat.shown);
    seat.deals = deals_after(now, e, seat.deals);
    seat.seven_shown = row_by(e).or(seat.seven_shown);
    seat.draws = draws_after(e, seat.draws);
    seat.last_draw = last_draw_after(late, e, seat.last_draw);
}
