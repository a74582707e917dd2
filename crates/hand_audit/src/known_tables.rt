//! The table of an all-in: the known cards, and which hands may win which pot.

ghost use Rattle.std.specs.Prelude.{◌≡◌, ◌<◌, ◌≤◌, [], if◌then◌else◌, map, length, nat_le};
ghost use Rattle.std.specs.List.{list_all};
ghost use Rattle.card_sets.specs.PlayerSets.{all_within, seats_in, with_player};
ghost use Rattle.card_sets.specs.Disjoint.{all_empty};
ghost use Rattle.hand_audit.specs.KnownTables.{ten, places_in, holds, table_from};
ghost use Rattle.hand_audit.specs.PotSeats.{eligible_of};
ghost use Rattle.hand_audit.specs.AllIns.{cards_or_none, bare_of};

use crate::at_point::AtPoint;
use card_sets::{CardSet, Known, PlayerSet, are_disjoint};
use hand_verdict::{PotLine, PotLines};
use showdown_tally::Table;

/// A seat's cards, and none where they are unknown.
fn cards_at(cards: &[Option<CardSet>; 11], seat: u8) -> CardSet
    requires { seat < 11 }
    ensures { result ≡ cards_or_none cards.now seat }
{
    cards[seat as usize].unwrap_or(CardSet::empty())
}

/// The seats of a set, rising, in ten places.
pub(crate) fn seats_of(seats: PlayerSet) -> [u8; 10]
    ensures { result ≡ ten 0 (seats_in seats) }
{
    let mut all = [0; 10];
    let mut count = 0usize;
    for seat in seats.seats().each() {
        all[count] = seat;
        count += 1;
    }
    all
}

/// The cards of the seats of a set, in ten places.
fn hands_of(cards: &[Option<CardSet>; 11], seats: PlayerSet) -> [CardSet; 10]
    ensures { result ≡ ten [] (map (cards_or_none cards.now) (seats_in seats)) }
{
    let mut all = [CardSet::empty(); 10];
    let mut count = 0usize;
    for seat in seats.seats().each() {
        all[count] = cards_at(cards, seat);
        count += 1;
    }
    all
}

/// A set with a place too, where a test holds.
fn with_if(places: PlayerSet, test: bool, place: u8) -> PlayerSet
    requires { place < 16 }
    ensures { result ≡ (if test then with_player places place else places) }
{
    if test { places.with(place) } else { places }
}

/// Which of the seats of a set are in another: place i for the i-th of them.
fn places_in(seats: PlayerSet, set: PlayerSet) -> PlayerSet
    ensures { result ≡ places_in (seats_in seats) set }
{
    let mut places = PlayerSet::empty();
    let mut count = 0u8;
    for seat in seats.seats().each() {
        places = with_if(places, set.has(seat), count);
        count += 1;
    }
    places
}

/// What of each pot's players has a place among some seats, in ten places.
fn eligible_of(pots: &[PotLine], seats: PlayerSet) -> [u16; 10]
    requires { length pots.now ≤ 10 }
    ensures { result ≡ ten 0 (map (λ pot. places_in (seats_in seats) pot.eligible) pots.now) }
{
    let mut all = [0; 10];
    for (number, pot) in pots.iter().enumerate() {
        all[number] = places_in(seats, PlayerSet::of(pot.eligible)).bits();
    }
    all
}

/// Whether no set has a card.
fn all_empty(sets: &[CardSet]) -> bool
    ensures { result ≡ all_empty sets.now }
{
    match sets {
        [] => true,
        [first, others @ ..] => first.count() == 0 && all_empty(others),
    }
}

/// Returns whether no set has more than `most` cards.
fn all_small(sets: &[CardSet], most: u32) -> bool
    ensures { result ≡ list_all (λ hand. nat_le (length hand) most) sets.now }
{
    match sets {
        [] => true,
        [first, others @ ..] => first.count() <= most && all_small(others, most),
    }
}

/// Whether no set of hands has a hand that there isn't.
fn all_within(count: u8, sets: &[u16]) -> bool
    requires { count ≤ 10 }
    ensures { result ≡ all_within count sets.now }
{
    match sets {
        [] => true,
        [first, others @ ..] => *first < 1 << count && all_within(count, others),
    }
}

/// Returns whether what holds of every table holds of these cards and pots at a point.
fn holds(
    point: &AtPoint,
    count: u8,
    hands: &[CardSet; 10],
    pots: usize,
    eligible: &[u16; 10],
) -> bool
    requires { count ≤ 10 }
    ensures { result
        ≡ holds (record {
          game = point.now.game;
          count = count;
          hands = hands.now;
          board = point.now.board;
          dead = point.now.dead;
          pots = pots;
          eligible = eligible.now;
        }) }
{
    let hands = &hands[..];
    are_disjoint(point.board, point.dead, hands)
        && all_empty(&hands[usize::from(count)..])
        && point.board.count() <= point.game.board_size()
        && all_small(hands, point.game.own_size())
        && pots <= 10
        && all_within(count, eligible)
}

/// The table of what is known at a point and the pots, where there can be one.
pub(crate) fn known_table(point: &AtPoint, pots: &PotLines) -> Option<Table>
    ensures { result ≡ table_from (bare_of point.now (eligible_of pots.now)) }
{
    let pots = pots.items();
    let count = point.contenders.seats().count();
    let hands = hands_of(&point.cards, point.contenders);
    let eligible = eligible_of(pots, point.contenders);
    if !holds(point, count, &hands, pots.len(), &eligible) {
        return None;
    }
    Some(Table {
        known: Known {
            game: point.game,
            count,
            hands,
            board: point.board,
            dead: point.dead,
        },
        pots: pots.len() as u8,
        eligible,
    })
}
