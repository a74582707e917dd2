//! The all-in of a hand.

ghost use Rattle.std.specs.Prelude.{◌≡◌, ◌<◌, None, is_some, slice_index_or};
ghost use Rattle.std.specs.List.{list_all};
ghost use Rattle.card_sets.specs.PlayerSets.{seats_in};
ghost use Rattle.pot_layers.specs.Pots.{pots};
ghost use Rattle.betting_replay.specs.Seats.{by_seat};
ghost use Rattle.betting_replay.specs.Table.{known_at};
ghost use Rattle.hand_audit.specs.PotSeats.{eligible_of};
ghost use Rattle.hand_audit.specs.Showings.{paid_in};
ghost use Rattle.hand_audit.specs.AllIns.{all_in_at, known_there, eligible_in, all_in_by};

use crate::at_point::AtPoint;
use crate::known_tables::{known_table, seats_of};
use betting_replay::Replay;
use card_sets::{CardSet, Game, PlayerSet};
use hand_verdict::{AllIn, PotLines};
use history_text::Street;

/// Whether the cards of each seat of a set are known.
fn are_all_known(cards: &[Option<CardSet>; 11], seats: PlayerSet) -> bool
    ensures { result ≡ list_all (λ p. is_some (slice_index_or cards.now p None)) (seats_in seats) }
{
    for seat in seats.seats().each() {
        if cards[seat as usize].is_none() {
            return false;
        }
    }
    true
}

/// The all-in of what is known at a point, and the pots of the hand.
fn all_in_at(point: &AtPoint, lines: &PotLines) -> AllIn
    ensures { result ≡ all_in_at point.now (eligible_of lines.now) }
{
    if !are_all_known(&point.cards, point.contenders) {
        return AllIn::Unknown;
    }
    match known_table(point, lines) {
        Some(table) => AllIn::Known {
            street: point.street,
            seats: seats_of(point.contenders),
            table,
        },
        None => AllIn::Unknown,
    }
}

/// The cards of each seat on a street, by seat.
fn cards_on(replay: &Replay, street: Street) -> [Option<CardSet>; 11]
    ensures { result ≡ by_seat (λ p. known_at replay.now p street) }
{
    let mut cards = [None; 11];
    for seat in 0..11u8 {
        cards[seat as usize] = replay.cards_at(seat, street);
    }
    cards
}

/// What a replay tells of a point on a street.
#[tactic(auto, unfolding(crate::specs::AllIns::known_there))]
fn known_there(game: Game, replay: &Replay, street: Street) -> AtPoint
    ensures { result ≡ known_there game replay.now street }
{
    AtPoint {
        game,
        street,
        contenders: PlayerSet::of(replay.all_in_contenders()),
        cards: cards_on(replay, street),
        board: replay.board_at(street),
        dead: replay.dead(),
    }
}

/// What the all-in of a hand would be if its point lay on a street.
pub(crate) fn all_in_on(game: Game, replay: &Replay, street: Street, lines: &PotLines) -> AllIn
    ensures { result ≡ all_in_at (known_there game replay.now street) (eligible_of lines.now) }
{
    all_in_at(&known_there(game, replay, street), lines)
}

/// The all-in of a hand, by its replay and what its pots hold.
pub(crate) fn all_in_by(game: Game, replay: &Replay, lines: &PotLines) -> AllIn
    ensures { eligible_of lines.now ≡ eligible_in (pots (paid_in replay.now))
        → result ≡ all_in_by game replay.now }
{
    match replay.all_in_point() {
        Some(street) => all_in_at(&known_there(game, replay, street), lines),
        None => AllIn::None,
    }
}
