//! The reading of a spot line.

ghost use Rattle.std.specs.Prelude.{◌≡◌, ◌≤◌, drop, length, Ok, Err, IfOk, MatchResult, slice_get, option_and_then};
ghost use Rattle.std.specs.List.{sum};
ghost use Rattle.card_sets.specs.State.{state_of};
ghost use Rattle.runout_ranges.specs.Slots.{unseen, slots, counts_of};
ghost use Rattle.spot_text.specs.Words.{words_left};
ghost use Rattle.spot_text.specs.Games.{game_named};
ghost use Rattle.spot_text.specs.Spot.{spot_behind, spot_of};
ghost use Rattle.spot_text.specs.Collected.{IsCollected};

use crate::SpotFault;
use crate::games::{board_fits, game_named, players_within};
use crate::walk::{Collected, collect};
use crate::words::Words;
use card_sets::{Game, Known};
use runout_ranges::shape;

/// The game that the next word names.
fn next_game(words: &mut Words) -> Option<Game>
    ensures value { result ≡ option_and_then game_named (slice_get (words_left words.old) 0) }
    ensures rest { words_left words.new ≡ drop 1 (words_left words.old) }
{
    game_named(words.next()?)
}

/// The known cards, or the first fault after the form of the words.
fn known_of(game: Game, words: Words, parts: &Collected) -> Result<Known, SpotFault>
    requires parts { IsCollected game (words_left words) parts.now }
    ensures read { MatchResult result
        (λ k. spot_behind game (words_left words.entry) ≡ Ok (state_of k))
        (λ e. spot_behind game (words_left words.entry) ≡ Err e) }
    ensures players { IfOk result (λ k. 2 ≤ k.count) }
    ensures dealt { IfOk result
        (λ k. sum (counts_of (slots (state_of k))) ≤ length (unseen (state_of k))) }
{
    if let Some(card) = parts.twice {
        return Err(SpotFault::TwiceCard(card));
    }
    if !parts.hands.fit {
        return Err(SpotFault::HandSize);
    }
    if !board_fits(game, parts.board.count()) {
        return Err(SpotFault::BoardSize);
    }
    if !players_within(10, parts.hands.count) {
        return Err(SpotFault::PlayerCount);
    }
    let known = Known {
        game,
        count: parts.hands.count,
        hands: parts.hands.sets,
        board: parts.board,
        dead: parts.dead,
    };
    if shape(&known).is_none() {
        return Err(SpotFault::DeckShort);
    }
    Ok(known)
}

/// The known cards that a line says of a spot.
/// A fault is the first that the line has, in the order of `SpotFault`. It takes no memory.
pub fn read_spot(line: &[u8]) -> Result<Known, SpotFault>
    ensures read { MatchResult result
        (λ k. spot_of line.now ≡ Ok (state_of k))
        (λ e. spot_of line.now ≡ Err e) }
    ensures players { IfOk result (λ k. 2 ≤ k.count) }
    ensures dealt { IfOk result
        (λ k. sum (counts_of (slots (state_of k))) ≤ length (unseen (state_of k))) }
{
    let mut words = Words::of(line);
    let Some(game) = next_game(&mut words) else {
        return Err(SpotFault::UnknownWord);
    };
    let Some(parts) = collect(game, words) else {
        return Err(SpotFault::BadCard);
    };
    known_of(game, words, &parts)
}
