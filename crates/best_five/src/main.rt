//! An example of calls, outside the program: which five cards a full hand plays for the high, and what
//! they make.
//!
//!     best_five omaha AsKsQhJd Ts9s2s3d4h
//!
//! prints `2s 9s Ts Ks As a flush`: in Omaha two own cards play with three of the board.
//!
//! It uses `hand_choice`, which lists the fives that a game permits, and `rank_high`, which ranks five
//! cards. The status is 0, or 1 if the words aren't a full hand of one of the games, each card in two
//! letters.
#![tactic(auto)]

ghost use Rattle.hand_choice.specs.AllowedFives.{AreFives};

use card_sets::{Card, CardSet, Game};
use hand_choice::{Fives, fives, law_fives_have_five_cards};
use rank_high::{HighValue, high_of_five};
use std::process::ExitCode;
use std::{env, io};

/// The names of the categories, by the first digit of a value.
const MADE: [&str; 9] = [
    "no pair",
    "a pair",
    "two pairs",
    "three of a kind",
    "a straight",
    "a flush",
    "a full house",
    "four of a kind",
    "a straight flush",
];

/// Five cards and their worth.
#[derive(Clone, Copy)]
struct Best {
    cards: CardSet,
    value: HighValue,
}

/// Returns the cards of a text with two letters for each card, or `None` if it isn't one, or has a card
/// twice.
fn cards_of(text: &[u8]) -> Option<CardSet> {
    let mut cards = CardSet::empty();
    for letters in text.chunks(2) {
        let [rank, suit] = letters else {
            return None;
        };
        let card = Card::read([*rank, *suit])?;
        if cards.has(card) {
            return None;
        }
        cards = cards.with(card);
    }
    Some(cards)
}

/// Returns the better of five cards and the best so far.
fn better(best: Option<Best>, cards: CardSet, value: HighValue) -> Best {
    match best {
        Some(best) if best.value >= value => best,
        _ => Best { cards, value },
    }
}

/// Returns the best of some fives, or `None` if there are none.
fn best_of(fives: Fives) -> Option<Best>
    requires { AreFives fives }
{
    let mut best: Option<Best> = None;
    for five in fives {
        best = Some(better(best, five, high_of_five(five)));
    }
    best
}

/// Returns the best five of a full hand of a game, or `None` if the cards aren't one.
fn best_five(game: Game, own: CardSet, board: CardSet) -> Option<Best> {
    if own.count() != game.own_size() || board.count() != game.board_size() {
        return None;
    }
    if !own.is_apart(board) {
        return None;
    }
    own.rising();
    board.rising();
    law_fives_have_five_cards();
    best_of(fives(game, own, board))
}

/// Returns the game of a word.
fn game_of(word: &str) -> Option<Game> {
    for game in Game::all() {
        if game.word() == word {
            return Some(*game);
        }
    }
    None
}

/// Returns the best five of the hand in the words: the game, the own cards, and the board if there is one.
fn best_by(words: &[String]) -> Option<Best> {
    match words {
        [game, own] => best_five(
            game_of(game.as_str())?,
            cards_of(own.as_bytes())?,
            CardSet::empty(),
        ),
        [game, own, board] => {
            let (own, board) = (cards_of(own.as_bytes())?, cards_of(board.as_bytes())?);
            best_five(game_of(game.as_str())?, own, board)
        }
        _ => None,
    }
}

/// Returns the name of the category of a value.
fn made(value: HighValue) -> &'static str {
    match MADE.get((value.number() >> 20) as usize) {
        Some(made) => *made,
        None => "nothing",
    }
}

/// Prints five cards and what they make.
fn print_best(rt: &impl Print, best: &Best) -> io::Result<()> {
    for card in best.cards.iter() {
        let [rank, suit] = card.text();
        print!(rt; "{}{} ", char::from(rank), char::from(suit))?;
    }
    println!(rt; "{}", made(best.value))
}

/// Returns the words of the command line, without the program's name.
fn words_of(rt: &HostRuntime) -> io::Result<Vec<String>> {
    let mut words = Vec::new(rt.alloc());
    for word in env::args(rt)?.skip(1) {
        words.push(word)?;
    }
    Ok(words)
}

fn main(rt: HostRuntime) -> ExitCode {
    let Ok(words) = words_of(&rt) else {
        return ExitCode::from(1);
    };
    let Some(best) = best_by(words.as_slice()) else {
        return ExitCode::from(1);
    };
    match print_best(&rt, &best) {
        Ok(()) => ExitCode::from(0),
        Err(_) => ExitCode::from(1),
    }
}
