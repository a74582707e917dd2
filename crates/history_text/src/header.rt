//! Header lines.

ghost use Rattle.std.specs.Prelude.{◌≡◌, ◌==◌, ◌||◌, ◌≤◌, ◌+◌, ◌-◌, [], ◌∷◌, drop, length, map, option_map, take, IfOk, IfSome, IsTrue, MatchOption};
ghost use Rattle.std.specs.List.{list_all};
ghost use Rattle.history_text.specs.Headers.{behind_name, behind_start, big_of, first_game, first_stakes, game_at, game_of, hand_number, header_behind, header_of, is_header, is_letter_or_space, is_other_word, is_start, is_title, last_word, limit_words, limits, opened, stakes_at, stakes_of, title, word_before};
ghost use Rattle.card_sets.specs.Games.{all_games};
ghost use Rattle.history_text.specs.Games.{capped_stakes, kept_header, seen_found, seen_named};

use crate::openings::{Opening, first_opening};
use crate::texts::{behind, cut_at_byte, cut_last, is_one_of};
use crate::{Header, Limit, TextFault};
use card_sets::Game;
use line_text::{GREATEST, WrittenAmount, digit_count, written};

/// Returns the text between the site's name and the first `#`, and the text after that.
#[tactic(auto, unfolding(crate::specs::Headers::title))]
fn title(line: &[u8]) -> Option<(&[u8], &[u8])>
    ensures value { option_map (λ cut. (cut.0.now, cut.1.now)) result ≡ title line.now }
    ensures length { IfSome result (λ cut. length cut.1.now ≤ length line.now) }
{
    cut_at_byte(behind(line, b"PokerStars ")?, b'#')
}

/// Returns whether the bytes are letters and spaces.
fn are_letters_or_spaces(bytes: &[u8]) -> bool
    ensures { result ≡ list_all is_letter_or_space bytes.now }
{
    bytes
        .iter()
        .all(|byte| byte.is_ascii_alphabetic() || *byte == b' ')
}

/// Returns whether the words before the number and the digits after them are those of a header.
fn is_title(words: &[u8], number: &[u8]) -> bool
    ensures { result ≡ is_title (words.now, number.now) }
{
    are_letters_or_spaces(words)
        && (words.ends_with(b"Hand ") || words.ends_with(b"Game "))
        && digit_count(number) > 0
}

/// Returns whether the line is a header line.
#[tactic(auto, unfolding(crate::specs::Headers::is_header))]
pub fn is_header(line: &[u8]) -> bool
    ensures { result ≡ is_header line.now }
{
    match title(line) {
        Some((words, number)) => is_title(words, number),
        None => false,
    }
}

/// Returns the place of the first digit of the hand's number, and the place after its last digit.
#[tactic(auto, unfolding(crate::specs::Headers::hand_number))]
pub fn hand_number(line: &[u8]) -> (usize, usize)
    requires { IsTrue (is_header line.now) }
    ensures { result ≡ hand_number line.now }
{
    match title(line) {
        Some((_, number)) => {
            let first = line.len() - number.len();
            (first, first + digit_count(number))
        }
        None => (0, 0),
    }
}

/// The words that begin a supported header.
const STARTS: &[&[u8]] = &[b"Hand ", b"Game ", b"Zoom Hand "];

/// Returns whether these words begin a supported header.
fn is_start(words: &[u8]) -> bool
    ensures { result ≡ is_start words.now }
{
    is_one_of(words, STARTS)
}

/// Returns the text after the start, the number, and the colon.
#[tactic(auto, unfolding(crate::specs::Headers::behind_start))]
fn behind_start(line: &[u8]) -> Option<&[u8]>
    ensures { option_map (λ text. text.now) result ≡ behind_start line.now }
{
    let (words, number) = title(line)?;
    let count = digit_count(number);
    if !is_start(words) || count > 19 {
        return None;
    }
    let (_, text) = number.split_at(count);
    behind(text, b": ")
}

/// The limits.
const LIMITS: [Limit; 3] = [Limit::NoLimit, Limit::PotLimit, Limit::Fixed];

impl Opening for Limit {
    ghost words_in = { λ game limit. limit_words limit };

    fn words(self, _game: Game) -> &'static [u8] {
        match self {
            Limit::NoLimit => b"No Limit",
            Limit::PotLimit => b"Pot Limit",
            Limit::Fixed => b"Limit",
        }
    }
}

/// A game's name and its limit, with the text after them.
#[derive(Clone, Copy)]
struct NamedGame<'a> {
    /// The game.
    game: Game,
    /// The limit.
    limit: Limit,
    /// The text after the limit.
    rest: &'a [u8],
}

/// Returns the text after a game's name and a space.
fn behind_name(game: Game, text: &[u8]) -> Option<&[u8]>
    ensures { option_map (λ rest. rest.now) result ≡ behind_name game text.now }
{
    behind(behind(text, game.header_name().as_bytes())?, b" ")
}

/// Returns a game with a limit if the text begins with the game's name and the limit.
fn named_at(game: Game, text: &[u8]) -> Option<NamedGame<'_>>
    ensures { option_map seen_named result ≡ game_at (game ∷ []) text.now }
{
    let Some(text) = behind_name(game, text) else {
        return None;
    };
    let Some((limit, rest)) = first_opening(game, &LIMITS, text) else {
        return None;
    };
    Some(NamedGame { game, limit, rest })
}

/// Returns the first of some games with which the text begins, with its limit.
fn game_at<'a>(games: &[Game], text: &'a [u8]) -> Option<NamedGame<'a>>
    ensures { option_map seen_named result ≡ game_at games.now text.now }
{
    for game in games {
        if let Some(found) = named_at(*game, text) {
            return Some(found);
        }
    }
    None
}

/// Returns the game with which the text begins, with its limit.
fn named_game(text: &[u8]) -> Option<NamedGame<'_>>
    ensures { option_map seen_named result ≡ game_at all_games text.now }
{
    game_at(Game::all(), text)
}

/// Returns whether a game's name begins with a byte.
fn begins_name(byte: u8) -> bool
    ensures { result
        ≡ (byte == 72 || byte == 79 || byte == 55 || byte == 82 || byte == 53 || byte == 83
        || byte == 84) }
{
    byte == b'H'
        || byte == b'O'
        || byte == b'7'
        || byte == b'R'
        || byte == b'5'
        || byte == b'S'
        || byte == b'T'
}

/// Returns the first place that has a game and a limit. Names are compared only at bytes with which
/// one may begin.
fn first_game(text: &[u8]) -> Option<(usize, NamedGame<'_>)>
    ensures value { option_map seen_found result ≡ first_game text.now }
    ensures place { IfSome result (λ found. found.0 ≤ length text.now) }
{
    for place in 0..text.len() {
        if !begins_name(text[place]) {
            continue;
        }
        let (_, rest) = text.split_at(place);
        if let Some(game) = named_game(rest) {
            return Some((place, game));
        }
    }
    None
}

/// Returns the text after the last space, or the whole text.
fn last_word(text: &[u8]) -> &[u8]
    ensures { result.now ≡ last_word text.now }
{
    match cut_last(text, b" ") {
        Some((_, word)) => word,
        None => text,
    }
}

/// Returns the word at the end of the text, before one space.
#[tactic(auto, unfolding(crate::specs::Headers::word_before))]
fn word_before(before: &[u8]) -> &[u8]
    ensures { result.now ≡ word_before before.now }
{
    if before.ends_with(b" ") {
        last_word(&before[..before.len() - 1])
    } else {
        &[]
    }
}

/// The words that make another game of the name after them.
const OTHER_WORDS: &[&[u8]] = &[
    b"6+",
    b"Card",
    b"Split",
    b"Tempest",
    b"Unfolded",
    b"Showtime",
    b"Fusion",
];

/// Returns whether the word makes another game of the name after it.
fn is_other_word(word: &[u8]) -> bool
    ensures { result ≡ is_other_word word.now }
{
    is_one_of(word, OTHER_WORDS)
}

/// Returns the game of a name, given the text before the name.
#[tactic(auto, unfolding(crate::specs::Headers::game_of))]
fn game_of(before: &[u8], game: Game) -> Option<Game>
    ensures { result ≡ game_of before.now game }
{
    if is_other_word(word_before(before)) {
        None
    } else {
        Some(game)
    }
}

/// Returns the text after the opening of the stakes.
fn opened(text: &[u8]) -> Option<&[u8]>
    ensures { option_map (λ rest. rest.now) result ≡ opened text.now }
{
    match behind(text, b"(") {
        Some(rest) => Some(rest),
        None => behind(text, b", "),
    }
}

/// Returns two amounts with a slash between them.
fn stakes_of(text: &[u8]) -> Option<(WrittenAmount, WrittenAmount)>
    ensures { result ≡ option_map capped_stakes (stakes_of text.now) }
{
    let first = written(text)?;
    let (_, rest) = text.split_at(first.length);
    let Some(rest) = behind(rest, b"/") else {
        return None;
    };
    let second = written(rest)?;
    Some((first, second))
}

/// Returns the stakes at the beginning of the text.
#[tactic(auto, unfolding(crate::specs::Headers::stakes_at))]
fn stakes_at(text: &[u8]) -> Option<(WrittenAmount, WrittenAmount)>
    ensures { result ≡ option_map capped_stakes (stakes_at text.now) }
{
    stakes_of(opened(text)?)
}

/// Returns the first stakes in the text.
fn first_stakes(text: &[u8]) -> Option<(WrittenAmount, WrittenAmount)>
    ensures { result ≡ option_map capped_stakes (first_stakes text.now) }
{
    for place in 0..text.len() {
        let (_, rest) = text.split_at(place);
        if let Some(stakes) = stakes_at(rest) {
            return Some(stakes);
        }
    }
    None
}

/// Returns the stated big blind.
fn big_of(limit: Limit, first: u64, second: u64) -> u64
    ensures { result ≡ big_of limit first second }
{
    match limit {
        Limit::NoLimit | Limit::PotLimit => second,
        Limit::Fixed => first,
    }
}

/// Returns the header of a game with these stakes.
fn with_stakes(
    game: Game,
    limit: Limit,
    first: WrittenAmount,
    second: WrittenAmount,
) -> Result<Header, TextFault>
    ensures value { result ≡ kept_header game limit (first, second) }
    ensures game { IfOk result (λ header. header.game ≡ game) }
{
    let hundredths = first.marked || second.marked;
    let first = first.units(hundredths);
    let second = second.units(hundredths);
    if first == 0 || second == 0 {
        return Err(TextFault::BadHeader);
    }
    if first > GREATEST || second > GREATEST {
        return Err(TextFault::AmountTooLarge);
    }
    Ok(Header {
        game,
        limit,
        hundredths,
        big: big_of(limit, first, second),
    })
}

/// Returns the header of a game, by the stakes after its limit.
#[tactic(auto, unfolding(crate::specs::Headers::header_behind))]
fn header_behind(game: Game, limit: Limit, text: &[u8]) -> Result<Header, TextFault>
    ensures value { result ≡ header_behind game limit text.now }
    ensures game { IfOk result (λ header. header.game ≡ game) }
{
    let Some((first, second)) = first_stakes(text) else {
        return Err(TextFault::BadHeader);
    };
    with_stakes(game, limit, first, second)
}

/// Returns the header of a header line, or its first fault. A header has the game, the limit,
/// whether amounts are in hundredths, and the stated big blind in units. The forms of the site's
/// headers are the source.
#[tactic(auto, unfolding(crate::specs::Headers::header_of))]
pub fn read_header(line: &[u8]) -> Result<Header, TextFault>
    requires { IsTrue (is_header line.now) }
    ensures { result ≡ header_of line.now }
{
    let Some(text) = behind_start(line) else {
        return Err(TextFault::BadHeader);
    };
    let Some((place, found)) = first_game(text) else {
        return Err(TextFault::UnknownGame);
    };
    let (before, _) = text.split_at(place);
    let Some(game) = game_of(before, found.game) else {
        return Err(TextFault::UnknownGame);
    };
    header_behind(game, found.limit, found.rest)
}
