//! Lines of spots, and their faults.

use crate::rows::row_text;
use card_sets::{Card, CardSet, Game};
use spot_text::{SpotFault, has_word, read_spot};
use std::alloc::Global;
use std::test::Fail;

/// Returns whether the set has the cards that the words name, and no others.
fn holds(set: CardSet, words: &[[u8; 2]]) -> bool {
    let mut wanted = CardSet::empty();
    for word in words {
        if let Some(card) = Card::read(*word) {
            wanted = wanted.with(card);
        }
    }
    set.count() as usize == words.len() && set.union(wanted).count() == set.count()
}

/// Why the line is refused.
fn fault_of(line: &[u8]) -> Option<SpotFault> {
    match read_spot(line) {
        Ok(_) => None,
        Err(fault) => Some(fault),
    }
}

/// The meaning of a line: the game, the number of hands, some of them by their places, the board, and the
/// dead cards.
type Read = (
    Game,
    u8,
    &'static [(usize, &'static [[u8; 2]])],
    &'static [[u8; 2]],
    &'static [[u8; 2]],
);

/// Returns whether hands have these cards.
fn has_hands(hands: &[CardSet], wanted: &[(usize, &[[u8; 2]])]) -> bool {
    for (place, words) in wanted {
        match hands.get(*place) {
            Some(set) if holds(*set, words) => {}
            _ => return false,
        }
    }
    true
}

/// Returns whether a line has this meaning.
fn is_read(line: &[u8], wanted: &Read) -> bool {
    let (game, count, hands, board, dead) = *wanted;
    match read_spot(line) {
        Ok(known) => {
            known.game == game
                && known.count == count
                && has_hands(&known.hands, hands)
                && holds(known.board, board)
                && holds(known.dead, dead)
        }
        Err(_) => false,
    }
}

/// Returns the first of these lines that doesn't have this meaning.
fn wrong_line(lines: &[&'static [u8]], wanted: &Read) -> Option<&'static str> {
    for line in lines {
        if !is_read(line, wanted) {
            return Some(row_text(*line));
        }
    }
    None
}

const GOOD_LINES: &[&[u8]] = &[
    b"holdem As Ah - Kd Qd -- Jd Td 2c 3h / 4h 4c",
    b"holdem Ah As - Qd Kd -- 3h 2c Td Jd / 4c 4h",
    b"holdem\tAs\tAh\t-\tKd\tQd\t--\tJd\tTd\t2c\t3h\t/\t4h\t4c",
    b"\t holdem \t As    Ah -\t\tKd Qd --   Jd Td 2c \t 3h / 4h   4c\t",
];

const TWO_HANDS: Read = (
    Game::Holdem,
    2,
    &[(0, &[*b"As", *b"Ah"]), (1, &[*b"Kd", *b"Qd"])],
    &[*b"Jd", *b"Td", *b"2c", *b"3h"],
    &[*b"4h", *b"4c"],
);

#[test]
fn a_good_line_gives_the_hands_the_board_and_the_dead_cards(rt: HostRuntime) {
    assert_eq!(rt; wrong_line(GOOD_LINES, &TWO_HANDS), None);
}

const LONG_LINE: &[&[u8]] = &[
    b"holdem 2c 2d - 3c 3d - 4c 4d - 5c 5d - 6c 6d - 7c 7d - 8c 8d - 9c 9d - Tc Td - Jc Jd -- Qc Qd Qh / Kc Kd As",
];

const TEN_HANDS: Read = (
    Game::Holdem,
    10,
    &[
        (0, &[*b"2c", *b"2d"]),
        (4, &[*b"6c", *b"6d"]),
        (9, &[*b"Jc", *b"Jd"]),
    ],
    &[*b"Qc", *b"Qd", *b"Qh"],
    &[*b"Kc", *b"Kd", *b"As"],
);

#[test]
fn ten_hands_are_read_in_order(rt: HostRuntime) {
    assert_eq!(rt; wrong_line(LONG_LINE, &TEN_HANDS), None);
}

/// Returns the first of these lines that isn't refused for this fault.
fn wrong_refusal(lines: &[&'static [u8]], fault: &SpotFault) -> Option<&'static str> {
    for line in lines {
        if fault_of(line) != Some(*fault) {
            return Some(row_text(*line));
        }
    }
    None
}

const OTHER_GAMES: &[&[u8]] = &[
    b"",
    b" \t ",
    b"badugi As Ah - Ks Kh",
    b"omaha9 As Ah 2c 3c - Ks Kh 4c 5c",
    b"draw As Ah - Ks Kh",
    b"triple27As Ah - Ks Kh",
    b"Holdem As Ah - Kd Qd",
    b"holdemAs Ah - Kd Qd",
    b"As Ah - Kd Qd",
    b"hold As As - xx",
];

#[test]
fn another_game_is_an_unknown_word(rt: HostRuntime) {
    assert_eq!(rt; wrong_refusal(OTHER_GAMES, &SpotFault::UnknownWord), None);
}

const OTHER_WORDS: &[&[u8]] = &[
    b"holdem As Ax - As Kh",
    b"holdem 1s Ah - Kd Qd",
    b"holdem as Ah - Kd Qd",
    b"holdem AsAh - Kd Qd",
    b"holdem A s Ah - Kd Qd",
    b"holdem As,Ah - Kd Qd",
    b"holdem As Ah - Kd Qd\r",
    b"holdem As Ah --- Kd Qd",
    b"holdem As Ah - Kd Qd -- 2c 3c 4c - 5c 5d",
    b"holdem As Ah - Kd Qd -- 2c 3c 4c -- 5c 6c 7c",
    b"holdem As Ah - Kd Qd -- --",
    b"holdem As Ah - Kd Qd / 2c -- 3c 4c 5c",
    b"holdem As Ah / 2c - Kd Qd",
    b"holdem As Ah - Kd Qd / 2c / 3c",
    b"holdem As Ah - Kd Qd / /",
    b"holdem As Ah - Kd Qd // 2c",
    b"holdem As - As As xx",
    b"holdem As As - Kd Qd / 2c 3c -",
    b"omaha8 As Ah 2c 3c - Ks Ah Kd Kc -- xx",
];

#[test]
fn a_word_that_may_not_stand_there_is_a_bad_card(rt: HostRuntime) {
    assert_eq!(rt; wrong_refusal(OTHER_WORDS, &SpotFault::BadCard), None);
}

/// Returns whether a line is refused for this card, which is on it twice.
fn repeats(line: &[u8], text: [u8; 2]) -> bool {
    match Card::read(text) {
        Some(card) => fault_of(line) == Some(SpotFault::TwiceCard(card)),
        None => false,
    }
}

/// Returns the first of these lines that isn't refused for its card.
fn wrong_repeat(table: &[(&'static [u8], [u8; 2])]) -> Option<&'static str> {
    for (line, text) in table {
        if !repeats(line, *text) {
            return Some(row_text(*line));
        }
    }
    None
}

const REPEATED: &[(&[u8], [u8; 2])] = &[
    (b"holdem As Ah - As Kh", *b"As"),
    (b"holdem As Ah - Ah Qd -- As", *b"Ah"),
    (b"holdem As Ah - Kd Qd -- Jd Td 2c Kd", *b"Kd"),
    (b"holdem As Ah - Kd Qd -- Jd Td Jd 3h", *b"Jd"),
    (b"holdem As Ah - Kd Qd -- Jd Td 2c / Qd", *b"Qd"),
    (b"holdem As Ah - Kd Qd / 2c 3c 2c 3c", *b"2c"),
    (b"holdem 2c - - 3c 3c 2c", *b"3c"),
    (b"razz As Ah Ad - 2c As", *b"As"),
    (
        b"holdem 2c 2d - 3c 3d - 4c 4d - 5c 5d - 6c 6d - 7c 7d - 8c 8d - 9c 9d - Tc Td - Jc Jd - Qc Qd - 5d",
        *b"5d",
    ),
];

#[test]
fn the_first_card_that_stands_twice_is_named(rt: HostRuntime) {
    assert_eq!(rt; wrong_repeat(REPEATED), None);
}

const HANDS_OF_OTHER_SIZES: &[&[u8]] = &[
    b"holdem",
    b"holdem As - Ks Kh",
    b"holdem As Ah - Ks Kh Kc",
    b"holdem As Ah - Ks Kh -",
    b"holdem - As Ah - Ks Kh",
    b"holdem As Ah - - Ks Kh",
    b"holdem As Ah Ks Kh -- 2c",
    b"holdem 2c 2d - 3c 3d - 4c 4d - 5c 5d - 6c 6d - 7c 7d - 8c 8d - 9c 9d - Tc Td - Jc Jd - Qc Qd - Kc",
    b"omaha As Ah - Ks Kh",
    b"omaha As Ah 2c 3c - Ks Kh Kd",
    b"omaha8 As Ah 2c - Ks Kh Kd Kc",
    b"omaha8 As Ah 2c 3c 4c - Ks Kh Kd Kc",
    b"stud As Ah - Ks Kh Kd",
    b"stud As Ah Ad - 2c 3c 4c 5c 6c 7c 8c 9c",
    b"stud8 As Ah - Ks Kh Kd",
    b"stud8 As Ah Ad - 2c 3c 4c 5c 6c 7c 8c 9c",
    b"razz - 2c 3c 4c",
    b"draw5 As Ad Ah Ac Ks Kd - Kh",
    b"lowball27 7c 5d 4h 3s 2c 8c -",
    b"triple27 7c - 5d 4h 3s 2c 8c 9c",
];

const BOARDS_OF_OTHER_SIZES: &[&[u8]] = &[
    b"holdem As Ah - Ks Kh -- 2c 7d",
    b"holdem As Ah - Ks Kh -- 2c",
    b"holdem As Ah - Ks Kh -- 2c 3c 4c 5c 6c 7c",
    b"holdem As Ah -- 2c 7d",
    b"holdem As Ah -- 2c 7d / 3c",
    b"omaha As Ah 2c 3c - Ks Kh Kd Kc -- 5c 6c",
    b"omaha8 As Ah 2c 3c - Ks Kh Kd Kc -- 5c 6c",
    b"stud As Ah Ad - 2c 3c 4c -- 5c",
    b"stud As Ah Ad - 2c 3c 4c -- 5c 6c 7c",
    b"stud8 As Ah Ad - 2c 3c 4c -- 5c 6c 7c",
    b"razz As Ah Ad - 2c 3c 4c -- 5c 6c 7c 8c",
    b"draw5 As Ad Ah Ac Ks - Kd Kh Kc Qd -- 2c 3c 4c",
    b"lowball27 7c - 8c -- 9c",
    b"triple27 7c - 8c -- 9c Tc Jc Qc Kc",
];

const OTHER_COUNTS_OF_HANDS: &[&[u8]] = &[
    b"holdem As Ah",
    b"holdem As Ah -- 2c 3c 4c / 5c",
    b"holdem 2c 2d - 3c 3d - 4c 4d - 5c 5d - 6c 6d - 7c 7d - 8c 8d - 9c 9d - Tc Td - Jc Jd - Qc Qd",
    b"omaha As Ah 2c 3c",
    b"omaha8 As Ah 2c 3c -- 5c 6c 7c",
    b"stud As Ah Ad",
    b"stud8 As Ah Ad",
    b"razz As Ah Ad",
    b"draw5",
    b"lowball27",
    b"triple27 7c",
    b"triple27 - - - - - - - - - -",
];

/// In the last one, ten hands lack forty cards, and thirty-nine are left.
const SHORT_DECKS: &[&[u8]] = &[
    b"stud 2c 2d 2h - 2s 3c 3d - 3h 3s 4c - 4d 4h 4s - 5c 5d 5h - 5s 6c 6d - 6h 6s 7c - 7d 7h 7s",
    b"stud8 2c 2d 2h - 2s 3c 3d - 3h 3s 4c - 4d 4h 4s - 5c 5d 5h - 5s 6c 6d - 6h 6s 7c - 7d 7h 7s",
    b"triple27 2c - 2d - 2h - 2s - 3c - 3d - 3h - 3s - 4c - 4d / 4h 4s 5c",
];

#[test]
fn sizes_are_tested_in_order(rt: HostRuntime) {
    assert_eq!(rt;
        wrong_refusal(HANDS_OF_OTHER_SIZES, &SpotFault::HandSize),
        None
    );
    assert_eq!(rt;
        wrong_refusal(BOARDS_OF_OTHER_SIZES, &SpotFault::BoardSize),
        None
    );
    assert_eq!(rt;
        wrong_refusal(OTHER_COUNTS_OF_HANDS, &SpotFault::PlayerCount),
        None
    );
    assert_eq!(rt; wrong_refusal(SHORT_DECKS, &SpotFault::DeckShort), None);
}

/// Returns the first of these lines that doesn't have its game or these numbers of cards: in the first two
/// hands, on the board, and dead.
fn wrong_sizes(table: &[(&'static [u8], Game, [u32; 2], u32, u32)]) -> Option<&'static str> {
    for (line, game, own, board, dead) in table {
        match read_spot(line) {
            Ok(known) => {
                let hands = [known.hands[0].count(), known.hands[1].count()];
                let counts = (hands, known.board.count(), known.dead.count());
                if known.game != *game || known.count != 2 || counts != (*own, *board, *dead) {
                    return Some(row_text(*line));
                }
            }
            Err(_) => return Some(row_text(*line)),
        }
    }
    None
}

const SIZES: &[(&[u8], Game, [u32; 2], u32, u32)] = &[
    (b"holdem As Ah - Ks Kh", Game::Holdem, [2, 2], 0, 0),
    (b"holdem As Ah - Kd Qd --", Game::Holdem, [2, 2], 0, 0),
    (b"holdem As Ah - Kd Qd /", Game::Holdem, [2, 2], 0, 0),
    (b"holdem As Ah - Kd Qd -- /", Game::Holdem, [2, 2], 0, 0),
    (b"holdem As Ah - Kd Qd / 2c", Game::Holdem, [2, 2], 0, 1),
    (
        b"holdem As Ah - Kd Qd -- 2c 3c 4c",
        Game::Holdem,
        [2, 2],
        3,
        0,
    ),
    (
        b"holdem As Ah - Kd Qd -- 2c 3c 4c 5c 6c",
        Game::Holdem,
        [2, 2],
        5,
        0,
    ),
    (
        b"holdem As Ah - Kd Qd -- 2c 3c 4c / 5c 6c",
        Game::Holdem,
        [2, 2],
        3,
        2,
    ),
    (
        b"holdem As Ah - Kd Qd -- / 5c 6c 7c",
        Game::Holdem,
        [2, 2],
        0,
        3,
    ),
    (
        b"omaha As 2s Kd Kh - Qc Qd Jc Jd -- 3h 4c 8s 9h",
        Game::Omaha,
        [4, 4],
        4,
        0,
    ),
    (
        b"omaha As 2s Kd Kh - Qc Qd Jc Jd -- 3h 4c 8s / 9h",
        Game::Omaha,
        [4, 4],
        3,
        1,
    ),
    (
        b"omaha8 As 2s Kd Kh - Qc Qd Jc Jd -- 3h 4c 8s 9h",
        Game::Omaha8,
        [4, 4],
        4,
        0,
    ),
    (
        b"omaha8 As 2s Kd Kh - Qc Qd Jc Jd / 3h",
        Game::Omaha8,
        [4, 4],
        0,
        1,
    ),
    (b"stud As Ad Ah - Ks Kd Kh", Game::Stud, [3, 3], 0, 0),
    (
        b"stud As Ad Ah Ac 2c 3c 4c - Ks Kd Kh -- / 2d",
        Game::Stud,
        [7, 3],
        0,
        1,
    ),
    (
        b"stud8 As Ad Ah Ac 2c 3c 4c - Ks Kd Kh 5c",
        Game::Stud8,
        [7, 4],
        0,
        0,
    ),
    (
        b"razz As 2d 3h 4c 5s 6d - 8c 8d Kc Kd",
        Game::Razz,
        [6, 4],
        0,
        0,
    ),
    (
        b"razz As 2d 3h - 8c 8d Kc Kd Qc Qd 2c --",
        Game::Razz,
        [3, 7],
        0,
        0,
    ),
    (
        b"draw5 As Ad Ah Ac Ks - Kd Kh Kc Qd",
        Game::Draw5,
        [5, 4],
        0,
        0,
    ),
    (
        b"lowball27 7c 5d 4h 3s 2c - 7d 5h 4s 3c",
        Game::Lowball27,
        [5, 4],
        0,
        0,
    ),
    (b"lowball27 - 7d / 2c 3c", Game::Lowball27, [0, 1], 0, 2),
    (b"lowball27 -", Game::Lowball27, [0, 0], 0, 0),
    (b"triple27 7c 5d 4h 3s - / Kc", Game::Triple27, [4, 0], 0, 1),
];

#[test]
fn each_game_has_its_sizes(rt: HostRuntime) {
    assert_eq!(rt; wrong_sizes(SIZES), None);
}

/// Returns a line followed by a word several times.
fn repeated(alloc: Global, front: &[u8], word: &[u8], times: u32) -> Result<Vec<u8>, Fail> {
    let mut line = Vec::from_slice(alloc, front)?;
    for _ in 0..times {
        line.extend_from_slice(word)?;
    }
    Ok(line)
}

/// Returns a line with the deuces in two hands, and with the cards of all four suits from trey to queen
/// dead.
fn crowded(alloc: Global) -> Result<Vec<u8>, Fail> {
    let mut line = Vec::from_slice(alloc, b"holdem 2c 2d - 2h 2s /")?;
    for rank in *b"3456789TJQ" {
        for suit in *b"cdhs" {
            line.extend_from_slice(&[b' ', rank, suit])?;
        }
    }
    Ok(line)
}

/// Returns whether a line leaves too few cards, or `None` if it is refused for another fault.
fn is_short(line: &[u8]) -> Option<bool> {
    match read_spot(line) {
        Ok(_) => Some(false),
        Err(SpotFault::DeckShort) => Some(true),
        Err(_) => None,
    }
}

/// Returns the first of these words after which the line leaves too few cards, or enough, other than given.
fn wrong_words(
    line: &mut Vec<u8>,
    table: &[(&'static [u8], bool)],
) -> Result<Option<&'static str>, Fail> {
    for (words, short) in table {
        line.extend_from_slice(words)?;
        if is_short(line) != Some(*short) {
            return Ok(Some(row_text(*words)));
        }
    }
    Ok(None)
}

/// Four cards in two hands and 43 dead ones leave five, which the board needs.
const MORE_DEAD_CARDS: &[(&[u8], bool)] = &[
    (b" Kc Kd Kh", false),
    (b" Ks", true),
    (b" Ac Ad Ah As", true),
];

#[test]
fn dead_cards_may_leave_too_few_for_the_board(rt: HostRuntime) -> Result<(), Fail> {
    let mut line = crowded(rt.alloc())?;
    assert_eq!(rt; wrong_words(&mut line, MORE_DEAD_CARDS)?, None);
    Ok(())
}

/// Returns the first of these lines that has a word, or none, other than given.
fn wrong_worded(table: &[(&'static [u8], bool)]) -> Option<&'static str> {
    for (line, has) in table {
        if has_word(line) != *has {
            return Some(row_text(*line));
        }
    }
    None
}

const WORDED: &[(&[u8], bool)] = &[
    (b"", false),
    (b" ", false),
    (b"\t \t", false),
    (b"a", true),
    (b" \t-", true),
    (b"\r", true),
];

#[test]
fn a_line_of_spaces_and_tabs_has_no_word(rt: HostRuntime) {
    assert_eq!(rt; wrong_worded(WORDED), None);
}

#[test]
fn a_million_spaces_are_read(rt: HostRuntime) -> Result<(), Fail> {
    let spaces = repeated(rt.alloc(), b"", b" ", 1_000_000)?;
    assert!(rt; !has_word(&spaces), "a line of spaces has no word");
    let mut line = repeated(rt.alloc(), b"holdem As Ah - Kd Qd", b" ", 1_000_000)?;
    assert!(rt;
        fault_of(&line).is_none(),
        "spaces at the end change nothing"
    );
    line.push(b'x')?;
    assert!(rt;
        fault_of(&line) == Some(SpotFault::BadCard),
        "the word after the spaces is refused"
    );
    Ok(())
}

#[test]
fn long_lines_are_answered(rt: HostRuntime) -> Result<(), Fail> {
    let cards = repeated(rt.alloc(), b"holdem", b" 2c", 60_000)?;
    assert!(rt;
        repeats(&cards, *b"2c"),
        "a line of 60,000 times 2c is refused for 2c"
    );
    let hands = repeated(rt.alloc(), b"holdem As Ah", b" -", 60_000)?;
    assert!(rt;
        fault_of(&hands) == Some(SpotFault::HandSize),
        "a line of 60,000 empty hands is refused for their size"
    );
    Ok(())
}
