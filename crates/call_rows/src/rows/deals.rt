//! Cards from texts, and known cards that are tested to be possible.

ghost use Rattle.std.specs.Prelude.{◌≡◌, ◌≤◌, IfSome, drop, length, nat_le};
ghost use Rattle.std.specs.List.{list_all};
ghost use Rattle.card_sets.specs.Disjoint.{all_empty};
ghost use Rattle.card_sets.specs.Games.{all_fit};

use card_sets::{Card, CardSet, Game, Known, are_disjoint};

/// A game, its hands, the board and the dead cards, each set as a text.
pub(crate) type Spot = (Game, &'static [&'static [u8]], &'static [u8], &'static [u8]);

/// Returns the cards of a text with two letters for each card.
pub(crate) fn cards(text: &[u8]) -> Option<CardSet> {
    let mut set = CardSet::empty();
    for letters in text.chunks(2) {
        let [rank, suit] = letters else {
            return None;
        };
        set = set.with(Card::read([*rank, *suit])?);
    }
    Some(set)
}

/// Returns the five cards of a text, or `None` if it doesn't name five cards.
pub(crate) fn five(text: &str) -> Option<CardSet>
    ensures { IfSome result (λ set. length set ≡ 5) }
{
    let set = cards(text.as_bytes())?;
    if set.count() == 5 { Some(set) } else { None }
}

/// Returns the five to seven cards of a text, or `None` if it doesn't name as many.
pub(crate) fn five_or_more(text: &str) -> Option<CardSet>
    ensures least { IfSome result (λ set. 5 ≤ length set) }
    ensures most { IfSome result (λ set. length set ≤ 7) }
{
    let set = cards(text.as_bytes())?;
    if set.count() >= 5 && set.count() <= 7 {
        Some(set)
    } else {
        None
    }
}

/// Returns the cards of at most ten texts, followed by empty sets.
fn hands_of(texts: &[&[u8]]) -> Option<[CardSet; 10]> {
    let mut hands = [CardSet::empty(); 10];
    for (place, text) in texts.iter().enumerate() {
        if place >= 10 {
            return None;
        }
        hands[place] = cards(*text)?;
    }
    Some(hands)
}

/// Returns whether no set has more than `most` cards.
fn are_small(sets: &[CardSet], most: u32) -> bool
    ensures { result ≡ list_all (λ set. nat_le (length set) most) sets.now }
{
    match sets {
        [] => true,
        [first, others @ ..] => first.count() <= most && are_small(others, most),
    }
}

/// Returns whether no set is larger than its place in the game allows.
fn fits(game: Game, hands: &[CardSet; 10], board: CardSet) -> bool
    ensures { result ≡ all_fit game board hands.now }
{
    board.count() <= game.board_size() && are_small(&hands[..], game.own_size())
}

/// Returns whether the sets after `count` hands are empty.
fn are_unused(hands: &[CardSet; 10], count: u8) -> bool
    requires { count ≤ 10 }
    ensures { result ≡ all_empty (drop count hands.now) }
{
    let hands = &hands[..];
    are_small(&hands[usize::from(count)..], 0)
}

/// Returns some hands, a board, and dead cards as known cards, or `None` if they aren't possible.
fn known_of(
    game: Game,
    count: u8,
    hands: [CardSet; 10],
    board: CardSet,
    dead: CardSet,
) -> Option<Known> {
    if count > 10 {
        return None;
    }
    if !are_disjoint(board, dead, &hands[..]) {
        return None;
    }
    if !are_unused(&hands, count) {
        return None;
    }
    if !fits(game, &hands, board) {
        return None;
    }
    Some(Known {
        game,
        count,
        hands,
        board,
        dead,
    })
}

/// Returns the known cards of a spot, or `None` if they aren't possible.
pub(crate) fn known(spot: &Spot) -> Option<Known> {
    let (game, hands, board, dead) = *spot;
    if hands.len() > 10 {
        return None;
    }
    known_of(
        game,
        hands.len() as u8,
        hands_of(hands)?,
        cards(board)?,
        cards(dead)?,
    )
}
