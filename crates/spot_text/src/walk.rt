//! One walk over the words of a spot, which collects the cards of its parts.

ghost use Rattle.std.specs.Prelude.{◌≡◌, ◌∷◌, ◌++◌, ◌<◌, ◌&&◌, ℕ, List, [], drop, IsTrue, IfSome, MatchOption, false, if◌then◌else◌, Some, None};
ghost use Rattle.std.specs.List.{before_first, after_first};
ghost use Rattle.card_sets.specs.declared.games.Game.{Game};
ghost use Rattle.spot_text.specs.Words.{words_left};
ghost use Rattle.spot_text.specs.Games.{hand_fits};
ghost use Rattle.spot_text.specs.Parts.{is_slash, in_form, cards_of, set_of};
ghost use Rattle.spot_text.specs.Sections.{Board, Dead, stands_from};
ghost use Rattle.spot_text.specs.Spot.{repeated_after};
ghost use Rattle.spot_text.specs.Fronts.{front_cards, from_mark, mark_of, ends_hands};
ghost use Rattle.spot_text.specs.Collected.{twice_or, IsSeen, HasTable, AreRead, IsCollected};

use crate::cards::card_of;
use crate::games::hand_fits;
use crate::marks::{is_dash, is_dashes, is_slash};
use crate::words::Words;
use card_sets::{Card, CardSet, Game};

/// What stands after some cards.
#[derive(Clone, Copy)]
pub(crate) enum Mark {
    /// The mark before the next hand.
    Dash,
    /// The mark before the board.
    Dashes,
    /// The mark before the dead cards.
    Slash,
    /// No word.
    End,
    /// A word that is neither a card nor a mark.
    Other,
}

impl Mark {
    /// The mark that a word is, if it is no card.
    fn of(word: &[u8]) -> Mark
        ensures { result ≡ mark_of (word.now ∷ []) }
    {
        if is_slash(word) {
            return Mark::Slash;
        }
        if is_dashes(word) {
            return Mark::Dashes;
        }
        if is_dash(word) {
            return Mark::Dash;
        }
        Mark::Other
    }

    /// Whether no hand begins after it.
    fn ends_hands(self) -> bool
        ensures { result ≡ ends_hands self }
    {
        match self {
            Mark::Dash => false,
            Mark::Dashes | Mark::Slash | Mark::End | Mark::Other => true,
        }
    }
}

/// The cards that were read so far.
#[derive(Clone, Copy)]
pub(crate) struct Seen {
    /// All of them.
    cards: CardSet,
    /// The first, from the left, that stood there twice.
    twice: Option<Card>,
}

/// The first card that stands twice, after a card that stands there again or not.
fn first_twice(twice: Option<Card>, is_again: bool, card: Card) -> Option<Card>
    ensures { result ≡ twice_or twice (if is_again then Some card else None) }
{
    if is_again && twice.is_none() {
        return Some(card);
    }
    twice
}

impl Seen {
    /// No card was read.
    fn none() -> Seen
        ensures { (all : List ℕ) → IsSeen result all all }
    {
        Seen {
            cards: CardSet::empty(),
            twice: None,
        }
    }

    /// Adds the next card.
    fn add(&mut self, card: Card)
        ensures { (left all : List ℕ)
            → IsSeen self.old (card ∷ left) all → IsSeen self.new left all }
    {
        let _in_deck = card.number();
        self.twice = first_twice(self.twice, self.cards.has(card), card);
        self.cards = self.cards.with(card);
    }
}

/// Cards that stand side by side.
#[derive(Drop)]
struct Part {
    /// The cards.
    cards: CardSet,
    /// What stands after them.
    mark: Mark,
}

/// The cards that the words begin with. It takes the mark after them too.
fn read_part(words: &mut Words, seen: &mut Seen) -> Part
    ensures cards { result.cards ≡ set_of (cards_of (front_cards (words_left words.old))) }
    ensures mark { result.mark ≡ mark_of (from_mark (words_left words.old)) }
    ensures rest { words_left words.new ≡ drop 1 (from_mark (words_left words.old)) }
    ensures seen { (all : List ℕ) → IsSeen seen.old (cards_of (words_left words.old)) all
        → IsSeen seen.new (cards_of (words_left words.new)) all }
{
    let mut cards = CardSet::empty();
    while let Some(word) = words.next() {
        let Some(card) = card_of(word) else {
            return Part {
                cards,
                mark: Mark::of(word),
            };
        };
        seen.add(card);
        cards = cards.with(card);
    }
    Part {
        cards,
        mark: Mark::End,
    }
}

/// The board and the dead cards.
#[derive(Drop)]
pub(crate) struct Table {
    /// The board.
    board: CardSet,
    /// The dead cards.
    dead: CardSet,
}

/// The dead cards, which are all words that are left. None where a word names no card.
fn read_dead(words: &mut Words, seen: &mut Seen) -> Option<CardSet>
    ensures cards { MatchOption result
        (stands_from Dead (words_left words.old) ≡ false)
        (λ dead. IsTrue (stands_from Dead (words_left words.old))
        × (dead ≡ set_of (cards_of (words_left words.old)))) }
    ensures twice { IfSome result (λ dead.
        (all : List ℕ) → IsSeen seen.old (cards_of (words_left words.old)) all
        → seen.new.twice ≡ repeated_after [] all) }
{
    let part = read_part(words, seen);
    match part.mark {
        Mark::End => Some(part.cards),
        _ => None,
    }
}

/// The board, with which the words that are left begin, and the dead cards after it. None where a word
/// may not stand where it stands.
fn read_board(words: &mut Words, seen: &mut Seen) -> Option<Table>
    ensures cards { MatchOption result
        (stands_from Board (words_left words.old) ≡ false)
        (λ table. IsTrue (stands_from Board (words_left words.old))
        × (table.board ≡ set_of (cards_of (before_first is_slash (words_left words.old))))
        × (table.dead ≡ set_of (cards_of (after_first is_slash (words_left words.old))))) }
    ensures twice { IfSome result (λ table.
        (all : List ℕ) → IsSeen seen.old (cards_of (words_left words.old)) all
        → seen.new.twice ≡ repeated_after [] all) }
{
    let part = read_part(words, seen);
    match part.mark {
        Mark::End => Some(Table {
            board: part.cards,
            dead: CardSet::empty(),
        }),
        Mark::Slash => {
            let Some(dead) = read_dead(words, seen) else {
                return None;
            };
            Some(Table {
                board: part.cards,
                dead,
            })
        }
        _ => None,
    }
}

/// The board and the dead cards after the mark that ends the hands. None where a word may not stand
/// where it stands.
fn read_table(mark: Mark, words: &mut Words, seen: &mut Seen) -> Option<Table>
    requires { IsTrue (ends_hands mark) }
    ensures table { (ws : List (List ℕ))
        → mark ≡ mark_of (from_mark ws) → words_left words.old ≡ drop 1 (from_mark ws)
        → MatchOption result (in_form ws ≡ false) (λ table. HasTable (from_mark ws) table) }
    ensures twice { IfSome result (λ table.
        (ws : List (List ℕ)) (all : List ℕ)
        → mark ≡ mark_of (from_mark ws) → words_left words.old ≡ drop 1 (from_mark ws)
        → IsSeen seen.old (cards_of (words_left words.old)) all
        → seen.new.twice ≡ repeated_after [] all) }
{
    match mark {
        Mark::End => Some(Table {
            board: CardSet::empty(),
            dead: CardSet::empty(),
        }),
        Mark::Slash => {
            let Some(dead) = read_dead(words, seen) else {
                return None;
            };
            Some(Table {
                board: CardSet::empty(),
                dead,
            })
        }
        Mark::Dashes => read_board(words, seen),
        _ => None,
    }
}

/// The hands of a spot, which were read from the left.
#[derive(Clone, Copy)]
pub struct ReadHands {
    /// The number of hands, or 11 if there are more than ten.
    pub(crate) count: u8,
    /// The cards of the first ten hands, and empty sets after them.
    pub(crate) sets: [CardSet; 10],
    /// Whether the game allows the number of different cards in each hand.
    pub(crate) fit: bool,
}

/// Whether some hands fit, and one more of `count` cards.
fn all_fit(fit: bool, game: Game, count: u32) -> bool
    ensures { result ≡ (fit && hand_fits game count) }
{
    fit && hand_fits(game, count)
}

impl ReadHands {
    /// Returns the value before the first hand.
    fn none() -> ReadHands
        ensures { (game : Game) → AreRead game [] result }
    {
        ReadHands {
            count: 0,
            sets: [CardSet::empty(); 10],
            fit: true,
        }
    }

    /// Adds the next hand.
    fn add_hand(&mut self, game: Game, cards: CardSet)
        ensures { (hands : List (List (List ℕ))) (hand : List (List ℕ))
            → AreRead game hands self.old → cards ≡ set_of (cards_of hand)
            → AreRead game (hands ++ hand ∷ []) self.new }
    {
        self.fit = all_fit(self.fit, game, cards.count());
        if self.count >= 10 {
            self.count = 11;
            return;
        }
        self.sets[usize::from(self.count)] = cards;
        self.count += 1;
    }
}

/// The parts of a spot.
#[derive(Drop)]
pub struct Collected {
    /// The hands.
    pub(crate) hands: ReadHands,
    /// The board.
    pub board: CardSet,
    /// The dead cards.
    pub dead: CardSet,
    /// The first card, from the left, that appears twice.
    pub twice: Option<Card>,
}

/// Collects the parts of a spot in one walk over its words, whatever the number of hands. Returns `None`
/// if a word is neither a card nor a mark in its place.
pub fn collect(game: Game, words: Words) -> Option<Collected>
    ensures { MatchOption result
        (in_form (words_left words.entry) ≡ false)
        (λ parts. IsCollected game (words_left words.entry) parts) }
{
    let mut left = words;
    let mut seen = Seen::none();
    let mut hands = ReadHands::none();
    loop {
        let part = read_part(&mut left, &mut seen);
        hands.add_hand(game, part.cards);
        if part.mark.ends_hands() {
            let Some(table) = read_table(part.mark, &mut left, &mut seen) else {
                return None;
            };
            return Some(Collected {
                hands,
                board: table.board,
                dead: table.dead,
                twice: seen.twice,
            });
        }
    }
}
