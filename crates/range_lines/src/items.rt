//! The items of a range.

ghost use Rattle.std.specs.Prelude.{◌≡◌, ◌<◌, ◌≤◌, ℕ, false, IfSome, position};
ghost use Rattle.range_lines.specs.Items.{rank_named, names, suits_fit, ranks_item, plain_item, suits_named, suited_item, cards_item, item_of, weight_named, is_colon, entry_of};
ghost use Rattle.range_lines.specs.Hands.{amount};
ghost use Rattle.range_lines.specs.Weights.{has_low, rank_beside};

use card_sets::Card;
use line_text::{digit_count, number_of};

/// Whether the cards of a hand are of one suit.
#[derive(Clone, Copy, PartialEq, Eq)]
pub(crate) enum Suits {
    /// They are.
    One,
    /// They aren't.
    Two,
    /// They may be.
    Any,
}

/// Some hands. Ranks are 0 for a deuce to 12 for an ace.
#[derive(Clone, Copy)]
pub(crate) enum Item {
    /// The pairs from a rank on to another.
    Pairs {
        /// The lowest rank.
        from: u8,
        /// The highest rank.
        to: u8,
    },
    /// A rank with each of the ranks from one on to another, which are below it.
    Ranks {
        /// The rank of the higher card.
        top: u8,
        /// The lowest rank of the lower card.
        from: u8,
        /// The highest rank of the lower card.
        to: u8,
        /// Whether the cards are of one suit.
        suits: Suits,
    },
    /// One hand, in either order.
    Cards {
        /// One card.
        first: Card,
        /// The other card.
        second: Card,
    },
}

/// An item, and how much it adds to the weight of its hands, 1 to 100.
#[derive(Clone, Copy)]
pub(crate) struct Entry {
    /// The item.
    pub(crate) item: Item,
    /// The weight, 1 to 100.
    weight: u8,
}

/// The rank that a letter names.
fn rank_named(letter: u8) -> Option<u8>
    ensures value { result ≡ rank_named letter }
    ensures bound { IfSome result (λ rank. rank < 13) }
{
    let card = Card::read([letter, b'c'])?;
    Some(card.rank())
}

/// The item of two ranks, if the first is the higher one.
fn ranks_item(top: u8, low: u8, suits: Suits, up: bool) -> Option<Item>
    ensures { result ≡ ranks_item top low suits up }
{
    if low < top {
        let to = if up { top - 1 } else { low };
        Some(Item::Ranks {
            top,
            from: low,
            to,
            suits,
        })
    } else {
        None
    }
}

/// The item of two letters of ranks, with no suits.
fn plain_item(a: u8, b: u8, up: bool) -> Option<Item>
    ensures { result ≡ plain_item a b up }
{
    let top = rank_named(a)?;
    let low = rank_named(b)?;
    if top == low {
        let to = if up { 12 } else { low };
        return Some(Item::Pairs { from: low, to });
    }
    ranks_item(top, low, Suits::Any, up)
}

/// How a letter says that the suits are.
fn suits_named(letter: u8) -> Option<Suits>
    ensures { result ≡ suits_named letter }
{
    match letter {
        b's' => Some(Suits::One),
        b'o' => Some(Suits::Two),
        _ => None,
    }
}

/// The item of two letters of ranks and one of suits.
fn suited_item(a: u8, b: u8, c: u8, up: bool) -> Option<Item>
    ensures { result ≡ suited_item a b c up }
{
    let top = rank_named(a)?;
    let low = rank_named(b)?;
    let suits = suits_named(c)?;
    ranks_item(top, low, suits, up)
}

/// The item of the letters of two cards, if the cards differ.
fn cards_item(a: u8, b: u8, c: u8, d: u8) -> Option<Item>
    ensures { result ≡ cards_item a b c d }
{
    let first = Card::read([a, b])?;
    let second = Card::read([c, d])?;
    if first == second {
        None
    } else {
        Some(Item::Cards { first, second })
    }
}

/// The item of a text with no weight.
fn item_of(text: &[u8]) -> Option<Item>
    ensures { result ≡ item_of text.now }
{
    match text {
        [a, b] => plain_item(*a, *b, false),
        [a, b, c] => {
            if *c == b'+' {
                plain_item(*a, *b, true)
            } else {
                suited_item(*a, *b, *c, false)
            }
        }
        [a, b, c, d] => {
            if *d == b'+' {
                suited_item(*a, *b, *c, true)
            } else {
                cards_item(*a, *b, *c, *d)
            }
        }
        _ => None,
    }
}

/// The weight that digits say, 1 to 100.
fn weight_named(text: &[u8]) -> Option<u8>
    ensures value { result ≡ weight_named text.now }
    ensures bound { IfSome result (λ weight. weight ≤ 100) }
{
    if digit_count(text) != text.len() {
        return None;
    }
    let number = number_of(text);
    if 1 <= number && number <= 100 {
        Some(number as u8)
    } else {
        None
    }
}

/// The first place of a colon.
fn colon_at(text: &[u8]) -> Option<usize>
    ensures { result ≡ position is_colon text.now }
{
    text.iter().position(|byte| *byte == b':')
}

/// What a text says: an item, with the weight after a colon, or else 1.
pub(crate) fn entry_of(text: &[u8]) -> Option<Entry>
    ensures value { result ≡ entry_of text.now }
    ensures bound { IfSome result (λ entry. entry.weight ≤ 100) }
{
    match colon_at(text) {
        Some(place) => {
            let (front, behind) = text.split_at(place);
            let (_, digits) = behind.split_at(1);
            let weight = weight_named(digits)?;
            let item = item_of(front)?;
            Some(Entry { item, weight })
        }
        None => {
            let item = item_of(text)?;
            Some(Entry { item, weight: 1 })
        }
    }
}

impl Item {
    /// Whether it names the hand of two cards, the lower first.
    fn names(&self, low: Card, high: Card) -> bool
        ensures { result ≡ names self.now low high }
    {
        match *self {
            Item::Pairs { from, to } => {
                low.rank() == high.rank() && from <= low.rank() && low.rank() <= to
            }
            Item::Ranks {
                top,
                from,
                to,
                suits,
            } => {
                high.rank() == top && from <= low.rank() && low.rank() <= to && suits.fit(low, high)
            }
            Item::Cards { first, second } => {
                low == first && high == second || low == second && high == first
            }
        }
    }
}

impl Item {
    /// Returns a number that no lower card of the item's hands is below.
    pub(crate) fn first_low(&self) -> u8
        ensures { (low : ℕ) → low < result → has_low self.now low ≡ false }
    {
        match *self {
            Item::Pairs { from, .. } => 4 * from.min(13),
            Item::Ranks { from, .. } => 4 * from.min(13),
            Item::Cards { first, second } => first.number().min(second.number()),
        }
    }

    /// Returns a number that all lower cards of the item's hands are below.
    pub(crate) fn end_low(&self) -> u8
        ensures past { (low : ℕ) → result ≤ low → low < 52 → has_low self.now low ≡ false }
        ensures bound { result ≤ 52 }
    {
        match *self {
            Item::Pairs { to, .. } => 4 * to.min(12) + 4,
            Item::Ranks { to, .. } => 4 * to.min(12) + 4,
            Item::Cards { first, second } => first.number().max(second.number()) + 1,
        }
    }

    /// Whether a card is the lower card of a hand that it may name.
    pub(crate) fn has_low(&self, low: Card) -> bool
        ensures { result ≡ has_low self.now low }
    {
        match *self {
            Item::Pairs { from, to } | Item::Ranks { from, to, .. } => {
                from <= low.rank() && low.rank() <= to
            }
            Item::Cards { first, second } => low == first || low == second,
        }
    }

    /// The rank of the higher card of each hand that it names with a lower card.
    pub(crate) fn rank_beside(&self, low: Card) -> u8
        ensures { result ≡ rank_beside self.now low }
    {
        match *self {
            Item::Pairs { .. } => low.rank(),
            Item::Ranks { top, .. } => top,
            Item::Cards { first, second } => {
                if low == first {
                    second.rank()
                } else {
                    first.rank()
                }
            }
        }
    }
}

impl Suits {
    /// Whether two cards are of such suits.
    fn fit(self, low: Card, high: Card) -> bool
        ensures { result ≡ suits_fit self low high }
    {
        match self {
            Suits::One => low.suit() == high.suit(),
            Suits::Two => low.suit() != high.suit(),
            Suits::Any => true,
        }
    }
}

impl Entry {
    /// How much it adds to the weight of a hand.
    pub(crate) fn amount(&self, low: Card, high: Card) -> u8
        ensures value { result ≡ amount self.now low high }
        ensures bound { result ≤ self.now.weight }
    {
        if self.item.names(low, high) {
            self.weight
        } else {
            0
        }
    }
}
