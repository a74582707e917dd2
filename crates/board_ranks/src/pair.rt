//! Two cards.

ghost use Rattle.std.specs.Prelude.{◌≡◌, ◌+◌, ◌*◌};
ghost use Rattle.card_sets.specs.Cards.{rank_of, suit_of};

use card_sets::Card;

/// Two cards.
#[derive(Clone, Copy)]
pub struct Pair {
    /// The first one.
    pub low: Card,
    /// The second one.
    pub high: Card,
    /// 13 times the rank of the first one, and that of the second one.
    pub ranks: u8,
    /// 4 times the suit of the first one, and that of the second one.
    pub suits: u8,
    /// So the ranks are.
    pub ghost by_rank: { ranks ≡ 13 * rank_of low + rank_of high },
    /// So the suits are.
    pub ghost by_suit: { suits ≡ 4 * suit_of low + suit_of high },
}

impl Pair {
    /// The pair of two cards.
    #[inline]
    pub fn of(low: Card, high: Card) -> Pair
        ensures low { result.low ≡ low }
        ensures high { result.high ≡ high }
    {
        Pair {
            low,
            high,
            ranks: 13 * low.rank() + high.rank(),
            suits: 4 * low.suit() + high.suit(),
        }
    }

    /// Some pair.
    pub fn any() -> Pair {
        let Some(card) = Card::new(0, 0) else {
            unreachable!();
        };
        Pair::of(card, card)
    }
}
