//! The worth of a high hand, as one number.

ghost use Rattle.std.specs.Prelude.{◌≡◌, ◌<◌, ◌≤◌, ◌^◌, ◌∷◌, length};
ghost use Rattle.rank_high.specs.High.{value_of};

use std::marker::Model;

/// One pair without its ranks: the category is the first of six digits in base 16.
pub const ONE_PAIR: u32 = 0x10_0000;

/// Two pair without its ranks.
pub(crate) const TWO_PAIR: u32 = 0x20_0000;

/// Three of a kind without its ranks.
pub(crate) const THREE_OF_A_KIND: u32 = 0x30_0000;

/// A flush without its ranks.
pub const FLUSH: u32 = 0x50_0000;

/// A full house without its ranks.
pub(crate) const FULL_HOUSE: u32 = 0x60_0000;

/// Four of a kind without its ranks.
pub(crate) const FOUR_OF_A_KIND: u32 = 0x70_0000;

/// The difference between a straight flush and a straight of the same ranks: four categories.
pub const STRAIGHT_TO_FLUSH: u32 = 0x40_0000;

/// The straight of five to ace, with its ranks: five, four, three, two and one.
pub(crate) const FIVE_TO_ACE: u32 = 0x45_4321;

/// The difference between a straight and the next lower one: one in each of its five ranks.
pub(crate) const NEXT_STRAIGHT: u32 = 0x1_1111;

/// One in the digit of the first rank, which comes after the category.
pub(crate) const FIRST_RANK: u32 = 0x1_0000;

/// One in the digit of the second rank.
pub(crate) const SECOND_RANK: u32 = 0x1000;

/// One in the digit of the third rank.
pub(crate) const THIRD_RANK: u32 = 0x100;

/// One in the digit of the fourth rank.
pub(crate) const FOURTH_RANK: u32 = 0x10;

/// The worth of a high hand. Greater is better. Clauses see it as its number.
#[derive(Clone, Copy, PartialEq, Eq, PartialOrd, Ord)]
pub struct HighValue(u32);

impl Model for HighValue {
    ghost use Rattle.std.specs.Prelude.{ℕ};

    ghost Value = { ℕ };

    ghost view = { λ v. v.0 };

    ghost inverse = { λ n. record { 0 = n } };
}

impl HighValue {
    /// Returns the number: six digits in base 16, the category and then the ranks of the
    /// groups.
    #[inline]
    pub fn number(self) -> u32
        ensures { result ≡ self }
    {
        self.0
    }
}

/// Returns the value with a number.
#[inline]
pub(crate) fn numbered(number: u32) -> HighValue
    ensures { result ≡ number }
{
    HighValue(number)
}

/// Returns the value of a category and at most five ranks as numbers, in base 16.
#[inline]
pub fn value(category: u32, pips: &[u8]) -> HighValue
    requires { value_of (category ∷ pips.now) < 2 ^ 32 }
    ensures { result ≡ value_of (category ∷ pips.now) }
{
    let mut number = category;
    for place in 0..5 {
        let pip = pips.get(place).copied().unwrap_or(0);
        number = number * 16 + u32::from(pip);
    }
    HighValue(number)
}
