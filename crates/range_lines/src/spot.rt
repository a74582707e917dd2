//! A spot with ranges.

ghost use Rattle.std.specs.Prelude.{◌≡◌};

use card_sets::CardSet;
use std::marker::Model;

/// A hand of a range, and how much it weighs.
#[derive(Clone, Copy)]
pub struct Weighted {
    /// Its two cards.
    pub hand: CardSet,
    /// Its weight, 1 to 100.
    pub weight: u8,
}

/// The hands of a player. Clauses see the list of the hands with their weights, rising by the lower
/// card and then by the higher one.
#[derive(Drop)]
pub struct Range {
    /// The hands, rising.
    pub(crate) hands: Vec<Weighted>,
}

impl Model for Range {
    ghost use Rattle.std.specs.Prelude.{List};
    ghost use Rattle.range_lines.specs.declared.spot.Weighted.{Weighted};

    ghost Value = { List Weighted };

    ghost view = { λ range. range.hands.items };
}

impl Range {
    /// The hands, rising.
    pub fn hands(&self) -> &[Weighted]
        ensures { result.now ≡ self.now }
    {
        &self.hands
    }
}

/// What is known of a spot with ranges.
#[derive(Drop)]
pub struct RangeSpot {
    /// The board.
    pub board: CardSet,
    /// The dead cards.
    pub dead: CardSet,
    /// The ranges, one for each player.
    pub ranges: Vec<Range>,
}
