//! What is known at an all-in point.

use card_sets::{CardSet, Game, PlayerSet};
use history_text::Street;

/// What is known at an all-in point.
#[derive(Clone, Copy)]
pub struct AtPoint {
    /// The game.
    pub game: Game,
    /// The street on which it lies.
    pub street: Street,
    /// The contenders there.
    pub contenders: PlayerSet,
    /// The cards of each seat, where they are known.
    pub cards: [Option<CardSet>; 11],
    /// The cards of the board.
    pub board: CardSet,
    /// The cards that are known not to come.
    pub dead: CardSet,
}
