//! The worth of hands in Omaha and Omaha Hi/Lo. Each five has two own cards and three of the board, chosen
//! for the high and for the low separately.
//!
//! Four own cards and five of the board have 60 such fives: each of six pairs with each of ten threes.
//! Most of them aren't ranked.
//!
//! 1. *Flushes apart.* The best high is the best by ranks alone or the best of one suit: a law. A suit
//!    needs two own cards and three of the board, so at most one suit is possible. If there are exactly
//!    five cards of it, these are ranked, and otherwise each five of the suit.
//! 2. *A bound.* By ranks, or as a low, more cards to choose from aren't worth less. So the worth of two
//!    own cards with the whole board, ranked as any seven cards are, bounds their worth with three of it.
//!    If the bound isn't above the best so far, the ten threes are skipped. Otherwise a card of the board
//!    is left out or kept, and there is a bound again. The best so far includes what was found by suit and
//!    with other own cards.
//! 3. *Lows.* Only cards from ace to eight count. With fewer than three of them on the board there is no
//!    low. Otherwise the search is that of point 2 over these cards, with the numbers turned round so that
//!    greater is better.
//!
//! The search computes at least six bounds, and at most 60 fives with their bounds. [`omaha_plain_value`]
//! and [`omaha_suited_value`] are the two parts of a high, for a caller that keeps the first by ranks: own
//! cards and boards with the same ranks have the same number, and a board has that of the best three of
//! its cards. So a caller may keep it by three ranks, and a low too. Nothing here allocates memory or
//! knows whose hand it is.
#![tactic(auto)]

mod best_choice;
mod best_five;
mod laws;
mod omaha;

pub use laws::{
    law_best_three, law_best_three_lows, law_only_low_cards, law_ranks_decide,
    law_ranks_decide_lows, law_ranks_or_a_suit,
};
pub use omaha::{omaha_high, omaha_low, omaha_plain_value, omaha_suited_value};
