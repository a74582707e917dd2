//! The report: what is printed of a spot and of a hand, and of all hands of a run together.
//!
//! It has no code of its own. It passes on what callers need to write a report, and what the clauses of that say, so that
//! who stands above it need not know which crate has what:
//!
//! - the blocks of one spot or of one hand are those of `hand_blocks`;
//! - the sums over hands, by player or of made hands, are those of `player_totals`;
//! - an [`Equity`], which both are given beside a verdict, is that of `even_luck`;
//! - the two forms, and a [`Sheet`] of lines in either, are those of `report_sheet`.
#![tactic(auto)]

pub use even_luck::Equity;
pub use hand_blocks::{
    has_counted, street_word, table_alone, write_hand, write_results, write_settlement, write_spot,
    write_street,
};
pub use player_totals::{AllInSums, Balance, MadeSums, Totals};
pub use report_sheet::{Form, Sheet};
