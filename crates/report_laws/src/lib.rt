//! Laws about the report: what its lines, totals, and balance add up to, in other words than their
//! definitions.
//!
//! Most laws are about the report alone: no name is summed twice or over two units, money is written as a
//! whole, a record is read back, and expectations and results with even luck add up. Others are about
//! audited hands. The report knows only the verdict, and `hand_audit` knows no report, so the laws that
//! need both are here: the nets of a balance add up to minus the rakes, and the lines of a settlement add
//! up to 0.
//!
//! Each law is a call that does nothing, and the program uses none of them.
#![tactic(auto)]

mod balance_laws;
mod expect_laws;
mod line_laws;
mod settle_laws;
mod total_laws;

pub use balance_laws::{
    law_balances_add_up_to_the_rakes, law_no_name_is_balanced_over_two_units,
    law_nobody_is_balanced_twice,
};
pub use expect_laws::{
    law_even_luck_adds_up_to_what_was_got, law_even_luck_is_known_by_the_hand,
    law_even_luck_is_near_what_was_got, law_expectations_add_up_to_the_pots,
    law_expectations_are_rounded_once,
};
pub use line_laws::{law_a_record_is_read_back, law_money_is_written_whole};
pub use settle_laws::{law_settle_lines_add_up, law_what_is_unknown_is_not_settled};
pub use total_laws::{
    law_hands_are_those_that_are_played, law_no_player_is_listed_twice,
    law_totals_sum_counted_all_ins,
};
