//! Laws on a hand: what holds of its pots, of turns, chips and cards as it is replayed, and of the verdict on it.
//!
//! Each says in plain words something of definitions that stand in the crates below, and each is a call that does nothing. Nothing
//! of the program stands on them, so neither its first proof nor the proofs of wrong bodies of those crates have to go through
//! what is proved here. A law that code calls stands in the crate whose definitions it is of.
//!
//! The proof of each lies in a folder of `proofs/lemmas/`, whose first line names it.
#![tactic(auto)]

mod all_ins;
mod cards;
mod lines;
mod odd_units;
mod pots;
mod splits;
mod sums;
mod turns;

pub use all_ins::{
    law_a_table_has_the_pots_of_the_hand, law_all_in_cards, law_later_streets_come_in_order,
    law_later_streets_know_cards, law_unknown_all_ins_have_unknown_cards,
};
pub use cards::{law_kept_cards_are_held, law_places_of_cards, law_the_last_draw, law_two_boards};
pub use lines::law_lines_before_stand;
pub use odd_units::{law_an_ace_is_lowest_on_the_low_side, law_odd_units_go_in_order};
pub use pots::{
    law_dead_chips_are_in_the_first_pot, law_eligible_players_reach_the_level,
    law_no_two_pots_have_the_same_players, law_two_halves_add_up, law_two_sides_share_a_pot,
    law_what_is_uncalled_comes_back, law_winners_of_a_side_get_the_same_or_one_more,
};
pub use splits::{
    law_a_lone_player_wins_a_side_of_each_part, law_a_mark_is_a_card_of_its_player,
    law_checked_pots_are_won, law_near_payments_are_accepted, law_parts_give_what_is_due,
    law_pots_are_split_by_the_rules, law_pots_go_by_boards, law_shares_name_their_boards,
    law_sides_won_are_sets_of_winners,
};
pub use sums::{
    law_chips_are_kept, law_dues_add_up_to_what_was_paid, law_nets_add_up_to_the_rake,
    law_players_are_due_what_they_got, law_pots_add_up,
};
pub use turns::{
    law_a_point_has_contenders, law_chips_stay, law_nobody_is_passed_over, law_turns_are_taken,
};
