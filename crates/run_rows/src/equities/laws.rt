//! The laws for crates above, called from one.

#[test]
fn the_laws_of_cards_and_pots_can_be_called() {
    card_sets::law_text_is_read();
    hand_laws::law_no_two_pots_have_the_same_players();
    hand_laws::law_two_halves_add_up();
    hand_laws::law_two_sides_share_a_pot();
    hand_laws::law_winners_of_a_side_get_the_same_or_one_more();
}

#[test]
fn the_laws_of_a_replay_can_be_called() {
    hand_laws::law_chips_stay();
    hand_laws::law_two_boards();
    hand_laws::law_nobody_is_passed_over();
    hand_laws::law_places_of_cards();
    hand_laws::law_the_last_draw();
    betting_replay::law_stud_cards_are_all_that_were_dealt();
    hand_laws::law_kept_cards_are_held();
}

#[test]
fn the_laws_of_a_verdict_can_be_called() {
    hand_laws::law_chips_are_kept();
    hand_laws::law_pots_add_up();
    hand_laws::law_pots_go_by_boards();
    hand_laws::law_a_lone_player_wins_a_side_of_each_part();
    hand_laws::law_a_table_has_the_pots_of_the_hand();
    hand_laws::law_a_mark_is_a_card_of_its_player();
    hand_laws::law_later_streets_know_cards();
    hand_laws::law_later_streets_come_in_order();
}
