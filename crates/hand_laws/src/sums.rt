//! What the chips, pots, dues and nets of an accepted hand come to.

ghost use Rattle.std.specs.Prelude.{◌≡◌, ℕ, ◌∷◌, List, Some, Ok};
ghost use Rattle.history_text.specs.Headers.{header_of};
ghost use Rattle.hand_events.specs.declared.events.Header.{Header};
ghost use Rattle.hand_laws.specs.Chips.{KeepsChips};
ghost use Rattle.hand_laws.specs.Dues.{DuesAddUp, SplitAddsUp};
ghost use Rattle.hand_laws.specs.Fitting.{OfFitting, OfSplit};
ghost use Rattle.hand_verdict.specs.SeatSums.{PlayersAreDue};
ghost use Rattle.hand_audit.specs.Verdict.{audit_of, events_of};
ghost use Rattle.hand_verdict.specs.declared.verdicts.AllIn.{AllIn};
ghost use Rattle.hand_verdict.specs.declared.verdicts.HandAudit.TheVariants.{Accepted};
ghost use Rattle.hand_laws.specs.Nets.{NetsAddUp};
ghost use Rattle.hand_laws.specs.PotSums.{PotsAddUp};
ghost use Rattle.hand_audit.specs.SeatChips.{chips_of};
ghost use Rattle.hand_verdict.specs.declared.settlement.Settlement.{Settlement};

use betting_replay::{
    law_a_table_shows_each_seat, law_cards_belong, law_places_are_apart, law_whole_boards,
};
use hand_choice::law_fives_have_five_cards;
use pot_layers::{law_a_folded_player_is_eligible_nowhere, law_a_list_orders_its_seats};
use showdown_tally::law_values_keep_order;

/// A law on chips. Of a hand that is accepted: no seat put in more than its opening stack, and over all
/// seats the opening stacks, less what was put in, and what was collected, are the opening stacks
/// less the stated rake.
pub fn law_chips_are_kept()
    ensures { (number : ℕ) (line : List ℕ) (lines : List (List ℕ)) (header : Header)
        → header_of line ≡ Ok header
        → (settlement : Settlement) (all_in : AllIn) (names : List (ℕ × List ℕ)) (players : ℕ)
        → audit_of number (line ∷ lines) ≡ Some (Accepted settlement all_in names players)
        → KeepsChips header (events_of header lines) settlement.rake }
{}

/// A law on nets. Of a hand that is accepted: what a seat got by the payments is what its lines say that it
/// collected; no seat put in more than it had; what it had and got, less what it put in, is what it has after
/// the hand; what the players put in is what they got and the stated rake, and, where there is a pot, what the
/// pots hold.
pub fn law_nets_add_up_to_the_rake()
    ensures { (number : ℕ) (line : List ℕ) (lines : List (List ℕ)) (header : Header)
        → header_of line ≡ Ok header
        → (settlement : Settlement) (all_in : AllIn) (names : List (ℕ × List ℕ)) (players : ℕ)
        → audit_of number (line ∷ lines) ≡ Some (Accepted settlement all_in names players)
        → NetsAddUp header (events_of header lines) settlement players
        (chips_of (Accepted settlement all_in names players) (line ∷ lines)) }
{}

/// A law on sums. Of a hand that is accepted and whose pot names fit: what was collected from a pot and its
/// rake are what it holds, what is due of it is as much as was collected, and where there is a pot the
/// rakes of all pots are together the stated rake.
pub fn law_pots_add_up()
    ensures { OfFitting (λ settlement players. PotsAddUp settlement) }
{
    law_a_list_orders_its_seats();
    law_values_keep_order();
    law_fives_have_five_cards();
    law_places_are_apart();
    law_cards_belong();
    law_whole_boards();
    law_a_table_shows_each_seat();
    law_a_folded_player_is_eligible_nowhere();
}

/// A law on dues. Of a hand that is accepted and whose pot names fit: over all seats of the table what is due of its
/// pots is together what was got of them. So what some are still to get is what others are to give back.
pub fn law_dues_add_up_to_what_was_paid()
    ensures { OfFitting (λ settlement players. DuesAddUp settlement) }
{
    law_a_list_orders_its_seats();
    law_values_keep_order();
    law_fives_have_five_cards();
    law_places_are_apart();
    law_cards_belong();
    law_whole_boards();
    law_a_table_shows_each_seat();
    law_a_folded_player_is_eligible_nowhere();
}

/// A law on players' dues. Of a hand that is accepted and whose pot names fit, and of one that is rejected for its
/// payments alone, whose names always fit: its players are due together what they got together. So what some of
/// them are still to get is what others are to give back.
pub fn law_players_are_due_what_they_got()
    ensures accepted { OfFitting PlayersAreDue }
    ensures split { OfSplit SplitAddsUp }
{
    law_a_list_orders_its_seats();
    law_values_keep_order();
    law_fives_have_five_cards();
    law_places_are_apart();
    law_cards_belong();
    law_whole_boards();
    law_a_table_shows_each_seat();
    law_a_folded_player_is_eligible_nowhere();
}
