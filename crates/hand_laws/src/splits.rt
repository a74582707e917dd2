//! How the pots of a hand are split, and who wins them.

ghost use Rattle.std.specs.Prelude.{◌≡◌, ℕ, ◌∷◌, true, List, Some, Ok};
ghost use Rattle.history_text.specs.Headers.{header_of};
ghost use Rattle.hand_events.specs.declared.events.Header.{Header};
ghost use Rattle.hand_laws.specs.BoardLaws.{BoardsAreNamed};
ghost use Rattle.hand_laws.specs.Dues.{PartsGiveDues};
ghost use Rattle.hand_laws.specs.SideLaws.{NearIsAccepted, SidesAreSets};
ghost use Rattle.hand_audit.specs.Showings.{showing_of};
ghost use Rattle.hand_laws.specs.Splits.{IsSplitRightly, IsWonBySomebody, LoneAreDueAll, PotsGoByBoards};
ghost use Rattle.hand_audit.specs.Verdict.{audit_of, events_of};
ghost use Rattle.hand_verdict.specs.declared.verdicts.AllIn.{AllIn};
ghost use Rattle.hand_verdict.specs.declared.verdicts.HandAudit.TheVariants.{Accepted};
ghost use Rattle.hand_laws.specs.MarkLaws.{MarksAreCards};
ghost use Rattle.hand_verdict.specs.declared.settlement.Settlement.{Settlement};

use betting_replay::{
    law_a_table_shows_each_seat, law_cards_belong, law_places_are_apart, law_whole_boards,
};
use hand_choice::law_fives_have_five_cards;
use pot_layers::law_a_folded_player_is_eligible_nowhere;
use showdown_tally::law_values_keep_order;

/// A law on splits. Of a hand that is accepted and whose pot names fit: in each pot of which it is known
/// who wins, what a seat got differs from what the rules give it by no more than the sides of parts that
/// it wins.
pub fn law_pots_are_split_by_the_rules()
    ensures { (number : ℕ) (line : List ℕ) (lines : List (List ℕ)) (header : Header)
        → header_of line ≡ Ok header
        → (settlement : Settlement) (all_in : AllIn) (names : List (ℕ × List ℕ)) (players : ℕ)
        → audit_of number (line ∷ lines) ≡ Some (Accepted settlement all_in names players)
        → settlement.fits ≡ true
        → IsSplitRightly (showing_of header players (events_of header lines)) }
{}

/// A law on boards. What is split of a pot of which it is known who wins: in a hand that was run once all that
/// was collected from it, by the board; in a hand that was run twice one half by the board, rounded up, and the
/// other by the second board, rounded down.
pub fn law_pots_go_by_boards()
    ensures { PotsGoByBoards }
{}

/// A law on lone players. Who is alone in a pot is due all that was collected from it and wins a side of each
/// part, so one in a hand that was run once and two in a hand that was run twice.
pub fn law_a_lone_player_wins_a_side_of_each_part()
    ensures { LoneAreDueAll }
{}

/// A law on parts. Of a pot of which it is known who wins it, that two players or more may win, and that no more was
/// collected from than it holds: what the shares of its parts give a seat, over both boards and both sides, is what
/// the seat is due of it.
pub fn law_parts_give_what_is_due()
    ensures { PartsGiveDues }
{}

/// A law on pots. Of a hand that is accepted: of each part of each pot of two players or more of which it
/// is known who wins, somebody wins the first side.
pub fn law_checked_pots_are_won()
    ensures { (number : ℕ) (line : List ℕ) (lines : List (List ℕ)) (header : Header)
        → header_of line ≡ Ok header
        → (settlement : Settlement) (all_in : AllIn) (names : List (ℕ × List ℕ)) (players : ℕ)
        → audit_of number (line ∷ lines) ≡ Some (Accepted settlement all_in names players)
        → IsWonBySomebody (showing_of header players (events_of header lines)) }
{
    law_values_keep_order();
    law_places_are_apart();
    law_cards_belong();
    law_whole_boards();
    law_a_table_shows_each_seat();
    law_a_folded_player_is_eligible_nowhere();
}

/// A law on marks. Of a hand of a stud game that is accepted: in each pot of two players or more the mark
/// on a side of a player whose final cards are known is one of these seven, which is in a five of his of
/// best value on that side, and no card of any such five counts higher. On the low side the ace counts
/// lowest. The final cards of whoever wins are known.
pub fn law_a_mark_is_a_card_of_its_player()
    ensures { (number : ℕ) (line : List ℕ) (lines : List (List ℕ)) (header : Header)
        → header_of line ≡ Ok header
        → (settlement : Settlement) (all_in : AllIn) (names : List (ℕ × List ℕ)) (players : ℕ)
        → audit_of number (line ∷ lines) ≡ Some (Accepted settlement all_in names players)
        → MarksAreCards (showing_of header players (events_of header lines)) }
{
    law_fives_have_five_cards();
    law_places_are_apart();
    law_cards_belong();
    law_whole_boards();
    law_a_table_shows_each_seat();
    law_a_folded_player_is_eligible_nowhere();
}

/// A law on boards. Each share of a pot of a hand that was run once names the first board. Of a hand that was run twice the
/// shares of the first part name the first board, and then those of the second part the second. A pot of which it isn't
/// known who wins it has none.
pub fn law_shares_name_their_boards()
    ensures { BoardsAreNamed }
{}

/// A law on sides. Of a pot of which it is known who wins it, and that two players or more may win, a seat wins as many sides
/// as there are sets of winners that it is in: one for each side of each part.
pub fn law_sides_won_are_sets_of_winners()
    ensures { SidesAreSets }
{}

/// A law on payments. Where each seat got of each pot what is due to it, but for a unit for each side that it wins, no payment
/// is refused.
pub fn law_near_payments_are_accepted()
    ensures { NearIsAccepted }
{}
