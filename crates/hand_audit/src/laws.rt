//! What holds of the later streets of every hand.

ghost use Rattle.std.specs.Prelude.{◌≡◌, ℕ, List, Some, All};
ghost use Rattle.hand_audit.specs.Verdict.{audit_of};
ghost use Rattle.hand_verdict.specs.declared.verdicts.AllIn.{AllIn};
ghost use Rattle.hand_verdict.specs.declared.verdicts.HandAudit.TheVariants.{Accepted};
ghost use Rattle.hand_audit.specs.LaterCards.{KnowsNoLessThan};
ghost use Rattle.hand_audit.specs.Streets.{states_in};
ghost use Rattle.hand_verdict.specs.declared.settlement.Settlement.{Settlement};
ghost use Rattle.card_sets.specs.declared.streets.Street.{Street};
ghost use Rattle.showdown_tally.specs.declared.table.Table.{Table};

use betting_replay::{
    law_a_table_shows_dead_cards, law_a_table_shows_each_seat, law_cards_belong,
    law_places_are_apart, law_stud_cards_are_all_that_were_dealt,
};
use hand_verdict::AllIn;

/// A law on what later streets know. Of a hand that is accepted and has an all-in whose cards are known, the
/// table of each street after it, where there is one, knows no less than the all-in's: it has the same game,
/// as many hands and dead cards, and nowhere fewer cards.
pub fn law_later_streets_know_no_less()
    ensures { (number : ℕ) (lines : List (List ℕ))
        → (settlement : Settlement) (street : Street) (seats : List ℕ) (table : Table)
        (names : List (ℕ × List ℕ)) (players : ℕ)
        → audit_of number lines
        ≡ Some (Accepted settlement (AllIn.Known street seats table) names players)
        → All (KnowsNoLessThan table) (states_in lines) }
{
    law_places_are_apart();
    law_cards_belong();
    law_a_table_shows_each_seat();
    law_a_table_shows_dead_cards();
    law_stud_cards_are_all_that_were_dealt();
}
