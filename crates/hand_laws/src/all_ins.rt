//! What is known at the all-in of an accepted hand and on the streets after it, and its pots.

ghost use Rattle.std.specs.Prelude.{◌≡◌, ℕ, ◌∷◌, false, List, Some, Ok, All, map};
ghost use Rattle.history_text.specs.Headers.{header_of};
ghost use Rattle.hand_events.specs.declared.events.Header.{Header};
ghost use Rattle.hand_verdict.specs.declared.verdicts.AllIn.{AllIn};
ghost use Rattle.hand_verdict.specs.declared.verdicts.HandAudit.TheVariants.{Accepted};
ghost use Rattle.hand_audit.specs.CardsKnown.{KnowsCards};
ghost use Rattle.hand_laws.specs.CardsKnown.{all_known_at};
ghost use Rattle.hand_laws.specs.LaterCards.{IsKnownOn};
ghost use Rattle.hand_audit.specs.LaterOrder.{ComeInOrder};
ghost use Rattle.hand_audit.specs.Streets.{states_of};
ghost use Rattle.hand_verdict.specs.declared.streets.StreetState.{StreetState};
ghost use Rattle.betting_replay.specs.declared.points.Point.{Point};
ghost use Rattle.hand_laws.specs.TablePots.{HasPotsOf};
ghost use Rattle.betting_replay.specs.TableAfter.{point};
ghost use Rattle.hand_audit.specs.Verdict.{audit_of, events_of};
ghost use Rattle.hand_verdict.specs.declared.settlement.Settlement.{Settlement};
ghost use Rattle.card_sets.specs.declared.streets.Street.{Street};
ghost use Rattle.showdown_tally.specs.declared.table.Table.{Table};

use betting_replay::{
    law_a_table_shows_dead_cards, law_a_table_shows_each_seat, law_cards_belong,
    law_places_are_apart, law_whole_boards,
};
use hand_verdict::AllIn;

/// A law on all-ins. Of a hand that is accepted and has an all-in whose cards are known: each hand of the
/// table is what its seat has there, and its cards belong to the seat; the board is that of the streets
/// up to the point; and no card that comes to the board later is in a hand or dead, and none of the second
/// board of a hand that was run twice.
pub fn law_all_in_cards()
    ensures { (number : ℕ) (line : List ℕ) (lines : List (List ℕ)) (header : Header)
        → header_of line ≡ Ok header
        → (settlement : Settlement) (street : Street) (seats : List ℕ) (table : Table)
        (names : List (ℕ × List ℕ)) (players : ℕ)
        → audit_of number (line ∷ lines)
        ≡ Some (Accepted settlement (AllIn.Known street seats table) names players)
        → KnowsCards header players (events_of header lines) street seats table }
{
    law_places_are_apart();
    law_cards_belong();
    law_a_table_shows_each_seat();
    law_a_table_shows_dead_cards();
}

/// A law on all-ins that are unknown. Of a hand that is accepted whose all-in is unknown: the hand has an
/// all-in point, and the cards of a contender at it aren't known there.
pub fn law_unknown_all_ins_have_unknown_cards()
    ensures { (number : ℕ) (line : List ℕ) (lines : List (List ℕ)) (header : Header)
        → header_of line ≡ Ok header
        → (settlement : Settlement) (names : List (ℕ × List ℕ)) (players : ℕ)
        → audit_of number (line ∷ lines) ≡ Some (Accepted settlement AllIn.Unknown names players)
        → all_known_at header (events_of header lines)
        (point header players (events_of header lines)) ≡ false }
{
    law_places_are_apart();
    law_cards_belong();
    law_whole_boards();
    law_a_table_shows_each_seat();
    law_a_table_shows_dead_cards();
}

/// A law on the pots of all-ins. Of a hand that is accepted and has an all-in whose cards are known: the
/// table has the pots of the hand, ten at the most, and in each pot a hand of the table is eligible
/// exactly where its seat is.
pub fn law_a_table_has_the_pots_of_the_hand()
    ensures { (number : ℕ) (line : List ℕ) (lines : List (List ℕ)) (header : Header)
        → header_of line ≡ Ok header
        → (settlement : Settlement) (street : Street) (seats : List ℕ) (table : Table)
        (names : List (ℕ × List ℕ)) (players : ℕ)
        → audit_of number (line ∷ lines)
        ≡ Some (Accepted settlement (AllIn.Known street seats table) names players)
        → HasPotsOf settlement seats table }
{}

/// A law on later streets. Of a hand that is accepted and has an all-in point, what is known on each street
/// after it: there is no table only where the cards on it of a contender at the point aren't known; and in
/// a table each hand is what its seat has on the street, and its cards belong to the seat, the board is that
/// of the streets up to it, and no card that comes to the board later is in a hand or dead, and none of the
/// second board of a hand that was run twice.
pub fn law_later_streets_know_cards()
    ensures { (number : ℕ) (line : List ℕ) (lines : List (List ℕ)) (header : Header)
        → header_of line ≡ Ok header
        → (settlement : Settlement) (all_in : AllIn) (names : List (ℕ × List ℕ)) (players : ℕ)
        → audit_of number (line ∷ lines) ≡ Some (Accepted settlement all_in names players)
        → (found : Point) → point header players (events_of header lines) ≡ Some found
        → All (IsKnownOn header players (events_of header lines) found)
        (states_of header players (events_of header lines)) }
{
    law_places_are_apart();
    law_cards_belong();
    law_whole_boards();
    law_a_table_shows_each_seat();
    law_a_table_shows_dead_cards();
}

/// A law on the order of later streets. Of a hand that is accepted and has an all-in point: each street
/// after it is the one that comes next in the game after the one before, and the first is the one after
/// that of the point.
pub fn law_later_streets_come_in_order()
    ensures { (number : ℕ) (line : List ℕ) (lines : List (List ℕ)) (header : Header)
        → header_of line ≡ Ok header
        → (settlement : Settlement) (all_in : AllIn) (names : List (ℕ × List ℕ)) (players : ℕ)
        → audit_of number (line ∷ lines) ≡ Some (Accepted settlement all_in names players)
        → (found : Point) → point header players (events_of header lines) ≡ Some found
        → ComeInOrder header.game found.street
        (map (λ (state : StreetState). state.street)
        (states_of header players (events_of header lines))) }
{}
