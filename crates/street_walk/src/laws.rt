//! The law of streets. Each law is a call that does nothing.

ghost use Rattle.std.specs.Prelude.{◌≡◌, ℕ, ◌*◌, List, length};
ghost use Rattle.card_sets.specs.State.{State, state_of};
ghost use Rattle.runout_ranges.specs.Runouts.{HasMember};
ghost use Rattle.street_walk.specs.Streets.{GoesOn, after, choices_of, divisions};
ghost use Rattle.street_walk.specs.StreetSums.{IsKnown, IsStreetLaw, over_choices, over_runouts};

use card_sets::{CardSet, Known};

/// The board and the hands are sets of cards, and there are ten places for hands.
pub(crate) fn known_sets(known: &Known)
    ensures sets { IsKnown (state_of known.now) }
    ensures ten { length known.now.hands ≡ 10 }
{
    let _hands: &[CardSet] = &known.hands;
    known.board.rising();
    for hand in &known.hands[..known.count as usize] {
        let hand = *hand;
        hand.rising();
    }
}

/// After the next street a board that had fewer than three cards has three, and another board that wasn't
/// full has one more. A hand of stud that wasn't full has one more card, and a hand of another game is
/// full.
pub fn law_streets_go_on(known: &Known)
    ensures { (sets : List (List ℕ)) → HasMember (choices_of (state_of known.now)) sets
        → GoesOn (state_of known.now) (after (state_of known.now) sets) }
{
    known_sets(known);
}

/// Summed over all choices of the next street's cards, each number of the whole count is that of the deal
/// itself, times the number of ways in which one runout divides into the street's cards and the rest.
pub fn law_streets_add_up(known: &Known)
    ensures { (pots : List (List ℕ))
        → IsStreetLaw record { state = state_of known.now; pots = pots } }
{
    known_sets(known);
}

/// Takes any number that depends on the final cards. Summed over all runouts and then over all choices of
/// the next street's cards, it is its sum over all runouts, times the number of ways in which one runout
/// divides.
pub fn law_final_cards_add_up(known: &Known)
    ensures { (number : State → ℕ) → over_choices (over_runouts number) (state_of known.now)
        ≡ divisions (state_of known.now) * over_runouts number (state_of known.now) }
{
    known_sets(known);
}
