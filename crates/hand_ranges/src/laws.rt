//! Laws of choices of one hand from each range: each function is empty, and its clauses are the laws.

ghost use Rattle.std.specs.Prelude.{◌≡◌, ℕ, ◌+◌, ◌*◌, ◌<◌, List, [], length, true};
ghost use Rattle.std.specs.List.{sum_by};
ghost use Rattle.runout_ranges.specs.Runouts.{HasMember};
ghost use Rattle.range_lines.specs.declared.spot.Weighted.{Weighted};
ghost use Rattle.range_lines.specs.Choices.{choices, full_runouts, full_weight, is_disjoint, numbers_below, runouts_of_choice, walked, weight_of};
ghost use Rattle.range_lines.specs.Counted.{IsSpotOf, losses_of, ties_of, units_of, wins_of};
ghost use Rattle.range_lines.specs.Sound.{IsSound};
ghost use Rattle.range_lines.specs.RangeSpot.{ranges_in};

use range_lines::RangeSpot;
use showdown_tally::{law_each_runout_ends_one_way, law_pots_are_given_out};

/// What a walk adds up that goes from range to range, and drops a hand as soon as it shares a card
/// with one taken before, is the sum over all choices, whatever number is added up.
pub fn law_choices_are_walked()
    ensures { (ranges : List (List Weighted)) (number : List Weighted → ℕ)
        → sum_by number (choices ranges) ≡ walked ranges [] number }
{}

/// Each choice in which no card is in two hands has as many runouts as the numbers of cards say.
pub fn law_choices_have_equal_runouts(spot: &RangeSpot)
    requires { IsSound (ranges_in spot.now) }
    ensures { (choice : List Weighted) → HasMember (choices (ranges_in spot.now).ranges) choice
        → full_runouts spot.now.board spot.now.dead choice
        ≡ runouts_of_choice (ranges_in spot.now) }
{}

/// Each runout of each choice ends in one way for each player: his wins, ties and losses are together as
/// many as the runouts of all choices, each as often as it counts. And each pot is given out whole: the units
/// of all players are 5040 for each of them.
pub fn law_choices_are_given_out(spot: &RangeSpot)
    requires { IsSound (ranges_in spot.now) }
    ensures ends { (hand : ℕ) → hand < length (ranges_in spot.now).ranges
        → wins_of (ranges_in spot.now) hand + ties_of (ranges_in spot.now) hand
        + losses_of (ranges_in spot.now) hand
        ≡ runouts_of_choice (ranges_in spot.now) * full_weight (ranges_in spot.now).ranges }
    ensures units { sum_by (units_of (ranges_in spot.now))
        (numbers_below (length (ranges_in spot.now).ranges))
        ≡ 5040 * runouts_of_choice (ranges_in spot.now) * full_weight (ranges_in spot.now).ranges }
{
    law_each_runout_ends_one_way();
    law_pots_are_given_out();
}

/// Where each player has one hand, which counts once, the numbers are those of the spot with these hands.
pub fn law_one_hand_each_is_a_spot()
    ensures { (board dead : List ℕ) (choice : List Weighted)
        → is_disjoint choice ≡ true → weight_of choice ≡ 1
        → (hand : ℕ) → IsSpotOf board dead choice hand }
{}
