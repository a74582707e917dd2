//! Sums of what the hands of an all-in could expect, and of what they would have received with even luck.

ghost use Rattle.std.specs.Prelude.{◌≡◌, ◌<◌, ℕ, List, length, true, false};
ghost use Rattle.card_sets.specs.Games.{has_side};
ghost use Rattle.card_sets.specs.declared.games.Side.{Side};
ghost use Rattle.hand_verdict.specs.declared.settlement.PotLine.{PotLine};
ghost use Rattle.hand_verdict.specs.declared.settlement.Settlement.{Settlement};
ghost use Rattle.report_laws.specs.EvenLaws.{EvenIsKnown, EvenIsNear, ExpectIsNearest};
ghost use Rattle.report_laws.specs.ExpectLaws.{EvenAddsUp, GivesAll, HasLows, HasPlayers};
ghost use Rattle.showdown_tally.specs.Deals.{deal_of};
ghost use Rattle.showdown_tally.specs.Tallies.{runouts_after};

use card_sets::{CardSet, Known};
use showdown_tally::{Table, law_pots_are_given_out};

/// There are ten places for hands.
fn ten_hands(known: &Known)
    ensures { length known.now.hands ≡ 10 }
{
    let _hands: &[CardSet] = &known.hands;
}

/// A law: before rounding, the expectations of the hands of a counted all-in add up to the units in the
/// pots, over all runouts and in 1/5040 of a unit of money. In a game with a high, each pot must have a
/// hand that may win it. In a game with only a low, each pot must have a winner in every runout.
pub fn law_expectations_add_up_to_the_pots(table: &Table)
    ensures high { (pots : List PotLine) → has_side Side.High table.now.known.game ≡ true
        → HasPlayers (deal_of table.now) → GivesAll pots (deal_of table.now) }
    ensures low { (pots : List PotLine) → has_side Side.High table.now.known.game ≡ false
        → HasLows (deal_of table.now) → GivesAll pots (deal_of table.now) }
{
    ten_hands(&table.known);
    law_pots_are_given_out();
}

/// A law: before rounding, what the contenders of a counted all-in would have received with even luck adds
/// up to what they received from the pots, so luck only moves units between them. In a game with a high,
/// each pot must have a hand that may win it. In a game with only a low, each pot must have a winner in
/// every runout.
pub fn law_even_luck_adds_up_to_what_was_got(table: &Table)
    ensures high { (pots : List PotLine) (seats : List ℕ)
        → has_side Side.High table.now.known.game ≡ true → HasPlayers (deal_of table.now)
        → EvenAddsUp pots seats (deal_of table.now) }
    ensures low { (pots : List PotLine) (seats : List ℕ)
        → has_side Side.High table.now.known.game ≡ false → HasLows (deal_of table.now)
        → EvenAddsUp pots seats (deal_of table.now) }
{
    law_expectations_add_up_to_the_pots(table);
}

/// A law: what the hands of a counted all-in would have received with even luck, each rounded, adds up to
/// what their players received from the pots, within half a unit for each hand. In a game with a high,
/// each pot must have a hand that may win it. In a game with only a low, each pot must have a winner in
/// every runout.
pub fn law_even_luck_is_near_what_was_got(table: &Table)
    ensures high { (s : Settlement) (seats : List ℕ)
        → has_side Side.High table.now.known.game ≡ true → HasPlayers (deal_of table.now)
        → 0 < length (runouts_after (deal_of table.now).state)
        → EvenIsNear s seats (deal_of table.now) }
    ensures low { (s : Settlement) (seats : List ℕ)
        → has_side Side.High table.now.known.game ≡ false → HasLows (deal_of table.now)
        → 0 < length (runouts_after (deal_of table.now).state)
        → EvenIsNear s seats (deal_of table.now) }
{
    law_even_luck_adds_up_to_what_was_got(table);
}

/// A law: the expectation of a hand of a counted all-in over all pots is rounded once, to the nearest
/// unit, a half up.
pub fn law_expectations_are_rounded_once()
    ensures { ExpectIsNearest }
{}

/// A law: even luck is known for a hand without an all-in, and for a hand whose all-in is counted and
/// whose pot names fit, for all its seats. For other hands it is known for no seat.
pub fn law_even_luck_is_known_by_the_hand()
    ensures { EvenIsKnown }
{}
