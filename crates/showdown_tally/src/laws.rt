//! What holds of the definitions: each runout is counted once, each pot is given out whole, and
//! numbers keep the order of hands.

ghost use Rattle.std.specs.Prelude.{◌≡◌, ℕ, ◌<◌, ◌≤◌, List, Some, length, true, false};
ghost use Rattle.card_sets.specs.declared.games.Game.{Game};
ghost use Rattle.card_sets.specs.declared.games.Side.{Side};
ghost use Rattle.card_sets.specs.Games.{has_side};
ghost use Rattle.showdown_tally.specs.Showdown.{Showdown, best, eligible_in, winners};
ghost use Rattle.showdown_tally.specs.Laws.{EndsOneWay, AddUp, IsFull, KeepOrder};

use card_sets::{Game, Side};

/// For a hand that plays for a side of a pot, its wins, ties and losses over any runouts are as
/// many as there are runouts. A hand that isn't eligible has none.
pub fn law_each_runout_ends_one_way()
    ensures { (deal : Showdown) (all : List (List (List ℕ))) (pot hand : ℕ) (side : Side)
        → EndsOneWay deal all pot hand side }
{}

/// In a game with a high, whether it has a low or not, the units of the eligible hands of a pot, of
/// which there are one to ten, add up to the whole pot after each runout. In a game with a low alone
/// they do where somebody wins it.
pub fn law_pots_are_given_out()
    ensures high { (deal : Showdown) (runout : List (List ℕ)) (pot : ℕ)
        → has_side Side.High deal.state.game ≡ true
        → 0 < length (eligible_in deal pot) → length (eligible_in deal pot) ≤ 10
        → AddUp deal runout pot }
    ensures low { (deal : Showdown) (runout : List (List ℕ)) (pot : ℕ)
        → has_side Side.High deal.state.game ≡ false
        → 0 < length (winners deal pot Side.Low runout) → length (eligible_in deal pot) ≤ 10
        → AddUp deal runout pot }
{}

/// In each game and on each side, the value of a full hand beats that of another exactly where the
/// number that it is kept as is the greater.
pub fn law_values_keep_order()
    ensures { (side : Side) (game : Game)
        (own board value rival_own rival_board rival_value : List ℕ)
        → IsFull game own board → best side game own board ≡ Some value
        → IsFull game rival_own rival_board
        → best side game rival_own rival_board ≡ Some rival_value
        → KeepOrder side game value rival_value }
{}
