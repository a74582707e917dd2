//! What the totals say about the hands.

ghost use Rattle.std.specs.Prelude.{◌≡◌, List, count_by};
ghost use Rattle.std.specs.List.{IsDistinct, list_any};
ghost use Rattle.std.specs.Map.{keys_of};
ghost use Rattle.hand_verdict.specs.declared.verdicts.HandAudit.{HandAudit};
ghost use Rattle.player_totals.specs.Totals.{Player, players_in, same_player, sums_over, totals_of};
ghost use Rattle.report_laws.specs.TotalLaws.{SumAllIns};

/// A law: no two lines of the totals have one name and one unit.
pub fn law_no_player_is_listed_twice()
    ensures { (hands : List HandAudit)
        → IsDistinct same_player (keys_of (totals_of hands).players) }
{}

/// A law: the hands of a name in a unit are those in which it is a player.
pub fn law_hands_are_those_that_are_played()
    ensures { (hands : List HandAudit) (player : Player)
        → (sums_over hands player).hands
        ≡ count_by (λ hand. list_any (same_player player) (players_in hand)) hands }
{}

/// A law: the all-ins of a name in a unit are the counted ones in which it has a hand of the table. Its
/// collections are those of these hands, and its expectation is rounded in each of them before they are
/// summed. Other hands add nothing.
pub fn law_totals_sum_counted_all_ins()
    ensures { (hands : List HandAudit) (player : Player) → SumAllIns hands player }
{}
