//! What the balance of a run says about its hands, and what it adds up to if the hands are those of some
//! lines.

ghost use Rattle.std.specs.Prelude.{◌≡◌, All, List};
ghost use Rattle.std.specs.List.{IsDistinct};
ghost use Rattle.std.specs.Map.{keys_of};
ghost use Rattle.hand_verdict.specs.declared.seat_chips.AuditedChips.{AuditedChips};
ghost use Rattle.report_laws.specs.BalanceLaws.{IsAudited, LosesRakes, hands_of_unit};
ghost use Rattle.player_totals.specs.Balance.{balance_of, balance_over};
ghost use Rattle.player_totals.specs.Totals.{Player, same_player};

use hand_laws::law_nets_add_up_to_the_rake;

/// A law: no two lines of the balance have one name and one unit.
pub fn law_nobody_is_balanced_twice()
    ensures { (hands : List AuditedChips)
        → IsDistinct same_player (keys_of (balance_of hands).players) }
{}

/// A law: the row of a name in a unit depends only on the hands of that unit.
pub fn law_no_name_is_balanced_over_two_units()
    ensures { (hands : List AuditedChips) (player : Player)
        → balance_over hands player
        ≡ balance_over (hands_of_unit player.hundredths hands) player }
{}

/// A law: before anything is written, the nets of all names of a unit add up to minus the rake: the names
/// put in what they received plus the rakes of the accepted hands of the unit. The law is about hands of
/// some lines in which each player has a name of their own.
pub fn law_balances_add_up_to_the_rakes()
    ensures { (hands : List AuditedChips) → All IsAudited hands → LosesRakes hands }
{
    law_nets_add_up_to_the_rake();
}
