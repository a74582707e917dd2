//! What the lines of a settlement add up to.

ghost use Rattle.hand_laws.specs.Fitting.{OfFitting, OfSplit};
ghost use Rattle.report_laws.specs.KnownSettles.{SettlesWhatIsKnown};
ghost use Rattle.report_laws.specs.SettleLaws.{SettlesUp};

use hand_laws::law_players_are_due_what_they_got;

/// A law: the lines that say what each player must still receive or give back add up to 0. If the winners
/// of each pot are known, a player has such a line exactly if their dues over all pots differ from what
/// they received. The law is about a hand that is accepted and whose pot names fit, and about one that is
/// rejected only for its payments.
pub fn law_settle_lines_add_up()
    ensures accepted { OfFitting SettlesUp }
    ensures split { OfSplit (λ split. SettlesUp split.settlement split.players) }
{
    law_players_are_due_what_they_got();
}

/// A law: for a pot whose winners aren't known, `settle` says who received what, as a verdict does. The
/// block of a hand whose pot names don't fit is that of its verdict.
pub fn law_what_is_unknown_is_not_settled()
    ensures { SettlesWhatIsKnown }
{}
