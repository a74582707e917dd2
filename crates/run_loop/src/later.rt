//! The later streets of a counted all-in are counted.

ghost use Rattle.std.specs.Prelude.{◌≡◌, ℕ, List, All, Some, true};
ghost use Rattle.hand_audit.specs.LaterCards.{KnowsNoLessThan};
ghost use Rattle.hand_audit.specs.Streets.{streets_of, table_in};
ghost use Rattle.hand_audit.specs.Verdict.{audit_of};
ghost use Rattle.hand_blocks.specs.Streets.{IsCountedStreet, has_counted};
ghost use Rattle.even_luck.specs.Figures.{is_counted};
ghost use Rattle.showdown_tally.specs.Deals.{deal_of};
ghost use Rattle.showdown_tally.specs.declared.table.Table.{Table};

use hand_audit::law_later_streets_know_no_less;
use hand_verdict::{AllIn, HandAudit, StreetState};
use runout_ranges::law_no_more_runouts;
use showdown_tally::Table;

/// A law: the table of a later street that knows no less than the table of an all-in is counted if the table of the all-in is.
fn is_counted_street(table: &Table, state: &StreetState)
    ensures { KnowsNoLessThan table.now state.now → is_counted (deal_of table.now) ≡ true
        → IsCountedStreet state.now }
{
    if let Some(later) = &state.table {
        law_no_more_runouts(&table.known, &later.known);
    }
}

/// A law: `is_counted_street` holds of each of these streets.
fn are_counted_streets(table: &Table, states: &[StreetState])
    ensures { All (KnowsNoLessThan table.now) states.now → is_counted (deal_of table.now) ≡ true
        → All IsCountedStreet states.now }
{
    for state in states {
        is_counted_street(table, state);
    }
}

/// A law: if an all-in is counted, each later street that knows no less is counted.
fn are_counted_behind(all_in: &AllIn, states: &[StreetState])
    ensures { (table : Table) → table_in all_in.now ≡ Some table
        → All (KnowsNoLessThan table) states.now → is_counted (deal_of table) ≡ true
        → All IsCountedStreet states.now }
{
    match all_in {
        AllIn::Known { table, .. } => are_counted_streets(table, states),
        AllIn::None | AllIn::Unknown => {}
    }
}

/// A law: if the all-in of a hand is counted, so is each later street whose cards are known. Enough cards are left for the
/// street, and it has at most RUNOUT_MAX runouts.
pub fn law_later_streets_are_counted(audit: &HandAudit, states: &[StreetState])
    ensures { (first : ℕ) (lines : List (List ℕ)) → audit_of first lines ≡ Some audit.now
        → states.now ≡ streets_of audit.now lines → has_counted audit.now ≡ true
        → All IsCountedStreet states.now }
{
    law_later_streets_know_no_less();
    match audit {
        HandAudit::Accepted { all_in, .. } => are_counted_behind(all_in, states),
        HandAudit::Rejected { .. } => {}
    }
}
