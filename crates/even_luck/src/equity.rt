//! What is known of how the runouts of a table end.

ghost use Rattle.std.specs.Prelude.{◌≡◌, ◌<◌, IfSome, is_some};
ghost use Rattle.even_luck.specs.Equities.{IsEquityOf, IsFull};
ghost use Rattle.even_luck.specs.Figures.{is_counted};
ghost use Rattle.showdown_tally.specs.Deals.{deal_of};

use runout_ranges::JobFault;
use showdown_tally::{Table, Tally};

/// What is known of an equity.
#[derive(Drop)]
pub enum Equity {
    /// It isn't asked for.
    NotAsked,
    /// It isn't counted, for this reason.
    Refused(JobFault),
    /// It is counted over all runouts.
    Counted(Tally),
}

impl Equity {
    ghost use Rattle.std.specs.Prelude.{◌≡◌, IfErr, IfOk, IsTrue};
    ghost use Rattle.even_luck.specs.Equities.{is_asked};
    ghost use Rattle.even_luck.specs.declared.equity.Equity.TheVariants.{Counted, Refused};

    /// Whether it is asked for.
    pub fn is_asked(&self) -> bool
        ensures { result ≡ is_asked self.now }
    {
        match self {
            Equity::NotAsked => false,
            Equity::Refused(_) | Equity::Counted(_) => true,
        }
    }

    /// Returns the tally of an equity that was asked for, or the reason why it isn't counted.
    pub fn answer(&self) -> Result<&Tally, JobFault>
        requires asked { IsTrue (is_asked self.now) }
        ensures counted { IfOk result (λ tally. self.now ≡ Counted tally.now) }
        ensures refused { IfErr result (λ fault. self.now ≡ Refused fault) }
    {
        match self {
            Equity::Counted(tally) => Ok(tally),
            Equity::Refused(fault) => Err(*fault),
            Equity::NotAsked => unreachable!(),
        }
    }

    /// Returns the tally of a table with this equity, if the equity is counted and the table has a runout. Otherwise fewer cards
    /// may come than are lacking, or there are too many runouts.
    pub fn counted(&self, table: &Table) -> Option<&Tally>
        requires { IsEquityOf (deal_of table.now) self.now }
        ensures counted { is_some result ≡ is_counted (deal_of table.now) }
        ensures full { IfSome result (λ tally. IsFull (deal_of table.now) tally.now) }
        ensures some { IfSome result (λ tally. 0 < tally.now.runouts) }
    {
        match self.answer() {
            Ok(tally) => with_runout(table, tally),
            Err(_) => None,
        }
    }
}

/// Returns a tally of all runouts of a table, if there is one. With none, fewer cards may come than are lacking.
fn with_runout<'a>(_table: &Table, tally: &'a Tally) -> Option<&'a Tally>
    requires { IsFull (deal_of _table.now) tally.now }
    ensures counted { is_some result ≡ is_counted (deal_of _table.now) }
    ensures full { IfSome result (λ tally. IsFull (deal_of _table.now) tally.now) }
    ensures some { IfSome result (λ tally. 0 < tally.now.runouts) }
{
    if tally.runouts() == 0 {
        return None;
    }
    Some(tally)
}
