//! The whole counts after each choice of the next street's cards, summed.

ghost use Rattle.std.specs.Prelude.{◌≡◌, ◌+◌, ◌*◌, ◌<◌, ◌≤◌, ◌↔◌, length, IfOk, IfErr, IsTrue};
ghost use Rattle.std.specs.Result.{IsErrOf};
ghost use Rattle.card_sets.specs.State.{state_of};
ghost use Rattle.runout_ranges.specs.Runouts.{HasMember};
ghost use Rattle.runout_ranges.specs.Shapes.{IsShapeOf, runouts_of};
ghost use Rattle.showdown_tally.specs.Deals.{deal_of};
ghost use Rattle.showdown_tally.specs.Tallies.{Counts, runouts_after};
ghost use Rattle.runout_ranges.specs.Jobs.{IsDeckShort};
ghost use Rattle.street_walk.specs.Streets.{IsNextOf, IsLastStreet, after};
ghost use Rattle.street_walk.specs.StreetSums.{deal_after, IsStreetSum, IsDivided, AreTooMany};

use crate::after::after_street;
use crate::laws::{known_sets, law_streets_add_up};
use crate::next::{divisions, next_street};
use card_sets::Known;
use equity_job::{Job, RUNOUT_MAX, Scratch, count_blocks};
use runout_ranges::{Runout, Shape, advance, count_runouts, first_runout, shape};
use showdown_tally::{Table, Tally};
use std::sync::ledger::Ledger;
use step_count::Steps;

/// Why a street isn't summed.
#[derive(Clone, Copy, PartialEq, Eq)]
pub enum StreetFault {
    /// Fewer cards may come than the board and the hands lack.
    DeckShort,
    /// No card is lacking.
    LastStreet,
    /// There are more than `RUNOUT_MAX` runouts after all choices.
    AboveLimit,
}

/// Sets a tally to the whole count after a choice of the next street's cards. It takes one step for each
/// runout.
fn count_after<L: Ledger>(
    table: &Table,
    step: &Shape,
    choice: &Runout,
    scratch: &mut Scratch,
    tally: &mut Tally,
    steps: &mut Steps<L>,
)
    // The choice is one of the next street's cards.
    requires next { IsNextOf (state_of table.now.known) step.now }
    requires choice { HasMember (runouts_of step.now) choice.now }

    // The deck has enough cards, and all choices together have no more runouts than may be counted. So has
    // this choice.
    requires enough { ¬ IsDeckShort (state_of table.now.known) }
    requires few { ¬ AreTooMany (state_of table.now.known) }

    // Whatever the tally was, it is then that of the table as it is known after the choice.
    ensures counts { Counts (deal_after (deal_of table.now) choice.now)
        (runouts_after (after (state_of table.now.known) choice.now)) tally.new }

    // After each choice there is a way to deal the rest, and each way takes a step.
    ensures some { 0 < tally.new.runouts }
    ensures steps { steps.new ≡ steps.old + tally.new.runouts }
{
    law_streets_add_up(&table.known);
    known_sets(&table.known);
    let later = Table {
        known: after_street(&table.known, step, choice),
        pots: table.pots,
        eligible: table.eligible,
    };
    match Job::make(&later) {
        Ok(job) => count_blocks(&job, scratch, tally, steps),
        Err(_) => unreachable!(),
    }
}

/// Returns the whole counts after all choices of the next street's cards, summed. It takes one step for
/// each runout.
fn sum_choices<L: Ledger>(
    table: &Table,
    step: &Shape,
    scratch: &mut Scratch,
    steps: &mut Steps<L>,
) -> Tally
    // The shape is that of the next street, the deck has enough cards, and all choices together have few
    // enough runouts.
    requires next { IsNextOf (state_of table.now.known) step.now }
    requires enough { ¬ IsDeckShort (state_of table.now.known) }
    requires few { ¬ AreTooMany (state_of table.now.known) }

    // The result is the sum by its definition, choice by choice. It also is a multiple of the table's own
    // count.
    ensures sum { IsStreetSum (deal_of table.now) result }
    ensures divided { IsDivided (deal_of table.now) result }
    ensures steps { steps.new ≡ steps.old + result.runouts }
{
    law_streets_add_up(&table.known);
    let mut choice = Runout::new();
    first_runout(step, &mut choice);
    let mut total = Tally::zero();
    let mut tally = Tally::zero();
    loop {
        count_after(table, step, &choice, scratch, &mut tally, steps);
        total.add(&tally);
        if !advance(step, &mut choice) {
            return total;
        }
    }
}

/// Returns whether there are more than `RUNOUT_MAX` runouts after all choices of the next street's cards.
fn are_too_many(known: &Known, whole: &Shape) -> bool
    requires whole { IsShapeOf (state_of known.now) whole.now }
    requires enough { ¬ IsDeckShort (state_of known.now) }
    ensures { IsTrue result ↔ AreTooMany (state_of known.now) }
{
    let Ok(runouts) = count_runouts(whole, RUNOUT_MAX) else {
        return true;
    };
    let Some(all) = divisions(known).checked_mul(runouts) else {
        return true;
    };
    all > RUNOUT_MAX
}

/// Returns the whole counts after all choices of the next street's cards, summed: those of the table
/// itself, times the number of ways in which one runout divides into the street's cards and the rest. It
/// takes one step for each runout, and no memory.
///
/// `DeckShort` exactly if fewer cards may come than are lacking, `LastStreet` exactly if no card is
/// lacking, and
/// `AboveLimit` exactly if neither holds and the sum has more than `RUNOUT_MAX` runouts.
pub fn street_sum<L: Ledger>(
    table: &Table,
    scratch: &mut Scratch,
    steps: &mut Steps<L>,
) -> Result<Tally, StreetFault>
    // The result is the sum by its definition, choice by choice. It also is a multiple of the table's own
    // count.
    ensures sum { IfOk result (λ tally. IsStreetSum (deal_of table.now) tally) }
    ensures divided { IfOk result (λ tally. IsDivided (deal_of table.now) tally) }
    ensures steps { IfOk result (λ tally. steps.new ≡ steps.old + tally.runouts) }

    // A refusal comes before the first step.
    ensures still { IfErr result (λ fault. steps.new ≡ steps.old) }

    // Each refusal comes exactly if its cause holds. A short deck and the last street exclude each other.
    ensures short { IsErrOf result StreetFault.DeckShort ↔ IsDeckShort (state_of table.now.known) }
    ensures last { IsErrOf result StreetFault.LastStreet ↔ IsLastStreet (state_of table.now.known) }
    ensures above { IsErrOf result StreetFault.AboveLimit
        ↔ ((¬ IsDeckShort (state_of table.now.known)) × (¬ IsLastStreet (state_of table.now.known))
        × AreTooMany (state_of table.now.known)) }
{
    let Some(whole) = shape(&table.known) else {
        return Err(StreetFault::DeckShort);
    };
    let Some(step) = next_street(&table.known) else {
        return Err(StreetFault::LastStreet);
    };
    if are_too_many(&table.known, &whole) {
        return Err(StreetFault::AboveLimit);
    }
    Ok(sum_choices(table, &step, scratch, steps))
}
