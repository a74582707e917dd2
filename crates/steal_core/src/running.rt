//! One event after another.

ghost use Rattle.std.specs.Prelude.{◌≡◌, ◌≤◌, IfOk};
ghost use Rattle.showdown_tally.specs.Deals.{deal_of};
ghost use Rattle.steal_core.specs.Machine.{run, refusals, one_if};
ghost use Rattle.steal_core.specs.Interleavings.{IsFair, IsInterleaved};

use crate::{CoreEvent, State, Stepped, step};
use card_sets::Memory;
use job_blocks::Job;
use std::alloc::Global;

/// Returns the state after a list of events, and the number of refused events.
pub fn run_core(alloc: Global, start: &State, events: &[CoreEvent]) -> Result<(State, u64), Memory>
    ensures last { IfOk result (λ end. end.0 ≡ run start.now events.now) }
    ensures refused { IfOk result (λ end. end.1 ≡ refusals start.now events.now) }
{
    let mut state = start.copied(alloc)?;
    let mut refused: u64 = 0;
    for event in events {
        let stepped = step(&mut state, *event)?;
        refused += one_if_refused(stepped);
    }
    Ok((state, refused))
}

/// Returns what `run_core` returns, for a state in which nothing is in a hand or booked and each block of
/// the job is once in a queue or once pushed. Whatever the events and their order are, no block is lost
/// and none is booked twice.
pub fn law_all_booked(
    alloc: Global,
    job: &Job,
    start: &State,
    events: &[CoreEvent],
) -> Result<State, Memory>
    requires fair { IsFair (deal_of job.now.table) start.now events.now }
    ensures last { IfOk result (λ state. state ≡ run start.now events.now) }
    ensures law { IsInterleaved (deal_of job.now.table) start.now events.now }
{
    Ok(run_core(alloc, start, events)?.0)
}

/// Returns 1 for a refusal, and 0 otherwise.
fn one_if_refused(stepped: Stepped) -> u64
    ensures value { result ≡ one_if stepped }
    ensures most { result ≤ 1 }
{
    match stepped {
        Stepped::Done => 0,
        Stepped::Refused => 1,
    }
}
