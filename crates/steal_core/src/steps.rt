//! One event.

ghost use Rattle.std.specs.Prelude.{◌≡◌, if◌then◌else◌, IfOk, OnOk, OnErr};
ghost use Rattle.steal_core.specs.Machine.{may_not_take, is_refused, taken, after, answer};
ghost use Rattle.steal_core.specs.declared.events.CoreEvent.TheVariants.{Push, Book};

use crate::{CoreEvent, State, Stepped};
use card_sets::Memory;

/// Applies one event. `Refused` exactly if a worker's number is out of range, the queue from which a block
/// is taken is empty, the hand isn't empty (pop, steal) or is empty (book), or a worker would steal from
/// itself. A refusal leaves the state unchanged, and so does `Memory`.
pub fn step(state: &mut State, event: CoreEvent) -> Result<Stepped, Memory>
    ensures answered { IfOk result (λ stepped. stepped ≡ answer (is_refused state.old event)) }
    ensures moved { OnOk result (state.new ≡ after state.old event) }
    ensures memory { OnErr result (state.new ≡ state.old) }
{
    match event {
        CoreEvent::Push { worker, block } => push(state, worker, block),
        CoreEvent::Pop { worker } => Ok(take(state, worker, worker)),
        CoreEvent::Steal { worker, victim } => {
            if worker == victim {
                return Ok(Stepped::Refused);
            }
            Ok(take(state, worker, victim))
        }
        CoreEvent::Book { worker } => book(state, worker),
    }
}

/// Applies a push.
fn push(state: &mut State, worker: u32, block: u32) -> Result<Stepped, Memory>
    ensures answered { IfOk result
        (λ stepped. stepped ≡ answer (is_refused state.old (Push worker block))) }
    ensures moved { OnOk result (state.new ≡ after state.old (Push worker block)) }
    ensures memory { OnErr result (state.new ≡ state.old) }
{
    if !state.has(worker) {
        return Ok(Stepped::Refused);
    }
    state.queues.push_at(worker, block)?;
    Ok(Stepped::Done)
}

/// Applies a pop, if the victim is the worker, or a steal.
fn take(state: &mut State, worker: u32, victim: u32) -> Stepped
    ensures answered { result ≡ answer (may_not_take state.old worker victim) }
    ensures moved { state.new
        ≡ (if may_not_take state.old worker victim then state.old else taken state.old worker
        victim) }
{
    if state.may_not_take(worker, victim) {
        return Stepped::Refused;
    }
    let front = state.queues.take_front_at(victim);
    state.held.put(worker, front);
    Stepped::Done
}

/// Applies a booking.
fn book(state: &mut State, worker: u32) -> Result<Stepped, Memory>
    ensures answered { IfOk result
        (λ stepped. stepped ≡ answer (is_refused state.old (Book worker))) }
    ensures moved { OnOk result (state.new ≡ after state.old (Book worker)) }
    ensures memory { OnErr result (state.new ≡ state.old) }
{
    if !state.has(worker) {
        return Ok(Stepped::Refused);
    }
    let Some(block) = state.held.at(worker) else {
        return Ok(Stepped::Refused);
    };
    state.booked.push(block)?;
    state.held.put(worker, None);
    Ok(Stepped::Done)
}
