//! The machine, event by event, and its law for a job of two blocks.

ghost use Rattle.std.specs.Prelude.{◌≡◌, None, [], ◌∷◌, IfOk};

use crate::spots::job_of;
use card_sets::Memory;
use equity_job::Job;
use std::alloc::Global;
use std::test::Fail;
use steal_core::{
    Blocks, CoreEvent, Hands, Queues, State, Stepped, law_all_booked, run_core, step,
};

/// Worker 0 steals the block of worker 1 and books it, and then its own. Worker 1 finds nothing left.
const STOLEN: [CoreEvent; 5] = [
    CoreEvent::Steal {
        worker: 0,
        victim: 1,
    },
    CoreEvent::Book { worker: 0 },
    CoreEvent::Pop { worker: 0 },
    CoreEvent::Book { worker: 0 },
    CoreEvent::Pop { worker: 1 },
];

/// Events that are refused while no worker holds a block.
const WRONG: [CoreEvent; 9] = [
    CoreEvent::Push {
        worker: 2,
        block: 2,
    },
    CoreEvent::Pop { worker: 2 },
    CoreEvent::Steal {
        worker: 0,
        victim: 0,
    },
    CoreEvent::Steal {
        worker: 0,
        victim: 2,
    },
    CoreEvent::Steal {
        worker: 2,
        victim: 0,
    },
    CoreEvent::Book { worker: 0 },
    CoreEvent::Book { worker: 2 },
    CoreEvent::Push {
        worker: u32::MAX,
        block: 0,
    },
    CoreEvent::Book { worker: u32::MAX },
];

/// Events that are refused to a worker that holds a block.
const FULL: [CoreEvent; 2] = [
    CoreEvent::Pop { worker: 0 },
    CoreEvent::Steal {
        worker: 0,
        victim: 1,
    },
];

const POP_OF_0: CoreEvent = CoreEvent::Pop { worker: 0 };

const POP_OF_1: CoreEvent = CoreEvent::Pop { worker: 1 };

const PUSH_TO_1: CoreEvent = CoreEvent::Push {
    worker: 1,
    block: 7,
};

/// Two workers, each with one block in its queue.
fn two_queues(alloc: Global) -> Result<State, Memory>
    ensures { IfOk result
        (λ s. s
        ≡ record { queues = (0 ∷ []) ∷ (1 ∷ []) ∷ []; held = None ∷ None ∷ []; booked = [] }) }
{
    let first = Blocks::of(Vec::from_slice(alloc, &[0])?);
    let second = Blocks::of(Vec::from_slice(alloc, &[1])?);
    let mut queues = Vec::new(alloc);
    queues.reserve(2)?;
    queues.push_reserved(first);
    queues.push_reserved(second);
    Ok(State {
        queues: Queues::of(queues),
        held: Hands::of(Vec::from_slice(alloc, &[None, None])?),
        booked: Blocks::of(Vec::new(alloc)),
    })
}

/// Returns what `two_queues` returns, or `None` if out of memory.
fn queues_of_two(alloc: Global) -> Option<State> {
    two_queues(alloc).ok()
}

/// Returns the state after some events, and the number of refused events, or `None` if out of memory.
fn behind(alloc: Global, start: &State, events: &[CoreEvent]) -> Option<(State, u64)> {
    run_core(alloc, start, events).ok()
}

/// Returns whether a worker's queue has these blocks.
fn has_queue(state: &State, worker: usize, blocks: &[u32]) -> bool {
    match state.queues.items().get(worker) {
        Some(queue) => queue.items() == blocks,
        None => false,
    }
}

/// Returns whether the workers hold these blocks.
fn holds(state: &State, held: &[Option<u32>]) -> bool {
    state.held.items() == held
}

/// Returns whether these blocks are booked.
fn has_booked(state: &State, blocks: &[u32]) -> bool {
    state.booked.items() == blocks
}

/// Returns whether an event is done.
fn is_done(state: &mut State, event: CoreEvent) -> bool {
    step(state, event) == Ok(Stepped::Done)
}

/// Returns the place of the first of some events that isn't refused.
fn not_refused(state: &mut State, events: &[CoreEvent]) -> Option<usize> {
    for (place, event) in events.iter().enumerate() {
        if step(state, *event) != Ok(Stepped::Refused) {
            return Some(place);
        }
    }
    None
}

/// One hand draws none and the other draws four of 43 cards, in 123,410 ways.
const TWO_BLOCKS: &[u8] = b"lowball27 7c 5d 4h 3s 2c - 8d / 2d 2h 2s";

/// Returns what the law states of a job of two blocks, or `None` for another job.
fn booked_of_two(alloc: Global, job: &Job) -> Result<Option<State>, Memory> {
    if job.blocks() != 2 {
        return Ok(None);
    }
    let start = two_queues(alloc)?;
    let last = law_all_booked(alloc, job, &start, &STOLEN)?;
    Ok(Some(last))
}

/// Returns whether two workers have these blocks in their queues and in their hands, and these are
/// booked.
fn is_state(state: &State, queues: [&[u32]; 2], held: &[Option<u32>], booked: &[u32]) -> bool {
    has_queue(state, 0, queues[0])
        && has_queue(state, 1, queues[1])
        && holds(state, held)
        && has_booked(state, booked)
}

/// Returns whether a state is that of the two queues.
fn is_start(state: &State) -> bool {
    is_state(state, [&[0], &[1]], &[None, None], &[])
}

/// Returns whether the thief has booked both blocks.
fn is_stolen(state: &State) -> bool {
    is_state(state, [&[], &[]], &[None, None], &[1, 0])
}

/// Returns whether worker 0 holds its block.
fn is_popped(state: &State) -> bool {
    is_state(state, [&[], &[1]], &[Some(0), None], &[])
}

/// Returns whether worker 1 holds its block, with another after it.
fn is_pushed(state: &State) -> bool {
    is_state(state, [&[0], &[7]], &[None, Some(1)], &[])
}

#[test]
fn a_stolen_block_is_booked_by_the_thief(rt: HostRuntime) -> Result<(), Fail> {
    let start = queues_of_two(rt.alloc()).ok_or("memory")?;
    let (last, refused) = behind(rt.alloc(), &start, &STOLEN).ok_or("memory")?;
    assert_eq!(rt; refused, 1, "the refused events");
    assert!(rt; is_stolen(&last), "the thief has booked both blocks");
    assert!(rt;
        is_start(&start),
        "the state before the events is unchanged"
    );
    Ok(())
}

#[test]
fn both_blocks_of_a_job_are_booked(rt: HostRuntime) -> Result<(), Fail> {
    let job = job_of(TWO_BLOCKS).ok_or("no job")?;
    let last = booked_of_two(rt.alloc(), &job).ok().ok_or("memory")?;
    let last = last.ok_or("not two blocks")?;
    assert!(rt; is_stolen(&last), "the thief has booked both blocks");
    Ok(())
}

#[test]
fn a_refused_event_changes_nothing(rt: HostRuntime) -> Result<(), Fail> {
    let mut state = queues_of_two(rt.alloc()).ok_or("memory")?;
    assert_eq!(rt; not_refused(&mut state, &WRONG), None);
    assert!(rt; is_start(&state), "the refused events change nothing");
    assert!(rt; is_done(&mut state, POP_OF_0), "worker 0 takes its block");
    assert_eq!(rt; not_refused(&mut state, &FULL), None);
    assert!(rt;
        is_popped(&state),
        "the refused events of a worker with a block change nothing"
    );
    Ok(())
}

#[test]
fn a_pushed_block_comes_last(rt: HostRuntime) -> Result<(), Fail> {
    let mut state = queues_of_two(rt.alloc()).ok_or("memory")?;
    assert!(rt;
        is_done(&mut state, PUSH_TO_1),
        "worker 1 gets another block"
    );
    assert!(rt; is_done(&mut state, POP_OF_1), "worker 1 takes a block");
    assert!(rt;
        is_pushed(&state),
        "worker 1 has its own block, and the other is left"
    );
    Ok(())
}
