//! What is pushed to a deque before the start.

ghost use Rattle.std.specs.Prelude.{◌≡◌, ◌+◌, ◌-◌, ◌<◌, ◌≤◌, ◌++◌, [], ◌∷◌, true, if◌then◌else◌, length};
ghost use Rattle.crossbeam_deque.specs.Handles.{worker_view, worker_index, worker_capacity, worker_deque, worker_flavor, SameWorker};
ghost use Rattle.worker_seats.specs.Claims.{claim};
ghost use Rattle.worker_seats.specs.Lanes.{blocks_to, pushed_to};

use crate::claims::Pushes;
use crate::reaches::Owner;
use tally_book::Naming;

/// How many blocks go to a deque.
pub(crate) fn share_of(deque: u32, workers: u32, blocks: u32) -> u32
    requires { 0 < workers }
    ensures value { result ≡ length (blocks_to workers blocks deque) }
    ensures most { result ≤ blocks }
{
    let mut share = 0;
    for block in 0..blocks {
        share += one_if(block % workers == deque);
    }
    share
}

/// One or none.
fn one_if(counts: bool) -> u32
    ensures value { result ≡ (if counts then 1 else 0) }
    ensures most { result ≤ 1 }
{
    if counts { 1 } else { 0 }
}

/// Pushes a block, or an end mark. There is room.
fn push_one<N: Naming>(owner: &mut Owner<N>, block: u32)
    requires many { 0 < N.all - 1 }
    requires whole { (worker_view owner.old).stands_for ≡ N.all - 1 }
    requires room { worker_index owner.old < worker_capacity owner.old }
    ensures same { SameWorker owner.old owner.new
        × (worker_index owner.new ≡ worker_index owner.old + 1) }
    ensures pushed { worker_view owner.new
        ≡ claim (worker_view owner.old).stands_for ((worker_view owner.old).pushed ++ block ∷ [])
        (worker_view owner.old).taken }
{
    match owner.push_as::<Pushes>(block) {
        Ok(()) => {}
        Err(_) => unreachable!(),
    }
}

/// Pushes a block that belongs to the deque.
fn push_where<N: Naming>(owner: &mut Owner<N>, here: bool, block: u32)
    // There are workers, and until they start the owner's pass stands for all of them.
    requires many { 0 < N.all - 1 }
    requires whole { (worker_view owner.old).stands_for ≡ N.all - 1 }

    // There is room for the block, if it belongs here.
    requires room { here ≡ true → worker_index owner.old < worker_capacity owner.old }

    // The pass knows it as pushed after all others.
    ensures same { SameWorker owner.old owner.new }
    ensures index { worker_index owner.new
        ≡ worker_index owner.old + length (if here then block ∷ [] else []) }
    ensures pushed { worker_view owner.new
        ≡ claim (worker_view owner.old).stands_for
        ((worker_view owner.old).pushed ++ (if here then block ∷ [] else []))
        (worker_view owner.old).taken }
{
    if here {
        push_one(owner, block);
    }
}

/// Pushes the blocks of a deque, in rising order, and an end mark for each worker.
pub(crate) fn push_all<N: Naming>(owner: &mut Owner<N>, deque: u32, workers: u32, blocks: u32)
    requires many { (0 < workers) × (workers ≡ N.all - 1) }
    requires fresh { worker_view owner.old ≡ claim (N.all - 1) [] [] }
    requires room { (worker_index owner.old ≡ 0)
        × (length (pushed_to workers blocks deque) ≤ worker_capacity owner.old) }
    ensures same { (worker_deque owner.new ≡ worker_deque owner.old)
        × (worker_flavor owner.new ≡ worker_flavor owner.old) }
    ensures pushed { worker_view owner.new ≡ claim (N.all - 1) (pushed_to workers blocks deque) [] }
{
    for block in 0..blocks {
        push_where(owner, block % workers == deque, block);
    }
    for _ in 0..workers {
        push_one(owner, blocks);
    }
}
