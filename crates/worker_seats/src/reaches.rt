//! One worker's way to one deque, and what is taken by it.

ghost use Rattle.std.specs.Prelude.{◌≡◌, ◌-◌, ◌<◌, [], ◌∷◌, MatchOption};
ghost use Rattle.crossbeam_deque.specs.Handles.{view, IsPassOf, stealer_deque, stealer_flavor};
ghost use Rattle.worker_seats.specs.Claims.{Took, WasEmpty};
ghost use Rattle.worker_seats.specs.Reaches.{claim_of, StaysOf, IsOpen};

use crate::claims::{Claim, OneDeque, Takes};
use crossbeam_deque::{Pass, Steal, Stealer, Worker};
use std::alloc::Global;
use std::sync::Wait;
use tally_book::Naming;

/// The owner's end of a deque.
pub type Owner<N> = Worker<u32, Global, Claim, OneDeque<N>>;

/// Another worker's handle.
pub type Thief<N> = Stealer<u32, Global, Claim, OneDeque<N>>;

/// How a worker takes from a deque: it pops its own and steals from the others.
#[derive(Drop)]
pub enum Reach<N: Naming> {
    Own(Owner<N>),
    Other(Thief<N>, Pass<u32, Claim>),
    /// Its pass was joined with the others.
    Left,
}

impl<N: Naming> Reach<N> {
    /// Takes the front of the deque. None only where it was empty at one moment, and then the pass is as it was.
    pub fn take<R: Wait>(&mut self, rt: &R) -> Option<u32>
        requires way { IsOpen self.old }
        requires part { 0 < (claim_of self.old).stands_for }
        ensures way { IsOpen self.new }
        ensures same { StaysOf self.old self.new }
        ensures took { MatchOption result
            ((claim_of self.new ≡ claim_of self.old) × WasEmpty (N.all - 1) (claim_of self.old))
            (λ x. Took (claim_of self.old) (x ∷ []) (claim_of self.new)) }
    {
        match self {
            Reach::Own(owner) => owner.pop_as::<Takes<N>>(),
            Reach::Other(thief, pass) => steal(rt, thief, pass),
            Reach::Left => unreachable!(),
        }
    }
}

/// Takes the front of another worker's deque. A steal that a third worker was faster at is tried again. None only where the deque was empty
/// at one moment.
fn steal<N: Naming, R: Wait>(rt: &R, thief: &Thief<N>, pass: &mut Pass<u32, Claim>) -> Option<u32>
    requires table { IsPassOf (stealer_deque thief.now) pass.old }
    requires front { stealer_flavor thief.now ≡ 0 }
    requires part { 0 < (view pass.old).stands_for }
    ensures table { IsPassOf (stealer_deque thief.now) pass.new }
    ensures took { MatchOption result
        ((view pass.new ≡ view pass.old) × WasEmpty (N.all - 1) (view pass.old))
        (λ x. Took (view pass.old) (x ∷ []) (view pass.new)) }
{
    for _ in rt.forever() {
        match thief.steal_as::<Takes<N>>(pass) {
            Steal::Success(number) => return Some(number),
            Steal::Empty => return None,
            Steal::Retry => {}
        }
    }
    unreachable!()
}
