//! The rule over one deque: what a pass knows, and what each step of a worker tells.

ghost use Rattle.std.specs.Prelude.{◌≡◌, ℕ, ◌+◌, ◌-◌, ◌<◌, ◌≤◌, ◌++◌, [], All, length};
ghost use Rattle.worker_seats.specs.Claims.{claim, Took, Knows};

use crossbeam_deque::protocol::{Join, Lesson, Outcome, Protocol, Split};
use std::collections::LinkedList;
use std::marker::PhantomData;
use tally_book::Naming;

/// What a pass knows of its deque: for how many of the passes of the start it stands, what was pushed, and what
/// was taken with it. It is there for proofs alone: no value of it is made.
pub struct Claim {
    /// How many passes of the start this pass represents.
    pub stands_for: u64,
    /// What was pushed to the deque.
    pub pushed: LinkedList<u32>,
    /// What was taken from the deque with this pass.
    pub taken: LinkedList<u32>,
}

/// The rule over one deque of `N`'s seats.
pub struct OneDeque<N: Naming> {
    /// Whose seats they are.
    of: PhantomData<N>,
}

impl<N: Naming> Protocol<u32, Claim> for OneDeque<N> {
    ghost use Rattle.std.specs.Prelude.{◌-◌, []};
    ghost use Rattle.worker_seats.specs.Claims.{claim, IsFair};

    ghost holds = { IsFair (N.all - 1) };

    ghost first = { claim (N.all - 1) [] [] };

    ghost guest = { claim 0 [] [] };
}

/// A push before the start.
pub struct Pushes;

impl Outcome<u32, Claim> for Pushes {
    ghost then = { λ v xs w. w ≡ claim v.stands_for (v.pushed ++ xs) v.taken };
}

/// A pop or a steal from a deque of `N`'s seats.
pub struct Takes<N: Naming> {
    /// Whose seats they are.
    of: PhantomData<N>,
}

impl<N: Naming> Outcome<u32, Claim> for Takes<N> {
    ghost use Rattle.std.specs.Prelude.{◌-◌};
    ghost use Rattle.worker_seats.specs.Claims.{Took, WasEmpty};

    ghost then = { Took };

    ghost empty = { WasEmpty (N.all - 1) };
}

/// One of the passes that a pass stands for, in its own right.
pub struct OneOff;

impl Split<Claim> for OneOff {
    ghost left = { λ v. claim (v.stands_for - 1) v.pushed v.taken };

    ghost right = { λ v. claim 1 v.pushed [] };
}

/// What both have taken.
pub struct Both;

impl Join<Claim> for Both {
    ghost both = { λ v w. claim (v.stands_for + w.stands_for) v.pushed (v.taken ++ w.taken) };

    ghost spent = { claim 0 [] [] };
}

/// What a pass learns that stands for all.
pub struct Whole;

impl Lesson<u32, Claim> for Whole {
    ghost fact = { Knows };
}
