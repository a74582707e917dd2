//! The passes of each deque are joined again.

ghost use Rattle.std.specs.Prelude.{◌≡◌, ℕ, ◌-◌, ◌<◌, length, slice_index_or};
ghost use Rattle.crossbeam_deque.specs.Handles.{worker_deque, worker_view};
ghost use Rattle.worker_seats.specs.declared.reaches.Reach.TheVariants.{Own};
ghost use Rattle.worker_seats.specs.Joined.{SameNotes, ShowsSame, HasAll, HasTold, IsBack, IsJoinable, IsOut, MayJoin, joined_claim};

use crate::claims::{Both, Whole};
use crate::lanes::Lane;
use crate::reaches::{Owner, Reach};
use crate::seat::Seat;
use std::mem;
use tally_book::Naming;

/// Joins all passes of all deques.
pub(crate) fn join_all<N: Naming, C>(seats: &mut [Seat<N, C>], blocks: u32)
    // There is a seat for each worker, with a lane to each deque, whose end mark it has.
    requires workers { length seats.old ≡ N.all - 1 }
    requires joinable { (d : ℕ) → d < N.all - 1 → IsJoinable (N.all - 1) blocks d seats.old }
    requires sized { (w : ℕ) (x : Seat N C) → w < N.all - 1
        → length (slice_index_or seats.old w x).lanes.items ≡ N.all - 1 }

    // What the seats show stays.
    ensures same { ShowsSame seats.old seats.new }

    // A joined pass stands for all workers, and so says that each block pushed there was taken, once.
    ensures all { (d : ℕ) → d < N.all - 1 → HasAll (N.all - 1) blocks d seats.new }
    ensures told { (d : ℕ) → d < N.all - 1 → HasTold (N.all - 1) blocks d seats.new }
    ensures sized { (w : ℕ) (x : Seat N C) → w < N.all - 1
        → length (slice_index_or seats.new w x).lanes.items ≡ N.all - 1 }
{
    for deque in 0..seats.len() {
        join_deque(seats, deque, blocks);
    }
}

/// Joins all passes of a deque. What the workers took there is what was pushed, each once.
fn join_deque<N: Naming, C>(seats: &mut [Seat<N, C>], deque: usize, blocks: u32)
    requires workers { (length seats.old ≡ N.all - 1) × (deque < N.all - 1) }
    requires joinable { IsJoinable (N.all - 1) blocks deque seats.old }
    ensures same { SameNotes deque seats.old seats.new }
    ensures all { HasAll (N.all - 1) blocks deque seats.old }
    ensures told { HasTold (N.all - 1) blocks deque seats.new }
{
    let Reach::Own(mut owner) = way_out(&mut seats[deque], deque) else {
        return;
    };
    for w in 0..seats.len() {
        join_seat(&mut owner, &mut seats[w], deque);
    }
    owner.len_as::<Whole>();
    put_back(&mut seats[deque], deque, owner);
}

/// Joins the pass of another worker's way, if the seat has it still.
fn join_seat<N: Naming, C>(owner: &mut Owner<N>, seat: &mut Seat<N, C>, deque: usize)
    // The seat has a lane to the deque: another worker's, or one whose way was taken out.
    requires room { deque < length seat.old.lanes.items }
    requires way { (x : Lane N)
        → MayJoin (worker_deque owner.old) (slice_index_or seat.old.lanes.items deque x).reach }

    // The owner's pass stands for some worker, so that it knows what was pushed.
    requires part { 0 < (worker_view owner.old).stands_for }

    // The way leaves the seat, and what its pass took is known with the owner's.
    ensures same { worker_deque owner.new ≡ worker_deque owner.old }
    ensures out { (x : Lane N)
        → IsOut deque seat.old seat.new (slice_index_or seat.old.lanes.items deque x).reach }
    ensures view { (x : Lane N)
        → worker_view owner.new
        ≡ joined_claim (worker_view owner.old) (slice_index_or seat.old.lanes.items deque x).reach }
{
    match way_out(seat, deque) {
        Reach::Own(_) => {}
        Reach::Other(_, pass) => owner.absorb::<Both>(pass),
        Reach::Left => {}
    }
}

/// Takes the way to a deque out of a seat. What was taken by it stays noted there.
fn way_out<N: Naming, C>(seat: &mut Seat<N, C>, deque: usize) -> Reach<N>
    requires { deque < length seat.old.lanes.items }
    ensures { IsOut deque seat.old seat.new result }
{
    mem::replace(&mut seat.lanes[deque].reach, Reach::Left)
}

/// Puts the owner's way back.
fn put_back<N: Naming, C>(seat: &mut Seat<N, C>, deque: usize, owner: Owner<N>)
    requires { deque < length seat.old.lanes.items }
    ensures { IsBack deque seat.old seat.new (Own owner) }
{
    seat.lanes[deque].reach = Reach::Own(owner);
}
