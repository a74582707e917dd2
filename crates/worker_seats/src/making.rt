//! Seats are made, each with a way to each deque.

ghost use Rattle.std.specs.Prelude.{◌≡◌, ◌+◌, ◌-◌, ◌<◌, ◌≤◌, [], length, vec_capacity, IfOk};
ghost use Rattle.crossbeam_deque.specs.Handles.{worker_view, worker_deque, worker_flavor};
ghost use Rattle.worker_seats.specs.Claims.{claim};
ghost use Rattle.worker_seats.specs.Reaches.{claim_of, IsOpen, IsOther};
ghost use Rattle.worker_seats.specs.Starting.{IsSeating, HasOneMore, HasSeatMore};

use crate::claims::OneOff;
use crate::desk::Desk;
use crate::lanes::Lane;
use crate::pushes::{push_all, share_of};
use crate::reaches::{Owner, Reach};
use crate::seat::Seat;
use crate::{BlockCounter, KeptCounters};
use card_sets::Memory;
use job_blocks::Job;
use showdown_tally::Tally;
use std::alloc::Global;
use tally_book::{Naming, Part};

/// A seat for each worker of a job, with no way yet. Kept counters are used first.
pub(crate) fn seats_without_ways<N: Naming, C: BlockCounter>(
    alloc: Global,
    job: &Job,
    workers: u32,
    spare: &mut Part<N>,
    kept: &mut KeptCounters<C>,
) -> Result<Vec<Seat<N, C>>, Memory>
    requires { spare.old.parts ≡ workers + 1 }
    ensures seats { IfOk result (λ seats. IsSeating workers 0 0 seats.items) }
    ensures spare { IfOk result
        (λ _. (spare.new.parts ≡ 1) × (spare.new.amount ≡ spare.old.amount)) }
{
    let mut seats = Vec::with_capacity(alloc, workers as usize)?;
    for _ in 0..workers {
        let counter = kept.counter_for(alloc, job)?;
        push_seat(alloc, workers, counter, spare, &mut seats)?;
    }
    Ok(seats)
}

/// Adds a seat with no way yet, with a part of its own and the counter of its blocks. It has a frame of its own, because a seat
/// goes through the stack.
#[inline(never)]
fn push_seat<N: Naming, C: Drop>(
    alloc: Global,
    workers: u32,
    counter: C,
    spare: &mut Part<N>,
    seats: &mut Vec<Seat<N, C>>,
) -> Result<(), Memory>
    requires spare { 2 ≤ spare.old.parts }
    requires room { length seats.old.items < vec_capacity seats.old }
    ensures seat { IfOk result (λ _. HasSeatMore workers seats.old.items seats.new.items) }
    ensures room { IfOk result (λ _. vec_capacity seats.new ≡ vec_capacity seats.old) }
    ensures spare { IfOk result
        (λ _. (spare.new.parts + 1 ≡ spare.old.parts) × (spare.new.amount ≡ spare.old.amount)) }
{
    let lanes = Vec::with_capacity(alloc, workers as usize)?;
    seats.push_reserved(Seat {
        lanes,
        desk: Desk {
            part: spare.split(),
            counter,
            tally: Tally::zero(),
        },
    });
    Ok(())
}

/// Makes a deque with its blocks and end marks, and gives each worker a way to it.
pub(crate) fn add_deque<N: Naming, C>(
    alloc: Global,
    seats: &mut [Seat<N, C>],
    deque: u32,
    workers: u32,
    blocks: u32,
) -> Result<(), Memory>
    requires workers { (workers ≡ N.all - 1) × (deque < workers) × (workers ≤ 16) }
    requires seats { IsSeating workers blocks deque seats.old }
    ensures { IfOk result (λ _. IsSeating workers blocks (deque + 1) seats.new) }
{
    let room = share_of(deque, workers, blocks) as usize + workers as usize;
    let mut owner = Owner::<N>::fifo_as(alloc, room)?;
    push_all(&mut owner, deque, workers, blocks);
    let own = deque as usize;
    for w in 0..own {
        add_other(alloc, &mut seats[w], &mut owner, room)?;
    }
    for w in own + 1..seats.len() {
        add_other(alloc, &mut seats[w], &mut owner, room)?;
    }
    add_lane(alloc, &mut seats[own], Reach::Own(owner), room)?;
    Ok(())
}

/// Adds a way to a seat.
fn add_lane<N: Naming, C>(
    alloc: Global,
    seat: &mut Seat<N, C>,
    reach: Reach<N>,
    room: usize,
) -> Result<(), Memory>
    requires { length seat.old.lanes.items < vec_capacity seat.old.lanes }
    ensures { IfOk result (λ _. HasOneMore seat.old seat.new reach room) }
{
    let lane = Lane::new(alloc, reach, room)?;
    seat.lanes.push_reserved(lane);
    Ok(())
}

/// Adds a way of another worker to a seat, with one of the passes that the owner's stands for.
fn add_other<N: Naming, C>(
    alloc: Global,
    seat: &mut Seat<N, C>,
    owner: &mut Owner<N>,
    room: usize,
) -> Result<(), Memory>
    requires lanes { length seat.old.lanes.items < vec_capacity seat.old.lanes }
    requires parts { 1 < (worker_view owner.old).stands_for }
    requires front { worker_flavor owner.old ≡ 0 }
    ensures same { IfOk result
        (λ _. (worker_deque owner.new ≡ worker_deque owner.old)
        × (worker_flavor owner.new ≡ worker_flavor owner.old)) }
    ensures left { IfOk result
        (λ _. worker_view owner.new
        ≡ claim ((worker_view owner.old).stands_for - 1) (worker_view owner.old).pushed
        (worker_view owner.old).taken) }
    ensures one { IfOk result
        (λ _. (reach : Reach N) × HasOneMore seat.old seat.new reach room
        × IsOther (worker_deque owner.old) reach × IsOpen reach
        × (claim_of reach ≡ claim 1 (worker_view owner.old).pushed [])) }
{
    let thief = owner.stealer()?;
    let reach = Reach::Other(thief, owner.another::<OneOff>());
    add_lane(alloc, seat, reach, room)
}
