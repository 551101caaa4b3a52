//! Several workers, each with a seat of its own.
ghost use Rattle.std.specs.Prelude.{◌≡◌, ◌+◌, ◌≤◌, All, IfOk, OnOk, OnErr};
ghost use Rattle.std.specs.Thread.{IsSync};
ghost use Rattle.turn_lock.specs.Seats.{free, left, number_of, seen};
ghost use Rattle.cov_server.specs.Shares.{HasSeat};
ghost use Rattle.cov_workers.specs.Seated.{IsHere};

use cov_base::{Memory, OpenGate};
use cov_net::TcpDoor;
use cov_server::{Core, Shared, serve_rounds};
use std::alloc::Global;
use std::net::TcpListener;
use std::sync::Wait;
use std::thread::{Threads, for_each_mut};
use turn_lock::Seat;

/// Serves the listener's connections with the seat that lies here, and gives the seat up.
fn work<C: Core, R: Threads + Wait + Sync>(
    rt: &R,
    alloc: Global,
    listener: &TcpListener,
    shared: &Shared<C>,
    here: &mut Option<Seat<C>>,
    rounds: u64,
)
    requires { IsHere C.base C.sound shared.now here.old }
{
    let Some(seat) = here.take() else {
        return;
    };
    let mut door = TcpDoor::new(listener);
    let (seat, _) = serve_rounds(rt, alloc, shared, seat, &mut door, &OpenGate, rounds);
    shared.leave(seat);
}

/// Splits a seat for each worker, before any of them works. A refusal has split none.
fn seats_of<C: Core>(
    alloc: Global,
    shared: &Shared<C>,
    seat: &mut Seat<C>,
    workers: u32,
) -> Result<Vec<Option<Seat<C>>>, Memory>
    requires seat { HasSeat C.base C.sound shared.now seat.old }
    requires room { (workers ≤ free seat.old) × (workers ≤ left seat.old) }
    ensures seats { IfOk result (λ v. All (IsHere C.base C.sound shared.now) v.items) }
    ensures seat { HasSeat C.base C.sound shared.now seat.new }
    ensures number { number_of seat.new ≡ number_of seat.old }
    ensures seen { seen seat.new ≡ seen seat.old }
    ensures split { OnOk result ((free seat.new + workers ≡ free seat.old)
        × (left seat.new + workers ≡ left seat.old)) }
    ensures refused { OnErr result ((free seat.new ≡ free seat.old) × (left seat.new ≡ left seat.old)) }
{
    let mut seats = Vec::with_capacity(alloc, workers as usize)?;
    for made in 0..workers {
        let _made = made;
        seats.push_reserved(Some(shared.split(seat)));
    }
    Ok(seats)
}

/// Gives up the seats that still lie here.
fn give_up<C: Core>(shared: &Shared<C>, mut seats: Vec<Option<Seat<C>>>) {
    while let Some(place) = seats.pop() {
        if let Some(seat) = place {
            shared.leave(seat);
        }
    }
    seats.destroy_empty();
}

/// Serves the listener's connections by so many workers at a time, each over a seat of its own that is split off before
/// the first connection, and each up to so many connections. A worker that can't get a thread works in another's after
/// it. It returns once all workers have ended; a worker ends early only where a connection couldn't be taken.
///
/// # Errors
/// `Memory` for want of memory for the list of workers; no seat is split then, and no connection is taken.
pub fn serve_with<C: Core + Send, R: Threads + Wait + Sync>(
    rt: &R,
    alloc: Global,
    listener: &TcpListener,
    shared: &Shared<C>,
    seat: &mut Seat<C>,
    workers: u32,
    rounds: u64,
) -> Result<(), Memory>
    requires seat { HasSeat C.base C.sound shared.now seat.old }
    requires room { (workers ≤ free seat.old) × (workers ≤ left seat.old) }
    ensures seat { HasSeat C.base C.sound shared.now seat.new }
    ensures number { number_of seat.new ≡ number_of seat.old }
    ensures seen { seen seat.new ≡ seen seat.old }
    ensures split { OnOk result ((free seat.new + workers ≡ free seat.old)
        × (left seat.new + workers ≡ left seat.old)) }
    ensures refused { OnErr result
        ((free seat.new ≡ free seat.old) × (left seat.new ≡ left seat.old)) }
{
    if workers == 0 {
        return Ok(());
    }
    let mut seats = match seats_of(alloc, shared, seat, workers) {
        Ok(seats) => seats,
        Err(memory) => return Err(memory),
    };
    for_each_mut(
        rt,
        seats.as_mut_slice(),
        workers as usize,
        &|_, here: &mut Option<Seat<C>>|
            requires { IsSync R.row × IsHere C.base C.sound shared.now here.old }
        { work(rt, alloc, listener, shared, here, rounds) },
    );
    give_up(shared, seats);
    Ok(())
}
