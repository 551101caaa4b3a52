//! The workers of a store.
ghost use Rattle.std.specs.Prelude.{◌≡◌, ◌+◌, ◌≤◌, OnOk, OnErr};
ghost use Rattle.turn_lock.specs.Seats.{free, left, number_of, seen};
ghost use Rattle.merge_store.specs.Sound.{IsSound};
ghost use Rattle.merge_store.specs.Stores.{opening_of};
ghost use Rattle.cov_server.specs.Shares.{HasSeat};

use crate::workers::serve_with;
use cov_base::Memory;
use cov_server::Shared;
use merge_store::Store;
use std::alloc::Global;
use std::net::TcpListener;
use std::sync::Wait;
use std::thread::Threads;
use turn_lock::Seat;

/// `serve_with` over a store.
///
/// # Errors
/// `Memory` as of `serve_with`.
pub fn serve_store<R: Threads + Wait + Sync>(
    rt: &R,
    alloc: Global,
    listener: &TcpListener,
    shared: &Shared<Store>,
    seat: &mut Seat<Store>,
    workers: u32,
    rounds: u64,
) -> Result<(), Memory>
    requires seat { HasSeat opening_of IsSound shared.now seat.old }
    requires room { (workers ≤ free seat.old) × (workers ≤ left seat.old) }
    ensures seat { HasSeat opening_of IsSound shared.now seat.new }
    ensures number { number_of seat.new ≡ number_of seat.old }
    ensures seen { seen seat.new ≡ seen seat.old }
    ensures split { OnOk result ((free seat.new + workers ≡ free seat.old)
        × (left seat.new + workers ≡ left seat.old)) }
    ensures refused { OnErr result
        ((free seat.new ≡ free seat.old) × (left seat.new ≡ left seat.old)) }
{
    serve_with(rt, alloc, listener, shared, seat, workers, rounds)
}
