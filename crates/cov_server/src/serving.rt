//! Connections, one after another, over one seat.
ghost use Rattle.std.specs.Prelude.{◌≡◌, ◌+◌, ◌-◌, ◌<◌, ◌≤◌, ◌^◌, min, true};
ghost use Rattle.cov_spec.specs.Causes.{Rose};
ghost use Rattle.cov_history.specs.Turns.{Grown};
ghost use Rattle.store_core.specs.Histories.{IsHistory};
ghost use Rattle.cov_session.specs.Streams.{Session};
ghost use Rattle.turn_lock.specs.Seats.{IsSame, number_of, seen, own};
ghost use Rattle.cov_server.specs.Shares.{opening_of, HasSeat};

use crate::{Shared, SharedPort};
use cov_base::{Door, Gate, Link};
use cov_session::{Ended, session};
use std::alloc::Global;
use std::sync::Wait;
use std::thread::Threads;
use store_core::Core;
use turn_lock::Seat;

/// The most bytes that are taken from one connection.
const MOST: u64 = 1 << 40;

/// Serves one connection: a session of the seat's caller. However requests of other callers come between, what is
/// written is the frames of the replies, one for each body of the stream in order, and each is what is answered at the
/// point of the history that it names.
pub fn serve_connection<C: Core, L: Link, R: Threads + Wait + Sync, G: Gate>(
    rt: &R,
    alloc: Global,
    shared: &Shared<C>,
    seat: Seat<C>,
    link: &mut L,
    gate: &G,
) -> (Seat<C>, Ended)
    requires { HasSeat C.base C.sound shared.now seat }
    ensures seat { HasSeat C.base C.sound shared.now result.0 }
    // The number, the free seats and the numbers left stay.
    ensures same { IsSame seat result.0 }
    ensures session { Session (opening_of C.base shared.now) (number_of seat) (2 ^ 40)
        (record {
          left = L.left link.old;
          written = L.written link.old;
          seen = seen seat;
          own = own C.number seat;
        })
        (record {
          left = L.left link.new;
          written = L.written link.new;
          seen = seen result.0;
          own = own C.number result.0;
        })
        result.1 }
    ensures begins { Grown (seen seat) (seen result.0) }
    ensures history { IsHistory (opening_of C.base shared.now) (seen result.0) }
    ensures read_later { L.read_faults link.old ≤ L.read_faults link.new }
    ensures read_cause { result.1 ≡ Ended.ReadFault
        → Rose (L.read_faults link.old) (L.read_faults link.new) }
    ensures write_later { L.write_faults link.old ≤ L.write_faults link.new }
    ensures write_cause { result.1 ≡ Ended.WriteFault
        → Rose (L.write_faults link.old) (L.write_faults link.new) }
    // Nothing was read, written or entered.
    ensures early { result.1 ≡ Ended.Memory
        → (seen result.0 ≡ seen seat) × (own C.number result.0 ≡ own C.number seat)
        × (link.new ≡ link.old) }
{
    let mut port = SharedPort::new(rt, shared, seat);
    let ended = session(rt, alloc, &shared.design, &mut port, link, gate, MOST);
    (port.into_seat(), ended)
}

/// Takes up to so many links from a door, one after another, and serves each. How many were handed out: fewer only
/// where the door failed.
pub fn serve_rounds<C: Core, D: Door, R: Threads + Wait + Sync, G: Gate>(
    rt: &R,
    alloc: Global,
    shared: &Shared<C>,
    seat: Seat<C>,
    door: &mut D,
    gate: &G,
    rounds: u64,
) -> (Seat<C>, u64)
where
    D::Wire: Drop,
    requires { HasSeat C.base C.sound shared.now seat }
    ensures seat { HasSeat C.base C.sound shared.now result.0 }
    ensures same { IsSame seat result.0 }
    ensures begins { Grown (seen seat) (seen result.0) }
    ensures history { IsHistory (opening_of C.base shared.now) (seen result.0) }
    ensures most { result.1 ≤ rounds }
    ensures handed { 0 < result.1
        → D.handed door.new ≡ min (D.handed door.old + result.1) (2 ^ 64 - 1) }
    ensures none { result.1 ≡ 0 → D.handed door.new ≡ D.handed door.old }
    ensures later { D.faults door.old ≤ D.faults door.new }
    ensures fewer { result.1 < rounds → Rose (D.faults door.old) (D.faults door.new) }
{
    let mut seat = seat;
    for round in 0..rounds {
        let mut link = match door.accept() {
            Ok(link) => link,
            Err(_) => return (seat, round),
        };
        let (next, _) = serve_connection(rt, alloc, shared, seat, &mut link, gate);
        seat = next;
    }
    (seat, rounds)
}
