//! What the port of a seat does.
ghost use Rattle.std.specs.Prelude.{◌≡◌, IfOk};
ghost use Rattle.cov_history.specs.Turns.{Grown};
ghost use Rattle.store_core.specs.Bases.{IsBasis};
ghost use Rattle.turn_lock.specs.Seats.{IsSeatOf, IsSame, seen, own, home};

use crate::SharedPort;
use cov_base::Memory;
use cov_session::Port;
use std::sync::Wait;
use std::thread::Threads;
use store_core::{Ask, Basis, Core};
use turn_lock::{Seat, TurnLock};
use ucis_model::Answered;

// A turn that changes nothing, for a basis.
fn basis_of<C: Core, W: Wait>(
    waits: &W,
    lock: &TurnLock<C>,
    seat: Seat<C>,
) -> (Result<Basis, Memory>, Seat<C>)
    requires seat { IsSeatOf C.base C.sound lock.now seat }
    ensures seat { IsSeatOf C.base C.sound lock.now result.1 }
    ensures same { IsSame seat result.1 }
    ensures grown { Grown (seen seat) (seen result.1) }
    ensures own { own C.number result.1 ≡ own C.number seat }
    ensures basis { IfOk result.0 (λ b. IsBasis (home C.base lock.now) (seen result.1) b) }
{
    let (turn, core) = lock.take(waits, seat);
    let basis = core.basis();
    (basis, lock.give(turn, core))
}

impl<'a, C: Core, W: Wait> Port for SharedPort<'a, C, W> {
    ghost use Rattle.turn_lock.specs.Seats.{home};
    ghost use Rattle.cov_server.specs.Legal.{seat_history};
    ghost use Rattle.cov_server.specs.Places.{number_in, seen_in, own_in, free_in, left_in, opened_in};

    /// The shared core, and the rest of the seat: what it may still split off, what it may still draw, and since when it
    /// counts entries as its own.
    type Rest = (TurnLock<C>, (u64, u64, u64));

    ghost rest = { λ p. (p.shared.now.lock, (free_in p.seat, left_in p.seat, opened_in p.seat)) };

    ghost opening = { λ p. home C.base p.shared.now.lock };

    ghost caller = { λ p. number_in p.seat };

    ghost seen = { λ p. seen_in p.seat };

    ghost own = { λ p. own_in C.number p.seat };

    ghost lawful = { λ p. seat_history C.base C.sound C.lawful p.shared.now.lock p.seat p.of };

    fn turn<R: Threads + Sync>(&mut self, rt: &R, ask: Ask) -> Answered {
        let SharedPort {
            waits,
            shared,
            seat: place,
        } = self;
        let Some(seat) = place.take() else {
            unreachable!()
        };
        let caller = seat.number();
        let (turn, mut core) = shared.lock.take(*waits, seat);
        let answered = core.serve(rt, caller, ask);
        let old = place.replace(shared.lock.give(turn, core));
        let None = old else { unreachable!() };
        answered
    }

    fn basis(&mut self) -> Result<Basis, Memory> {
        let SharedPort {
            waits,
            shared,
            seat: place,
        } = self;
        let Some(seat) = place.take() else {
            unreachable!()
        };
        let (basis, seat) = basis_of(*waits, &shared.lock, seat);
        let old = place.replace(seat);
        let None = old else { unreachable!() };
        basis
    }

    fn point(&self) -> u64 {
        let Some(seat) = &self.seat else {
            unreachable!()
        };
        seat.seen()
    }
}
