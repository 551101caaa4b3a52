//! The port of a seat, as a value.
ghost use Rattle.std.specs.Prelude.{◌≡◌, Some, IfSome, is_some, true};
ghost use Rattle.std.proofs.Props.{props};
ghost use Rattle.cov_server.specs.Props.{is_of-prop};
ghost use Rattle.turn_lock.specs.Seats.{IsSeatOf};
ghost use Rattle.cov_server.specs.Shares.{HasSeat};

use crate::Shared;
use std::sync::Wait;
use store_core::Core;
use turn_lock::Seat;

/// The port of a seat. It can't be dropped: `into_seat` gives the seat back.
pub struct SharedPort<'a, C: Core, W: Wait> {
    pub(crate) waits: &'a W,
    pub(crate) shared: &'a Shared<C>,
    pub(crate) seat: Option<Seat<C>>,
    ghost held: { is_some seat ≡ true },
    ghost of: { IfSome seat (λ s. IsSeatOf C.base C.sound shared.now.lock s) } by { Prim.hlevel (props, is_of-prop) },
}

impl<'a, C: Core, W: Wait> SharedPort<'a, C, W> {
    /// The port of a seat of this shared core. It takes no memory.
    pub fn new(waits: &'a W, shared: &'a Shared<C>, seat: Seat<C>) -> SharedPort<'a, C, W>
        requires { HasSeat C.base C.sound shared.now seat }
        ensures shared { result.shared.now ≡ shared.entry.now }
        ensures seat { result.seat ≡ Some seat }
    {
        SharedPort {
            waits,
            shared,
            seat: Some(seat),
        }
    }

    /// Gives the seat back, with all that the port has seen. It takes no memory.
    pub fn into_seat(self) -> Seat<C>
        ensures seat { self.entry.seat ≡ Some result }
        ensures of { IsSeatOf C.base C.sound self.entry.shared.now.lock result }
    {
        let SharedPort {
            waits: _,
            shared: _,
            seat,
        } = self;
        let Some(seat) = seat else { unreachable!() };
        seat
    }
}
