//! A core behind a lock, with its opening design.
ghost use Rattle.std.specs.Prelude.{◌≡◌, ◌+◌, ◌-◌, ◌^◌, ◌≤◌, [], length, true, IfOk};
ghost use mathlib.Core.List.{IsPrefix};
ghost use Rattle.store_core.specs.Histories.{IsHistory};
ghost use Rattle.turn_lock.specs.History.{longer};
ghost use Rattle.turn_lock.specs.Limits.{most_seats};
ghost use Rattle.turn_lock.specs.Seats.{IsSame, number_of, free, left, opened, seen, own};
ghost use Rattle.cov_server.specs.Shares.{opening_of, HasSeat};

use cov_base::Memory;
use design_data::Design;
use std::alloc::Global;
use std::sync::Arc;
use store_core::Core;
use turn_lock::{Seat, TurnLock};

/// A core that seats take in turn, and the design over which its history began. No call but `over` takes memory, and
/// none waits.
#[derive(Drop)]
pub struct Shared<C: Core> {
    pub(crate) lock: TurnLock<C>,
    pub(crate) design: Arc<Design>,
}

impl<C: Core> Shared<C> {
    /// A core for at most so many seats at a time, 1 to 4,096, and its first seat, of number 0. The entries that the core
    /// has now belong to no seat, whatever their numbers. A refusal drops the core.
    ///
    /// # Errors
    /// `Memory` for want of memory.
    pub fn over(alloc: Global, core: C, seats: u32) -> Result<(Shared<C>, Seat<C>), Memory>
    where
        C: Drop,
        requires { (1 ≤ seats) × (seats ≤ most_seats) }
        ensures seat { IfOk result (λ t. HasSeat C.base C.sound t.0 t.1) }
        ensures opening { IfOk result (λ t. opening_of C.base t.0 ≡ C.base core) }
        ensures seen { IfOk result (λ t. seen t.1 ≡ C.entries core) }
        ensures number { IfOk result (λ t. number_of t.1 ≡ 0) }
        ensures opened { IfOk result (λ t. opened t.1 ≡ length (C.entries core)) }
        ensures free { IfOk result (λ t. free t.1 ≡ seats - 1) }
        ensures left { IfOk result (λ t. left t.1 ≡ 2 ^ 32 - 1) }
        ensures own { IfOk result (λ t. own C.number t.1 ≡ []) }
    {
        let design = core.opening().clone()?;
        let (lock, seat) = TurnLock::open(alloc, core, seats)?;
        Ok((Shared { lock, design }, seat))
    }

    /// Makes a new seat, which has seen what this one has seen. Its number is 2^32 less the numbers that were left,
    /// and no entry made since `over` has it. The new seat has no free seat and no number left.
    pub fn split(&self, seat: &mut Seat<C>) -> Seat<C>
        requires seat { HasSeat C.base C.sound self.now seat.old }
        requires room { (1 ≤ free seat.old) × (1 ≤ left seat.old) }
        ensures seat { HasSeat C.base C.sound self.now seat.new }
        ensures number { number_of seat.new ≡ number_of seat.old }
        ensures seen { seen seat.new ≡ seen seat.old }
        ensures opened { opened seat.new ≡ opened seat.old }
        ensures own { own C.number seat.new ≡ own C.number seat.old }
        ensures counts { (free seat.new ≡ free seat.old - 1) × (left seat.new ≡ left seat.old - 1) }
        ensures new { HasSeat C.base C.sound self.now result }
        ensures new_number { number_of result ≡ 2 ^ 32 - left seat.old }
        ensures new_seen { seen result ≡ seen seat.old }
        ensures new_opened { opened result ≡ opened seat.old }
        ensures new_own { own C.number result ≡ [] }
        ensures new_counts { (free result ≡ 0) × (left result ≡ 0) }
    {
        self.lock.split(seat)
    }

    /// Both seats have then seen one history, which begins with what each had seen. It waits for nobody.
    pub fn meet(&self, a: &mut Seat<C>, b: &mut Seat<C>)
        requires a { HasSeat C.base C.sound self.now a.old }
        requires b { HasSeat C.base C.sound self.now b.old }
        ensures a { HasSeat C.base C.sound self.now a.new × IsSame a.old a.new }
        ensures b { HasSeat C.base C.sound self.now b.new × IsSame b.old b.new }
        ensures seen { seen a.new ≡ seen b.new }
        ensures begins { IsPrefix (seen a.old) (seen a.new) × IsPrefix (seen b.old) (seen a.new) }
        ensures history { IsHistory (opening_of C.base self.now) (seen a.new) }
        ensures own_a { own C.number a.new ≡ own C.number a.old }
        ensures own_b { own C.number b.new ≡ own C.number b.old }
    {
        self.lock.meet(a, b)
    }

    /// Gives a seat up. The other has then seen the longer of both histories, and has the seat's free seats, the seat
    /// itself and its numbers left in addition to its own.
    pub fn end(&self, seat: Seat<C>, into: &mut Seat<C>)
        requires seat { HasSeat C.base C.sound self.now seat }
        requires into { HasSeat C.base C.sound self.now into.old }
        ensures into { HasSeat C.base C.sound self.now into.new }
        ensures number { number_of into.new ≡ number_of into.old }
        ensures opened { opened into.new ≡ opened into.old }
        ensures own { own C.number into.new ≡ own C.number into.old }
        ensures free { free into.new ≡ free into.old + free seat + 1 }
        ensures left { left into.new ≡ left into.old + left seat }
        ensures seen { seen into.new ≡ longer (seen into.old) (seen seat) }
        ensures begins { IsPrefix (seen into.old) (seen into.new)
            × IsPrefix (seen seat) (seen into.new) }
    {
        self.lock.end(seat, into)
    }

    /// Gives a seat up for good, with its free seats and the numbers that it had left. It makes no step.
    pub fn leave(&self, seat: Seat<C>) {
        self.lock.leave(seat)
    }
}
