//! The lock, its seats and its turns, as values.
ghost use Rattle.std.specs.Prelude.{◌≡◌, ◌≤◌, [], length, None};
ghost use Rattle.turn_lock.specs.Views.{at_stage, taken_of};
ghost use Rattle.turn_lock.specs.Steps.{IsServed};
ghost use Rattle.turn_lock.specs.declared.board.Stage.TheVariants.{Idle};

use crate::board::{Board, Place};
use cov_base::Book;
use std::sync::atomic::AtomicU64;

/// A value that seats take in turn.
///
/// No call but `open` takes memory, and no call but `take` waits. A value is handed out in the box that `open` put it
/// in: a turn then moves a pointer, however large the value is, and takes no memory.
#[derive(Drop)]
pub struct TurnLock<T: Book> {
    pub(crate) table: Board<T, T::Base, T::Entry>,
    /// How many threads sleep, or are about to. `give` wakes nobody where it finds 0. Nothing is proved of it.
    pub(crate) sleepers: AtomicU64,
    ghost sized: { (table.shared.table_id.words ≡ 4) × (table.shared.table_id.slots ≡ 1) },
}

/// The right of one caller to take turns at a lock. It can't be dropped: `TurnLock::take` hands it on as a turn, and
/// `TurnLock::end` or `TurnLock::leave` gives it up.
pub struct Seat<T: Book> {
    pub(crate) place: Place<T, T::Base, T::Entry>,
    pub(crate) number: u32,
    pub(crate) seen: u64,
    pub(crate) free: u32,
    pub(crate) left: u32,
    ghost rests: { place.me ≡ (at_stage Idle place.me.0, []) },
    ghost settled: { place.me.0.who.pending ≡ None },
    ghost past: { place.me.0.who.opened ≤ length place.me.0.seen },
    ghost number_is: { number ≡ place.me.0.who.number },
    ghost seen_is: { seen ≡ length place.me.0.seen },
    ghost free_is: { free ≡ place.me.0.free },
    ghost left_is: { left ≡ place.me.0.who.left },
}

/// The duty to give the value back. It can't be dropped: `TurnLock::give` turns it into the seat that it was.
pub struct Turn<T: Book> {
    pub(crate) place: Place<T, T::Base, T::Entry>,
    pub(crate) taken: u64,
    pub(crate) number: u32,
    pub(crate) free: u32,
    pub(crate) left: u32,
    ghost served: { IsServed place.me },
    ghost settled: { place.me.0.who.pending ≡ None },
    ghost past: { place.me.0.who.opened ≤ length (taken_of place.me.0.stage) },
    ghost number_is: { number ≡ place.me.0.who.number },
    ghost free_is: { free ≡ place.me.0.free },
    ghost left_is: { left ≡ place.me.0.who.left },
    ghost taken_is: { taken ≡ length (taken_of place.me.0.stage) },
}
