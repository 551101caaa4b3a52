//! The table that the seats of a lock share.
//!
//! Word 0 is the length of the history, word 1 the next ticket, word 2 the ticket that is served, and word 3 the next
//! number of a seat. Slot 0 holds the value while nobody has the turn.
use atomic_table::{Table, TableRule};
use cov_base::Book;
use std::alloc::Global;
use std::collections::LinkedList;
use std::marker::PhantomData;
use std::snapshot::Snapshot;

/// Where a seat stands.
pub enum Stage<E> {
    /// It was taken in by another seat, or is a note, which draws no ticket.
    Spent,
    Idle,
    /// The ticket.
    Waiting(u64),
    /// The ticket, and the entries of the value that was taken.
    Served(u64, LinkedList<E>),
    /// The ticket. The history with the new entry is fixed.
    Done(u64),
}

/// What a seat knows of the numbers.
pub struct Who {
    pub number: u64,
    /// How many numbers it may still draw.
    pub left: u64,
    /// The length that the history had when the lock was opened.
    pub opened: u64,
    /// A number that was drawn for a new seat.
    pub pending: Option<u64>,
}

/// What a seat knows of the table. No value of it is made.
pub struct View<B, E> {
    pub stage: Stage<E>,
    /// How many further seats it may make.
    pub free: u64,
    /// The lock's base. None for a seat that was taken in.
    pub base: Option<B>,
    /// A beginning of the history: what it has seen.
    pub seen: LinkedList<E>,
    /// A beginning of the history: what another seat told it of.
    pub told: LinkedList<E>,
    pub who: Who,
}

/// What the table is told once: the value, and the number of seats.
#[derive(Drop)]
pub struct About<T> {
    pub value: Snapshot<T>,
    pub seats: u32,
}

/// The rule of the table.
pub struct Turns<T> {
    of: PhantomData<T>,
}

impl<T: Book> TableRule<Option<Box<T>>, View<T::Base, T::Entry>, About<T>> for Turns<T> {
    ghost use Rattle.std.specs.Prelude.{◌-◌, length};
    ghost use Rattle.turn_lock.specs.Views.{inside, idle, first_who};
    ghost use Rattle.turn_lock.specs.Rule.{Kept};

    ghost holds = { λ key. Kept (inside T.base) (inside T.entries) T.sound T.number (T.base key.value.value) (length (T.entries key.value.value)) key.seats };

    ghost first = { λ key. idle (key.seats - 1) (T.base key.value.value) (T.entries key.value.value) (T.entries key.value.value) (first_who (length (T.entries key.value.value))) };
}

/// The table. Its one slot holds the value in a box, so that a turn moves a pointer and not the value.
pub type Board<T, B, E> = Table<Option<Box<T>>, View<B, E>, About<T>, Turns<T>, Global>;

/// A place at the table.
pub type Place<T, B, E> = atomic_table::Seat<Option<Box<T>>, View<B, E>>;
