//! What each step on the table tells. These types are for the proofs alone.
use crate::board::View;
use atomic_table::{Join, Play, Split};
use cov_base::Book;
use std::marker::{Brand, PhantomData};

/// Draws a ticket.
pub struct Draw;

impl<T: Book> Play<Option<Box<T>>, View<T::Base, T::Entry>> for Draw {
    ghost use Rattle.turn_lock.specs.Steps.{drew};

    ghost then = { drew };
}

/// Looks which ticket is served, and takes the slot where it is the seat's.
pub struct Look;

impl<T: Book> Play<Option<Box<T>>, View<T::Base, T::Entry>> for Look {
    ghost use Rattle.turn_lock.specs.Views.{inside};
    ghost use Rattle.turn_lock.specs.Steps.{looked};

    ghost then = { looked (inside T.base) (inside T.entries) T.number };
}

/// The history that a step fixes. Each call picks it.
pub trait News<E> {
    ghost use Rattle.std.specs.Prelude.{List};

    ghost news: { List E };
}

impl<E> News<E> for Brand {
    ghost use Rattle.std.specs.Prelude.{[]};

    ghost news = { [] };
}

/// Fixes the history.
pub struct Fix<N> {
    of: PhantomData<N>,
}

impl<T: Book, N: News<T::Entry>> Play<Option<Box<T>>, View<T::Base, T::Entry>> for Fix<N> {
    ghost use Rattle.turn_lock.specs.Steps.{fixed};

    ghost then = { fixed N.news };
}

/// Gives the slot and the ticket up.
pub struct Pass;

impl<T: Book> Play<Option<Box<T>>, View<T::Base, T::Entry>> for Pass {
    ghost use Rattle.turn_lock.specs.Steps.{passed};

    ghost then = { passed };
}

/// Draws a number for a new seat.
pub struct DrawNumber;

impl<T: Book> Play<Option<Box<T>>, View<T::Base, T::Entry>> for DrawNumber {
    ghost use Rattle.turn_lock.specs.Steps.{drew_number};

    ghost then = { drew_number T.number };
}

/// Makes what a seat was told of part of what it has seen.
pub struct Learn;

impl<T: Book> Play<Option<Box<T>>, View<T::Base, T::Entry>> for Learn {
    ghost use Rattle.turn_lock.specs.Steps.{learned};

    ghost then = { learned T.sound T.number };
}

/// A seat makes a new one.
pub struct Share;

impl<B, E> Split<View<B, E>> for Share {
    ghost use Rattle.turn_lock.specs.Views.{kept_part, new_part};

    ghost left = { kept_part };

    ghost right = { new_part };
}

/// A note of what a seat has seen is made, and taken in by another seat.
pub struct Note;

impl<B, E> Split<View<B, E>> for Note {
    ghost use Rattle.turn_lock.specs.Views.{note_of};

    ghost left = { λ d. d };

    ghost right = { note_of };
}

impl<B, E> Join<View<B, E>> for Note {
    ghost use Rattle.turn_lock.specs.Views.{informed, spent};

    ghost both = { informed };

    ghost spent = { spent };
}

/// A seat takes in another.
pub struct Merge;

impl<B, E> Join<View<B, E>> for Merge {
    ghost use Rattle.turn_lock.specs.Views.{merged, spent};

    ghost both = { merged };

    ghost spent = { spent };
}
