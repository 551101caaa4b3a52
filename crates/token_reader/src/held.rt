//! A part of the tree on its way to its place there.
ghost use Rattle.std.specs.Prelude.{◌≡◌, IfOk, OnOk, [], ◌∷◌, ◌++◌};

use cov_tree::{List, Memory};
use std::alloc::Global;
use std::marker::Model;

/// A part of the tree between its reader and its place. It is the part itself, without a box. Its drop is one function, in
/// place of the cases of an expression at each exit, and contracts see the part.
pub struct Held<T: Drop> {
    part: T,
}

impl<T: Drop> Model for Held<T> {
    ghost Value = { T };

    ghost view = { λ held. held.part };
}

impl<T: Drop> Drop for Held<T> {
    fn drop(self) {
        let Held { part } = self;
        drop(part);
    }
}

impl<T: Drop> Held<T> {
    /// The part on its way.
    pub fn of(part: T) -> Held<T>
        ensures { result ≡ part }
    {
        Held { part }
    }

    /// The part.
    pub fn get(&self) -> &T
        ensures { result.now ≡ self.now }
    {
        &self.part
    }

    /// The part, at its place.
    pub fn put(self) -> T
        ensures { result ≡ self }
    {
        let Held { part } = self;
        part
    }
}

/// A list of this part alone, or Memory.
pub fn alone<T: Drop>(alloc: Global, part: Held<T>) -> Result<List<T>, Memory>
    ensures { IfOk result (λ list. list ≡ part ∷ []) }
{
    let mut list = List::new(alloc);
    list.push(part.put())?;
    Ok(list)
}

/// The part behind the others of the list, or Memory.
pub fn add<T: Drop>(list: &mut List<T>, part: Held<T>) -> Result<(), Memory>
    ensures { OnOk result (list.new ≡ list.old ++ part ∷ []) }
{
    list.push(part.put())?;
    Ok(())
}
