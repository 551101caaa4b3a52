//! A value that several parts of a tree have in common.
ghost use Rattle.std.specs.Prelude.{◌≡◌, IfOk};

use crate::Memory;
use std::alloc::Global;
use std::marker::Model;
use std::sync::Arc;

/// A value that stands once in memory and several times in a tree. Contracts see it as the value itself.
pub struct Shared<T> {
    inner: Arc<T>,
}

impl<T: Drop> Drop for Shared<T> {
    fn drop(self) {
        let Shared { inner: _ } = self;
    }
}

impl<T> Model for Shared<T> {
    ghost use Rattle.std.specs.Arc.{arc_value};

    ghost Value = { T };

    ghost coded = { T.code };

    ghost view = { λ shared. arc_value shared.inner };
}

impl<T> Shared<T> {
    /// The value.
    pub fn get(&self) -> &T
        ensures { result.now ≡ self.now }
    {
        &self.inner
    }

    /// The same value for a further place. It copies nothing.
    pub fn share(&self) -> Result<Shared<T>, Memory>
        ensures { IfOk result (λ shared. shared ≡ self.now) }
    {
        match Arc::try_clone(&self.inner) {
            Ok(inner) => Ok(Shared { inner }),
            Err(_) => Err(Memory),
        }
    }
}

impl<T: Drop> Shared<T> {
    /// The value in a place of its own.
    pub fn of(alloc: Global, value: T) -> Result<Shared<T>, Memory>
        ensures { IfOk result (λ shared. shared ≡ value) }
    {
        match Arc::new(alloc, value) {
            Ok(inner) => Ok(Shared { inner }),
            Err(_) => Err(Memory),
        }
    }
}
