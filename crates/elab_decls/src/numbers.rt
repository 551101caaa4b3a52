//! Distinct numbers.
ghost use Rattle.std.specs.Prelude.{◌≡◌, [], ◌∷◌, ◌++◌, not, IfOk, OnOk, if◌then◌else◌};
ghost use Rattle.std.specs.List.{list_any};
ghost use Rattle.std.specs.Ordering.{int_eq};

use cov_base::Memory;
use indexmap::IndexSet;
use std::alloc::Global;
use std::marker::Model;

/// Distinct numbers in the order in which they came, found by a hash. Contracts see the list.
#[derive(Drop)]
pub struct Numbers {
    set: IndexSet<i128>,
}

impl Model for Numbers {
    ghost use Rattle.std.specs.Prelude.{List, ℤ};

    ghost Value = { List ℤ };

    ghost view = { λ numbers. numbers.set.keys };
}

impl Numbers {
    /// No numbers. It takes no memory.
    pub fn new(alloc: Global) -> Numbers
        ensures { result ≡ [] }
    {
        Numbers {
            set: IndexSet::new(alloc),
        }
    }

    /// Adds a number at the end, unless it is there. Answers whether it is a new one.
    pub fn insert(&mut self, number: i128) -> Result<bool, Memory>
        ensures is_new { IfOk result (λ is_new. is_new ≡ not (list_any (int_eq number) self.old)) }
        ensures added { OnOk result
            (self.new ≡ (if list_any (int_eq number) self.old then self.old
            else self.old ++ number ∷ [])) }
    {
        Ok(self.set.insert(number)?)
    }
}
