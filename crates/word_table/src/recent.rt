//! The last values of a trace.
ghost use Rattle.std.specs.Prelude.{◌≡◌, ◌++◌, ◌∷◌, [], ℤ, List, Option, OnOk};
ghost use Rattle.word_table.specs.Recent.{AreLast};

use cov_base::{Int, Memory};
use std::alloc::Global;
use std::marker::Model;

/// The most values of a word.
const LONGEST: usize = 120;

/// How many values are kept before the earlier ones go.
const ROOM: usize = 240;

/// The last values of a trace: at least as many as a word may have, or all of them.
pub struct Recent {
    values: Vec<Option<Int>>,
}

impl Drop for Recent {
    fn drop(self) {
        let Recent { values: _ } = self;
    }
}

impl Model for Recent {
    ghost use Rattle.std.specs.Prelude.{ℤ, List, Option};

    ghost Value = { List (Option ℤ) };

    ghost view = { λ recent. recent.values.items };
}

/// Lets the earlier values go where there is no room.
fn make_room(values: &mut Vec<Option<Int>>)
    ensures { (w : List (Option ℤ)) → AreLast values.old.items w → AreLast values.new.items w }
{
    let count = values.len();
    if count < ROOM {
        return;
    }
    values.rotate_left(count - LONGEST);
    values.truncate(LONGEST);
}

impl Recent {
    ghost use Rattle.std.specs.Prelude.{◌≡◌, ◌++◌, ◌∷◌, [], ℤ, List, Option, OnOk};
    ghost use Rattle.word_table.specs.Recent.{AreLast};

    /// Those before the first value. It takes no memory.
    pub fn new(alloc: Global) -> Recent
        ensures { AreLast result [] }
    {
        Recent {
            values: Vec::new(alloc),
        }
    }

    /// The values.
    pub fn as_slice(&self) -> &[Option<Int>]
        ensures { result.now ≡ self.now }
    {
        self.values.as_slice()
    }

    /// One more value. It takes memory of 240 values at most, whatever the length of the trace.
    pub fn push(&mut self, value: Option<Int>) -> Result<(), Memory>
        ensures { OnOk result ((w : List (Option ℤ)) → AreLast self.old w
            → AreLast self.new (w ++ value ∷ [])) }
    {
        make_room(&mut self.values);
        self.values.push(value)?;
        Ok(())
    }
}
