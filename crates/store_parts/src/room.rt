//! Entries for which there is room.
ghost use Rattle.std.specs.Prelude.{◌≡◌, ◌+◌, ◌<◌, ◌≤◌, ◌++◌, ◌∷◌, [], vec_len, vec_capacity};

use crate::held::Held;

/// Adds an entry. It takes no memory, since the list has room for one more.
pub fn put(entries: &mut Vec<Held>, held: Held)
    requires { vec_len entries.old < vec_capacity entries.old }
    ensures items { entries.new.items ≡ entries.old.items ++ held ∷ [] }
    ensures len { vec_len entries.new ≡ vec_len entries.old + 1 }
    ensures room { vec_capacity entries.old ≤ vec_capacity entries.new }
{
    let _ = entries.push(held);
}
