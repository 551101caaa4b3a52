//! Where bytes come from.
ghost use Rattle.std.specs.Prelude.{ℕ, ◌<◌, List, Option, Result, length};
ghost use Rattle.std.specs.Io.{ReadsAtMost};
ghost use Rattle.cov_spec.specs.Causes.{HasCause};
ghost use Rattle.cov_spec.specs.Told.{Reads};
ghost use Rattle.cov_base.specs.declared.failed.Failed.{Failed};

use crate::Failed;

/// A stream of bytes to read.
pub trait Source {
    /// The bytes still to come, where it tells them. It may stop telling them, and never begins again.
    ghost left: { Self → Option (List ℕ) };

    /// How often it has failed. The count never falls, and stands still at 2^64-1.
    ghost faults: { Self → ℕ };

    /// What else one call of `read` does: the source before it and the room, the answer, the source after it and the
    /// room then. Of a source of any type it is known after a call alone.
    ghost read_gives: { Self → List ℕ → Result ℕ Failed → Self → List ℕ → Type 0 } = { λ _ _ _ _ _. Unit {0} };

    /// Hands over the next bytes at the front of `into`: `Ok(n)` for the first n places, and `Ok(0)` at the end of
    /// the input alone. The rest of `into` may hold anything.
    fn read(&mut self, into: &mut [u8]) -> Result<usize, Failed>
        requires { 0 < length into.old }
        ensures bound { ReadsAtMost result into.new }
        ensures bytes { Reads (left self.old) (left self.new) result into.new }
        ensures cause { HasCause (faults self.old) (faults self.new) result }
        ensures gives { read_gives self.old into.old result self.new into.new };
}
