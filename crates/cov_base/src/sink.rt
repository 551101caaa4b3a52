//! Where bytes go to.
ghost use Rattle.std.specs.Prelude.{ℕ, ◌<◌, List, Option, Result, length};
ghost use Rattle.cov_spec.specs.Told.{Writes};
ghost use Rattle.cov_spec.specs.Causes.{HasCause};
ghost use Rattle.cov_base.specs.Amounts.{WritesSome};
ghost use Rattle.cov_base.specs.declared.failed.Failed.{Failed};

use crate::Failed;

/// A stream of bytes to write.
pub trait Sink {
    /// The bytes written, where it tells them. It may stop telling them, and never begins again.
    ghost written: { Self → Option (List ℕ) };

    /// How often it has failed. The count never falls, and stands still at 2^64-1.
    ghost faults: { Self → ℕ };

    /// What else one call of `write` does: the sink before it and the bytes, the answer, and the sink after it. Of a
    /// sink of any type it is known after a call alone.
    ghost write_gives: { Self → List ℕ → Result ℕ Failed → Self → Type 0 } = { λ _ _ _ _. Unit {0} };

    /// Appends the first n bytes, at least one of them, at `Ok(n)`, and none where it fails.
    fn write(&mut self, bytes: &[u8]) -> Result<usize, Failed>
        requires { 0 < length bytes.now }
        ensures bound { WritesSome result bytes.now }
        ensures bytes { Writes (written self.old) (written self.new) result bytes.now }
        ensures cause { HasCause (faults self.old) (faults self.new) result }
        ensures gives { write_gives self.old bytes.now result self.new };
}
