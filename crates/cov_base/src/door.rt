//! Where links come from.
ghost use Rattle.std.specs.Prelude.{◌≡◌, ℕ};
ghost use Rattle.cov_spec.specs.Causes.{HasCause};
ghost use Rattle.cov_base.specs.Plan.{one_more_at_ok};

use crate::{Failed, Link};

/// Hands out links, one after another.
pub trait Door {
    type Wire: Link;

    /// How many links it has handed out. The count stands still at 2^64-1.
    ghost handed: { Self → ℕ };

    /// How often it has failed. The count never falls, and stands still at 2^64-1.
    ghost faults: { Self → ℕ };

    /// The next link. It may wait for one.
    fn accept(&mut self) -> Result<Self::Wire, Failed>
        ensures handed { handed self.new ≡ one_more_at_ok result (handed self.old) }
        ensures cause { HasCause (faults self.old) (faults self.new) result };
}
