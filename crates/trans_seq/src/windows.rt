//! Samples inside.
ghost use Rattle.std.specs.Prelude.{◌≡◌};
ghost use Rattle.trans_seq.specs.Windows.{is_known_in};

use cov_base::{Int, ValueSet};

/// Whether the sample is known and in the set.
pub fn is_inside(set: &ValueSet, sample: Option<Int>) -> bool
    ensures { result ≡ is_known_in set.now sample }
{
    match sample {
        Some(value) => set.contains(value),
        None => false,
    }
}
