//! How many numbers are listed.
ghost use Rattle.std.specs.Prelude.{◌≡◌, length};
ghost use Rattle.cov_base.specs.Sets.{written};

use cov_base::{Int, size_of};

/// How many numbers are listed, each as often as it is.
pub(crate) fn count_of(ranges: &[(Int, Int)]) -> u128
    ensures { result ≡ length (written ranges.now) }
{
    let mut count = 0;
    for range in ranges {
        count += size_of(range.0, range.1);
    }
    count
}
