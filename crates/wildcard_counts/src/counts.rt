//! How many numbers agree with a pattern.
ghost use Rattle.std.specs.Prelude.{◌≡◌, ◌≤◌, ◌^◌, ◌+ℤ◌, pos, length, filter};
ghost use Rattle.cov_base.specs.Sets.{span, written};
ghost use Rattle.wildcard_bins.specs.Patterns.{agrees};
ghost use Rattle.wildcard_counts.specs.Distances.{distance as distance_of};

use crate::below::count_below;
use cov_base::{Int, ValueSet, lowest_of, power_of_two};
use wildcard_bins::Pattern;

/// How far a number, or the next one, is above the lowest one of the pattern's type, from 0 up to how many numbers the
/// type has.
fn distance(pattern: &Pattern, number: Int, next: u8) -> u128
    requires { next ≤ 1 }
    ensures is { result ≡ distance_of pattern.now (number +ℤ pos next) }
    ensures most { result ≤ 2 ^ pattern.now.width }
{
    let width = pattern.width.get();
    let far = number.get() + next as i128 - lowest_of(pattern.width, pattern.signed).get();
    if far < 0 {
        return 0;
    }
    let most = power_of_two(width);
    if far as u128 <= most {
        far as u128
    } else {
        most
    }
}

/// How many numbers from `low` to `high` agree with a pattern; none where the ends are the wrong way round. It takes no
/// memory, and its work is that of the pattern's places.
pub fn count_within(pattern: &Pattern, low: Int, high: Int) -> u128
    ensures count { result ≡ length (filter (agrees pattern.now) (span (low, high))) }
    ensures bound { result ≤ 2 ^ 64 }
{
    // its bits, and how many they are, are no more than 64
    let _width = pattern.width.get();
    let _free = pattern.free;
    let from = distance(pattern, low, 0);
    let to = distance(pattern, high, 1);
    count_below(pattern, to).saturating_sub(count_below(pattern, from))
}

/// How many numbers of a set agree with a pattern. It takes no memory.
pub fn count_in(pattern: &Pattern, set: &ValueSet) -> u128
    ensures { result ≡ length (filter (agrees pattern.now) (written set.now)) }
{
    let mut count = 0u128;
    for interval in set.intervals() {
        count += count_within(pattern, interval.0, interval.1);
    }
    count
}
