//! How many of the first numbers of a pattern's type agree with it, place by place from the lowest one on.
ghost use Rattle.std.specs.Prelude.{◌≡◌, ◌<◌, ◌≤◌, ◌+◌, ◌^◌, ◌==◌, if◌then◌else◌};
ghost use Rattle.wildcard_bins.specs.Halves.{has_half as has_half_at};
ghost use Rattle.wildcard_counts.specs.Distances.{met_below, or_none as none_or};

use crate::halves::has_half;
use cov_base::power_of_two;
use wildcard_bins::Pattern;

/// How many distances have allowed bits at the first places.
#[derive(Clone, Copy)]
struct Met {
    /// Of all distances that have no further bit.
    all: u128,
    /// Of those below the bound's bits at these places.
    below: u128,
}

/// The count, where the half is allowed.
fn or_none(half: bool, count: u128) -> u128
    ensures { result ≡ none_or half count }
{
    if half { count } else { 0 }
}

/// The same with one place more, at which the bound has this bit.
fn next(pattern: &Pattern, place: u8, bit: u64, met: Met) -> Met
    requires place { place < 64 }
    requires bit { bit ≤ 1 }
    requires all { met.all ≤ 2 ^ place }
    requires below { met.below ≤ 2 ^ place }
    ensures all { result.all ≡ none_or (has_half_at pattern.now place 0) met.all + none_or (has_half_at pattern.now place 1) met.all }
    ensures below { result.below ≡ if bit == 0 then none_or (has_half_at pattern.now place 0) met.below else none_or (has_half_at pattern.now place 0) met.all + none_or (has_half_at pattern.now place 1) met.below }
{
    let lower = has_half(pattern, place, 0);
    let upper = has_half(pattern, place, 1);
    let all = or_none(lower, met.all) + or_none(upper, met.all);
    if bit == 0 {
        return Met {
            all,
            below: or_none(lower, met.below),
        };
    }
    Met {
        all,
        below: or_none(lower, met.all) + or_none(upper, met.below),
    }
}

/// How many of the numbers that stand fewer than `bound` above the lowest one have allowed bits at all places.
pub(crate) fn count_below(pattern: &Pattern, bound: u128) -> u128
    requires { bound ≤ 2 ^ pattern.now.width }
    ensures { result ≡ met_below pattern.now pattern.now.width bound }
{
    let width = pattern.width.get();
    let mut met = Met { all: 1, below: 0 };
    for place in 0..width {
        let bit = ((bound >> place) & 1) as u64;
        met = next(pattern, place, bit, met);
    }
    if bound == power_of_two(width) {
        return met.all;
    }
    met.below
}
