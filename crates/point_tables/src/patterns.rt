//! The numbers of patterns as ranges, where these are few (IEEE 1800-2017, 19.5.4).
ghost use Rattle.std.specs.Prelude.{◌≡◌, ℤ, ◌||◌, Some, IsTrue, IfOk, IfSome};
ghost use Rattle.cov_base.specs.Sets.{written, is_in};
ghost use Rattle.wildcard_bins.specs.Patterns.{agrees};
ghost use Rattle.design_data.specs.Laws.{in_patterns as in_patterns_of};

use cov_base::{Int, Memory, ValueSet, ones};
use design_data::{BinInfo, BinRule};
use std::alloc::Global;
use wildcard_bins::{Pattern, PatternFault};

/// How many ranges the patterns of a point may have for each of its bins, and beside that.
const RANGES_A_BIN: u64 = 8;

const MORE_RANGES: u64 = 64;

/// How many ranges the numbers of a pattern have at most: twice as many for each free place above the lowest fixed one.
fn most_ranges_of(pattern: &Pattern) -> u64 {
    let all = ones(pattern.width);
    let fixed = !pattern.free & all;
    let lowest = fixed.trailing_zeros();
    let above = (pattern.free & all).checked_shr(lowest).unwrap_or(0);
    1u64.checked_shl(above.count_ones()).unwrap_or(u64::MAX)
}

/// The same of the patterns of a bin, if it has some.
fn most_ranges_in(rule: &BinRule) -> u64 {
    let BinRule::Patterns(patterns) = rule else {
        return 0;
    };
    let mut most = 0u64;
    for pattern in patterns.as_slice() {
        most = most.saturating_add(most_ranges_of(pattern));
    }
    most
}

/// Whether the numbers of all patterns have so few ranges that they may be written out.
pub(crate) fn have_few_ranges(bins: &[BinInfo]) -> bool {
    let mut most = 0u64;
    for bin in bins {
        most = most.saturating_add(most_ranges_in(&bin.rule));
    }
    most <= RANGES_A_BIN
        .saturating_mul(bins.len() as u64)
        .saturating_add(MORE_RANGES)
}

/// Appends the ranges of the numbers that agree with a pattern. False where they are too many for a set.
fn add_pattern(
    alloc: Global,
    pattern: &Pattern,
    ranges: &mut Vec<(Int, Int)>,
) -> Result<bool, Memory>
    ensures { IfOk result (λ known. IsTrue known → (v : ℤ) → is_in (written ranges.new.items) v
        ≡ (is_in (written ranges.old.items) v || agrees pattern.now v)) }
{
    match pattern.as_set(alloc) {
        Ok(set) => {
            ranges.extend_from_slice(set.intervals())?;
            Ok(true)
        }
        Err(PatternFault::TooManyRanges { .. }) => Ok(false),
        Err(PatternFault::Memory) => Err(Memory),
    }
}

/// Appends the ranges of the numbers that agree with one of the patterns. False where they are too many for a set.
pub(crate) fn add_patterns(
    alloc: Global,
    patterns: &[Pattern],
    ranges: &mut Vec<(Int, Int)>,
) -> Result<bool, Memory>
    ensures { IfOk result (λ known. IsTrue known → (v : ℤ) → is_in (written ranges.new.items) v
        ≡ (is_in (written ranges.old.items) v || in_patterns_of patterns.now (Some v))) }
{
    for pattern in patterns {
        if !add_pattern(alloc, pattern, ranges)? {
            return Ok(false);
        }
    }
    Ok(true)
}

/// The numbers that agree with one of the patterns. None where their ranges are too many for a set.
pub(crate) fn set_of_patterns(
    alloc: Global,
    patterns: &[Pattern],
) -> Result<Option<ValueSet>, Memory>
    ensures { IfOk result (λ made. IfSome made (λ set. (v : ℤ) → is_in (written set) v
        ≡ in_patterns_of patterns.now (Some v))) }
{
    let mut ranges = Vec::new(alloc);
    if !add_patterns(alloc, patterns, &mut ranges)? {
        return Ok(None);
    }
    let set = ValueSet::from_ranges(alloc, ranges.as_slice())?;
    Ok(Some(set))
}
