//! Guards, and which bins of values list a value.
ghost use Rattle.std.specs.Prelude.{◌≡◌};
ghost use Rattle.const_eval.specs.Values.{is_true as is_true_of};
ghost use Rattle.design_data.specs.Laws.{in_patterns as in_patterns_of, lists as lists_of, is_listed as is_listed_in};
ghost use Rattle.cov_counting.specs.Hits.{holds as holds_at};

use const_eval::{Bound, eval};
use cov_base::Int;
use cov_tree::Shared;
use design_data::{BinInfo, BinRule};
use trans_seq::is_inside;
use wildcard_bins::Pattern;

/// Whether the value is known and not 0.
#[inline(always)]
fn is_true(value: Option<Int>) -> bool
    ensures { result ≡ is_true_of value }
{
    match value {
        Some(number) => number.get() != 0,
        None => false,
    }
}

/// Whether the guard is true at a sample, or none is written (IEEE 1800-2017, 19.5 and 19.6).
#[inline(always)]
pub fn holds(guard: &Option<Bound>, env: &[Option<Int>]) -> bool
    ensures { result ≡ holds_at guard.now env.now }
{
    match guard {
        None => true,
        Some(guard) => is_true(eval(guard, env, None)),
    }
}

/// The same of the guard of a bin.
#[inline(always)]
pub fn bin_holds(guard: &Option<Shared<Bound>>, env: &[Option<Int>]) -> bool
    ensures { result ≡ holds_at guard.now env.now }
{
    match guard {
        None => true,
        Some(guard) => is_true(eval(guard.get(), env, None)),
    }
}

/// Whether a pattern stands for the value (IEEE 1800-2017, 19.5.4). None stands for an Unknown.
pub fn in_patterns(patterns: &[Pattern], value: Option<Int>) -> bool
    ensures { result ≡ in_patterns_of patterns.now value }
{
    let Some(number) = value else {
        return false;
    };
    for pattern in patterns {
        if pattern.matches(number) {
            return true;
        }
    }
    false
}

/// Whether a bin of this rule lists the value.
fn lists(rule: &BinRule, value: Option<Int>) -> bool
    ensures { result ≡ lists_of value rule.now }
{
    match rule {
        BinRule::Values(set) => is_inside(set, value),
        BinRule::Patterns(patterns) => in_patterns(patterns.as_slice(), value),
        _ => false,
    }
}

/// Whether one of the bins lists the value, so that no default bin counts it (IEEE 1800-2017, 19.5).
pub fn is_listed(bins: &[BinInfo], value: &Option<Int>) -> bool
    ensures { result ≡ is_listed_in bins.now value.now }
{
    for bin in bins {
        if lists(&bin.rule, *value) {
            return true;
        }
    }
    false
}
