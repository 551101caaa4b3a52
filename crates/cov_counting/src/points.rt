//! When a bin of a point is hit, by definition: the windows that end at a sample are searched one by one.
ghost use Rattle.std.specs.Prelude.{◌≡◌, ◌++◌, ◌∷◌, [], ◌<◌, ◌≤◌, ◌↔◌, IsTrue, IfOk, length, All};
ghost use Rattle.trans_seq.specs.Windows.{InSome, EndsKept};
ghost use Rattle.design_data.specs.Bins.{removing_seqs, seqs_of as seqs_of_rule};
ghost use Rattle.cov_counting.specs.Hits.{trace as trace_of, EndsNone, IsDefaultSequence, Meets, HitAt};
ghost use Rattle.cov_counting.specs.Steps.{Keeps};

use crate::rules::{bin_holds, holds, in_patterns, is_listed};
use const_eval::{Bound, eval};
use cov_base::Int;
use cov_ground::Memory;
use cov_tree::List;
use design_data::{BinInfo, BinKind, BinRule, ItemInfo};
use std::alloc::Global;
use trans_seq::{Seq, is_inside, window_in};

/// The values of a point at the samples at which its guard is true.
fn trace(
    alloc: Global,
    expr: &Bound,
    guard: &Option<Bound>,
    samples: &[List<Option<Int>>],
) -> Result<List<Option<Int>>, Memory>
    ensures { IfOk result (λ values. values ≡ trace_of expr.now guard.now samples.now) }
{
    let mut values = List::new(alloc);
    for env in samples {
        if holds(guard, env.as_slice()) {
            values.push(eval(expr, env.as_slice(), None))?;
        }
    }
    Ok(values)
}

/// Whether the window is a list of one of the sequences.
fn in_some(alloc: Global, seqs: &[Seq], window: &[Option<Int>]) -> Result<bool, Memory>
    ensures { IfOk result (λ is. IsTrue is ↔ InSome seqs.now window.now) }
{
    for seq in seqs {
        let found = window_in(alloc, seq, window)?;
        if found {
            return Ok(true);
        }
    }
    Ok(false)
}

/// The sequences that remove windows from a bin of this kind: those of ignore bins and those of illegal ones.
fn removing(item: &ItemInfo, kind: BinKind) -> (&[Seq], &[Seq])
    ensures { result.0.now ++ result.1.now ≡ removing_seqs item.now kind }
{
    match kind {
        BinKind::CvgBin => (item.ignored.as_slice(), item.illegal.as_slice()),
        BinKind::IgnoreBin => (&[], item.illegal.as_slice()),
        BinKind::IllegalBin | BinKind::DefaultBin => (&[], &[]),
    }
}

/// Whether some window that ends with the last value is one of the sequences and none of those that remove.
fn counts(
    alloc: Global,
    seqs: &[Seq],
    ignored: &[Seq],
    illegal: &[Seq],
    values: &[Option<Int>],
) -> Result<bool, Memory>
    ensures { IfOk result
        (λ counts. IsTrue counts ↔ EndsKept seqs.now (ignored.now ++ illegal.now) values.now) }
{
    for from in 0..values.len() {
        let kept = is_kept(alloc, seqs, ignored, illegal, &values[from..])?;
        if kept {
            return Ok(true);
        }
    }
    Ok(false)
}

/// Whether the window is one of the sequences and none of those that remove.
fn is_kept(
    alloc: Global,
    seqs: &[Seq],
    ignored: &[Seq],
    illegal: &[Seq],
    window: &[Option<Int>],
) -> Result<bool, Memory>
    ensures { IfOk result
        (λ kept. IsTrue kept ↔ Keeps seqs.now (ignored.now ++ illegal.now) window.now) }
{
    let own = in_some(alloc, seqs, window)?;
    if !own {
        return Ok(false);
    }
    let is_ignored = in_some(alloc, ignored, window)?;
    if is_ignored {
        return Ok(false);
    }
    let is_illegal = in_some(alloc, illegal, window)?;
    if is_illegal {
        return Ok(false);
    }
    Ok(true)
}

/// Whether no window that ends with the last value is one of the sequences.
fn ends_none(alloc: Global, seqs: &[Seq], values: &[Option<Int>]) -> Result<bool, Memory>
    ensures { IfOk result (λ none. IsTrue none ↔ EndsNone seqs.now values.now) }
{
    for from in 0..values.len() {
        let found = in_some(alloc, seqs, &values[from..])?;
        if found {
            return Ok(false);
        }
    }
    Ok(true)
}

/// The sequences of a transition bin.
fn seqs_of(rule: &BinRule) -> &[Seq]
    ensures { result.now ≡ seqs_of_rule rule.now }
{
    match rule {
        BinRule::Trans(seqs) => seqs.as_slice(),
        _ => &[],
    }
}

/// Whether no window that ends with the last value is one of the sequences of a bin.
fn ends_no_bin(alloc: Global, bins: &[BinInfo], values: &[Option<Int>]) -> Result<bool, Memory>
    ensures { IfOk result
        (λ none. IsTrue none ↔ All (λ bin. EndsNone (seqs_of_rule bin.rule) values.now) bins.now) }
{
    for bin in bins {
        let none = ends_none(alloc, seqs_of(&bin.rule), values)?;
        if !none {
            return Ok(false);
        }
    }
    Ok(true)
}

/// Whether `default sequence` is met at the last value.
fn is_default_sequence(
    alloc: Global,
    item: &ItemInfo,
    before: &[Option<Int>],
    values: &[Option<Int>],
    now: &Option<Int>,
) -> Result<bool, Memory>
    requires { values.now ≡ before.now ++ now.now ∷ [] }
    ensures { IfOk result (λ met. IsTrue met ↔ IsDefaultSequence item.now before.now now.now) }
{
    if before.is_empty() {
        return Ok(false);
    }
    let no_bin = ends_no_bin(alloc, item.bins.as_slice(), values)?;
    if !no_bin {
        return Ok(false);
    }
    let no_ignored = ends_none(alloc, item.ignored.as_slice(), values)?;
    if !no_ignored {
        return Ok(false);
    }
    let no_illegal = ends_none(alloc, item.illegal.as_slice(), values)?;
    if !no_illegal {
        return Ok(false);
    }
    Ok(true)
}

/// Whether the rule of a bin of the point is met at the value `now`, the last one of `values`, after the values `before`.
fn is_met(
    alloc: Global,
    item: &ItemInfo,
    bin: &BinInfo,
    before: &[Option<Int>],
    values: &[Option<Int>],
    now: &Option<Int>,
) -> Result<bool, Memory>
    requires { values.now ≡ before.now ++ now.now ∷ [] }
    ensures { IfOk result
        (λ met. IsTrue met ↔ Meets item.now bin.now.kind bin.now.rule before.now now.now) }
{
    match &bin.rule {
        BinRule::Values(set) => Ok(is_inside(set, *now)),
        BinRule::Patterns(patterns) => Ok(in_patterns(patterns.as_slice(), *now)),
        BinRule::Trans(seqs) => {
            let (ignored, illegal) = removing(item, bin.kind);
            let met = counts(alloc, seqs.as_slice(), ignored, illegal, values)?;
            Ok(met)
        }
        BinRule::Default => Ok(!is_listed(item.bins.as_slice(), now)),
        BinRule::DefaultValues(set) => Ok(is_inside(set, *now)),
        BinRule::DefaultSequence => {
            let met = is_default_sequence(alloc, item, before, values, now)?;
            Ok(met)
        }
        BinRule::Picked(_) | BinRule::Product(_) => Ok(false),
    }
}

/// Whether the bin of a point is hit at the k-th sample.
pub(crate) fn is_hit(
    alloc: Global,
    item: &ItemInfo,
    expr: &Bound,
    bin: &BinInfo,
    samples: &[List<Option<Int>>],
    k: usize,
) -> Result<bool, Memory>
    requires { k < length samples.now }
    ensures { IfOk result (λ hit. IsTrue hit ↔ HitAt item.now expr.now bin.now samples.now k) }
{
    let env = samples[k].as_slice();
    if !holds(&item.guard, env) {
        return Ok(false);
    }
    if !bin_holds(&bin.guard, env) {
        return Ok(false);
    }
    let now = eval(expr, env, None);
    let before = trace(alloc, expr, &item.guard, &samples[..k])?;
    let values = with_value(alloc, before.as_slice(), &now)?;
    let met = is_met(alloc, item, bin, before.as_slice(), values.as_slice(), &now)?;
    Ok(met)
}

/// The values and one more.
fn with_value(
    alloc: Global,
    before: &[Option<Int>],
    now: &Option<Int>,
) -> Result<List<Option<Int>>, Memory>
    ensures { IfOk result (λ values. values ≡ before.now ++ now.now ∷ []) }
{
    let mut values = List::of(Vec::from_slice(alloc, before)?);
    values.push(*now)?;
    Ok(values)
}
