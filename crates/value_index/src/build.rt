//! The cuts of sets, and for each segment the bins that have its values.
ghost use Rattle.std.specs.Prelude.{◌≡◌, ℕ, ◌<◌, ◌≤◌, ◌+◌, ◌^◌, ◌++◌, ◌∷◌, [], length, slice_index, IfOk, OnOk, All};
ghost use Rattle.std.specs.List.{Contains, AllPairs, flat_map};
ghost use Rattle.value_index.specs.Found.{Apart};
ghost use Rattle.value_index.specs.Segments.{Ascends};
ghost use Rattle.value_index.specs.Built.{RangeAdded, SpansAdded, Holds};
ghost use Rattle.value_index.specs.Sizes.{ends_of, all_ends, AreCuts};

use crate::rows::{Row, Rows};
use crate::segment::segment;
use crate::sets::{Set, Span};
use cov_ground::Memory;
use std::alloc::Global;

fn push_ends(cuts: &mut Vec<u64>, span: &Span) -> Result<(), Memory>
    ensures { OnOk result (cuts.new.items ≡ cuts.old.items ++ ends_of span.now) }
{
    cuts.push(span.low)?;
    if span.high < u64::MAX {
        cuts.push(span.high + 1)?;
    }
    Ok(())
}

fn push_all_ends(cuts: &mut Vec<u64>, spans: &[Span]) -> Result<(), Memory>
    ensures { OnOk result (cuts.new.items ≡ cuts.old.items ++ flat_map ends_of spans.now) }
{
    for span in spans {
        push_ends(cuts, span)?;
    }
    Ok(())
}

fn ends(alloc: Global, sets: &[Set]) -> Result<Vec<u64>, Memory>
    ensures { IfOk result (λ cuts. cuts.items ≡ all_ends sets.now) }
{
    let mut cuts = Vec::new(alloc);
    cuts.push(0)?;
    for set in sets {
        push_all_ends(&mut cuts, set.as_slice())?;
    }
    Ok(cuts)
}

// The ascending cuts without those that stand twice.
fn distinct(alloc: Global, cuts: &[u64]) -> Result<Vec<u64>, Memory>
    requires { Ascends cuts.now }
    ensures ascend { IfOk result (λ d. AllPairs (λ a b. a < b) d.items) }
    ensures kept { IfOk result (λ d. All (Contains d.items) cuts.now) }
    ensures only { IfOk result (λ d. All (Contains cuts.now) d.items) }
{
    let mut out: Vec<u64> = Vec::new(alloc);
    let mut last = None;
    for cut in cuts {
        if last != Some(*cut) {
            out.push(*cut)?;
            last = Some(*cut);
        }
    }
    Ok(out)
}

/// 0, and where each span of a set begins and ends, ascending, each once.
pub(crate) fn cuts_of(alloc: Global, sets: &[Set]) -> Result<Vec<u64>, Memory>
    ensures ascends { IfOk result (λ cuts. Ascends cuts.items) }
    ensures some { IfOk result (λ cuts. 0 < length cuts.items) }
    ensures zero { IfOk result (λ cuts. slice_index cuts.items 0 ≡ 0) }
    ensures are { IfOk result (λ cuts. AreCuts sets.now cuts.items) }
{
    let mut all = ends(alloc, sets)?;
    all.sort_unstable();
    let cuts = distinct(alloc, all.as_slice())?;
    Ok(cuts)
}

fn add_range(rows: &mut [Row], from: usize, to: usize, bin: u32) -> Result<(), Memory>
    requires { to ≤ length rows.old }
    ensures { OnOk result (RangeAdded from to bin rows.old rows.new) }
{
    for s in from..to {
        rows[s].push(bin)?;
    }
    Ok(())
}

// The place of the first cut that isn't below v.
pub(crate) fn first_from(cuts: &[u64], v: u64) -> usize
    requires ascends { Ascends cuts.now }
    requires some { 0 < length cuts.now }
    requires zero { slice_index cuts.now 0 ≡ 0 }
    ensures bound { result ≤ length cuts.now }
    ensures below { (s : ℕ) → s < result → slice_index cuts.now s < v }
    ensures above { (s : ℕ) → result ≤ s → s < length cuts.now → v ≤ slice_index cuts.now s }
{
    if v == 0 {
        return 0;
    }
    segment(cuts, v - 1) + 1
}

fn add_span(rows: &mut [Row], cuts: &[u64], span: &Span, bin: u32) -> Result<(), Memory>
    requires ascends { Ascends cuts.now }
    requires some { 0 < length cuts.now }
    requires zero { slice_index cuts.now 0 ≡ 0 }
    requires same { length rows.old ≡ length cuts.now }
    ensures { OnOk result (SpansAdded cuts.now (span.now ∷ []) bin rows.old rows.new) }
{
    let from = first_from(cuts, span.low);
    let to = segment(cuts, span.high) + 1;
    add_range(rows, from, to, bin)
}

fn add_spans(rows: &mut [Row], cuts: &[u64], spans: &[Span], bin: u32) -> Result<(), Memory>
    requires ascends { Ascends cuts.now }
    requires some { 0 < length cuts.now }
    requires zero { slice_index cuts.now 0 ≡ 0 }
    requires same { length rows.old ≡ length cuts.now }
    requires apart { Apart spans.now }
    ensures { OnOk result (SpansAdded cuts.now spans.now bin rows.old rows.new) }
{
    for span in spans {
        add_span(rows, cuts, span, bin)?;
    }
    Ok(())
}

/// Adds each bin to the rows of its segments.
pub(crate) fn add_sets(rows: &mut [Row], cuts: &[u64], sets: &[Set]) -> Result<(), Memory>
    requires ascends { Ascends cuts.now }
    requires some { 0 < length cuts.now }
    requires zero { slice_index cuts.now 0 ≡ 0 }
    requires same { length rows.old ≡ length cuts.now }
    requires empty { All (λ row. row ≡ []) rows.old }
    requires apart { All Apart sets.now }
    requires few { length sets.now < 2 ^ 32 }
    ensures { OnOk result (Holds cuts.now sets.now rows.new) }
{
    for (i, set) in sets.iter().enumerate() {
        add_spans(rows, cuts, set.as_slice(), i as u32)?;
    }
    Ok(())
}

/// The rows, one after the other in one flat list.
pub(crate) fn flatten(alloc: Global, rows: &[Row]) -> Result<Rows, Memory>
    ensures { IfOk result (λ all. all ≡ rows.now) }
{
    let mut all = Rows::new(alloc);
    for row in rows {
        all.push(row.as_slice())?;
    }
    Ok(all)
}
