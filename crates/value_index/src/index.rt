//! The index of a point.
ghost use Rattle.std.specs.Prelude.{◌≡◌, ℕ, ◌<◌, ◌≤◌, ◌+◌, ◌*◌, ◌^◌, length, slice_index, [], vec_len, IfOk, All, List};
ghost use Rattle.value_index.specs.Segments.{Ascends, IsSegment};
ghost use Rattle.value_index.specs.Found.{Apart};
ghost use Rattle.value_index.specs.Built.{Holds};

use crate::build::{add_sets, cuts_of, flatten};
use crate::room::{has_room, most_places_of};
use crate::rows::{Row, Rows};
use crate::segment::{segment, segment_between};
use crate::sets::Set;
use cov_ground::Memory;
use std::alloc::Global;

/// For each value the bins whose set has it.
pub struct Index {
    cuts: Vec<u64>,
    shift: u32,
    starts: Vec<u32>,
    rows: Rows,
    ghost ascends: { (i j : ℕ) → i ≤ j → j < length cuts.items → slice_index cuts.items i ≤ slice_index cuts.items j },
    ghost some: { 0 < length cuts.items },
    ghost zero: { slice_index cuts.items 0 ≡ 0 },
    ghost same: { length rows ≡ length cuts.items },
    ghost shifts: { shift < 64 },
    ghost inside: { (b : ℕ) → b < length starts.items → slice_index starts.items b < length cuts.items },
    ghost below: { (b : ℕ) → b < length starts.items → slice_index cuts.items (slice_index starts.items b) ≤ b * 2 ^ shift },
    ghost above: { (b t : ℕ) → b < length starts.items → slice_index starts.items b < t → t < length cuts.items → b * 2 ^ shift < slice_index cuts.items t },
}

impl Drop for Index {
    fn drop(self) {
        let Index {
            cuts: _,
            shift: _,
            starts: _,
            rows: _,
        } = self;
    }
}

// The segments of the values at which buckets of 2 ^ shift values begin.
fn starts_of(alloc: Global, cuts: &[u64], shift: u32, count: usize) -> Result<Vec<u32>, Memory>
    requires ascends { Ascends cuts.now }
    requires some { 0 < length cuts.now }
    requires zero { slice_index cuts.now 0 ≡ 0 }
    requires shifts { shift < 64 }
    ensures { IfOk result (λ starts. (b : ℕ) → b < length starts.items → IsSegment cuts.now (b * 2 ^ shift) (slice_index starts.items b)) }
{
    let mut starts = Vec::new(alloc);
    if cuts.len() >= 0x1_0000_0000 {
        return Ok(starts);
    }
    let step = 1u64 << shift;
    for b in 0..count {
        let Some(v) = (b as u64).checked_mul(step) else {
            return Ok(starts);
        };
        starts.push(segment(cuts, v) as u32)?;
    }
    Ok(starts)
}

// So wide that there are at most `most` buckets up to v.
fn shift_for(v: u64, most: u64) -> u32
    ensures { result < 64 }
{
    for shift in 0..63 {
        if v >> shift < most {
            return shift;
        }
    }
    63
}

fn empty_rows(alloc: Global, count: usize) -> Result<Vec<Row>, Memory>
    ensures len { IfOk result (λ rows. length rows.items ≡ count) }
    ensures empty { IfOk result (λ rows. All (λ row. row ≡ []) rows.items) }
{
    let mut rows = Vec::new(alloc);
    for made in 0..count {
        rows.push(Row::new(alloc))?;
    }
    Ok(rows)
}

// For each segment the bins that have its cut.
fn rows_of(alloc: Global, cuts: &[u64], sets: &[Set]) -> Result<Rows, Memory>
    requires ascends { Ascends cuts.now }
    requires some { 0 < length cuts.now }
    requires zero { slice_index cuts.now 0 ≡ 0 }
    requires apart { All Apart sets.now }
    requires few { length sets.now < 2 ^ 32 }
    ensures { IfOk result (λ rows. Holds cuts.now sets.now rows) }
{
    let mut building = empty_rows(alloc, cuts.len())?;
    add_sets(building.as_mut_slice(), cuts, sets)?;
    let rows = flatten(alloc, building.as_slice())?;
    Ok(rows)
}

impl Index {
    ghost use Rattle.value_index.specs.Found.{places};
    ghost use Rattle.value_index.specs.Finds.{Finds};
    ghost use Rattle.value_index.specs.Sizes.{AreCuts, IsMade};
    ghost use Rattle.value_index.specs.declared.sets.Span.{Span};

    // The index of sets with these cuts, with a table of about `most` buckets at most.
    fn with_cuts(alloc: Global, cuts: Vec<u64>, sets: &[Set], most: u32) -> Result<Index, Memory>
        requires ascends { Ascends cuts.items }
        requires some { 0 < length cuts.items }
        requires zero { slice_index cuts.items 0 ≡ 0 }
        requires are { AreCuts sets.now cuts.items }
        requires apart { All Apart sets.now }
        requires few { length sets.now < 2 ^ 32 }
        ensures { IfOk result (λ index. Finds index sets.now) }
    {
        let rows = rows_of(alloc, cuts.as_slice(), sets)?;
        let last = cuts[cuts.len() - 1];
        let shift = shift_for(last, most as u64);
        let count = (last >> shift) as usize;
        let starts = starts_of(alloc, cuts.as_slice(), shift, count.saturating_add(2))?;
        Ok(Index {
            cuts,
            shift,
            starts,
            rows,
        })
    }

    /// The index of sets, with a table of about `most` buckets at most. None where the sets overlap so much that the
    /// rows would have more than 65,536 places and 4 for each cut.
    pub fn new(alloc: Global, sets: &[Set], most: u32) -> Result<Option<Index>, Memory>
        requires apart { All Apart sets.now }
        requires few { length sets.now < 2 ^ 32 }
        ensures { IfOk result (IsMade sets.now) }
    {
        let cuts = cuts_of(alloc, sets)?;
        if !has_room(cuts.as_slice(), sets, most_places_of(cuts.as_slice())) {
            return Ok(None);
        }
        let index = Index::with_cuts(alloc, cuts, sets, most)?;
        Ok(Some(index))
    }

    fn segment(&self, v: u64) -> usize
        ensures { IsSegment self.now.cuts.items v result }
    {
        let bucket = (v >> self.shift) as usize;
        if bucket < self.starts.len().saturating_sub(1) {
            let low = self.starts[bucket] as usize;
            let high = self.starts[bucket + 1] as usize;
            return segment_between(self.cuts.as_slice(), low, high, v);
        }
        segment(self.cuts.as_slice(), v)
    }

    /// The places of the sets that have v, ascending.
    #[inline(always)]
    pub fn hits(&self, v: u64) -> &[u32]
        ensures { (sets : List (List Span)) → Finds self.now sets → result.now ≡ places v 0 sets }
    {
        let s = self.segment(v);
        self.rows.row(s)
    }
}
