//! Marks of bins, with how many are set among bins of one parent in a row.
ghost use Rattle.std.specs.Prelude.{◌≡◌, ℕ, ◌+◌, ◌-◌, ◌<◌, ◌≤◌, ◌^◌, ◌∷◌, ◌++◌, [], true, false, length, replicate, slice_index, slice_index_or, slice_set, IfOk, OnOk};
ghost use Rattle.store_sums.specs.Runs.{begin_of, marks_in, with_marks, unmarked, renumbered, HasRuns};

use cov_base::Memory;
use std::alloc::Global;
use std::marker::Model;

/// Bins in order, each with the node right above it and two marks: whether it counts, and whether it is covered as well.
/// How many are with_marks is kept for each row of bins of one parent.
#[derive(Drop)]
pub struct Runs {
    parents: Vec<u32>,
    begins: Vec<u32>,
    ends: Vec<u32>,
    live: Vec<bool>,
    lives: Vec<u32>,
    covered: Vec<bool>,
    covers: Vec<u32>,
}

impl Model for Runs {
    ghost use Rattle.std.specs.Prelude.{◌<◌, ◌^◌, length};
    ghost use Rattle.store_sums.specs.Runs.{Marks, HasRuns, HasNumbers};

    ghost Value = { Marks };

    ghost view = { λ runs. record { parents = runs.parents.items; live = runs.live.items; covered = runs.covered.items } };

    ghost invariant = { λ runs. HasRuns runs.parents.items (length runs.parents.items) runs.begins.items runs.ends.items
        × HasNumbers runs.begins.items runs.ends.items runs.live.items runs.lives.items
        × HasNumbers runs.begins.items runs.ends.items runs.covered.items runs.covers.items
        × (length runs.parents.items < 2 ^ 32) };
}

/// Some bins of one parent in a row: where they end, and how many are with_marks.
#[derive(Clone, Copy)]
pub(crate) struct Piece {
    pub(crate) end: u32,
    pub(crate) live: u32,
    pub(crate) covered: u32,
}

/// Where the bins of one parent begin that stand in a row up to a place; for the place before it, this is `begin`.
fn next_begin(parents: &[u32], begin: u32, place: u32) -> u32
    requires inside { place < length parents.now }
    requires begin { 0 < place → begin ≡ begin_of parents.now (place - 1) }
    ensures { result ≡ begin_of parents.now place }
{
    if place > 0 && parents[place as usize] == parents[place as usize - 1] {
        begin
    } else {
        place
    }
}

/// A bin more, of the run that begins there.
fn push_begin(begins: &mut Vec<u32>, ends: &mut Vec<u32>, begin: u32) -> Result<(), Memory>
    requires inside { begin < length ends.old.items }
    requires few { length begins.old.items + 1 < 2 ^ 32 }
    ensures begins { OnOk result (begins.new.items ≡ begins.old.items ++ begin ∷ []) }
    ensures ends { OnOk result (ends.new.items ≡ slice_set ends.old.items begin (length begins.old.items + 1)) }
{
    let end = begins.len() as u32 + 1;
    begins.push(begin)?;
    ends[begin as usize] = end;
    Ok(())
}

/// Where the run of each bin begins, and where each run that begins there ends.
fn runs_of(alloc: Global, parents: &[u32]) -> Result<(Vec<u32>, Vec<u32>), Memory>
    requires { length parents.now < 2 ^ 32 }
    ensures { IfOk result (λ r. HasRuns parents.now (length parents.now) r.0.items r.1.items) }
{
    let mut begins = Vec::new(alloc);
    let mut ends = no_numbers(alloc, parents.len())?;
    let mut begin = 0;
    for place in 0..parents.len() as u32 {
        begin = next_begin(parents, begin, place);
        push_begin(&mut begins, &mut ends, begin)?;
    }
    Ok((begins, ends))
}

/// Sets a mark, and counts it in the run that begins there.
fn set_mark(marks: &mut Vec<bool>, numbers: &mut Vec<u32>, first: u32, place: u32, mark: bool)
    requires place { place < length marks.old.items }
    requires first { first < length numbers.old.items }
    requires room { slice_index_or marks.old.items place false ≡ false → slice_index numbers.old.items first + 1 < 2 ^ 32 }
    requires some { slice_index_or marks.old.items place false ≡ true → 0 < slice_index numbers.old.items first }
    ensures marks { marks.new.items ≡ slice_set marks.old.items place mark }
    ensures numbers { numbers.new.items ≡ renumbered (slice_index_or marks.old.items place false) mark first numbers.old.items }
{
    let was = marks[place as usize];
    marks[place as usize] = mark;
    if !was && mark {
        numbers[first as usize] += 1;
    }
    if was && !mark {
        numbers[first as usize] -= 1;
    }
}

fn no_marks(alloc: Global, many: usize) -> Result<Vec<bool>, Memory>
    ensures { IfOk result (λ marks. marks.items ≡ replicate many false) }
{
    Ok(vec![in alloc; false; many]?)
}

fn no_numbers(alloc: Global, many: usize) -> Result<Vec<u32>, Memory>
    ensures { IfOk result (λ numbers. numbers.items ≡ replicate many 0) }
{
    Ok(vec![in alloc; 0u32; many]?)
}

impl Runs {
    /// Bins right below these nodes, in order, without a mark.
    pub(crate) fn of(alloc: Global, parents: Vec<u32>) -> Result<Runs, Memory>
        requires { length parents.items < 2 ^ 32 }
        ensures { IfOk result (λ runs. runs ≡ unmarked parents.items) }
    {
        let (begins, ends) = runs_of(alloc, parents.as_slice())?;
        let many = parents.as_slice().len();
        let live = no_marks(alloc, many)?;
        let lives = no_numbers(alloc, many)?;
        let covered = no_marks(alloc, many)?;
        let covers = no_numbers(alloc, many)?;
        Ok(Runs {
            parents,
            begins,
            ends,
            live,
            lives,
            covered,
            covers,
        })
    }

    /// Sets both marks of a bin.
    pub(crate) fn mark(&mut self, place: u32, live: bool, covered: bool)
        requires { place < length self.old.parents }
        ensures { self.new ≡ with_marks place live covered self.old }
    {
        let first = self.begins[place as usize];
        set_mark(&mut self.live, &mut self.lives, first, place, live);
        set_mark(&mut self.covered, &mut self.covers, first, place, covered);
    }

    /// The bins from one on that stand in a row right below one node, or some of them: where they end, before the end that
    /// is given, and how many of them are with_marks.
    pub(crate) fn piece(&self, first: u32, end: u32) -> Piece
        requires some { first < end }
        requires inside { end ≤ length self.now.parents }
        ensures some { first < result.end }
        ensures within { result.end ≤ end }
        ensures live { result.live ≡ marks_in self.now.live first (result.end - first) }
        ensures covered { result.covered ≡ marks_in self.now.covered first (result.end - first) }
        ensures alike { (j : ℕ) → first ≤ j → j < result.end
            → slice_index self.now.parents j ≡ slice_index self.now.parents first }
    {
        let last = self.ends[first as usize];
        if self.begins[first as usize] == first && last <= end {
            return Piece {
                end: last,
                live: self.lives[first as usize],
                covered: self.covers[first as usize],
            };
        }
        Piece {
            end: first + 1,
            live: u32::from(self.live[first as usize]),
            covered: u32::from(self.covered[first as usize]),
        }
    }
}
