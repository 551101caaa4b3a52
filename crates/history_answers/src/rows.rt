//! Rows of bins with their counts.
ghost use Rattle.std.specs.Prelude.{◌≡◌, ℕ, ◌<◌, ◌^◌, length, map, take, drop, slice_index, IfOk};
ghost use Rattle.cov_history.specs.Coverage.{is_excluded as is_excluded_meant};
ghost use Rattle.cov_history.specs.Answers.{count_row as row_meant, rows as rows_meant};

use crate::bins::kind_at;
use cov_ground::Memory;
use cov_ground::limits::MOST_ROWS;
use cov_history::{count, is_excluded, said};
use cov_tree::{List, Name};
use std::alloc::Global;
use ucis_model::{Answer, CountRow, Tree};

/// At most so many of the elements, from the first-th on.
pub(crate) fn page<T>(list: &[T], first: usize, most: usize) -> &[T]
    ensures { result.now ≡ take most (drop first list.now) }
{
    let first = first.min(list.len());
    let most = most.min(list.len() - first);
    &list[first..first + most]
}

/// The row of a bin.
fn count_row(tree: &Tree, counts: &[u64], out: &[Name], bin: u32) -> CountRow
    ensures { result ≡ row_meant tree.now (slice_index counts.now) (is_excluded_meant tree.now out.now) bin }
{
    let number = said(tree.nodes(), bin).first_bin;
    CountRow {
        bin: number,
        kind: kind_at(tree.nodes(), bin),
        excluded: is_excluded(tree, out, bin),
        count: count(counts, number),
    }
}

/// The rows of these bins.
fn count_rows(
    alloc: Global,
    tree: &Tree,
    counts: &[u64],
    out: &[Name],
    bins: &[u32],
) -> Result<Vec<CountRow>, Memory>
    ensures { IfOk result (λ rows. rows.items ≡ map (row_meant tree.now (slice_index counts.now) (is_excluded_meant tree.now out.now)) bins.now) }
{
    let mut rows = Vec::new(alloc);
    let mut rest = bins;
    while let Some((bin, later)) = rest.split_first() {
        rows.push(count_row(tree, counts, out, *bin))?;
        rest = later;
    }
    Ok(rows)
}

/// How many bins these are, and a page of their rows.
pub(crate) fn rows(
    alloc: Global,
    tree: &Tree,
    counts: &[u64],
    out: &[Name],
    bins: &[u32],
    first: u32,
) -> Result<Answer, Memory>
    requires { length bins.now < 2 ^ 32 }
    ensures { IfOk result (λ answer. answer ≡ rows_meant tree.now (slice_index counts.now) (is_excluded_meant tree.now out.now) first bins.now) }
{
    let part = page(bins, first as usize, MOST_ROWS);
    let rows = count_rows(alloc, tree, counts, out, part)?;
    Ok(Answer::Rows {
        total: bins.len() as u32,
        rows: List::of(rows),
    })
}
