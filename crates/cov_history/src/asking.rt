//! Answers at a history, by definition.
ghost use Rattle.std.specs.Prelude.{◌≡◌, ℕ, ◌<◌, ◌^◌, length, slice_index, IfOk};
ghost use Rattle.cov_history.specs.Answers.{cover_row as row_meant, coverage_at};
ghost use Rattle.cov_history.specs.Coverage.{is_excluded};
ghost use Rattle.cov_history.specs.History.{contents, hits_of, out_of};
ghost use Rattle.cov_history.specs.Flags.{flagged};

use crate::covering::{bin_nodes, covered, live_under};
use crate::facts::{flag, said};
use crate::flags::excluded_nodes;
use crate::gone::{design_at, out_at};
use crate::together::counts_at;
use crate::{Entry, coverage_by_definition};
use cov_ground::Memory;
use design_data::Design;
use std::alloc::Global;
use ucis_model::{Answer, CoverRow, Node, Tree, tree};

/// How many live bins under a node are covered, and how many there are.
fn live_bins(
    alloc: Global,
    nodes: &[Node],
    counts: &[u64],
    excluded: &[bool],
    place: u32,
) -> Result<(u32, u32), Memory>
    requires { length nodes.now < 2 ^ 32 }
    ensures covered { IfOk result (λ pair. pair.0 ≡ (row_meant nodes.now (slice_index counts.now) (flagged excluded.now) place).covered) }
    ensures bins { IfOk result (λ pair. pair.1 ≡ (row_meant nodes.now (slice_index counts.now) (flagged excluded.now) place).bins) }
{
    let bins = bin_nodes(alloc, nodes)?;
    let live = live_under(alloc, nodes, excluded, bins.as_slice(), place)?;
    Ok((covered(nodes, counts, live.as_slice()), live.len() as u32))
}

/// The row of a node's coverage.
fn cover_row(
    alloc: Global,
    nodes: &[Node],
    counts: &[u64],
    excluded: &[bool],
    place: u32,
) -> Result<CoverRow, Memory>
    requires { length nodes.now < 2 ^ 32 }
    ensures { IfOk result (λ row. row ≡ row_meant nodes.now (slice_index counts.now) (flagged excluded.now) place) }
{
    let millionths = coverage_by_definition(alloc, nodes, counts, excluded, place)?;
    let pair = live_bins(alloc, nodes, counts, excluded, place)?;
    let goal = u64::from(said(nodes, place).goal);
    Ok(CoverRow {
        millionths,
        met: 10_000 * goal <= u64::from(millionths),
        excluded: flag(excluded, place),
        covered: pair.0,
        bins: pair.1,
    })
}

/// The row of a node's coverage at the end of a history whose design has this tree.
fn row_at(
    alloc: Global,
    design: &Design,
    tree: &Tree,
    entries: &[Entry],
    place: u32,
) -> Result<CoverRow, Memory>
    requires few { length entries.now < 2 ^ 32 }
    requires nodes { length tree.now < 2 ^ 32 }
    ensures { IfOk result (λ row. row ≡ row_meant tree.now (hits_of design.now (contents entries.now)) (is_excluded tree.now (out_of entries.now)) place) }
{
    let out = out_at(alloc, entries)?;
    let excluded = excluded_nodes(alloc, tree, out.as_slice())?;
    let counts = counts_at(alloc, design, entries)?;
    let row = cover_row(
        alloc,
        tree.nodes(),
        counts.as_slice(),
        excluded.as_slice(),
        place,
    )?;
    Ok(row)
}

/// The answer to a question for the coverage of a node at a history, by definition: all tests are counted anew, so it
/// serves small histories alone.
pub fn coverage_answer(
    alloc: Global,
    opening: &Design,
    entries: &[Entry],
    path: &[u8],
) -> Result<Answer, Memory>
    requires { length entries.now < 2 ^ 32 }
    ensures { IfOk result (λ answer. answer ≡ coverage_at opening.now entries.now path.now) }
{
    let design = design_at(opening, entries);
    let tree = tree(alloc, design)?;
    let Some(place) = tree.find(path) else {
        return Ok(Answer::NoSuchPath);
    };
    let row = row_at(alloc, design, &tree, entries, place)?;
    Ok(Answer::CoverageIs(row))
}
