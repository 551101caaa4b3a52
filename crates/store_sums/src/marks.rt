//! What is marked of bins, so that coverage needs no look at each of them.
ghost use Rattle.std.specs.Prelude.{◌≡◌, ℕ, ◌<◌, ◌^◌, ◌||◌, Bool, true, false, length, map, option_map, slice_index, IfOk};
ghost use Rattle.std.specs.Arc.{arc_value};
ghost use Rattle.design_data.specs.Bins.{is_coverage as is_coverage_meant};
ghost use Rattle.ucis_model.specs.Paths.{node_at};
ghost use Rattle.cov_history.specs.Nodes.{bin_nodes, bin_kind};
ghost use Rattle.cov_history.specs.Coverage.{is_covered as is_covered_meant};
ghost use Rattle.store_sums.specs.Runs.{stands as stands_meant, remarked, has_row, HasMarks};

use crate::branches::Branches;
use crate::nodes::number_at;
use crate::places::is_some_at;
use crate::runs::Runs;
use cov_base::Memory;
use cov_tree::Name;
use design_data::BinKind;
use std::alloc::Global;
use std::sync::Arc;
use ucis_model::NodeKind;

/// Whether a node of this kind is a bin that counts.
fn is_coverage(kind: NodeKind) -> bool
    ensures { result ≡ is_coverage_meant (bin_kind kind) }
{
    matches!(kind, NodeKind::Bin(BinKind::CvgBin))
}

/// Whether a bin counts, if no node above it is out.
fn stands(branches: &Branches, out: &[Option<Arc<Name>>], node: u32) -> bool
    ensures { result ≡ stands_meant branches.now (map (λ p. option_map arc_value p) out.now) node }
{
    is_coverage(branches.facts(node).kind) && !is_some_at(out, node as usize)
}

/// Whether a bin is hit often enough.
fn is_covered(branches: &Branches, counts: &[u64], node: u32) -> bool
    ensures { result ≡ is_covered_meant branches.now (slice_index counts.now) node }
{
    let facts = branches.facts(node);
    u64::from(facts.at_least) <= number_at(counts, facts.first_bin)
}

/// Marks a bin as it should be.
pub(crate) fn mark_bin(
    runs: &mut Runs,
    branches: &Branches,
    counts: &[u64],
    out: &[Option<Arc<Name>>],
    place: u32,
)
    requires { length runs.old.parents ≡ length (bin_nodes branches.now) }
    ensures { runs.new ≡ remarked branches.now counts.now (map (λ p. option_map arc_value p) out.now) place runs.old }
{
    if let Some(node) = branches.bin(place) {
        let live = stands(branches, out, node);
        let covered = live && is_covered(branches, counts, node);
        runs.mark(place, live, covered);
    }
}

/// Marks the bins of these rows as they should be.
pub(crate) fn mark_rows(
    runs: &mut Runs,
    branches: &Branches,
    counts: &[u64],
    out: &[Option<Arc<Name>>],
    rows: &[(u32, u64)],
)
    requires { length runs.old.parents ≡ length (bin_nodes branches.now) }
    ensures { (done : ℕ → Bool) → HasMarks branches.now counts.now (map (λ p. option_map arc_value p) out.now) done runs.old
        → HasMarks branches.now counts.now (map (λ p. option_map arc_value p) out.now) (λ p. done p || has_row rows.now p) runs.new }
{
    for (bin, _) in rows {
        mark_bin(runs, branches, counts, out, *bin);
    }
}

/// The node right above each bin.
fn parents_of(alloc: Global, branches: &Branches) -> Result<Vec<u32>, Memory>
    ensures { IfOk result (λ parents. parents.items ≡ map (λ n. (node_at branches.now n).parent) (bin_nodes branches.now)) }
{
    let mut parents = Vec::new(alloc);
    for bin in branches.bins() {
        parents.push(branches.facts(*bin).parent)?;
    }
    Ok(parents)
}

/// Marks all bins as they should be.
fn mark_all(runs: &mut Runs, branches: &Branches, counts: &[u64], out: &[Option<Arc<Name>>])
    requires { HasMarks branches.now counts.now (map (λ p. option_map arc_value p) out.now) (λ p. false) runs.old }
    ensures { HasMarks branches.now counts.now (map (λ p. option_map arc_value p) out.now) (λ p. true) runs.new }
{
    for place in 0..branches.bins().len() as u32 {
        mark_bin(runs, branches, counts, out, place);
    }
}

/// The marks of all bins.
pub fn marks_of(
    alloc: Global,
    branches: &Branches,
    counts: &[u64],
    out: &[Option<Arc<Name>>],
) -> Result<Runs, Memory>
    ensures { IfOk result (λ runs. HasMarks branches.now counts.now (map (λ p. option_map arc_value p) out.now) (λ p. true) runs) }
{
    let _bins = branches.bins();
    let parents = parents_of(alloc, branches)?;
    let mut runs = Runs::of(alloc, parents)?;
    mark_all(&mut runs, branches, counts, out);
    Ok(runs)
}
