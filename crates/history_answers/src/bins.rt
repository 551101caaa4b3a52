//! What nodes say, and the nodes of bins.
ghost use Rattle.std.specs.Prelude.{◌≡◌, ◌<◌, ◌≤◌, ◌++◌, ◌∷◌, [], ◌&&◌, ◌^◌, nat_lt, length, filter, cond, slice_index, IfOk, OnOk, IfSome};
ghost use Rattle.ucis_model.specs.Paths.{node_at};
ghost use Rattle.design_data.specs.Bins.{is_coverage as is_coverage_kind};
ghost use Rattle.cov_history.specs.Nodes.{is_bin as is_bin_kind, bin_kind as bin_kind_of, bin_nodes as bin_nodes_of, bins_under as bins_meant, node_of_bin, kind_of_bin, is_illegal as is_illegal_kind};
ghost use Rattle.cov_history.specs.Coverage.{count_at, is_live as is_live_meant, is_excluded as is_excluded_meant};
ghost use Rattle.cov_history.specs.Answers.{illegal_hit as illegal_meant};

use cov_ground::Memory;
use cov_history::{count, is_excluded, push_if, said};
use cov_tree::Name;
use design_data::BinKind;
use std::alloc::Global;
use ucis_model::{Node, NodeKind, Tree};

/// The kind of a bin's node.
fn bin_kind(kind: NodeKind) -> BinKind
    ensures { result ≡ bin_kind_of kind }
{
    match kind {
        NodeKind::Bin(kind) => kind,
        _ => BinKind::DefaultBin,
    }
}

/// The kind of a bin.
pub(crate) fn kind_at(nodes: &[Node], bin: u32) -> BinKind
    ensures { result ≡ kind_of_bin nodes.now bin }
{
    bin_kind(said(nodes, bin).kind)
}

fn number_at(nodes: &[Node], bins: &[u32], number: u32) -> Option<u32>
    requires { bins.now ≡ bin_nodes_of nodes.now }
    ensures { result ≡ node_of_bin nodes.now number }
{
    bins.get(number as usize).copied()
}

/// The node of the bin of a number.
pub(crate) fn bin_at(nodes: &[Node], bins: &[u32], number: u32) -> Option<u32>
    requires { bins.now ≡ bin_nodes_of nodes.now }
    ensures node { result ≡ node_of_bin nodes.now number }
    ensures inside { IfSome result (λ node. node < length nodes.now) }
{
    number_at(nodes, bins, number)
}

fn is_coverage(kind: BinKind) -> bool
    ensures { result ≡ is_coverage_kind kind }
{
    matches!(kind, BinKind::CvgBin)
}

/// Whether a bin's node is live.
fn is_live(tree: &Tree, out: &[Name], bin: u32) -> bool
    ensures { result ≡ is_live_meant tree.now (is_excluded_meant tree.now out.now) bin }
{
    is_coverage(kind_at(tree.nodes(), bin)) && !is_excluded(tree, out, bin)
}

/// The live bins among these.
pub(crate) fn live(
    alloc: Global,
    tree: &Tree,
    out: &[Name],
    bins: &[u32],
) -> Result<Vec<u32>, Memory>
    ensures { IfOk result (λ live. live.items ≡ filter (is_live_meant tree.now (is_excluded_meant tree.now out.now)) bins.now) }
{
    let mut live = Vec::new(alloc);
    let mut rest = bins;
    while let Some((bin, later)) = rest.split_first() {
        push_if(&mut live, is_live(tree, out, *bin), *bin)?;
        rest = later;
    }
    Ok(live)
}

fn is_illegal(kind: BinKind) -> bool
    ensures { result ≡ is_illegal_kind kind }
{
    matches!(kind, BinKind::IllegalBin)
}

/// Whether a bin's node is that of an illegal bin that was hit.
fn is_illegal_hit(nodes: &[Node], counts: &[u64], bin: u32) -> bool
    ensures { result ≡ (is_illegal_kind (kind_of_bin nodes.now bin) && nat_lt 0 (count_at nodes.now (slice_index counts.now) bin)) }
{
    is_illegal(kind_at(nodes, bin)) && count(counts, said(nodes, bin).first_bin) > 0
}

/// The illegal bins that were hit.
#[tactic(auto, using(crate::proofs::Worked::few_filtered))]
pub(crate) fn illegal_hit(
    alloc: Global,
    nodes: &[Node],
    counts: &[u64],
    bins: &[u32],
) -> Result<Vec<u32>, Memory>
    requires { bins.now ≡ bin_nodes_of nodes.now }
    ensures hit { IfOk result (λ hit. hit.items ≡ illegal_meant nodes.now (slice_index counts.now)) }
    ensures few { IfOk result (λ hit. length hit.items ≤ length bins.now) }
{
    let mut hit = Vec::new(alloc);
    let mut rest = bins;
    while let Some((bin, later)) = rest.split_first() {
        push_if(&mut hit, is_illegal_hit(nodes, counts, *bin), *bin)?;
        rest = later;
    }
    Ok(hit)
}
