//! What is known of single nodes.
ghost use Rattle.std.specs.Prelude.{◌≡◌, ◌<◌, ◌≤◌, ◌^◌, ℕ, length, cond, slice_index, IfOk, IfSome};
ghost use Rattle.ucis_model.specs.Paths.{find_in, node_at, path_of};
ghost use Rattle.cov_history.specs.Nodes.{children as children_meant, bins_under as bins_meant, bin_kind, node_of_bin};
ghost use Rattle.cov_history.specs.Coverage as cover;
ghost use Rattle.cov_history.specs.Answers.{count_row};
ghost use Rattle.store_sums.specs.Branches.{facts_of};
ghost use Rattle.store_sums.specs.Now.{nodes_now, count_now, excluded_now};

use crate::Sums;
use crate::branches::Facts;
use cov_base::Memory;
use cov_tree::Name;
use design_data::BinKind;
use ucis_model::{CountRow, Node, NodeKind};

/// The number of an index, and 0 where there is none.
pub(crate) fn number_at(numbers: &[u64], index: u32) -> u64
    ensures { result ≡ slice_index numbers.now index }
{
    match numbers.get(index as usize) {
        Some(number) => *number,
        None => 0,
    }
}

/// The kind of the bin that a node is.
fn kind_of(kind: NodeKind) -> BinKind
    ensures { result ≡ bin_kind kind }
{
    match kind {
        NodeKind::Bin(kind) => kind,
        _ => BinKind::DefaultBin,
    }
}

impl Sums {
    /// The nodes of the design in depth-first order. Node 0 is the root.
    pub fn nodes(&self) -> &[Node]
        ensures { result.now ≡ nodes_now self.now }
    {
        self.branches.nodes()
    }

    /// The path of a node: the names from its group down to it, with `/` between them. The root has the empty path.
    pub fn path_text(&self, node: u32) -> Result<Name, Memory>
        requires { node < length (nodes_now self.now) }
        ensures { IfOk result (λ path. path ≡ path_of (nodes_now self.now) node) }
    {
        self.branches.path_text(self.alloc, node)
    }

    /// The least node that has the path.
    pub fn find(&self, path: &[u8]) -> Option<u32>
        ensures { result ≡ find_in (nodes_now self.now) path.now }
    {
        self.branches.find(path)
    }

    /// The node of the bin of this number.
    pub fn bin(&self, number: u32) -> Option<u32>
        ensures node { result ≡ node_of_bin (nodes_now self.now) number }
        ensures inside { IfSome result (λ node. node < length (nodes_now self.now)) }
    {
        self.branches.bin(number)
    }

    /// What a node says apart from its name.
    pub(crate) fn facts(&self, node: u32) -> Facts
        ensures { result ≡ facts_of (node_at (nodes_now self.now) node) }
    {
        self.branches.facts(node)
    }

    /// A node's own name.
    pub(crate) fn name(&self, node: u32) -> &[u8]
        ensures { result.now ≡ (node_at (nodes_now self.now) node).name }
    {
        self.branches.name(node)
    }

    /// The nodes right below one, in order.
    pub fn children(&self, node: u32) -> &[u32]
        ensures { result.now ≡ children_meant (nodes_now self.now) node }
    {
        self.branches.children(node)
    }

    /// The nodes of the bins under a node.
    pub fn bins_under(&self, node: u32) -> &[u32]
        ensures bins { result.now ≡ bins_meant (nodes_now self.now) node }
        ensures few { length result.now < 2 ^ 32 }
    {
        self.branches.bins_under(node)
    }

    /// Whether the node or one above it is out.
    pub(crate) fn is_excluded(&self, node: u32) -> bool
        ensures { result ≡ excluded_now self.now node }
    {
        let mut at = node;
        while !self.is_out(at) {
            if at == 0 {
                return false;
            }
            at = self.facts(at).parent;
        }
        true
    }

    /// How often the bin that a node is was hit.
    pub fn count(&self, node: u32) -> u64
        ensures { result ≡ cover.count_at (nodes_now self.now) (count_now self.now) node }
    {
        number_at(self.counts.as_slice(), self.facts(node).first_bin)
    }

    /// Whether the node is a coverage bin that isn't excluded.
    pub(crate) fn is_live(&self, node: u32) -> bool
        ensures { result ≡ cover.is_live (nodes_now self.now) (excluded_now self.now) node }
    {
        match self.facts(node).kind {
            NodeKind::Bin(BinKind::CvgBin) => !self.is_excluded(node),
            _ => false,
        }
    }

    /// A bin with a count of it.
    pub(crate) fn count_row(&self, node: u32, count: u64) -> CountRow
        ensures { (meant : ℕ → ℕ) → count ≡ cover.count_at (nodes_now self.now) meant node
            → result ≡ count_row (nodes_now self.now) meant (excluded_now self.now) node }
    {
        let facts = self.facts(node);
        CountRow {
            bin: facts.first_bin,
            kind: kind_of(facts.kind),
            excluded: self.is_excluded(node),
            count,
        }
    }
}
