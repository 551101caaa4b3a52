//! What nodes, counts and flags say at a place.
ghost use Rattle.std.specs.Prelude.{◌≡◌, slice_index, slice_index_or, false};
ghost use Rattle.ucis_model.specs.Paths.{node_at};
ghost use Rattle.cov_history.specs.Flags.{flagged};

use ucis_model::{Node, NodeKind};

/// What a node says, without its name.
#[derive(Clone, Copy)]
pub struct Facts {
    pub kind: NodeKind,
    pub parent: u32,
    pub first_bin: u32,
    pub bins: u32,
    pub weight: u32,
    pub type_weight: u32,
    pub goal: u32,
    pub at_least: u32,
    pub merge: bool,
}

/// What the node at a place says; where there is none, a root without bins.
#[tactic(auto, using(crate::proofs::Places::read_is, crate::proofs::Places::past_is))]
pub fn said(nodes: &[Node], place: u32) -> Facts
    ensures kind { result.kind ≡ (node_at nodes.now place).kind }
    ensures parent { result.parent ≡ (node_at nodes.now place).parent }
    ensures first_bin { result.first_bin ≡ (node_at nodes.now place).first_bin }
    ensures bins { result.bins ≡ (node_at nodes.now place).bins }
    ensures weight { result.weight ≡ (node_at nodes.now place).weight }
    ensures type_weight { result.type_weight ≡ (node_at nodes.now place).type_weight }
    ensures goal { result.goal ≡ (node_at nodes.now place).goal }
    ensures at_least { result.at_least ≡ (node_at nodes.now place).at_least }
    ensures merge { result.merge ≡ (node_at nodes.now place).merge }
{
    if place as usize >= nodes.len() {
        return Facts {
            kind: NodeKind::Root,
            parent: 0,
            first_bin: 0,
            bins: 0,
            weight: 1,
            type_weight: 1,
            goal: 100,
            at_least: 1,
            merge: false,
        };
    }
    let node = &nodes[place as usize];
    Facts {
        kind: node.kind,
        parent: node.parent,
        first_bin: node.first_bin,
        bins: node.bins,
        weight: node.weight,
        type_weight: node.type_weight,
        goal: node.goal,
        at_least: node.at_least,
        merge: node.merge,
    }
}

/// The name of the node at a place; none where there is no node.
#[tactic(auto, using(crate::proofs::Places::read_is, crate::proofs::Places::past_is))]
pub(crate) fn name(nodes: &[Node], place: u32) -> &[u8]
    ensures { result.now ≡ (node_at nodes.now place).name }
{
    if place as usize >= nodes.len() {
        return &[];
    }
    nodes[place as usize].name.as_slice()
}

/// The flag at a place; past the end the first one.
#[tactic(auto, using(crate::proofs::Places::read_is, crate::proofs::Places::past_is))]
pub(crate) fn flag(flags: &[bool], place: u32) -> bool
    ensures { result ≡ flagged flags.now place }
{
    if place as usize >= flags.len() {
        return first(flags);
    }
    flags[place as usize]
}

/// The first flag; false where there is none.
#[tactic(auto, using(crate::proofs::Places::read_is, crate::proofs::Places::past_is))]
fn first(flags: &[bool]) -> bool
    ensures { result ≡ slice_index_or flags.now 0 false }
{
    if flags.is_empty() {
        return false;
    }
    flags[0]
}

/// The count at a place; 0 past the end.
#[tactic(auto, using(crate::proofs::Places::read_is, crate::proofs::Places::past_is))]
pub fn count(counts: &[u64], place: u32) -> u64
    ensures { result ≡ slice_index counts.now place }
{
    if place as usize >= counts.len() {
        return 0;
    }
    counts[place as usize]
}
