//! The nodes of a design with the nodes right below each, and its bins in order.
ghost use Rattle.std.specs.Prelude.{◌≡◌, ◌<◌, ◌≤◌, ◌^◌, ◌++◌, ◌∷◌, [], map, length, replicate, IfOk, IfSome, OnOk, if◌then◌else◌};
ghost use Rattle.ucis_model.specs.Nodes.{nodes_of};
ghost use Rattle.ucis_model.specs.Paths.{HasSmallerParents, find_in, node_at, path_of};
ghost use Rattle.cov_history.specs.Nodes.{bins_under as bins_meant, bin_nodes, children as children_meant, is_bin, node_of_bin};
ghost use Rattle.store_sums.specs.Branches.{HasChildren, with_child, part, facts_of};

use cov_base::Memory;
use cov_tree::Name;
use design_data::Design;
use std::alloc::Global;
use std::marker::Model;
use ucis_model::{Node, NodeKind, Tree, tree};

/// What a node says apart from its name.
#[derive(Clone, Copy)]
pub struct Facts {
    pub kind: NodeKind,
    pub parent: u32,
    pub first_bin: u32,
    pub bins: u32,
    pub weight: u32,
    pub type_weight: u32,
    pub goal: u32,
    pub at_least: u32,
    pub merge: bool,
}

/// What a place without a node says.
const NOTHING: Facts = Facts {
    kind: NodeKind::Root,
    parent: 0,
    first_bin: 0,
    bins: 0,
    weight: 1,
    type_weight: 1,
    goal: 100,
    at_least: 1,
    merge: false,
};

/// The nodes of a design in depth-first order. Contracts see the list of them.
#[derive(Drop)]
pub struct Branches {
    tree: Tree,
    bins: Vec<u32>,
    below: Vec<Vec<u32>>,
}

impl Model for Branches {
    ghost use Rattle.std.specs.Prelude.{◌≡◌, ◌<◌, ◌^◌, List, length, map};
    ghost use Rattle.ucis_model.specs.declared.node.Node.{Node};
    ghost use Rattle.ucis_model.specs.Paths.{HasSmallerParents};
    ghost use Rattle.cov_history.specs.Nodes.{bin_nodes};
    ghost use Rattle.store_sums.specs.Branches.{HasChildren};

    ghost Value = { List Node };

    ghost view = { λ branches. branches.tree };

    ghost invariant = { λ branches. (branches.bins.items ≡ bin_nodes branches.tree)
        × HasChildren branches.tree (length branches.tree) (map (λ list. list.items) branches.below.items)
        × HasSmallerParents branches.tree
        × (length branches.tree < 2 ^ 32) };
}

/// One place more, where it is that of a bin.
fn push_bin(bins: &mut Vec<u32>, place: u32, kind: NodeKind) -> Result<(), Memory>
    ensures { OnOk result (bins.new.items ≡ bins.old.items ++ (if is_bin kind then place ∷ [] else [])) }
{
    if let NodeKind::Bin(_) = kind {
        bins.push(place)?;
    }
    Ok(())
}

/// The places of the bins.
fn bins_of(alloc: Global, nodes: &[Node]) -> Result<Vec<u32>, Memory>
    requires { length nodes.now < 2 ^ 32 }
    ensures { IfOk result (λ bins. bins.items ≡ bin_nodes nodes.now) }
{
    let mut bins = Vec::new(alloc);
    for (place, node) in nodes.iter().enumerate() {
        push_bin(&mut bins, place as u32, node.kind)?;
    }
    Ok(bins)
}

/// As many empty lists.
fn empty_lists(alloc: Global, many: usize) -> Result<Vec<Vec<u32>>, Memory>
    ensures { IfOk result (λ lists. map (λ list. list.items) lists.items ≡ replicate many []) }
{
    let mut lists = Vec::new(alloc);
    for _ in 0..many {
        lists.push(Vec::new(alloc))?;
    }
    Ok(lists)
}

/// One node more right below another; the root is below none.
fn add_child(lists: &mut Vec<Vec<u32>>, parent: u32, child: u32) -> Result<(), Memory>
    requires { 0 < child → parent < length lists.old.items }
    ensures { OnOk result (map (λ list. list.items) lists.new.items ≡ with_child parent child (map (λ list. list.items) lists.old.items)) }
{
    if child == 0 {
        return Ok(());
    }
    lists[parent as usize].push(child)?;
    Ok(())
}

/// The nodes right below each.
fn below_of(alloc: Global, nodes: &[Node]) -> Result<Vec<Vec<u32>>, Memory>
    requires few { length nodes.now < 2 ^ 32 }
    requires parents { HasSmallerParents nodes.now }
    ensures { IfOk result (λ lists. HasChildren nodes.now (length nodes.now) (map (λ list. list.items) lists.items)) }
{
    let mut lists = empty_lists(alloc, nodes.len())?;
    for (place, node) in nodes.iter().enumerate() {
        add_child(&mut lists, node.parent, place as u32)?;
    }
    Ok(lists)
}

/// Some of the elements, from a place on.
pub fn part_of<T>(list: &[T], first: usize, count: usize) -> &[T]
    ensures part { result.now ≡ part first count list.now }
    ensures few { length result.now ≤ count }
{
    let first = first.min(list.len());
    let count = count.min(list.len() - first);
    &list[first..first + count]
}

impl Branches {
    /// The nodes of a design.
    pub fn of(alloc: Global, design: &Design) -> Result<Branches, Memory>
        ensures { IfOk result (λ branches. branches ≡ nodes_of design.now) }
    {
        let tree = tree(alloc, design)?;
        let nodes = tree.nodes();
        if nodes.len() > u32::MAX as usize {
            // no memory holds more
            return Err(Memory);
        }
        let bins = bins_of(alloc, nodes)?;
        let below = below_of(alloc, nodes)?;
        Ok(Branches { tree, bins, below })
    }

    /// How many there are.
    pub fn len(&self) -> u32
        ensures { result ≡ length self.now }
    {
        self.tree.nodes().len() as u32
    }

    /// All of them.
    pub(crate) fn nodes(&self) -> &[Node]
        ensures { result.now ≡ self.now }
    {
        self.tree.nodes()
    }

    /// The least node that has the path. It takes no memory, and its time doesn't grow with the nodes.
    pub fn find(&self, path: &[u8]) -> Option<u32>
        ensures { result ≡ find_in self.now path.now }
    {
        self.tree.find(path)
    }

    /// The path of a node.
    pub(crate) fn path_text(&self, alloc: Global, node: u32) -> Result<Name, Memory>
        requires { node < length self.now }
        ensures { IfOk result (λ path. path ≡ path_of self.now node) }
    {
        self.tree.path_text(alloc, node)
    }

    /// What a node says apart from its name.
    pub(crate) fn facts(&self, node: u32) -> Facts
        ensures { result ≡ facts_of (node_at self.now node) }
    {
        match self.tree.nodes().get(node as usize) {
            Some(node) => Facts {
                kind: node.kind,
                parent: node.parent,
                first_bin: node.first_bin,
                bins: node.bins,
                weight: node.weight,
                type_weight: node.type_weight,
                goal: node.goal,
                at_least: node.at_least,
                merge: node.merge,
            },
            None => NOTHING,
        }
    }

    /// A node's own name.
    pub(crate) fn name(&self, node: u32) -> &[u8]
        ensures { result.now ≡ (node_at self.now node).name }
    {
        match self.tree.nodes().get(node as usize) {
            Some(node) => node.name.as_slice(),
            None => &[],
        }
    }

    /// The nodes right below one, in order.
    pub(crate) fn children(&self, node: u32) -> &[u32]
        ensures { result.now ≡ children_meant self.now node }
    {
        match self.below.get(node as usize) {
            Some(list) => list.as_slice(),
            None => &[],
        }
    }

    /// The nodes of all bins, in the order of their numbers.
    pub(crate) fn bins(&self) -> &[u32]
        ensures bins { result.now ≡ bin_nodes self.now }
        ensures few { length result.now < 2 ^ 32 }
    {
        self.bins.as_slice()
    }

    fn bin_at(&self, number: u32) -> Option<u32>
        ensures { result ≡ node_of_bin self.now number }
    {
        self.bins.get(number as usize).copied()
    }

    /// The node of the bin of this number.
    pub(crate) fn bin(&self, number: u32) -> Option<u32>
        ensures node { result ≡ node_of_bin self.now number }
        ensures inside { IfSome result (λ node. node < length self.now) }
    {
        self.bin_at(number)
    }

    /// The nodes of the bins under a node.
    pub(crate) fn bins_under(&self, node: u32) -> &[u32]
        ensures bins { result.now ≡ bins_meant self.now node }
        ensures few { length result.now < 2 ^ 32 }
    {
        let facts = self.facts(node);
        part_of(
            self.bins.as_slice(),
            facts.first_bin as usize,
            facts.bins as usize,
        )
    }
}
