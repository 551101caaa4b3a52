//! The nodes of a design, found by their paths.
ghost use Rattle.std.specs.Prelude.{◌≡◌, ◌<◌, ◌^◌, List, ℕ, length, map, take, IfOk};
ghost use Rattle.std.specs.List.{range_with_len};
ghost use Rattle.name_map.specs.Names.{meaning_of};
ghost use Rattle.ucis_model.specs.Paths.{HasSmallerParents, find_in, path_of as path_meant, places_of};

use crate::Node;
use crate::paths::path_of;
use cov_ground::Memory;
use cov_tree::Name;
use name_map::NameMap;
use std::alloc::Global;
use std::marker::Model;

/// The nodes of a design in depth-first order. Contracts see the list of them.
pub struct Tree {
    nodes: Vec<Node>,
    /// The least node of each path.
    places: NameMap<u32>,
}

impl Drop for Tree {
    fn drop(self) {
        let Tree {
            nodes: _,
            places: _,
        } = self;
    }
}

impl Model for Tree {
    ghost use Rattle.std.specs.Prelude.{◌≡◌, ◌<◌, ◌^◌, List, ℕ, length};
    ghost use Rattle.name_map.specs.Names.{meaning_of};
    ghost use Rattle.ucis_model.specs.declared.node.Node.{Node};
    ghost use Rattle.ucis_model.specs.Paths.{HasSmallerParents, places_of};

    ghost Value = { List Node };

    ghost view = { λ tree. tree.nodes.items };

    ghost invariant = { λ tree. HasSmallerParents tree.nodes.items × (length tree.nodes.items < 2 ^ 32)
        × ((path : List ℕ) → meaning_of tree.places path
        ≡ meaning_of (places_of tree.nodes.items) path) };
}

/// The path of each node, with its place.
fn places(alloc: Global, nodes: &[Node]) -> Result<Vec<(Name, u32)>, Memory>
    requires parents { HasSmallerParents nodes.now }
    requires few { length nodes.now < 2 ^ 32 }
    ensures { IfOk result (λ places. places.items ≡ places_of nodes.now) }
{
    let mut places = Vec::new(alloc);
    for place in 0..nodes.len() {
        let path = path_of(alloc, nodes, place)?;
        places.push((path, place as u32))?;
    }
    Ok(places)
}

impl Tree {
    /// The tree of these nodes.
    pub(crate) fn of(alloc: Global, nodes: Vec<Node>) -> Result<Tree, Memory>
        requires parents { HasSmallerParents nodes.items }
        requires few { length nodes.items < 2 ^ 32 }
        ensures { IfOk result (λ tree. tree ≡ nodes.items) }
    {
        let pairs = places(alloc, nodes.as_slice())?;
        let places = NameMap::of(alloc, pairs)?;
        Ok(Tree { nodes, places })
    }

    /// All nodes: the root, then each group that has an instance, its instances, their items and bins, depth first.
    pub fn nodes(&self) -> &[Node]
        ensures { result.now ≡ self.now }
    {
        self.nodes.as_slice()
    }

    /// The least node that has the path, or nothing where none has it. It takes no memory, and its time doesn't grow
    /// with the nodes.
    #[tactic(auto, using(crate::proofs::Finding::found_is))]
    pub fn find(&self, path: &[u8]) -> Option<u32>
        ensures { result ≡ find_in self.now path.now }
    {
        self.places.get(path).copied()
    }

    /// The path of a node: the names from its group down to it, with `/` between them. The root has the empty path.
    pub fn path_text(&self, alloc: Global, node: u32) -> Result<Name, Memory>
        requires { node < length self.now }
        ensures { IfOk result (λ path. path ≡ path_meant self.now node) }
    {
        path_of(alloc, self.nodes.as_slice(), node as usize)
    }
}
