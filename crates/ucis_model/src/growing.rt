//! Nodes on the way.
ghost use Rattle.std.specs.Prelude.{◌≡◌, ◌<◌, ◌++◌, ◌∷◌, [], length, OnOk, OnErr, IfOk};

use crate::Node;
use cov_ground::Memory;
use std::alloc::Global;
use std::marker::Model;

/// Nodes of a tree, the root first, each other one behind the node above it. Contracts see the list of them.
#[derive(Drop)]
pub(crate) struct Nodes {
    items: Vec<Node>,
}

impl Model for Nodes {
    ghost use Rattle.std.specs.Prelude.{◌<◌, ◌^◌, List, length};
    ghost use Rattle.ucis_model.specs.declared.node.Node.{Node};
    ghost use Rattle.ucis_model.specs.Paths.{HasSmallerParents};

    ghost Value = { List Node };

    ghost view = { λ nodes. nodes.items.items };

    ghost invariant = { λ nodes. HasSmallerParents nodes.items.items × (length nodes.items.items < 2 ^ 32) };
}

impl Nodes {
    /// The root alone.
    #[tactic(auto, using(crate::proofs::Parents::one_has_none))]
    pub(crate) fn new(alloc: Global, root: Node) -> Result<Nodes, Memory>
        ensures { IfOk result (λ nodes. nodes ≡ root ∷ []) }
    {
        let mut items = Vec::new(alloc);
        items.push(root)?;
        Ok(Nodes { items })
    }

    /// How many there are.
    pub(crate) fn len(&self) -> u32
        ensures { result ≡ length self.now }
    {
        self.items.len() as u32
    }

    /// One node more, below one that is there.
    #[tactic(auto, using(crate::proofs::Parents::parents_more))]
    pub(crate) fn add(&mut self, node: Node) -> Result<(), Memory>
        requires { node.parent < length self.old }
        ensures added { OnOk result (self.new ≡ self.old ++ node ∷ []) }
        ensures err { OnErr result (self.new ≡ self.old) }
    {
        if self.items.len() >= u32::MAX as usize {
            // no memory holds more
            return Err(Memory);
        }
        match self.items.push(node) {
            Ok(()) => Ok(()),
            Err(_) => Err(Memory),
        }
    }

    /// The nodes themselves. It takes no memory.
    pub(crate) fn into_vec(self) -> Vec<Node>
        ensures { result.items ≡ self }
    {
        self.items
    }
}
