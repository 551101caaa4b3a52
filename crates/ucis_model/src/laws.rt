//! What holds of paths and of nodes that are out. The functions do nothing: each stands for the law that it ensures.
ghost use Rattle.ucis_model.specs.Above.{ExcludedFromAbove};
ghost use Rattle.ucis_model.specs.Laws.{FindsLeast, FindsOwnPath};

/// A path finds the least node that has it, and nothing exactly where no node has it.
#[tactic(auto, using(crate::proofs::Finding::finds_least))]
pub fn a_path_finds_its_least_node()
    ensures { FindsLeast }
{}

/// The path of a node finds that node, or one before it with the same path.
#[tactic(auto, using(crate::proofs::Finding::finds_own_path))]
pub fn the_path_of_a_node_finds_it()
    ensures { FindsOwnPath }
{}

/// Whether a node is excluded follows from itself and its parent, so that one pass down a tree tells it of all nodes.
#[tactic(auto, using(crate::proofs::Lineages::excluded_from_above))]
pub fn excluded_from_above()
    ensures { ExcludedFromAbove }
{}
