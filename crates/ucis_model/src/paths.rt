//! Paths of nodes.
ghost use Rattle.std.specs.Prelude.{◌≡◌, ◌<◌, ◌≤◌, ◌++◌, ℕ, length, OnOk, IfOk};
ghost use Rattle.ucis_model.specs.Paths.{HasSmallerParents, below, path_up, path_of as path_meant};

use crate::Node;
use cov_ground::Memory;
use cov_tree::Name;
use std::alloc::Global;

/// Puts a name below a path.
fn put_below(path: &mut Vec<u8>, name: &[u8]) -> Result<(), Memory>
    ensures { OnOk result (path.new.items ≡ below path.old.items name.now) }
{
    if !path.is_empty() {
        path.push(b'/')?;
    }
    path.extend_from_slice(name)?;
    Ok(())
}

/// The path of a node, from the top down.
fn path_to(alloc: Global, nodes: &[Node], place: usize) -> Result<Vec<u8>, Memory>
    requires parents { HasSmallerParents nodes.now }
    requires exists { place < length nodes.now }
    ensures { IfOk result (λ path. (most : ℕ) → place ≤ most → path.items ≡ path_up most nodes.now place) }
{
    if place == 0 {
        return Ok(Vec::new(alloc));
    }
    let node = &nodes[place];
    let mut path = path_to(alloc, nodes, node.parent as usize)?;
    put_below(&mut path, node.name.as_slice())?;
    Ok(path)
}

/// The path of a node.
#[tactic(auto, unfolding(crate::specs::Paths::path_of))]
pub(crate) fn path_of(alloc: Global, nodes: &[Node], place: usize) -> Result<Name, Memory>
    requires parents { HasSmallerParents nodes.now }
    requires exists { place < length nodes.now }
    ensures { IfOk result (λ path. path ≡ path_meant nodes.now place) }
{
    let path = path_to(alloc, nodes, place)?;
    Name::from_vec(path)
}
