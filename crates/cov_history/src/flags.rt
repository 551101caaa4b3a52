//! Which nodes are excluded, by definition.
ghost use Rattle.std.specs.Prelude.{◌≡◌, ℕ, ◌==◌, ◌<◌, ◌^◌, length, map, slice_index, false, IfOk};
ghost use Rattle.std.specs.List.{range_with_len, list_any};
ghost use Rattle.std.specs.Option.{option_map_or};
ghost use Rattle.ucis_model.specs.Above.{some_lineage};
ghost use Rattle.ucis_model.specs.Paths.{find_in};
ghost use Rattle.cov_history.specs.Nodes.{parents_of};
ghost use Rattle.cov_history.specs.Coverage as meant;

use crate::facts::said;
use cov_ground::Memory;
use cov_tree::Name;
use std::alloc::Global;
use ucis_model::Tree;

/// Whether the path finds the node.
fn finds(tree: &Tree, path: &Name, place: u32) -> bool
    ensures { result ≡ option_map_or (λ m. m == place) (find_in tree.now path.now) false }
{
    match tree.find(path.as_slice()) {
        Some(found) => found == place,
        None => false,
    }
}

/// Whether some path finds the node.
fn is_out(tree: &Tree, out: &[Name], place: u32) -> bool
    ensures { result ≡ meant.is_out tree.now out.now place }
{
    for path in out {
        if finds(tree, path, place) {
            return true;
        }
    }
    false
}

/// The node above one.
#[tactic(auto, using(crate::proofs::Flagging::parent_is))]
fn parent(tree: &Tree, place: u32) -> u32
    ensures { result ≡ slice_index (parents_of tree.now) place }
{
    said(tree.nodes(), place).parent
}

/// Whether the node or one of so many above it is out.
fn is_out_up(tree: &Tree, out: &[Name], most: u64, place: u32) -> bool
    ensures { result ≡ list_any (meant.is_out tree.now out.now) (some_lineage most (parents_of tree.now) place) }
{
    if most == 0 {
        return false;
    }
    if is_out(tree, out, place) {
        return true;
    }
    if place == 0 {
        return false;
    }
    is_out_up(tree, out, most - 1, parent(tree, place))
}

/// Whether the node or one above it is out.
#[tactic(auto, unfolding(crate::specs::Coverage::is_excluded))]
pub fn is_excluded(tree: &Tree, out: &[Name], place: u32) -> bool
    ensures { result ≡ meant.is_excluded tree.now out.now place }
{
    is_out_up(tree, out, u64::from(place) + 1, place)
}

/// A flag for each node that is excluded.
pub(crate) fn excluded_nodes(alloc: Global, tree: &Tree, out: &[Name]) -> Result<Vec<bool>, Memory>
    requires { length tree.now < 2 ^ 32 }
    ensures { IfOk result (λ flags. flags.items ≡ map (meant.is_excluded tree.now out.now) (range_with_len 0 (length tree.now))) }
{
    let mut flags = Vec::new(alloc);
    for place in 0..tree.nodes().len() as u32 {
        flags.push(is_excluded(tree, out, place))?;
    }
    Ok(flags)
}
