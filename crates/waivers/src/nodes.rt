//! Which nodes of a design a pattern leaves out.
ghost use Rattle.std.specs.Prelude.{◌≡◌, ◌<◌, ◌^◌, length, IfOk};
ghost use Rattle.waivers.specs.Waived.{waived, paths_in, waived_among as among_meant};

use crate::patterns::Pattern;
use cov_ground::Memory;
use cov_tree::Name;
use std::alloc::Global;
use ucis_model::Tree;

/// The paths of all nodes of a design, in order. They serve any number of patterns (`waived_among`).
#[tactic(auto, using(crate::proofs::Places::path_more, crate::proofs::Places::paths_whole))]
pub fn paths_of(alloc: Global, tree: &Tree) -> Result<Vec<Name>, Memory>
    ensures paths { IfOk result (λ paths. paths.items ≡ paths_in tree.now) }
    ensures few { IfOk result (λ paths. length paths.items < 2 ^ 32) }
{
    let nodes = tree.nodes().len();
    if nodes > u32::MAX as usize {
        // no memory holds more
        return Err(Memory);
    }
    let mut paths = Vec::new(alloc);
    for node in 0..nodes as u32 {
        paths.push(tree.path_text(alloc, node)?)?;
    }
    Ok(paths)
}

/// The places of the paths that a pattern matches, ascending.
pub fn waived_among(alloc: Global, paths: &[Name], pattern: &[u8]) -> Result<Vec<u32>, Memory>
    requires { length paths.now < 2 ^ 32 }
    ensures { IfOk result (λ places. places.items ≡ among_meant pattern.now paths.now) }
{
    let made = Pattern::of(alloc, pattern)?;
    let mut row = Vec::new(alloc);
    let mut places = Vec::new(alloc);
    for place in 0..paths.len() {
        if made.matches(&mut row, paths[place].as_slice())? {
            places.push(place as u32)?;
        }
    }
    Ok(places)
}

/// The numbers of the nodes of a design whose paths a pattern matches, ascending. Where several patterns are asked for,
/// `paths_of` and `waived_among` build each path once.
#[tactic(auto, using(crate::proofs::Places::among_all))]
pub fn waived_nodes(alloc: Global, tree: &Tree, pattern: &[u8]) -> Result<Vec<u32>, Memory>
    ensures { IfOk result (λ nodes. nodes.items ≡ waived pattern.now tree.now) }
{
    let paths = paths_of(alloc, tree)?;
    waived_among(alloc, paths.as_slice(), pattern)
}
