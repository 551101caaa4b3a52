//! What a history has made of its design and of what is out, by definition.
ghost use Rattle.std.specs.Prelude.{◌≡◌, ℕ, ◌++◌, ◌∷◌, [], List, length, filter, not, cond, bytes_eq, IfOk, OnOk, is_some};
ghost use Rattle.design_data.specs.declared.design.Design.{Design};
ghost use Rattle.ucis_model.specs.Nodes.{nodes_of};
ghost use Rattle.cov_history.specs.History.{design_of, design_after as design_meant, out_of, out_after as out_meant, without as without_meant, is_found as found_meant};

use crate::{Entry, Event};
use cov_ground::Memory;
use cov_tree::Name;
use design_data::Design;
use std::alloc::Global;
use ucis_model::{Tree, tree};

fn design_after<'a>(design: &'a Design, event: &'a Event) -> &'a Design
    ensures { result.now ≡ design_meant design.now event.now }
{
    match event {
        Event::Revise(revision) => &revision.design,
        _ => design,
    }
}

/// The design at the end of a history.
pub fn design_at<'a>(opening: &'a Design, entries: &'a [Entry]) -> &'a Design
    ensures { result.now ≡ design_of opening.now entries.now }
{
    let mut design = opening;
    for entry in entries {
        design = design_after(design, &entry.event);
    }
    design
}

/// Puts a copy of a path behind others, where a test holds.
fn copy_if(alloc: Global, paths: &mut Vec<Name>, test: bool, path: &Name) -> Result<(), Memory>
    ensures { OnOk result (paths.new.items ≡ paths.old.items ++ cond test (path.now ∷ []) []) }
{
    if test {
        paths.push(path.share()?)?;
    }
    Ok(())
}

fn is_other(path: &Name, other: &Name) -> bool
    ensures { result ≡ not (bytes_eq other.now path.now) }
{
    other.as_slice() != path.as_slice()
}

/// The paths without one.
fn without(alloc: Global, path: &Name, out: &[Name]) -> Result<Vec<Name>, Memory>
    ensures { IfOk result (λ left. left.items ≡ without_meant path.now out.now) }
{
    let mut left = Vec::new(alloc);
    for other in out {
        copy_if(alloc, &mut left, is_other(path, other), other)?;
    }
    Ok(left)
}

fn is_found(tree: &Tree, path: &Name) -> bool
    ensures { (d : Design) → tree.now ≡ nodes_of d → result ≡ found_meant d path.now }
{
    tree.find(path.as_slice()).is_some()
}

/// The paths that find a node of the design.
pub fn found(alloc: Global, design: &Design, out: &[Name]) -> Result<Vec<Name>, Memory>
    ensures { IfOk result (λ left. left.items ≡ filter (found_meant design.now) out.now) }
{
    let tree = tree(alloc, design)?;
    let mut left = Vec::new(alloc);
    for path in out {
        copy_if(alloc, &mut left, is_found(&tree, path), path)?;
    }
    Ok(left)
}

/// The paths and one more.
fn with(alloc: Global, path: &Name, mut out: Vec<Name>) -> Result<Vec<Name>, Memory>
    ensures { IfOk result (λ all. all.items ≡ out.items ++ path.now ∷ []) }
{
    out.push(path.share()?)?;
    Ok(out)
}

/// The paths that are out after a change.
fn out_after(alloc: Global, out: Vec<Name>, event: &Event) -> Result<Vec<Name>, Memory>
    ensures { IfOk result (λ after. after.items ≡ out_meant out.items event.now) }
{
    match event {
        Event::Exclude(path) => with(alloc, path, out),
        Event::Include(path) => without(alloc, path, out.as_slice()),
        Event::Revise(revision) => found(alloc, &revision.design, out.as_slice()),
        Event::Admit(_) | Event::Stop => Ok(out),
    }
}

/// The paths that are out at the end of a history.
pub fn out_at(alloc: Global, entries: &[Entry]) -> Result<Vec<Name>, Memory>
    ensures { IfOk result (λ out. out.items ≡ out_of entries.now) }
{
    let mut out = Vec::new(alloc);
    for entry in entries {
        out = out_after(alloc, out, &entry.event)?;
    }
    Ok(out)
}
