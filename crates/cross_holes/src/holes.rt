//! The holes of a cross.
ghost use Rattle.std.specs.Prelude.{◌≡◌, ◌<◌, ◌+◌, ◌++◌, ◌∷◌, [], List, length, map, filter, not, slice_get, slice_index, true, Some, if◌then◌else◌, IfOk, OnOk};
ghost use Rattle.std.specs.List.{range_with_len};
ghost use Rattle.cross_holes.specs.declared.axes.Axis.{Axis};
ghost use Rattle.cross_holes.specs.Projected.{member_on as member_meant, cross_with, cross_of, is_bare as bare_meant, is_projected, unsaid, named, projected_on, projected, alone as alone_meant};
ghost use Rattle.cross_holes.specs.Marks.{marks_of, is_marked as marked_meant, is_new as new_meant, marked_with};

use crate::Axis;
use crate::axes::axes;
use crate::members::{member_counts, member_on};
use cov_ground::Memory;
use cov_tree::{List, Name};
use design_data::ItemInfo;
use std::alloc::Global;
use ucis_model::Node;

/// A member of a crossed point such that no product with it is covered.
pub struct ProjectedHole {
    /// The name of the point.
    pub point: Name,
    /// The name of the member, a coverage bin of the point.
    pub member: Name,
}

impl Drop for ProjectedHole {
    fn drop(self) {
        let ProjectedHole {
            point: _,
            member: _,
        } = self;
    }
}

/// The holes of a cross.
pub struct CrossHoles {
    /// Those that stand for several holes each.
    pub projected: List<ProjectedHole>,
    /// The nodes of the bins that are holes and in none of these.
    pub alone: List<u32>,
}

impl Drop for CrossHoles {
    fn drop(self) {
        let CrossHoles {
            projected: _,
            alone: _,
        } = self;
    }
}

fn is_bare(holes: u64, live: u64) -> bool
    ensures { result ≡ bare_meant holes live }
{
    holes >= 2 && holes == live
}

/// Whether a member is a projected hole, by how many holes and how many live bins have each member.
fn is_bare_at(holes: &[u64], live: &[u64], member: usize) -> bool
    requires holes { member < length holes.now }
    requires live { member < length live.now }
    ensures { result ≡ bare_meant (slice_index holes.now member) (slice_index live.now member) }
{
    is_bare(holes[member], live[member])
}

/// Which members are projected holes, by how many holes and how many live bins have each.
fn marks_from(alloc: Global, holes: &[u64], live: &[u64]) -> Result<Vec<bool>, Memory>
    requires { length holes.now ≡ length live.now }
    ensures { IfOk result (λ marks. marks.items ≡ marks_of holes.now live.now) }
{
    let mut marks = Vec::new(alloc);
    for member in 0..holes.len() {
        marks.push(is_bare_at(holes, live, member))?;
    }
    Ok(marks)
}

/// Which members of an axis are projected holes.
fn projected_marks(
    alloc: Global,
    nodes: &[Node],
    item: &ItemInfo,
    axis: usize,
    members: usize,
    live: &[u32],
    holes: &[u32],
) -> Result<Vec<bool>, Memory>
    ensures { (axes : List Axis) → IfOk result (λ marks. marks.items
        ≡ map (is_projected (cross_with axes nodes.now item.now live.now holes.now) axis) (range_with_len 0 members)) }
{
    let with_live = member_counts(alloc, nodes, item, axis, members, live)?;
    let with_holes = member_counts(alloc, nodes, item, axis, members, holes)?;
    let marks = marks_from(alloc, with_holes.as_slice(), with_live.as_slice())?;
    Ok(marks)
}

fn is_marked(marks: &[bool], member: Option<u32>) -> bool
    ensures { result ≡ marked_meant marks.now member }
{
    match member {
        None => false,
        Some(member) => match marks.get(member as usize) {
            None => false,
            Some(mark) => *mark,
        },
    }
}

fn add_unmarked(rest: &mut List<u32>, node: u32, marked: bool) -> Result<(), Memory>
    ensures { OnOk result (rest.new ≡ rest.old ++ (if not marked then node ∷ [] else [])) }
{
    if !marked {
        rest.push(node)?;
    }
    Ok(())
}

/// The holes whose member on an axis isn't marked.
fn unmarked(
    alloc: Global,
    nodes: &[Node],
    item: &ItemInfo,
    axis: usize,
    marks: &[bool],
    holes: &[u32],
) -> Result<List<u32>, Memory>
    ensures { IfOk result (λ rest. rest
        ≡ filter (λ n. not (marked_meant marks.now (member_meant nodes.now item.now axis n))) holes.now) }
{
    let mut rest = List::new(alloc);
    for node in holes {
        let marked = is_marked(marks, member_on(nodes, item, axis, *node));
        add_unmarked(&mut rest, *node, marked)?;
    }
    Ok(rest)
}

fn add_projected(
    found: &mut List<ProjectedHole>,
    axis: &Axis,
    member: usize,
    marked: bool,
) -> Result<(), Memory>
    requires { member < length axis.now.members }
    ensures { OnOk result (found.new ≡ found.old ++ (if marked then named axis.now member ∷ [] else [])) }
{
    if marked {
        found.push(ProjectedHole {
            point: axis.point.share()?,
            member: axis.members.as_slice()[member].share()?,
        })?;
    }
    Ok(())
}

/// Whether a member is marked and some hole has it, by how many have each.
fn is_new(marks: &[bool], counts: &[u64], member: usize) -> bool
    requires marks { member < length marks.now }
    requires counts { member < length counts.now }
    ensures { result ≡ new_meant marks.now counts.now member }
{
    marks[member] && counts[member] > 0
}

/// Adds the members of an axis that are marked and that some hole has, by how many have each.
fn add_marked(
    found: &mut List<ProjectedHole>,
    axis: &Axis,
    marks: &[bool],
    counts: &[u64],
) -> Result<(), Memory>
    requires marks { length marks.now ≡ length axis.now.members }
    requires counts { length counts.now ≡ length axis.now.members }
    ensures { OnOk result (found.new ≡ found.old ++ marked_with axis.now marks.now counts.now) }
{
    for member in 0..counts.len() {
        add_projected(found, axis, member, is_new(marks, counts, member))?;
    }
    Ok(())
}

/// Puts together the holes that are in none of an earlier axis, on the axis of this number.
fn take_axis(
    alloc: Global,
    nodes: &[Node],
    item: &ItemInfo,
    axes: &[Axis],
    number: usize,
    live: &[u32],
    holes: &[u32],
    found: &mut CrossHoles,
) -> Result<(), Memory>
    requires number { number < length axes.now }
    requires alone { found.old.alone ≡ unsaid (cross_with axes.now nodes.now item.now live.now holes.now) number }
    ensures projected { OnOk result (found.new.projected
        ≡ found.old.projected ++ projected_on (cross_with axes.now nodes.now item.now live.now holes.now) number) }
    ensures alone { OnOk result (found.new.alone
        ≡ unsaid (cross_with axes.now nodes.now item.now live.now holes.now) (number + 1)) }
{
    let axis = &axes[number];
    let members = axis.members.as_slice().len();
    let marks = projected_marks(alloc, nodes, item, number, members, live, holes)?;
    let unsaid = found.alone.as_slice();
    let counts = member_counts(alloc, nodes, item, number, members, unsaid)?;
    let rest = unmarked(alloc, nodes, item, number, marks.as_slice(), unsaid)?;
    add_marked(
        &mut found.projected,
        axis,
        marks.as_slice(),
        counts.as_slice(),
    )?;
    found.alone = rest;
    Ok(())
}

fn list_of(alloc: Global, holes: &[u32]) -> Result<List<u32>, Memory>
    ensures { IfOk result (λ list. list ≡ holes.now) }
{
    let list = Vec::from_slice(alloc, holes)?;
    Ok(List::of(list))
}

/// All holes by themselves.
fn all_alone(alloc: Global, holes: &[u32]) -> Result<CrossHoles, Memory>
    ensures projected { IfOk result (λ found. found.projected ≡ []) }
    ensures alone { IfOk result (λ found. found.alone ≡ filter (λ n. true) holes.now) }
{
    let alone = list_of(alloc, holes)?;
    Ok(CrossHoles {
        projected: List::new(alloc),
        alone,
    })
}

fn holes_along(
    alloc: Global,
    nodes: &[Node],
    item: &ItemInfo,
    axes: &[Axis],
    live: &[u32],
    holes: &[u32],
) -> Result<CrossHoles, Memory>
    ensures projected { IfOk result (λ found. found.projected
        ≡ projected (cross_with axes.now nodes.now item.now live.now holes.now)) }
    ensures alone { IfOk result (λ found. found.alone
        ≡ alone_meant (cross_with axes.now nodes.now item.now live.now holes.now)) }
{
    let mut found = all_alone(alloc, holes)?;
    for number in 0..axes.len() {
        take_axis(alloc, nodes, item, axes, number, live, holes, &mut found)?;
    }
    Ok(found)
}

fn holes_of(
    alloc: Global,
    nodes: &[Node],
    items: &[ItemInfo],
    item: &ItemInfo,
    live: &[u32],
    holes: &[u32],
) -> Result<CrossHoles, Memory>
    ensures projected { IfOk result (λ found. found.projected
        ≡ projected (cross_of nodes.now items.now (Some item.now) live.now holes.now)) }
    ensures alone { IfOk result (λ found. found.alone
        ≡ alone_meant (cross_of nodes.now items.now (Some item.now) live.now holes.now)) }
{
    let axes = axes(alloc, items, &item.shape)?;
    let found = holes_along(alloc, nodes, item, axes.as_slice(), live, holes)?;
    Ok(found)
}

/// The holes of an item of an instance with these items, put together where all live products with one member of a crossed
/// point are holes (IEEE 1800-2017, 19.6): axis by axis, in the order of members, each with a hole that is in none before it.
/// `live` are the nodes of the item's live bins, `holes` those of them that aren't covered. Where there is no item at this
/// place, or a point, all holes are by themselves. The time is linear in the live bins and the members of each axis.
pub fn cross_holes(
    alloc: Global,
    nodes: &[Node],
    items: &[ItemInfo],
    place: usize,
    live: &[u32],
    holes: &[u32],
) -> Result<CrossHoles, Memory>
    ensures projected { IfOk result (λ found. found.projected
        ≡ projected (cross_of nodes.now items.now (slice_get items.now place) live.now holes.now)) }
    ensures alone { IfOk result (λ found. found.alone
        ≡ alone_meant (cross_of nodes.now items.now (slice_get items.now place) live.now holes.now)) }
{
    match items.get(place) {
        None => all_alone(alloc, holes),
        Some(item) => holes_of(alloc, nodes, items, item, live, holes),
    }
}
