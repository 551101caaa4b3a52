//! Which points a cross names, and how many products it has.
ghost use Rattle.std.specs.Prelude.{◌≡◌, ◌≤◌, [], length, slice_get, option_copied, All, IfOk, OnOk};
ghost use Rattle.cov_ground.specs.Limits.{most_bins};
ghost use Rattle.name_map.specs.Names.{meaning_of};
ghost use Rattle.elab_base.specs.Gives.{Gives, Makes};
ghost use Rattle.elab_crosses.specs.Axes.{around, label_or_name, own_name as own_name_of, with_own, points_named, is_point_at, item_axis as axis_of_item, item_index as index_of, is_ref as is_by_ref, is_variable as is_of_variable, is_signal as stands_for_signal, signal_axis as axis_of_signal, axis_of, known_axis, with_axis, axis_added, axes_walked, axes_named, sizes_fit};

use cov_ground::Memory;
use cov_ground::limits::MOST_POINTS;
use cov_tree::{Expr, List, Member, Name, PointDecl};
use cross_select::count_products;
use design_data::{ItemInfo, ItemShape, sizes};
use elab_base::{ElabFault, ElabKind, What};
use name_map::NameMap;
use std::alloc::Global;

/// What a name of a cross stands for.
#[derive(Drop)]
pub enum Axis {
    /// A point, by its index among the instance's items.
    Item(u32),
    /// A signal: the cross makes a point of this name, which stands before it.
    Implicit(Name),
}

/// The names of a cross on the way, and what they stand for.
#[derive(Drop)]
pub struct Named {
    pub seen: NameMap<()>,
    pub axes: List<Axis>,
}

/// The name that an expression is.
fn expr_name(expr: &Expr) -> Option<&Name>
    ensures { option_copied result ≡ label_or_name None expr.now }
{
    match expr {
        Expr::Name { name, .. } => Some(name),
        _ => None,
    }
}

/// The name that a point has by itself.
fn point_name(point: &PointDecl) -> Option<&Name>
    ensures { option_copied result ≡ label_or_name point.now.label point.now.expr }
{
    match &point.label {
        Some(label) => Some(label),
        None => expr_name(&point.expr),
    }
}

/// The name that a member has by itself, if it is a point.
fn own_name(member: &Member) -> Option<&Name>
    ensures { option_copied result ≡ own_name_of member.now }
{
    match member {
        Member::Point(point) => point_name(point),
        Member::Opt(_) => None,
        Member::Cross(_) => None,
    }
}

/// Adds the name that a member has by itself.
fn add_own(alloc: Global, names: &mut NameMap<()>, member: &Member) -> Result<(), Memory>
    ensures { OnOk result (names.new ≡ with_own (own_name_of member.now) names.old) }
{
    if let Some(name) = own_name(member) {
        names.declare(name.share()?, ())?;
    }
    Ok(())
}

/// The names that the points of a group have by themselves: those behind a cross aren't crossed.
pub fn own_names(alloc: Global, members: &[Member]) -> Result<NameMap<()>, Memory>
    ensures { IfOk result (λ names. names ≡ points_named [] members.now) }
{
    let mut names = NameMap::new(alloc);
    for member in members {
        add_own(alloc, &mut names, member)?;
    }
    Ok(names)
}

fn is_point(items: &[ItemInfo], index: u32) -> bool
    ensures { result ≡ is_point_at (slice_get items.now index) }
{
    match items.get(index as usize) {
        None => false,
        Some(item) => match item.shape {
            ItemShape::Point(_) => true,
            ItemShape::Cross(_) => false,
        },
    }
}

fn item_index(what: What) -> Option<u32>
    ensures { result ≡ index_of what }
{
    match what {
        What::Item { index } => Some(index),
        _ => None,
    }
}

fn is_ref(what: What) -> bool
    ensures { result ≡ is_by_ref what }
{
    match what {
        What::Formal { by_ref, .. } => by_ref,
        _ => false,
    }
}

fn is_variable(what: What) -> bool
    ensures { result ≡ is_of_variable what }
{
    match what {
        What::Variable { .. } => true,
        _ => false,
    }
}

fn is_signal(formals: &NameMap<What>, design: &NameMap<What>, name: &Name) -> bool
    ensures { result ≡ stands_for_signal (meaning_of formals.now name.now) (meaning_of design.now name.now) }
{
    match formals.get(name.as_slice()) {
        Some(formal) => is_ref(*formal),
        None => match design.get(name.as_slice()) {
            Some(found) => is_variable(*found),
            None => false,
        },
    }
}

fn signal_axis(
    alloc: Global,
    is_later: bool,
    is_signal: bool,
    name: &Name,
) -> Result<Option<Axis>, Memory>
    ensures { IfOk result (λ axis. axis ≡ axis_of_signal is_later is_signal name.now) }
{
    if is_later || !is_signal {
        return Ok(None);
    }
    Ok(Some(Axis::Implicit(name.share()?)))
}

fn item_axis(items: &[ItemInfo], index: u32) -> Option<Axis>
    ensures { result ≡ axis_of_item items.now index }
{
    if is_point(items, index) {
        Some(Axis::Item(index))
    } else {
        None
    }
}

/// What a name is to a cross.
fn find_axis(
    alloc: Global,
    items: &[ItemInfo],
    names: &NameMap<What>,
    points: &NameMap<()>,
    formals: &NameMap<What>,
    design: &NameMap<What>,
    name: &Name,
) -> Result<Option<Axis>, Memory>
    ensures { IfOk result (λ axis. axis
        ≡ axis_of (around items.now names.now points.now formals.now design.now) (meaning_of names.now name.now) name.now) }
{
    match names.get(name.as_slice()) {
        Some(what) => match item_index(*what) {
            Some(index) => Ok(item_axis(items, index)),
            None => Ok(None),
        },
        None => {
            let is_later = points.get(name.as_slice()).is_some();
            signal_axis(alloc, is_later, is_signal(formals, design, name), name)
        }
    }
}

fn known(axis: Option<Axis>, at: u32) -> Result<Axis, ElabFault>
    ensures { Gives result (known_axis axis at) }
{
    match axis {
        Some(axis) => Ok(axis),
        None => Err(ElabKind::UnknownPoint.at(at)),
    }
}

/// Keeps what a name stands for.
fn keep_axis(alloc: Global, name: &Name, axis: Axis, named: &mut Named) -> Result<(), Memory>
    ensures { OnOk result (named.new ≡ with_axis name.now axis named.old) }
{
    named.seen.declare(name.share()?, ())?;
    named.axes.push(axis)?;
    Ok(())
}

#[tactic(auto, unfolding(crate::specs::Axes::axis_added))]
fn add_axis(
    alloc: Global,
    items: &[ItemInfo],
    names: &NameMap<What>,
    points: &NameMap<()>,
    formals: &NameMap<What>,
    design: &NameMap<What>,
    at: u32,
    name: &Name,
    named: &mut Named,
) -> Result<(), ElabFault>
    ensures { Makes result named.new
        (axis_added (around items.now names.now points.now formals.now design.now) at name.now named.old) }
{
    ElabKind::UnknownPoint.unless(named.seen.get(name.as_slice()).is_none(), at)?;
    let axis = find_axis(alloc, items, names, points, formals, design, name)?;
    let axis = known(axis, at)?;
    keep_axis(alloc, name, axis, named)?;
    Ok(())
}

#[tactic(auto, unfolding(crate::specs::Axes::axes_walked))]
fn walk_axes(
    alloc: Global,
    items: &[ItemInfo],
    names: &NameMap<What>,
    points: &NameMap<()>,
    formals: &NameMap<What>,
    design: &NameMap<What>,
    crossed: &[Name],
    at: u32,
) -> Result<Named, ElabFault>
    ensures { Gives result
        (axes_walked (around items.now names.now points.now formals.now design.now) at crossed.now) }
{
    let mut named = Named {
        seen: NameMap::new(alloc),
        axes: List::new(alloc),
    };
    for name in crossed {
        add_axis(
            alloc, items, names, points, formals, design, at, name, &mut named,
        )?;
    }
    Ok(named)
}

/// The points that a cross names (IEEE 1800-2017, 19.6). `items` are those before the cross, `names` their names, `points`
/// the names that the points of the whole group have by themselves, `formals` the formals and arguments of `sample`, and
/// `design` the names of the design. UnknownPoint at `at` for a name of none, of a cross, of a later point, or a second
/// time; then TooManyPoints.
#[tactic(auto, unfolding(crate::specs::Axes::axes_named))]
pub fn name_axes(
    alloc: Global,
    items: &[ItemInfo],
    names: &NameMap<What>,
    points: &NameMap<()>,
    formals: &NameMap<What>,
    design: &NameMap<What>,
    crossed: &[Name],
    at: u32,
) -> Result<List<Axis>, ElabFault>
    ensures { Gives result
        (axes_named (around items.now names.now points.now formals.now design.now) crossed.now at) }
{
    let named = walk_axes(alloc, items, names, points, formals, design, crossed, at)?;
    ElabKind::TooManyPoints.unless(named.axes.as_slice().len() <= MOST_POINTS, at)?;
    let Named { seen: _, axes } = named;
    Ok(axes)
}

/// The numbers of coverage bins of the crossed points, by their indexes among the items. TooManyProducts at `at` where
/// they have more than 1,048,576 products.
#[tactic(auto, unfolding(crate::specs::Axes::sizes_fit))]
pub fn check_products(
    alloc: Global,
    items: &[ItemInfo],
    axes: &[u32],
    at: u32,
) -> Result<List<u32>, ElabFault>
    requires { All (λ item. length item.bins ≤ most_bins) items.now }
    ensures { Gives result (sizes_fit items.now axes.now at) }
{
    let sizes = sizes(alloc, items, axes)?;
    let fits = count_products(sizes.as_slice()).is_some();
    ElabKind::TooManyProducts.unless(fits, at)?;
    Ok(sizes)
}
