//! Crosses of an instance.
ghost use Rattle.std.specs.Prelude.{◌≡◌, ◌<◌, ◌≤◌, [], length, OnOk, IfOk};
ghost use Rattle.cov_ground.specs.Limits.{most_items, most_points, most_products};
ghost use Rattle.cross_select.specs.Products.{product_of};
ghost use Rattle.design_data.specs.Tested.{HaveFewBins};
ghost use Rattle.design_data.specs.declared.infos.ItemShape.TheVariants.{Cross};
ghost use Rattle.elab_base.specs.Gives.{Gives, Makes, each};
ghost use Rattle.elab_decls.specs.Invariant.{AreInRange};
ghost use Rattle.elab_crosses.specs.declared.axes.Axis.TheVariants as axis;
ghost use Rattle.elab_crosses.specs.Axes.{axes_named, sizes_fit};
ghost use Rattle.elab_crosses.specs.Selections.{crossed};
ghost use Rattle.elab_crosses.specs.Removal.{bins_of_cross};
ghost use Rattle.elab_members.specs.Points.{named_point};
ghost use Rattle.elab_members.specs.CrossNames.{around_cross, name_of_cross};
ghost use Rattle.elab_members.specs.Crosses.{implicit_decl as decl_meant, placed, axis_placed, axes_placed, cross_head, cross_decls, with_cross, headed_cross, bins_crossed, named_cross, placed_cross, cross as cross_meant};

use crate::counts::{Counts, count_bins};
use crate::cross_names::name_cross;
use crate::defaults::DefaultNames;
use crate::items::{Inside, Items, check_room, index_of, infos, keep_item};
use crate::points::add_named;
use const_eval::{Bound, Scope};
use cov_ground::Memory;
use cov_options::{Level, Options};
use cov_tree::{CrossDecl, Expr, List, Name, PointDecl};
use design_data::{BinInfo, ItemInfo, ItemShape, Remarks};
use elab_base::{ElabFault, guard_in};
use elab_crosses::{Axis, Crossed, check_products, cross_bins, name_axes};
use elab_decls::{Outside, cross_defaults, remarks, set_options};
use elab_values::{ItemDecls, Made};
use name_map::NameMap;
use std::alloc::Global;

/// What stands at the head of a cross. Its drop is one function.
pub struct CrossHead {
    pub name: Name,
    pub guard: Option<Bound>,
    pub options: Options,
}

impl Drop for CrossHead {
    fn drop(self) {
        let CrossHead {
            name,
            guard,
            options,
        } = self;
        drop(name);
        drop(guard);
        drop(options);
    }
}

// ---- implicit points

/// The point of a signal that only a cross names.
fn implicit_decl(alloc: Global, name: &Name, at: u32) -> Result<PointDecl, Memory>
    ensures { IfOk result (λ decl. decl ≡ decl_meant name.now at) }
{
    Ok(PointDecl {
        label: None,
        expr: Expr::Name {
            name: name.share()?,
            at,
        },
        guard: None,
        options: List::new(alloc),
        bins: List::new(alloc),
        at,
    })
}

/// Adds the point of a signal that only a cross names.
fn add_implicit(
    alloc: Global,
    outside: &mut Outside,
    inside: &Inside,
    at: u32,
    name: &Name,
    items: &mut Items,
) -> Result<(), ElabFault>
    requires { AreInRange inside.now.options }
    ensures gives { Makes result items.new (named_point outside.old inside.now name.now (decl_meant name.now at) items.old) }
    ensures same { outside.new ≡ outside.old }
{
    let label = name.share()?;
    let decl = implicit_decl(alloc, name, at)?;
    add_named(alloc, outside, inside, label, &decl, items)
}

#[tactic(auto, unfolding(crate::specs::Crosses::axis_placed))]
fn place_implicit(
    alloc: Global,
    outside: &mut Outside,
    inside: &Inside,
    at: u32,
    name: &Name,
    items: &mut Items,
    axes: &mut List<u32>,
) -> Result<(), ElabFault>
    requires { AreInRange inside.now.options }
    ensures gives { Makes result (placed items.new axes.new) (axis_placed outside.old inside.now at (axis.Implicit name.now) (placed items.old axes.old)) }
    ensures same { outside.new ≡ outside.old }
{
    let index = index_of(items.items.as_slice().len())?;
    add_implicit(alloc, outside, inside, at, name, items)?;
    axes.push(index)?;
    Ok(())
}

/// Finds the place of a point among the items; an implicit one is added to them.
#[tactic(auto, unfolding(crate::specs::Crosses::axis_placed))]
fn place_axis(
    alloc: Global,
    outside: &mut Outside,
    inside: &Inside,
    at: u32,
    axis: &Axis,
    items: &mut Items,
    axes: &mut List<u32>,
) -> Result<(), ElabFault>
    requires { AreInRange inside.now.options }
    ensures gives { Makes result (placed items.new axes.new) (axis_placed outside.old inside.now at axis.now (placed items.old axes.old)) }
    ensures same { outside.new ≡ outside.old }
{
    match axis {
        Axis::Item(index) => Ok(axes.push(*index)?),
        Axis::Implicit(name) => place_implicit(alloc, outside, inside, at, name, items, axes),
    }
}

/// The same for all points of a cross.
fn place_axes(
    alloc: Global,
    outside: &mut Outside,
    inside: &Inside,
    at: u32,
    points: &[Axis],
    items: &mut Items,
    axes: &mut List<u32>,
) -> Result<(), ElabFault>
    requires { AreInRange inside.now.options }
    ensures gives { Makes result (placed items.new axes.new) (each (axis_placed outside.old inside.now at) points.now (placed items.old axes.old)) }
    ensures same { outside.new ≡ outside.old }
{
    for axis in points {
        place_axis(alloc, outside, inside, at, axis, items, axes)?;
    }
    Ok(())
}

/// The points of a cross among the items, which still have no more bins than they may.
#[tactic(auto, using(crate::proofs::Crossing::placed_few), unfolding(crate::specs::Crosses::axes_placed))]
fn place_points(
    alloc: Global,
    outside: &mut Outside,
    inside: &Inside,
    at: u32,
    points: &[Axis],
    items: &mut Items,
    axes: &mut List<u32>,
) -> Result<(), ElabFault>
    requires range { AreInRange inside.now.options }
    requires few { HaveFewBins items.old.items }
    requires none { axes.old ≡ [] }
    ensures gives { Makes result (placed items.new axes.new) (axes_placed outside.old inside.now at points.now items.old) }
    ensures same { outside.new ≡ outside.old }
    ensures few { OnOk result (HaveFewBins items.new.items) }
{
    place_axes(alloc, outside, inside, at, points, items, axes)
}

// ---- the parts of a cross, with what is known of them

/// The points that a cross names, which are as many as its names.
#[tactic(auto, using(crate::proofs::Crossing::few_names))]
fn points_of(
    alloc: Global,
    outside: &Outside,
    inside: &Inside,
    cross: &CrossDecl,
    items: &Items,
) -> Result<List<Axis>, ElabFault>
    ensures gives { Gives result (axes_named (around_cross outside.now inside.now items.now) cross.now.points cross.now.at) }
    ensures few { IfOk result (λ axes. length cross.now.points ≤ most_points) }
{
    name_axes(
        alloc,
        items.items.as_slice(),
        &items.names,
        &inside.points,
        &inside.names,
        &outside.names,
        cross.points.as_slice(),
        cross.at,
    )
}

/// The numbers of coverage bins of the points, which have not too many products.
#[tactic(auto, using(crate::proofs::Crossing::few_products))]
fn sizes_of(alloc: Global, items: &Items, axes: &[u32], at: u32) -> Result<List<u32>, ElabFault>
    requires { HaveFewBins items.now.items }
    ensures gives { Gives result (sizes_fit items.now.items axes.now at) }
    ensures few { IfOk result (λ sizes. product_of sizes ≤ most_products) }
{
    check_products(alloc, items.items.as_slice(), axes, at)
}

/// The guard and the options of a cross.
#[tactic(auto, unfolding(crate::specs::Crosses::cross_head))]
fn read_head(
    alloc: Global,
    scope: &mut Scope,
    inside: &Inside,
    name: Name,
    cross: &CrossDecl,
) -> Result<CrossHead, ElabFault>
    ensures gives { Gives result (cross_head scope.old inside.now name cross.now) }
    ensures same { scope.new ≡ scope.old }
{
    let guard = guard_in(alloc, scope, &cross.guard)?;
    let mut options = cross_defaults(&inside.options);
    set_options(
        alloc,
        Level::Cross,
        scope,
        cross.options.as_slice(),
        &mut options,
    )?;
    Ok(CrossHead {
        name,
        guard,
        options,
    })
}

fn bins_of(
    alloc: Global,
    scope: &Scope,
    cross: &CrossDecl,
    axes: &[u32],
    sizes: &[u32],
    items: &Items,
) -> Result<List<Made>, ElabFault>
    requires names { length cross.now.points ≤ most_points }
    requires products { product_of sizes.now ≤ most_products }
    ensures { Gives result (bins_of_cross scope.now (crossed cross.now.points axes.now items.now.items items.now.decls) sizes.now cross.now.bins cross.now.at) }
{
    let crossed = Crossed {
        names: cross.points.as_slice(),
        axes,
        items: items.items.as_slice(),
        decls: items.decls.as_slice(),
    };
    cross_bins(
        alloc,
        scope,
        crossed,
        sizes,
        cross.bins.as_slice(),
        cross.at,
    )
}

// ---- a cross

impl CrossHead {
    /// A cross with these bins.
    fn into_item(
        self,
        alloc: Global,
        remarks: Remarks,
        axes: List<u32>,
        bins: List<BinInfo>,
    ) -> ItemInfo
        ensures { result ≡ record { name = self.name; weight = self.options.weight; type_weight = self.options.type_weight; goal = self.options.goal; at_least = self.options.at_least; remarks = remarks; guard = self.guard; shape = Cross axes; first_bin = 0; bins = bins; ignored = []; illegal = [] } }
    {
        let CrossHead {
            name,
            guard,
            options,
        } = self;
        ItemInfo {
            name,
            weight: options.weight,
            type_weight: options.type_weight,
            goal: options.goal,
            at_least: options.at_least,
            remarks,
            guard,
            shape: ItemShape::Cross(axes),
            first_bin: 0,
            bins,
            ignored: List::new(alloc),
            illegal: List::new(alloc),
        }
    }
}

fn no_decls(alloc: Global) -> ItemDecls
    ensures { result ≡ cross_decls }
{
    ItemDecls {
        names: NameMap::new(alloc),
        from: List::new(alloc),
        domain: None,
    }
}

#[tactic(auto, unfolding(crate::specs::Crosses::with_cross))]
fn keep_cross(
    alloc: Global,
    head: CrossHead,
    axes: List<u32>,
    bins: List<Made>,
    counts: Counts,
    items: &mut Items,
) -> Result<(), Memory>
    requires { items.old.counts.items < most_items }
    ensures { OnOk result (items.new ≡ with_cross head axes bins counts items.old) }
{
    let bins = infos(alloc, bins.into_vec())?;
    let remarks = remarks(&head.options)?;
    let item = head.into_item(alloc, remarks, axes, bins);
    keep_item(alloc, item, no_decls(alloc), counts, items)
}

#[tactic(auto, unfolding(crate::specs::Crosses::headed_cross))]
fn add_headed(
    alloc: Global,
    scope: &Scope,
    head: CrossHead,
    cross: &CrossDecl,
    axes: List<u32>,
    sizes: &[u32],
    items: &mut Items,
) -> Result<(), ElabFault>
    requires room { items.old.counts.items < most_items }
    requires names { length cross.now.points ≤ most_points }
    requires products { product_of sizes.now ≤ most_products }
    ensures { Makes result items.new (headed_cross scope.now head cross.now axes sizes.now items.old) }
{
    let bins = bins_of(alloc, scope, cross, axes.as_slice(), sizes, items)?;
    let mut counts = items.counts;
    count_bins(bins.as_slice(), &mut counts)?;
    keep_cross(alloc, head, axes, bins, counts, items)?;
    Ok(())
}

/// The head of a cross and its bins.
fn add_bins(
    alloc: Global,
    scope: &mut Scope,
    inside: &Inside,
    name: Name,
    cross: &CrossDecl,
    axes: List<u32>,
    sizes: &[u32],
    items: &mut Items,
) -> Result<(), ElabFault>
    requires room { items.old.counts.items < most_items }
    requires names { length cross.now.points ≤ most_points }
    requires products { product_of sizes.now ≤ most_products }
    ensures gives { Makes result items.new (bins_crossed scope.old inside.now name cross.now axes sizes.now items.old) }
    ensures same { scope.new ≡ scope.old }
{
    let head = read_head(alloc, scope, inside, name, cross)?;
    add_headed(alloc, scope, head, cross, axes, sizes, items)?;
    Ok(())
}

/// Adds a cross of points that stand among the items.
#[tactic(auto, unfolding(crate::specs::Crosses::named_cross))]
fn add_crossed(
    alloc: Global,
    scope: &mut Scope,
    inside: &Inside,
    name: Name,
    cross: &CrossDecl,
    axes: List<u32>,
    items: &mut Items,
) -> Result<(), ElabFault>
    requires few { HaveFewBins items.old.items }
    requires names { length cross.now.points ≤ most_points }
    ensures gives { Makes result items.new (named_cross scope.old inside.now name cross.now axes items.old) }
    ensures same { scope.new ≡ scope.old }
{
    let sizes = sizes_of(alloc, items, axes.as_slice(), cross.at)?;
    check_room(&items.counts, cross.at)?;
    add_bins(
        alloc,
        scope,
        inside,
        name,
        cross,
        axes,
        sizes.as_slice(),
        items,
    )?;
    Ok(())
}

/// Adds a cross of these points, and implicit ones of them before it.
#[tactic(auto, unfolding(crate::specs::Crosses::placed_cross))]
fn add_placed(
    alloc: Global,
    outside: &mut Outside,
    inside: &Inside,
    name: Name,
    cross: &CrossDecl,
    points: &[Axis],
    items: &mut Items,
) -> Result<(), ElabFault>
    requires range { AreInRange inside.now.options }
    requires few { HaveFewBins items.old.items }
    requires names { length cross.now.points ≤ most_points }
    ensures gives { Makes result items.new (placed_cross outside.old inside.now name cross.now points.now items.old) }
    ensures same { outside.new ≡ outside.old }
{
    let mut axes = List::new(alloc);
    place_points(alloc, outside, inside, cross.at, points, items, &mut axes)?;
    add_crossed(alloc, &mut outside.scope, inside, name, cross, axes, items)?;
    Ok(())
}

/// Adds a cross: its name is tried first, then its points, of which implicit ones are added, the number of products and
/// the number of items; then follow its guard, its options and its bins, which are counted at last.
#[tactic(auto, unfolding(crate::specs::Crosses::cross))]
pub(crate) fn add_cross(
    alloc: Global,
    outside: &mut Outside,
    inside: &Inside,
    cross: &CrossDecl,
    items: &mut Items,
    defaults: &mut DefaultNames,
) -> Result<(), ElabFault>
    requires range { AreInRange inside.now.options }
    requires few { HaveFewBins items.old.items }
    ensures gives { Makes result items.new (cross_meant outside.old inside.now cross.now items.old) }
    ensures same { outside.new ≡ outside.old }
{
    let name = name_cross(alloc, outside, inside, cross, items, defaults)?;
    let points = points_of(alloc, outside, inside, cross, items)?;
    add_placed(
        alloc,
        outside,
        inside,
        name,
        cross,
        points.as_slice(),
        items,
    )?;
    Ok(())
}
