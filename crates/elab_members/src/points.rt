//! Points of an instance.
ghost use Rattle.std.specs.Prelude.{◌≡◌, ◌<◌, [], OnOk, IfOk, Some, map};
ghost use Rattle.name_map.specs.Names.{with_names};
ghost use Rattle.design_data.specs.declared.infos.ItemShape.TheVariants.{Point};
ghost use Rattle.cov_ground.specs.Limits.{most_items};
ghost use Rattle.const_eval.specs.Terms.{typ_of as typ_of_term};
ghost use Rattle.const_eval.specs.Binding.{has_width as tests_width};
ghost use Rattle.elab_base.specs.declared.fault.ElabKind.TheVariants as kinds;
ghost use Rattle.elab_base.specs.Gives.{Gives, Makes, needs};
ghost use Rattle.elab_decls.specs.Invariant.{AreInRange};
ghost use Rattle.elab_points.specs.Left.{bins_of_point};
ghost use Rattle.elab_members.specs.Domains.{domain_of_point};
ghost use Rattle.elab_members.specs.Points.{point_name, settings_of, with_point, head_of, bins_headed, headed_point, named_point};
ghost use Rattle.elab_members.specs.Items.{places_from};

use crate::counts::{Counts, count_bins};
use crate::defaults::DefaultNames;
use crate::domains::point_domain;
use crate::items::{Inside, Items, check_room, infos, keep_item, origins, places};
use const_eval::{Bound, typ};
use cov_ground::Memory;
use cov_options::{Level, Options};
use cov_tree::{Expr, List, Name, PointDecl};
use design_data::{BinInfo, ItemInfo, ItemShape, Remarks};
use elab_base::{ElabFault, ElabKind, bind_in, check_unused, guard_in};
use elab_decls::{Outside, has_width, point_defaults, remarks, set_options};
use elab_points::point_bins;
use elab_values::{Domain, ItemDecls, Made, PointBins, Settings};
use std::alloc::Global;
use trans_seq::Seq;

/// What stands at the head of a point. Its drop is one function.
pub struct Head {
    pub name: Name,
    pub expr: Bound,
    pub guard: Option<Bound>,
    pub options: Options,
}

impl Drop for Head {
    fn drop(self) {
        let Head {
            name,
            expr,
            guard,
            options,
        } = self;
        drop(name);
        drop(expr);
        drop(guard);
        drop(options);
    }
}

/// The name of a point that has so many items before it.
#[tactic(auto, unfolding(crate::specs::Points::point_name))]
pub(crate) fn name_of(
    alloc: Global,
    point: &PointDecl,
    k: usize,
    defaults: &mut DefaultNames,
) -> Result<Name, Memory>
    ensures { IfOk result (λ name. name ≡ point_name point.now k) }
{
    match &point.label {
        Some(label) => label.share(),
        None => match &point.expr {
            Expr::Name { name, .. } => name.share(),
            _ => defaults.point(alloc, k),
        },
    }
}

#[tactic(auto, unfolding(elab_base::specs::Gives::needs))]
fn check_width(expr: &Bound, at: u32) -> Result<(), ElabFault>
    ensures { Gives result (needs (tests_width (typ_of_term expr.now).width) kinds.TooWide at) }
{
    if !has_width(typ(expr).width().get()) {
        return Err(ElabKind::TooWide.at(at));
    }
    Ok(())
}

/// What a cross has to know of a point's declarations.
fn decls_of(
    alloc: Global,
    domain: Domain,
    names: &[Name],
    bins: &[Made],
) -> Result<ItemDecls, Memory>
    ensures { IfOk result (λ decls. decls ≡ record { names = with_names [] (places_from 0 names.now); from = map (λ made. made.declared) bins.now; domain = Some domain }) }
{
    let names = places(alloc, names)?;
    let from = origins(alloc, bins)?;
    Ok(ItemDecls {
        names,
        from,
        domain: Some(domain),
    })
}

impl Head {
    /// A point with these bins and sequences.
    fn into_item(
        self,
        remarks: Remarks,
        bins: List<BinInfo>,
        ignored: List<Seq>,
        illegal: List<Seq>,
    ) -> ItemInfo
        ensures { result ≡ record { name = self.name; weight = self.options.weight; type_weight = self.options.type_weight; goal = self.options.goal; at_least = self.options.at_least; remarks = remarks; guard = self.guard; shape = Point self.expr; first_bin = 0; bins = bins; ignored = ignored; illegal = illegal } }
    {
        let Head {
            name,
            expr,
            guard,
            options,
        } = self;
        ItemInfo {
            name,
            weight: options.weight,
            type_weight: options.type_weight,
            goal: options.goal,
            at_least: options.at_least,
            remarks,
            guard,
            shape: ItemShape::Point(expr),
            first_bin: 0,
            bins,
            ignored,
            illegal,
        }
    }
}

#[tactic(auto, unfolding(crate::specs::Points::with_point))]
fn keep_point(
    alloc: Global,
    head: Head,
    domain: Domain,
    found: PointBins,
    counts: Counts,
    items: &mut Items,
) -> Result<(), Memory>
    requires { items.old.counts.items < most_items }
    ensures { OnOk result (items.new ≡ with_point head domain found counts items.old) }
{
    let PointBins {
        bins,
        names,
        ignored,
        illegal,
    } = found;
    let decls = decls_of(alloc, domain, names.as_slice(), bins.as_slice())?;
    let bins = infos(alloc, bins.into_vec())?;
    let remarks = remarks(&head.options)?;
    let item = head.into_item(remarks, bins, ignored, illegal);
    keep_item(alloc, item, decls, counts, items)
}

/// The expression, the guard and the options of a point.
#[tactic(auto, unfolding(crate::specs::Points::head_of))]
fn read_head(
    alloc: Global,
    outside: &mut Outside,
    inside: &Inside,
    name: Name,
    point: &PointDecl,
) -> Result<Head, ElabFault>
    ensures gives { Gives result (head_of outside.old inside.now name point.now) }
    ensures same { outside.new ≡ outside.old }
{
    let expr = bind_in(alloc, &outside.scope, &point.expr)?;
    let guard = guard_in(alloc, &outside.scope, &point.guard)?;
    let mut options = point_defaults(&inside.options);
    let decls = point.options.as_slice();
    set_options(alloc, Level::Point, &mut outside.scope, decls, &mut options)?;
    check_width(&expr, point.at)?;
    Ok(Head {
        name,
        expr,
        guard,
        options,
    })
}

/// What the bins of a point depend on besides their declarations.
fn settings(inside: &Inside, head: &Head) -> Settings
    ensures { result ≡ settings_of inside.now head.now }
{
    Settings {
        auto_bin_max: head.options.auto_bin_max,
        distribute_first: inside.options.type_distribute_first == 1,
        intersected: inside.intersected.get(head.name.as_slice()).is_some(),
    }
}

/// The numbers of a point.
fn domain_in(
    alloc: Global,
    outside: &Outside,
    inside: &Inside,
    head: &Head,
    point: &PointDecl,
) -> Result<Domain, Memory>
    ensures { IfOk result (λ domain. domain ≡ domain_of_point outside.now inside.now.names point.now.expr (typ_of_term head.now.expr)) }
{
    point_domain(alloc, outside, &inside.names, &point.expr, typ(&head.expr))
}

/// The bins of a point with these numbers.
#[tactic(auto, using(crate::proofs::Heads::can_have))]
fn bins_in(
    alloc: Global,
    outside: &Outside,
    inside: &Inside,
    domain: &Domain,
    head: &Head,
    point: &PointDecl,
) -> Result<PointBins, ElabFault>
    requires { AreInRange head.now.options }
    ensures { Gives result (bins_of_point outside.now.scope domain.now head.now.name (settings_of inside.now head.now) point.now.bins point.now.at) }
{
    let settings = settings(inside, head);
    let decls = point.bins.as_slice();
    point_bins(
        alloc,
        &outside.scope,
        domain,
        &head.name,
        settings,
        decls,
        point.at,
    )
}

/// Adds a point with these numbers.
#[tactic(auto, unfolding(crate::specs::Points::bins_headed))]
fn add_bins(
    alloc: Global,
    outside: &Outside,
    inside: &Inside,
    domain: Domain,
    head: Head,
    point: &PointDecl,
    items: &mut Items,
) -> Result<(), ElabFault>
    requires room { items.old.counts.items < most_items }
    requires range { AreInRange head.options }
    ensures { Makes result items.new (bins_headed outside.now inside.now domain head point.now items.old) }
{
    let found = bins_in(alloc, outside, inside, &domain, &head, point)?;
    let mut counts = items.counts;
    count_bins(found.bins.as_slice(), &mut counts)?;
    keep_point(alloc, head, domain, found, counts, items)?;
    Ok(())
}

fn add_headed(
    alloc: Global,
    outside: &Outside,
    inside: &Inside,
    head: Head,
    point: &PointDecl,
    items: &mut Items,
) -> Result<(), ElabFault>
    requires room { items.old.counts.items < most_items }
    requires range { AreInRange head.options }
    ensures { Makes result items.new (headed_point outside.now inside.now head point.now items.old) }
{
    let domain = domain_in(alloc, outside, inside, &head, point)?;
    add_bins(alloc, outside, inside, domain, head, point, items)
}

/// Adds a point of this name: the name and the number of items are tried first, then follow its expression, its guard,
/// its options and its bins, which are counted at last.
#[tactic(auto, using(crate::proofs::Heads::head_range), unfolding(crate::specs::Points::named_point))]
pub(crate) fn add_named(
    alloc: Global,
    outside: &mut Outside,
    inside: &Inside,
    name: Name,
    point: &PointDecl,
    items: &mut Items,
) -> Result<(), ElabFault>
    requires { AreInRange inside.now.options }
    ensures gives { Makes result items.new (named_point outside.old inside.now name point.now items.old) }
    ensures same { outside.new ≡ outside.old }
{
    check_unused(&items.names, &name, point.at)?;
    check_room(&items.counts, point.at)?;
    let head = read_head(alloc, outside, inside, name, point)?;
    add_headed(alloc, outside, inside, head, point, items)?;
    Ok(())
}
