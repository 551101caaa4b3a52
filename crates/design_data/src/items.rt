//! Whether the items of an instance are within their limits.
ghost use Rattle.std.specs.Prelude.{◌≡◌, ◌++◌, ◌<◌, ◌≤◌, ◌↔◌, IsTrue, IfOk, length};
ghost use Rattle.std.specs.List.{AllByRecursion};
ghost use Rattle.cov_ground.specs.Limits.{most_cells, most_products, most_arguments};
ghost use Rattle.cross_select.specs.Products.{product_of};
ghost use Rattle.trans_seq.specs.Cells.{cells_of_seqs as cells_of};
ghost use Rattle.const_eval.specs.Terms.{typ_of};
ghost use Rattle.design_data.specs.Limits.{HasWidth, IsPointIndex, IsCross, IsShape, IsItem, IsInstance};
ghost use Rattle.design_data.specs.Tested.{AreSignalsWide, ArePointRules, AreCrossRules, HaveFewBins, AreItems, AreInstances};

use crate::rules::{are_cross_rules, are_point_rules, is_width};
use crate::{BinInfo, InstInfo, ItemInfo, ItemShape, Signal, products, sizes};
use const_eval::{Bound, typ};
use cov_ground::Memory;
use cov_ground::limits::{MOST_ARGUMENTS, MOST_BINS, MOST_CELLS, MOST_POINTS};
use cross_select::count_products;
use std::alloc::Global;
use trans_seq::cells_of_seqs;

/// Whether the index is that of a point.
fn is_point_index(items: &[ItemInfo], index: u32) -> bool
    ensures { IsTrue result ↔ IsPointIndex items.now index }
{
    match items.get(index as usize) {
        None => false,
        Some(item) => match item.shape {
            ItemShape::Point(_) => true,
            ItemShape::Cross(_) => false,
        },
    }
}

fn are_points(items: &[ItemInfo], axes: &[u32]) -> bool
    ensures { IsTrue result ↔ AllByRecursion (IsPointIndex items.now) axes.now }
{
    for axis in axes {
        if !is_point_index(items, *axis) {
            return false;
        }
    }
    true
}

/// Whether points with so many bins have not too many products.
fn have_few_products(sizes: &[u32]) -> bool
    ensures { IsTrue result ↔ product_of sizes.now ≤ most_products }
{
    match count_products(sizes) {
        None => false,
        Some(_) => true,
    }
}

/// Whether the bins may be those of a cross of points with so many coverage bins. All its products are tried.
fn have_rules(alloc: Global, sizes: &[u32], bins: &[BinInfo]) -> Result<bool, Memory>
    ensures { IfOk result (λ yes. IsTrue yes ↔ AreCrossRules sizes.now bins.now bins.now) }
{
    let products = products(alloc, sizes)?;
    Ok(are_cross_rules(sizes, products.as_slice(), bins))
}

/// The same, with the limit of its products.
fn are_of_cross(alloc: Global, sizes: &[u32], bins: &[BinInfo]) -> Result<bool, Memory>
    ensures { IfOk result (λ yes. IsTrue yes ↔ ((product_of sizes.now ≤ most_products) × AreCrossRules sizes.now bins.now bins.now)) }
{
    if !have_few_products(sizes) {
        return Ok(false);
    }
    have_rules(alloc, sizes, bins)
}

/// Whether the bins are those of a cross of the points at these indexes.
fn is_cross(
    alloc: Global,
    items: &[ItemInfo],
    bins: &[BinInfo],
    axes: &[u32],
) -> Result<bool, Memory>
    requires { HaveFewBins items.now }
    ensures { IfOk result (λ yes. IsTrue yes ↔ IsCross items.now bins.now axes.now) }
{
    if axes.len() > MOST_POINTS {
        return Ok(false);
    }
    if !are_points(items, axes) {
        return Ok(false);
    }
    let sizes = sizes(alloc, items, axes)?;
    are_of_cross(alloc, sizes.as_slice(), bins)
}

/// Whether the item's bins are those of a point of this expression.
fn is_point(expr: &Bound, item: &ItemInfo) -> bool
    ensures { IsTrue result ↔ (HasWidth (typ_of expr.now).width × ArePointRules item.now item.now.bins) }
{
    if !is_width(typ(expr).width().get()) {
        return false;
    }
    are_point_rules(item, item.bins.as_slice())
}

/// Whether the item's bins are those of its shape.
fn is_shape(alloc: Global, items: &[ItemInfo], item: &ItemInfo) -> Result<bool, Memory>
    requires { HaveFewBins items.now }
    ensures { IfOk result (λ yes. IsTrue yes ↔ IsShape items.now item.now item.now.shape) }
{
    match &item.shape {
        ItemShape::Point(expr) => Ok(is_point(expr, item)),
        ItemShape::Cross(axes) => is_cross(alloc, items, item.bins.as_slice(), axes.as_slice()),
    }
}

/// Whether the sequences that the item ignores, and those that are illegal, have not too many cells together.
fn has_few_cells(item: &ItemInfo) -> bool
    ensures { IsTrue result ↔ cells_of (item.now.ignored ++ item.now.illegal) ≤ most_cells }
{
    let ignored = cells_of_seqs(item.ignored.as_slice());
    ignored.saturating_add(cells_of_seqs(item.illegal.as_slice())) <= MOST_CELLS
}

/// Whether the item may stand among these items.
fn is_item(alloc: Global, items: &[ItemInfo], item: &ItemInfo) -> Result<bool, Memory>
    requires { HaveFewBins items.now }
    ensures { IfOk result (λ yes. IsTrue yes ↔ IsItem items.now item.now) }
{
    if item.at_least < 1 {
        return Ok(false);
    }
    if item.bins.as_slice().len() > MOST_BINS {
        return Ok(false);
    }
    if !has_few_cells(item) {
        return Ok(false);
    }
    is_shape(alloc, items, item)
}

/// Whether no item has too many bins.
fn have_few_bins(items: &[ItemInfo]) -> bool
    ensures { IsTrue result ↔ HaveFewBins items.now }
{
    for item in items {
        if item.bins.as_slice().len() > MOST_BINS {
            return false;
        }
    }
    true
}

fn are_all_items(alloc: Global, items: &[ItemInfo]) -> Result<bool, Memory>
    requires { HaveFewBins items.now }
    ensures { IfOk result (λ yes. IsTrue yes ↔ AreItems items.now items.now) }
{
    for item in items {
        if !is_item(alloc, items, item)? {
            return Ok(false);
        }
    }
    Ok(true)
}

/// Whether the items are those of an instance.
fn are_items(alloc: Global, items: &[ItemInfo]) -> Result<bool, Memory>
    ensures { IfOk result (λ yes. IsTrue yes ↔ AreItems items.now items.now) }
{
    if !have_few_bins(items) {
        return Ok(false);
    }
    are_all_items(alloc, items)
}

/// Whether the widths of signals are within their limits.
pub(crate) fn are_signals_wide(signals: &[Signal]) -> bool
    ensures { IsTrue result ↔ AreSignalsWide signals.now }
{
    for signal in signals {
        if !is_width(signal.width) {
            return false;
        }
    }
    true
}

/// Whether it is an instance of one of so many groups.
fn is_instance(alloc: Global, groups: usize, inst: &InstInfo) -> Result<bool, Memory>
    ensures { IfOk result (λ yes. IsTrue yes ↔ IsInstance groups inst.now) }
{
    if inst.group as usize >= groups {
        return Ok(false);
    }
    let args = inst.args.as_slice();
    if args.len() > MOST_ARGUMENTS {
        return Ok(false);
    }
    if !are_signals_wide(args) {
        return Ok(false);
    }
    are_items(alloc, inst.items.as_slice())
}

/// Whether each is an instance of one of so many groups.
pub(crate) fn are_instances(
    alloc: Global,
    groups: usize,
    instances: &[InstInfo],
) -> Result<bool, Memory>
    ensures { IfOk result (λ yes. IsTrue yes ↔ AreInstances groups instances.now) }
{
    for inst in instances {
        if !is_instance(alloc, groups, inst)? {
            return Ok(false);
        }
    }
    Ok(true)
}
