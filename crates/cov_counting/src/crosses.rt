//! When a bin of a cross is hit, by definition: all its products are tried.
ghost use Rattle.std.specs.Prelude.{◌<◌, ◌↔◌, IsTrue, IfOk, length, slice_get};
ghost use Rattle.cov_counting.specs.Crosses.{NumberHitAt, MemberHitAt, AllHitAt, CrossHitAt};
ghost use Rattle.cov_counting.specs.Steps.{AreItems, SomeProductHit};

use crate::points::is_hit;
use crate::rules::{bin_holds, holds};
use cov_base::Int;
use cov_ground::Memory;
use cov_tree::List;
use design_data::{BinInfo, ItemInfo, ItemShape, has, products, sizes};
use std::alloc::Global;

/// Whether the item at this index is a point, and its coverage bin of this number is hit at the k-th sample.
fn is_member_hit(
    alloc: Global,
    items: &[ItemInfo],
    axis: u32,
    number: u32,
    samples: &[List<Option<Int>>],
    k: usize,
) -> Result<bool, Memory>
    requires items { AreItems items.now }
    requires sample { k < length samples.now }
    ensures { IfOk result (λ hit. IsTrue hit ↔ MemberHitAt (slice_get items.now axis) number samples.now k) }
{
    let index = axis as usize;
    if index >= items.len() {
        return Ok(false);
    }
    is_number_hit(alloc, &items[index], number, samples, k)
}

/// Whether the item is a point, and its coverage bin of this number is hit at the k-th sample.
fn is_number_hit(
    alloc: Global,
    item: &ItemInfo,
    number: u32,
    samples: &[List<Option<Int>>],
    k: usize,
) -> Result<bool, Memory>
    requires { k < length samples.now }
    ensures { IfOk result (λ hit. IsTrue hit ↔ NumberHitAt item.now item.now.shape number samples.now k) }
{
    match &item.shape {
        ItemShape::Point(expr) => match item.coverage_bin(number) {
            Some(bin) => is_hit(alloc, item, expr, bin, samples, k),
            None => Ok(false),
        },
        ItemShape::Cross(_) => Ok(false),
    }
}

/// Whether each member of the product is hit at the k-th sample.
fn are_all_hit(
    alloc: Global,
    items: &[ItemInfo],
    axes: &[u32],
    product: &[u32],
    samples: &[List<Option<Int>>],
    k: usize,
) -> Result<bool, Memory>
    requires items { AreItems items.now }
    requires sample { k < length samples.now }
    ensures { IfOk result (λ hit. IsTrue hit ↔ AllHitAt items.now axes.now product.now samples.now k) }
{
    let Some((axis, axes)) = axes.split_first() else {
        return Ok(true);
    };
    let Some((number, product)) = product.split_first() else {
        return Ok(false);
    };
    if !is_member_hit(alloc, items, *axis, *number, samples, k)? {
        return Ok(false);
    }
    are_all_hit(alloc, items, axes, product, samples, k)
}

/// Whether one of the products is the bin's and has all its members hit at the k-th sample.
fn is_product_hit(
    alloc: Global,
    items: &[ItemInfo],
    bins: &[BinInfo],
    axes: &[u32],
    bin: &BinInfo,
    products: &[List<u32>],
    samples: &[List<Option<Int>>],
    k: usize,
) -> Result<bool, Memory>
    requires items { AreItems items.now }
    requires sample { k < length samples.now }
    ensures { IfOk result (λ hit. IsTrue hit ↔ SomeProductHit items.now bins.now axes.now bin.now products.now samples.now k) }
{
    for product in products {
        let product = product.as_slice();
        if has(bins, bin.kind, &bin.rule, product) {
            if are_all_hit(alloc, items, axes, product, samples, k)? {
                return Ok(true);
            }
        }
    }
    Ok(false)
}

/// Whether the bin of a cross is hit at the k-th sample.
pub(crate) fn is_cross_hit(
    alloc: Global,
    items: &[ItemInfo],
    item: &ItemInfo,
    axes: &[u32],
    bin: &BinInfo,
    samples: &[List<Option<Int>>],
    k: usize,
) -> Result<bool, Memory>
    requires items { AreItems items.now }
    requires sample { k < length samples.now }
    ensures { IfOk result (λ hit. IsTrue hit ↔ CrossHitAt items.now item.now axes.now bin.now samples.now k) }
{
    let env = samples[k].as_slice();
    if !holds(&item.guard, env) {
        return Ok(false);
    }
    if !bin_holds(&bin.guard, env) {
        return Ok(false);
    }
    let sizes = sizes(alloc, items, axes)?;
    let products = products(alloc, sizes.as_slice())?;
    let bins = item.bins.as_slice();
    is_product_hit(
        alloc,
        items,
        bins,
        axes,
        bin,
        products.as_slice(),
        samples,
        k,
    )
}
