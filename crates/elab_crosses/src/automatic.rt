//! The automatic bins of a cross, and all its bins.
ghost use Rattle.std.specs.Prelude.{◌≡◌, ◌≤◌, ◌++◌, [], ◌∷◌, length, map, slice_get, slice_index_or, IfOk, OnOk};
ghost use Rattle.std.specs.List.{flat_map};
ghost use Rattle.cov_ground.specs.Limits.{most_bins, most_points, most_products};
ghost use Rattle.cross_select.specs.Products.{product_of};
ghost use Rattle.design_data.specs.Laws.{automatic_products};
ghost use Rattle.elab_base.specs.Gives.{Gives};
ghost use Rattle.elab_crosses.specs.Selections.{crossed};
ghost use Rattle.elab_crosses.specs.Removal.{infos, bins_left, coverage_name, coverage_names, sides as sides_of, name_in, product_name as product_name_of, automatic_bin as automatic_bin_of, automatic_fit, bins_completed, bins_of_cross};

use crate::declared::{Walked, walk_bins};
use crate::left::left;
use crate::selections::Crossed;
use const_eval::Scope;
use cov_ground::Memory;
use cov_ground::limits::MOST_BINS;
use cov_tree::{CrossBins, List, Name};
use cross_select::count_products;
use design_data::{BinInfo, BinKind, BinRule, ItemInfo};
use elab_base::{ElabFault, ElabKind};
use elab_values::Made;
use std::alloc::Global;

/// Adds the name of a bin, if it is a coverage bin.
fn add_name(alloc: Global, bin: &BinInfo, names: &mut List<Name>) -> Result<(), Memory>
    ensures { OnOk result (names.new ≡ names.old ++ coverage_name bin.now) }
{
    if bin.kind.is_coverage() {
        names.push(bin.name.share()?)?;
    }
    Ok(())
}

/// The names of the coverage bins among these.
fn names_of(alloc: Global, bins: &[BinInfo]) -> Result<List<Name>, Memory>
    ensures { IfOk result (λ names. names ≡ flat_map coverage_name bins.now) }
{
    let mut names = List::new(alloc);
    for bin in bins {
        add_name(alloc, bin, &mut names)?;
    }
    Ok(names)
}

fn side(alloc: Global, items: &[ItemInfo], axis: u32) -> Result<List<Name>, Memory>
    ensures { IfOk result (λ names. names ≡ coverage_names (slice_get items.now axis)) }
{
    match items.get(axis as usize) {
        None => Ok(List::new(alloc)),
        Some(item) => names_of(alloc, item.bins.as_slice()),
    }
}

/// The names of the coverage bins of each crossed point.
fn sides(alloc: Global, items: &[ItemInfo], axes: &[u32]) -> Result<List<List<Name>>, Memory>
    ensures { IfOk result (λ names. names ≡ sides_of items.now axes.now) }
{
    let mut names = List::new(alloc);
    for axis in axes {
        names.push(side(alloc, items, *axis)?)?;
    }
    Ok(names)
}

/// The name of the coverage bin of a number of an axis.
fn member_name(names: &[List<Name>], axis: usize, bin: u32) -> &[u8]
    ensures { result.now ≡ name_in (slice_get names.now axis) bin }
{
    match names.get(axis) {
        None => &[],
        Some(side) => match side.as_slice().get(bin as usize) {
            None => &[],
            Some(name) => name.as_slice(),
        },
    }
}

/// Adds a name behind a separator.
fn add_member(text: &mut List<u8>, separator: u8, name: &[u8]) -> Result<(), Memory>
    ensures { OnOk result (text.new ≡ text.old ++ separator ∷ name.now) }
{
    text.push(separator)?;
    for byte in name {
        text.push(*byte)?;
    }
    Ok(())
}

/// `<x,y>`, of the names of the product's members.
#[tactic(auto, unfolding(crate::specs::Removal::product_name))]
fn product_name(alloc: Global, names: &[List<Name>], product: &[u32]) -> Result<Name, Memory>
    ensures { IfOk result (λ name. name ≡ product_name_of names.now product.now) }
{
    let mut text = List::new(alloc);
    let mut separator = b'<';
    let mut axis = 0;
    for bin in product {
        add_member(&mut text, separator, member_name(names, axis, *bin))?;
        separator = b',';
        axis += 1;
    }
    text.push(b'>')?;
    Name::from_vec(text.into_vec())
}

/// The automatic bin of a product.
fn automatic_bin(
    alloc: Global,
    names: &[List<Name>],
    at: u32,
    product: List<u32>,
) -> Result<Made, Memory>
    ensures { IfOk result (λ made. made ≡ automatic_bin_of names.now at product) }
{
    Ok(Made {
        bin: BinInfo {
            name: product_name(alloc, names, product.as_slice())?,
            kind: BinKind::CvgBin,
            rule: BinRule::Product(product),
            guard: None,
        },
        at,
        declared: None,
    })
}

/// Adds the automatic bin of each product.
fn add_automatic(
    alloc: Global,
    names: &[List<Name>],
    at: u32,
    products: Vec<List<u32>>,
    bins: &mut List<Made>,
) -> Result<(), Memory>
    ensures { OnOk result (bins.new ≡ bins.old ++ map (automatic_bin_of names.now at) products.items) }
{
    for product in products {
        bins.push(automatic_bin(alloc, names, at, product)?)?;
    }
    Ok(())
}

/// Keeps the declared bins that have something left. Answers the products that none of all selects, of which there may
/// be as many as a cross may have bins more.
fn automatic(
    alloc: Global,
    sizes: &[u32],
    count: u32,
    bins: List<Made>,
    at: u32,
    kept: &mut List<Made>,
) -> Result<List<List<u32>>, ElabFault>
    requires count { count ≡ product_of sizes.now }
    requires few_products { count ≤ most_products }
    requires few { length bins ≤ most_bins }
    requires empty { kept.old ≡ [] }
    ensures kept { OnOk result (kept.new ≡ bins_left sizes.now bins) }
    ensures automatic { Gives result (automatic_fit (length bins) (automatic_products sizes.now (infos bins)) at) }
{
    let most = MOST_BINS - bins.as_slice().len();
    match left(alloc, sizes, count, bins, most, kept)? {
        Some(products) => Ok(products),
        None => Err(ElabKind::TooManyBins.at(at)),
    }
}

/// All bins, of declared ones from which nothing is removed yet.
#[tactic(auto, unfolding(crate::specs::Removal::bins_completed))]
fn complete(
    alloc: Global,
    items: &[ItemInfo],
    axes: &[u32],
    sizes: &[u32],
    bins: List<Made>,
    at: u32,
) -> Result<List<Made>, ElabFault>
    requires products { product_of sizes.now ≤ most_products }
    requires few { length bins ≤ most_bins }
    ensures { Gives result (bins_completed items.now axes.now sizes.now bins at) }
{
    let Some(count) = count_products(sizes) else {
        // there are not too many of them
        return Err(ElabFault::Memory);
    };
    let mut kept = List::new(alloc);
    let products = automatic(alloc, sizes, count, bins, at, &mut kept)?;
    let names = sides(alloc, items, axes)?;
    add_automatic(alloc, names.as_slice(), at, products.into_vec(), &mut kept)?;
    Ok(kept)
}

/// The bins of a cross at `at`, of points with so many coverage bins (IEEE 1800-2017, 19.6): the declared ones that have
/// something left, in order, then an automatic one for each product that no declared bin selects, in the order of the
/// products. A declaration's faults are DuplicateName, those of its selection and of its guard, and TooManyBins, all at
/// the declaration; at last TooManyBins at `at`, where the automatic bins are too many.
#[tactic(auto, unfolding(crate::specs::Removal::bins_of_cross))]
pub fn cross_bins(
    alloc: Global,
    scope: &Scope,
    cross: Crossed,
    sizes: &[u32],
    decls: &[CrossBins],
    at: u32,
) -> Result<List<Made>, ElabFault>
    requires names { length cross.names.now ≤ most_points }
    requires products { product_of sizes.now ≤ most_products }
    ensures { Gives result
        (bins_of_cross scope.now (crossed cross.entry.names.now cross.entry.axes.now
        cross.entry.items.now cross.entry.decls.now) sizes.now decls.now at) }
{
    let walked = walk_bins(alloc, scope, cross, decls)?;
    let Walked { names: _, bins } = walked;
    let bins = complete(alloc, cross.items, cross.axes, sizes, bins, at)?;
    Ok(bins)
}
