//! Products of a cross, tried one by one: the plain form, with which faster ones are compared.
ghost use Rattle.std.specs.Prelude.{◌≡◌, ◌∷◌, ◌<◌, ◌≤◌, IfOk, All, map, length, slice_get};
ghost use Rattle.std.specs.Option.{option_copied};
ghost use Rattle.cov_ground.specs.Limits.{most_bins};
ghost use Rattle.design_data.specs.Bins.{is_coverage as is_coverage_of, coverage_bins, size_of, sizes_of};
ghost use Rattle.design_data.specs.Crosses.{products as products_of, picks as picks_of, takes_from as takes_from_of, leaves as leaves_of, is_left as is_left_of, has as has_of};

use crate::{BinInfo, BinKind, BinRule, ItemInfo};
use cov_ground::Memory;
use cov_tree::List;
use cross_select::selects;
use std::alloc::Global;

impl BinKind {
    /// Whether bins of this kind count for coverage.
    pub fn is_coverage(self) -> bool
        ensures { result ≡ is_coverage_of self }
    {
        match self {
            BinKind::CvgBin => true,
            BinKind::IllegalBin | BinKind::IgnoreBin | BinKind::DefaultBin => false,
        }
    }

    /// Whether what a bin of this kind selects leaves a bin of the other kind.
    fn takes_from(self, other: BinKind) -> bool
        ensures { result ≡ takes_from_of self other }
    {
        match (self, other) {
            (BinKind::IllegalBin, BinKind::IllegalBin) => false,
            (BinKind::IllegalBin, _) | (BinKind::IgnoreBin, BinKind::CvgBin) => true,
            _ => false,
        }
    }
}

impl ItemInfo {
    /// The coverage bin of this number, counted from 0.
    pub fn coverage_bin(&self, number: u32) -> Option<&BinInfo>
        ensures { option_copied result ≡ slice_get (coverage_bins self.now) number }
    {
        let mut left = number;
        for bin in self.bins.as_slice() {
            if bin.kind.is_coverage() {
                if left == 0 {
                    return Some(bin);
                }
                left -= 1;
            }
        }
        None
    }

    /// How many coverage bins it has.
    pub fn coverage_count(&self) -> usize
        ensures value { result ≡ length (coverage_bins self.now) }
        ensures few { result ≤ length self.now.bins }
    {
        let mut count = 0;
        for bin in self.bins.as_slice() {
            if bin.kind.is_coverage() {
                count += 1;
            }
        }
        count
    }
}

/// How many coverage bins the item at this index has.
fn size(items: &[ItemInfo], index: u32) -> u32
    requires { All (λ item. length item.bins ≤ most_bins) items.now }
    ensures { result ≡ size_of (slice_get items.now index) }
{
    let index = index as usize;
    if index < items.len() {
        items[index].coverage_count() as u32
    } else {
        0
    }
}

/// How many coverage bins the points at these indexes have.
pub fn sizes(alloc: Global, items: &[ItemInfo], axes: &[u32]) -> Result<List<u32>, Memory>
    requires { All (λ item. length item.bins ≤ most_bins) items.now }
    ensures { IfOk result (λ sizes. sizes ≡ sizes_of items.now axes.now) }
{
    let mut sizes = List::new(alloc);
    for axis in axes {
        sizes.push(size(items, *axis))?;
    }
    Ok(sizes)
}

/// All products of points with so many coverage bins, in order, the bin of the last point running fastest.
pub fn products(alloc: Global, sizes: &[u32]) -> Result<List<List<u32>>, Memory>
    ensures { IfOk result (λ all. all ≡ products_of sizes.now) }
{
    let Some((size, rest)) = sizes.split_first() else {
        let mut empty = List::new(alloc);
        empty.push(List::new(alloc))?;
        return Ok(empty);
    };
    let shorter = products(alloc, rest)?;
    let mut all = List::new(alloc);
    for bin in 0..*size {
        all.append(behind_each(alloc, bin, shorter.as_slice())?)?;
    }
    Ok(all)
}

/// Each product behind a bin.
fn behind_each(alloc: Global, bin: u32, products: &[List<u32>]) -> Result<List<List<u32>>, Memory>
    ensures { IfOk result (λ all. all ≡ map (λ rest. bin ∷ rest) products.now) }
{
    let mut all = List::new(alloc);
    for rest in products {
        all.push(behind(alloc, bin, rest.as_slice())?)?;
    }
    Ok(all)
}

/// A product behind a bin.
fn behind(alloc: Global, bin: u32, rest: &[u32]) -> Result<List<u32>, Memory>
    ensures { IfOk result (λ product. product ≡ bin ∷ rest.now) }
{
    let mut product = Vec::new(alloc);
    product.push(bin)?;
    product.extend_from_slice(rest)?;
    Ok(List::of(product))
}

/// Whether the rule is that of a declared bin of a cross, whose selection selects the product.
fn picks(product: &[u32], rule: &BinRule) -> bool
    ensures { result ≡ picks_of product.now rule.now }
{
    match rule {
        BinRule::Picked(select) => selects(select, product),
        _ => false,
    }
}

/// Whether the bin leaves the product to the bins of a kind.
fn leaves(bin: &BinInfo, kind: BinKind, product: &[u32]) -> bool
    ensures { result ≡ leaves_of bin.now kind product.now }
{
    !(bin.kind.takes_from(kind) && picks(product, &bin.rule))
}

/// Whether each bin of the cross leaves the product to the bins of a kind.
fn is_left(bins: &[BinInfo], kind: BinKind, product: &[u32]) -> bool
    ensures { result ≡ is_left_of bins.now kind product.now }
{
    for bin in bins {
        if !leaves(bin, kind, product) {
            return false;
        }
    }
    true
}

/// Whether the product is one of those of a bin of the cross, of this kind and rule.
pub fn has(bins: &[BinInfo], kind: BinKind, rule: &BinRule, product: &[u32]) -> bool
    ensures { result ≡ has_of bins.now kind rule.now product.now }
{
    match rule {
        BinRule::Picked(select) => selects(select, product) && is_left(bins, kind, product),
        BinRule::Product(members) => product == members.as_slice(),
        _ => false,
    }
}
