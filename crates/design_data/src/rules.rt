//! Whether the rules of bins are within their limits.
ghost use Rattle.std.specs.Prelude.{◌≡◌, ◌<◌, ◌≤◌, ◌↔◌, IsTrue, length, slice_get};
ghost use Rattle.std.specs.List.{list_any};
ghost use Rattle.cov_ground.specs.Limits.{most_cells, most_ranges};
ghost use Rattle.trans_seq.specs.Cells.{cells_of_seqs as cells_of};
ghost use Rattle.design_data.specs.Bins.{removing_seqs};
ghost use Rattle.design_data.specs.Left.{has_seq_left as has_seq_left_of};
ghost use Rattle.design_data.specs.Crosses.{IsProduct, is_size, fits as fits_of, has as has_of, products as products_of};
ghost use Rattle.design_data.specs.Limits.{HasWidth, IsSetLeft, AreSetsShort, IsPointRule, IsCrossRule};
ghost use Rattle.design_data.specs.Tested.{AreItemsShort, ArePointRules, AreCrossRules};

use crate::left::has_seq_left;
use crate::{BinInfo, BinKind, BinRule, ItemInfo, has};
use cov_base::ValueSet;
use cov_ground::limits::{MOST_BITS, MOST_CELLS, MOST_RANGES};
use cov_tree::List;
use cross_select::Select;
use trans_seq::{Item, Seq, cells_of_seqs};

/// Whether a type may have so many bits.
pub(crate) fn is_width(width: u8) -> bool
    ensures { IsTrue result ↔ HasWidth width }
{
    if width < 1 {
        return false;
    }
    width <= MOST_BITS
}

/// Whether the set has some number, and not too many intervals.
fn is_set_left(set: &ValueSet) -> bool
    ensures { IsTrue result ↔ IsSetLeft set.now }
{
    let count = set.intervals().len();
    if count < 1 {
        return false;
    }
    count as u64 <= MOST_RANGES
}

fn is_short(set: &ValueSet) -> bool
    ensures { IsTrue result ↔ length set.now ≤ most_ranges }
{
    set.intervals().len() as u64 <= MOST_RANGES
}

fn are_items_short(items: &[Item]) -> bool
    ensures { IsTrue result ↔ AreItemsShort items.now }
{
    for item in items {
        if !is_short(&item.set) {
            return false;
        }
    }
    true
}

fn are_sets_short(seqs: &[Seq]) -> bool
    ensures { IsTrue result ↔ AreSetsShort seqs.now }
{
    for seq in seqs {
        if !are_items_short(seq.items.as_slice()) {
            return false;
        }
    }
    true
}

/// Whether the sequences have not too many cells.
fn have_few_cells(seqs: &[Seq]) -> bool
    ensures { IsTrue result ↔ cells_of seqs.now ≤ most_cells }
{
    cells_of_seqs(seqs) <= MOST_CELLS
}

fn are_seqs(item: &ItemInfo, kind: BinKind, seqs: &[Seq]) -> bool
    ensures { IsTrue result ↔ ((cells_of seqs.now ≤ most_cells) × AreSetsShort seqs.now × IsTrue (has_seq_left_of (removing_seqs item.now kind) seqs.now)) }
{
    if !have_few_cells(seqs) {
        return false;
    }
    if !are_sets_short(seqs) {
        return false;
    }
    has_seq_left(item, kind, seqs)
}

/// Whether a bin of a point may have this rule.
fn is_point_rule(item: &ItemInfo, kind: BinKind, rule: &BinRule) -> bool
    ensures { IsTrue result ↔ IsPointRule item.now kind rule.now }
{
    match rule {
        BinRule::Values(set) => is_set_left(set),
        BinRule::Patterns(patterns) => patterns.as_slice().len() >= 1,
        BinRule::Trans(seqs) => are_seqs(item, kind, seqs.as_slice()),
        BinRule::Default => true,
        BinRule::DefaultValues(set) => is_set_left(set),
        BinRule::DefaultSequence => true,
        BinRule::Picked(_) => false,
        BinRule::Product(_) => false,
    }
}

/// Whether the bins may be those of a point.
pub(crate) fn are_point_rules(item: &ItemInfo, bins: &[BinInfo]) -> bool
    ensures { IsTrue result ↔ ArePointRules item.now bins.now }
{
    for bin in bins {
        if !is_point_rule(item, bin.kind, &bin.rule) {
            return false;
        }
    }
    true
}

/// Whether there is a size at the axis, and it is this one.
fn has_size(sizes: &[u32], axis: u16, count: usize) -> bool
    ensures { result ≡ is_size (slice_get sizes.now axis) count }
{
    match sizes.get(axis as usize) {
        None => false,
        Some(size) => *size as usize == count,
    }
}

/// Whether the selection says for each coverage bin of a crossed point whether it is chosen.
fn fits(sizes: &[u32], select: &Select) -> bool
    ensures { result ≡ fits_of sizes.now select.now }
{
    match select {
        Select::Bins { axis, chosen } => has_size(sizes, *axis, chosen.as_slice().len()),
        Select::Not(inner) => fits(sizes, inner.get()),
        Select::And(left, right) => fits(sizes, left.get()) && fits(sizes, right.get()),
        Select::Or(left, right) => fits(sizes, left.get()) && fits(sizes, right.get()),
    }
}

/// Whether the numbers are those of a product: one for each size, and below it.
fn is_product(sizes: &[u32], members: &[u32]) -> bool
    ensures { IsTrue result ↔ IsProduct sizes.now members.now }
{
    if sizes.len() != members.len() {
        return false;
    }
    for index in 0..sizes.len() {
        if members[index] >= sizes[index] {
            return false;
        }
    }
    true
}

/// Whether one of the products is that of a bin of this kind and rule.
fn has_some(bins: &[BinInfo], kind: BinKind, rule: &BinRule, products: &[List<u32>]) -> bool
    ensures { result ≡ list_any (has_of bins.now kind rule.now) products.now }
{
    for product in products {
        if has(bins, kind, rule, product.as_slice()) {
            return true;
        }
    }
    false
}

/// Whether a bin of a cross of points with so many coverage bins, which has these products, may have this rule.
fn is_cross_rule(
    sizes: &[u32],
    products: &[List<u32>],
    bins: &[BinInfo],
    kind: BinKind,
    rule: &BinRule,
) -> bool
    requires { products.now ≡ products_of sizes.now }
    ensures { IsTrue result ↔ IsCrossRule sizes.now bins.now kind rule.now }
{
    match rule {
        BinRule::Values(_) => false,
        BinRule::Patterns(_) => false,
        BinRule::Trans(_) => false,
        BinRule::Default => false,
        BinRule::DefaultValues(_) => false,
        BinRule::DefaultSequence => false,
        BinRule::Picked(select) => {
            if !fits(sizes, select) {
                return false;
            }
            has_some(bins, kind, rule, products)
        }
        BinRule::Product(members) => is_product(sizes, members.as_slice()),
    }
}

/// Whether the bins may be those of a cross of points with so many coverage bins, which has these products.
pub(crate) fn are_cross_rules(sizes: &[u32], products: &[List<u32>], bins: &[BinInfo]) -> bool
    requires { products.now ≡ products_of sizes.now }
    ensures { IsTrue result ↔ AreCrossRules sizes.now bins.now bins.now }
{
    for bin in bins {
        if !is_cross_rule(sizes, products, bins, bin.kind, &bin.rule) {
            return false;
        }
    }
    true
}
