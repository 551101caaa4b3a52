//! What is worked out of a cross.
ghost use Rattle.std.specs.Prelude.{◌≡◌, ◌<◌, ◌≤◌, ◌+◌, ◌++◌, ◌∷◌, [], if◌then◌else◌, length, false, MatchOption, IfOk, OnOk, None};
ghost use Rattle.std.specs.List.{All, AllByRecursion};
ghost use Rattle.cov_ground.specs.Limits.{most_bins, most_products};
ghost use Rattle.cross_select.specs.Products.{product_of};
ghost use Rattle.design_data.specs.Bins.{sizes_of};
ghost use Rattle.design_data.specs.Limits.{IsCross, IsCrossRule};
ghost use Rattle.design_data.specs.Crosses.{has as has_of};
ghost use Rattle.cross_sampler.specs.Numbers.{weights_of};
ghost use Rattle.cross_sampler.specs.Plans.{is_picked as is_picked_rule, is_automatic, IsDeclaredEnd, IsGuardEnd, bins_with, HaveBins, AreRows, IsTable, IsPlan};
ghost use Rattle.cross_sampler.specs.declared.plan.Table.TheVariants.{Nothing};
ghost use Rattle.design_data.specs.declared.infos.BinRule.TheVariants.{Product};

use crate::plan::{CrossPlan, Table};
use crate::products::{number, put_product, weights};
use cov_base::Memory;
use cov_tree::List;
use cross_select::count_products;
use design_data::{BinInfo, BinRule, ItemInfo, has, sizes};
use std::alloc::Global;
use value_index::Rows;

/// Whether the rule is that of a declared bin.
fn is_picked(rule: &BinRule) -> bool
    ensures { result ≡ is_picked_rule rule.now }
{
    match rule {
        BinRule::Picked(_) => true,
        _ => false,
    }
}

/// The index from which on there is no declared bin.
#[tactic(auto, using(crate::proofs::Bins::end_more))]
fn declared_end(bins: &[BinInfo]) -> usize
    ensures { IsDeclaredEnd bins.now result }
{
    let mut end = 0;
    for bin in 0..bins.len() {
        if is_picked(&bins[bin].rule) {
            end = bin + 1;
        }
    }
    end
}

/// Whether the bin has a guard.
fn is_guarded(bin: &BinInfo) -> bool
    ensures { result ≡ false → bin.now.guard ≡ None }
{
    match bin.guard {
        None => false,
        Some(_) => true,
    }
}

/// The index from which on no bin has a guard.
#[tactic(auto, using(crate::proofs::Bins::guards_more))]
fn guard_end(bins: &[BinInfo]) -> usize
    ensures { IsGuardEnd bins.now result }
{
    let mut guards = 0;
    for bin in 0..bins.len() {
        if is_guarded(&bins[bin]) {
            guards = bin + 1;
        }
    }
    guards
}

/// Whether the product is one of a bin's. Bins from `declared` on, none of which is declared, leave each product as it is.
fn has_product(bins: &[BinInfo], declared: usize, bin: &BinInfo, product: &[u32]) -> bool
    requires { IsDeclaredEnd bins.now declared }
    ensures { result ≡ has_of bins.now bin.now.kind bin.now.rule product.now }
{
    has(&bins[..declared], bin.kind, &bin.rule, product)
}

/// Appends the number where the test is true.
fn push_if(test: bool, number: u32, out: &mut Vec<u32>) -> Result<(), Memory>
    ensures { OnOk result (out.new.items ≡ out.old.items ++ (if test then number ∷ [] else [])) }
{
    if test {
        out.push(number)?;
    }
    Ok(())
}

/// Appends those of the first `count` bins that have the product.
pub(crate) fn push_bins(
    bins: &[BinInfo],
    declared: usize,
    count: usize,
    product: &[u32],
    out: &mut Vec<u32>,
) -> Result<(), Memory>
    requires few { length bins.now ≤ most_bins }
    requires declared { IsDeclaredEnd bins.now declared }
    requires within { count ≤ length bins.now }
    ensures { OnOk result (out.new.items ≡ out.old.items ++ bins_with bins.now product.now count) }
{
    for bin in 0..count {
        let is_own = has_product(bins, declared, &bins[bin], product);
        push_if(is_own, bin as u32, out)?;
    }
    Ok(())
}

/// Those of the first `declared` bins that have the product.
fn declared_row(
    alloc: Global,
    bins: &[BinInfo],
    declared: usize,
    product: &[u32],
) -> Result<List<u32>, Memory>
    requires few { length bins.now ≤ most_bins }
    requires declared { IsDeclaredEnd bins.now declared }
    ensures { IfOk result (λ row. row ≡ bins_with bins.now product.now declared) }
{
    let mut row = Vec::new(alloc);
    push_bins(bins, declared, declared, product, &mut row)?;
    Ok(List::of(row))
}

/// For each product those of the first `declared` bins that have it.
#[tactic(auto, using(crate::proofs::Bins::have_push, crate::proofs::Radix::weights_some))]
fn declared_rows(
    alloc: Global,
    bins: &[BinInfo],
    declared: usize,
    sizes: &[u32],
    weights: &[u32],
    count: u32,
) -> Result<Vec<List<u32>>, Memory>
    requires few { length bins.now ≤ most_bins }
    requires declared { IsDeclaredEnd bins.now declared }
    requires some { All (λ size. 0 < size) sizes.now }
    requires weights { weights.now ≡ weights_of sizes.now }
    ensures all { IfOk result (λ rows. length rows.items ≡ count) }
    ensures at { IfOk result (λ rows. HaveBins sizes.now bins.now declared rows.items) }
{
    let _ = sizes;
    let mut rows = Vec::new(alloc);
    let mut product = Vec::new(alloc);
    for number in 0..count {
        put_product(weights, number, &mut product)?;
        rows.push(declared_row(alloc, bins, declared, product.as_slice())?)?;
    }
    Ok(rows)
}

/// The members of the product of an automatic bin.
fn members(rule: &BinRule) -> Option<&[u32]>
    ensures { MatchOption result (is_automatic rule.now ≡ false) (λ members. rule.now ≡ Product members.now) }
{
    match rule {
        BinRule::Product(members) => Some(members.as_slice()),
        _ => None,
    }
}

/// Puts the bin into the row of its product, if it is an automatic one.
fn add_automatic(
    bins: &[BinInfo],
    bin: usize,
    sizes: &[u32],
    rows: &mut Vec<List<u32>>,
) -> Result<(), Memory>
    requires bin { bin < length bins.now }
    requires few { product_of sizes.now ≤ most_products }
    requires few_bins { length bins.now ≤ most_bins }
    requires rules { AllByRecursion (λ bin. IsCrossRule sizes.now bins.now bin.kind bin.rule) bins.now }
    requires some { All (λ size. 0 < size) sizes.now }
    requires rows { AreRows sizes.now bins.now bin rows.old.items }
    requires automatic { IsDeclaredEnd bins.now bin }
    ensures { OnOk result (AreRows sizes.now bins.now (bin + 1) rows.new.items) }
{
    match members(&bins[bin].rule) {
        Some(members) => {
            let number = number(sizes, members) as usize;
            rows[number].push(bin as u32)?;
            Ok(())
        }
        None => Ok(()),
    }
}

/// The rows, one after the other.
fn joined(alloc: Global, rows: &[List<u32>]) -> Result<Rows, Memory>
    ensures { IfOk result (λ all. all ≡ rows.now) }
{
    let mut all = Rows::new(alloc);
    for row in rows {
        all.push(row.as_slice())?;
    }
    Ok(all)
}

/// The bins of each product.
fn rows(
    alloc: Global,
    bins: &[BinInfo],
    declared: usize,
    sizes: &[u32],
    weights: &[u32],
    count: u32,
) -> Result<Rows, Memory>
    requires count { count ≡ product_of sizes.now }
    requires few { product_of sizes.now ≤ most_products }
    requires few_bins { length bins.now ≤ most_bins }
    requires declared { IsDeclaredEnd bins.now declared }
    requires rules { AllByRecursion (λ bin. IsCrossRule sizes.now bins.now bin.kind bin.rule) bins.now }
    requires some { All (λ size. 0 < size) sizes.now }
    requires weights { weights.now ≡ weights_of sizes.now }
    ensures { IfOk result (λ rows. AreRows sizes.now bins.now (length bins.now) rows) }
{
    let mut rows = declared_rows(alloc, bins, declared, sizes, weights, count)?;
    for bin in declared..bins.len() {
        add_automatic(bins, bin, sizes, &mut rows)?;
    }
    joined(alloc, rows.as_slice())
}

/// What a table of rows costs: room for each product, and a question to each declared bin.
fn cost(count: u32, declared: usize) -> u64 {
    u64::from(count).saturating_mul((declared as u64).saturating_add(4))
}

/// The table of a cross: rows where they cost no more than there is room for, which they take.
fn table(
    alloc: Global,
    bins: &[BinInfo],
    declared: usize,
    sizes: &[u32],
    weights: &[u32],
    count: u32,
    room: &mut u64,
) -> Result<Table, Memory>
    requires count { count ≡ product_of sizes.now }
    requires few { product_of sizes.now ≤ most_products }
    requires few_bins { length bins.now ≤ most_bins }
    requires declared { IsDeclaredEnd bins.now declared }
    requires rules { AllByRecursion (λ bin. IsCrossRule sizes.now bins.now bin.kind bin.rule) bins.now }
    requires some { All (λ size. 0 < size) sizes.now }
    requires weights { weights.now ≡ weights_of sizes.now }
    ensures { IfOk result (λ table. IsTable sizes.now weights.now bins.now table) }
{
    let cost = cost(count, declared);
    if cost > *room {
        return Ok(Table::Scan);
    }
    *room -= cost;
    Ok(Table::Rows(rows(alloc, bins, declared, sizes, weights, count)?))
}

/// What is worked out of a cross without products.
fn empty_plan(alloc: Global, declared: usize, guards: usize, sizes: List<u32>) -> CrossPlan
    requires declared { declared ≤ most_bins }
    requires guards { guards ≤ most_bins }
    ensures sizes { result.sizes ≡ sizes }
    ensures declared { result.declared ≡ declared }
    ensures guards { result.guards ≡ guards }
    ensures table { result.table ≡ Nothing }
{
    CrossPlan {
        sizes,
        weights: List::new(alloc),
        declared: declared as u32,
        guards: guards as u32,
        table: Table::Nothing,
    }
}

/// What is worked out of a cross with products.
fn full_plan(
    alloc: Global,
    bins: &[BinInfo],
    declared: usize,
    guards: usize,
    sizes: List<u32>,
    count: u32,
    room: &mut u64,
) -> Result<CrossPlan, Memory>
    requires count { count ≡ product_of sizes }
    requires few { product_of sizes ≤ most_products }
    requires few_bins { length bins.now ≤ most_bins }
    requires declared { IsDeclaredEnd bins.now declared }
    requires guards { IsGuardEnd bins.now guards }
    requires rules { AllByRecursion (λ bin. IsCrossRule sizes bins.now bin.kind bin.rule) bins.now }
    requires some { All (λ size. 0 < size) sizes }
    ensures plan { IfOk result (λ plan. IsPlan bins.now plan) }
    ensures sizes { IfOk result (λ plan. plan.sizes ≡ sizes) }
{
    let weights = weights(alloc, sizes.as_slice(), count)?;
    let table = table(
        alloc,
        bins,
        declared,
        sizes.as_slice(),
        weights.as_slice(),
        count,
        room,
    )?;
    Ok(CrossPlan {
        sizes,
        weights,
        declared: declared as u32,
        guards: guards as u32,
        table,
    })
}

/// How many products there are.
fn all_products(sizes: &[u32]) -> u32
    requires { product_of sizes.now ≤ most_products }
    ensures { result ≡ product_of sizes.now }
{
    match count_products(sizes) {
        Some(count) => count,
        None => 0,
    }
}

/// What is worked out of a cross with these bins, of points with so many coverage bins.
fn plan(
    alloc: Global,
    bins: &[BinInfo],
    sizes: List<u32>,
    room: &mut u64,
) -> Result<CrossPlan, Memory>
    requires few { product_of sizes ≤ most_products }
    requires few_bins { length bins.now ≤ most_bins }
    requires rules { AllByRecursion (λ bin. IsCrossRule sizes bins.now bin.kind bin.rule) bins.now }
    ensures plan { IfOk result (λ plan. IsPlan bins.now plan) }
    ensures sizes { IfOk result (λ plan. plan.sizes ≡ sizes) }
{
    let declared = declared_end(bins);
    let guards = guard_end(bins);
    let count = all_products(sizes.as_slice());
    if count == 0 {
        return Ok(empty_plan(alloc, declared, guards, sizes));
    }
    full_plan(alloc, bins, declared, guards, sizes, count, room)
}

impl CrossPlan {
    /// What is worked out of a cross of the points at these indexes of an instance with these items. `room` is what tables
    /// of rows may still cost, in entries and in questions to declared bins; a table takes its cost from it, and a cross
    /// whose table costs more than is left gets none.
    pub fn new(
        alloc: Global,
        items: &[ItemInfo],
        item: &ItemInfo,
        axes: &[u32],
        room: &mut u64,
    ) -> Result<CrossPlan, Memory>
        requires items { All (λ item. length item.bins ≤ most_bins) items.now }
        requires few_bins { length item.now.bins ≤ most_bins }
        requires cross { IsCross items.now item.now.bins axes.now }
        ensures plan { IfOk result (λ plan. IsPlan item.now.bins plan) }
        ensures sizes { IfOk result (λ plan. plan.sizes ≡ sizes_of items.now axes.now) }
    {
        let sizes = sizes(alloc, items, axes)?;
        plan(alloc, item.bins.as_slice(), sizes, room)
    }
}
