//! What removal leaves of the declared bins of a cross, and which products none of them selects.
ghost use Rattle.std.specs.Prelude.{◌≡◌, ◌≤◌, ◌++◌, ◌-◌, ◌||◌, List, [], ◌∷◌, ℕ, if◌then◌else◌, length, Bool, true, false, IfOk, OnOk};
ghost use Rattle.std.specs.List.{list_any, flat_map};
ghost use Rattle.cov_ground.specs.Limits.{most_bins, most_products};
ghost use Rattle.cross_select.specs.Products.{product_of};
ghost use Rattle.design_data.specs.declared.infos.BinInfo.{BinInfo};
ghost use Rattle.design_data.specs.declared.infos.BinKind.{BinKind};
ghost use Rattle.design_data.specs.Crosses.{picks, takes_from as takes_from_of, is_left};
ghost use Rattle.product_bits.specs.Marks.{Marks, word_count};
ghost use Rattle.design_data.specs.Laws.{automatic_products};
ghost use Rattle.product_bits.specs.Numbers.{at_most};
ghost use Rattle.elab_crosses.specs.Removal.{infos, takes, left_of, bins_left};
ghost use Rattle.elab_crosses.specs.Free.{IsFree, free_of};

use cov_ground::Memory;
use cov_tree::List;
use design_data::{BinKind, BinRule};
use elab_values::Made;
use product_bits::ProductBits;
use std::alloc::Global;

/// Whether what a bin of the first kind selects leaves a bin of the other.
fn takes_from(one: BinKind, other: BinKind) -> bool
    ensures { result ≡ takes_from_of one other }
{
    match (one, other) {
        (BinKind::IllegalBin, BinKind::IllegalBin) => false,
        (BinKind::IllegalBin, _) | (BinKind::IgnoreBin, BinKind::CvgBin) => true,
        _ => false,
    }
}

/// The products that a bin selects, if it is a declared one.
fn picked_by(
    alloc: Global,
    sizes: &[u32],
    count: u32,
    rule: &BinRule,
) -> Result<ProductBits, Memory>
    requires count { count ≡ product_of sizes.now }
    requires few { count ≤ most_products }
    ensures { IfOk result (Marks sizes.now (λ product. picks product rule.now)) }
{
    match rule {
        BinRule::Picked(select) => ProductBits::selected(alloc, sizes, count, select),
        _ => ProductBits::none(alloc, count),
    }
}

/// Adds what a bin selects.
fn add_picked(
    alloc: Global,
    sizes: &[u32],
    count: u32,
    rule: &BinRule,
    bits: &mut ProductBits,
) -> Result<(), Memory>
    requires count { count ≡ product_of sizes.now }
    requires few { count ≤ most_products }
    requires len { length bits.old ≡ word_count count }
    ensures { OnOk result ((meant : List ℕ → Bool) → Marks sizes.now meant bits.old
        → Marks sizes.now (λ product. meant product || picks product rule.now) bits.new) }
{
    let picked = picked_by(alloc, sizes, count, rule)?;
    bits.unite(&picked);
    Ok(())
}

/// Adds what a bin takes from bins of a kind.
fn add_taken(
    alloc: Global,
    sizes: &[u32],
    count: u32,
    kind: BinKind,
    made: &Made,
    taken: &mut ProductBits,
) -> Result<(), Memory>
    requires count { count ≡ product_of sizes.now }
    requires few { count ≤ most_products }
    requires len { length taken.old ≡ word_count count }
    ensures { OnOk result ((meant : List ℕ → Bool) → Marks sizes.now meant taken.old
        → Marks sizes.now (λ product. meant product || takes kind product made.now.bin) taken.new) }
{
    if !takes_from(made.bin.kind, kind) {
        return Ok(());
    }
    add_picked(alloc, sizes, count, &made.bin.rule, taken)
}

/// The products that are left to bins of a kind.
fn free_for(
    alloc: Global,
    sizes: &[u32],
    count: u32,
    kind: BinKind,
    bins: &[Made],
) -> Result<ProductBits, Memory>
    requires count { count ≡ product_of sizes.now }
    requires few { count ≤ most_products }
    ensures { IfOk result (Marks sizes.now (is_left (infos bins.now) kind)) }
{
    let mut taken = ProductBits::none(alloc, count)?;
    for made in bins {
        add_taken(alloc, sizes, count, kind, made, &mut taken)?;
    }
    taken.flip();
    Ok(taken)
}

/// The products that are left to bins of each kind.
#[derive(Drop)]
pub(crate) struct Free {
    pub coverage: ProductBits,
    pub illegal: ProductBits,
    pub ignored: ProductBits,
    pub default: ProductBits,
}

fn free_products(alloc: Global, sizes: &[u32], count: u32, bins: &[Made]) -> Result<Free, Memory>
    requires count { count ≡ product_of sizes.now }
    requires few { count ≤ most_products }
    ensures { IfOk result (IsFree sizes.now (infos bins.now)) }
{
    Ok(Free {
        coverage: free_for(alloc, sizes, count, BinKind::CvgBin, bins)?,
        illegal: free_for(alloc, sizes, count, BinKind::IllegalBin, bins)?,
        ignored: free_for(alloc, sizes, count, BinKind::IgnoreBin, bins)?,
        default: free_for(alloc, sizes, count, BinKind::DefaultBin, bins)?,
    })
}

fn of_kind(free: &Free, kind: BinKind) -> &ProductBits
    ensures { result.now ≡ free_of free.now kind }
{
    match kind {
        BinKind::CvgBin => &free.coverage,
        BinKind::IllegalBin => &free.illegal,
        BinKind::IgnoreBin => &free.ignored,
        BinKind::DefaultBin => &free.default,
    }
}

/// Keeps a bin that has something left.
fn keep_if(has_left: bool, made: Made, kept: &mut List<Made>) -> Result<(), Memory>
    ensures { OnOk result (kept.new ≡ kept.old ++ (if has_left then made ∷ [] else [])) }
{
    if has_left {
        kept.push(made)?;
    }
    Ok(())
}

/// Keeps a bin that has something left, and adds what it selects.
fn keep_left(
    alloc: Global,
    sizes: &[u32],
    count: u32,
    free: &ProductBits,
    made: Made,
    kept: &mut List<Made>,
    picked: &mut ProductBits,
) -> Result<(), Memory>
    requires count { count ≡ product_of sizes.now }
    requires few { count ≤ most_products }
    requires len { length free.now ≡ word_count count }
    requires picked_len { length picked.old ≡ word_count count }
    ensures kept { OnOk result ((bins : List BinInfo) → Marks sizes.now (is_left bins made.bin.kind) free.now
        → kept.new ≡ kept.old ++ left_of sizes.now bins made) }
    ensures picked { OnOk result ((meant : List ℕ → Bool) → Marks sizes.now meant picked.old
        → Marks sizes.now (λ product. meant product || picks product made.bin.rule) picked.new) }
{
    let bits = picked_by(alloc, sizes, count, &made.bin.rule)?;
    picked.unite(&bits);
    keep_if(bits.shares(free, count), made, kept)
}

/// Keeps the bins that have something left, and answers which products they all select.
fn keep_all(
    alloc: Global,
    sizes: &[u32],
    count: u32,
    free: &Free,
    bins: Vec<Made>,
    kept: &mut List<Made>,
) -> Result<ProductBits, Memory>
    requires count { count ≡ product_of sizes.now }
    requires few { count ≤ most_products }
    requires len { (kind : BinKind) → length (free_of free.now kind) ≡ word_count count }
    requires empty { kept.old ≡ [] }
    ensures kept { OnOk result ((all : List BinInfo) → IsFree sizes.now all free.now
        → kept.new ≡ flat_map (left_of sizes.now all) bins.items) }
    ensures picked { IfOk result
        (Marks sizes.now (λ product. list_any (λ bin. picks product bin.rule) (infos bins.items))) }
{
    let mut picked = ProductBits::none(alloc, count)?;
    for made in bins {
        keep_left(
            alloc,
            sizes,
            count,
            of_kind(free, made.bin.kind),
            made,
            kept,
            &mut picked,
        )?;
    }
    Ok(picked)
}

/// Keeps the declared bins that have something left. Answers the products that none of all selects, if they are `most`
/// at most.
pub(crate) fn left(
    alloc: Global,
    sizes: &[u32],
    count: u32,
    bins: List<Made>,
    most: usize,
    kept: &mut List<Made>,
) -> Result<Option<List<List<u32>>>, Memory>
    requires count { count ≡ product_of sizes.now }
    requires few { count ≤ most_products }
    requires empty { kept.old ≡ [] }
    ensures kept { OnOk result (kept.new ≡ bins_left sizes.now bins) }
    ensures automatic { IfOk result (λ found. found ≡ at_most most (automatic_products sizes.now (infos bins))) }
{
    let free = free_products(alloc, sizes, count, bins.as_slice())?;
    let mut picked = keep_all(alloc, sizes, count, &free, bins.into_vec(), kept)?;
    picked.flip();
    picked.products(alloc, sizes, count, most)
}
