//! One sample of a cross.
ghost use Rattle.std.specs.Prelude.{◌≡◌, ◌<◌, ◌≤◌, ◌+◌, length, OnOk};
ghost use Rattle.std.specs.List.{All};
ghost use Rattle.cov_ground.specs.Limits.{most_bins};
ghost use Rattle.cross_select.specs.Products.{product_of};
ghost use Rattle.cross_sampler.specs.Numbers.{product_at};
ghost use Rattle.cross_sampler.specs.Once.{Once, HasRoom, guard_at};
ghost use Rattle.cross_sampler.specs.Plans.{IsDeclaredEnd, IsGuardEnd, bins_with, AreRows, HasProducts, IsPlan};
ghost use Rattle.cross_sampler.specs.Known.{AreKnown, Fits};
ghost use Rattle.cross_sampler.specs.Standing.{visited, hit_bins, Raises, TakesSample};

use crate::building::push_bins;
use crate::known::Known;
use crate::numbers::{one_number, product_numbers};
use crate::once::add_once;
use crate::plan::{CrossPlan, Table};
use crate::products::put_product;
use crate::state::CrossState;
use cov_base::{Int, Memory};
use cov_counting::holds;
use design_data::{BinInfo, ItemInfo};
use value_index::Rows;

/// Adds one to each bin that has one of the products, by the rows of all products.
fn add_by_rows(
    bins: &[BinInfo],
    guards: usize,
    first: usize,
    sizes: &[u32],
    table: &Rows,
    numbers: &[u32],
    env: &[Option<Int>],
    mark: u32,
    stamps: &mut [u32],
    counts: &mut [u64],
)
    requires guards { IsGuardEnd bins.now guards }
    requires bins { length stamps.old ≡ length bins.now }
    requires within { first + length stamps.old ≤ length counts.old }
    requires table { AreRows sizes.now bins.now (length bins.now) table.now }
    requires numbers { All (λ n. n < product_of sizes.now) numbers.now }
    ensures { HasRoom first mark stamps.old counts.old
        → Once (guard_at bins.now env.now) first mark (visited bins.now sizes.now numbers.now) stamps.old counts.old stamps.new counts.new }
{
    let _ = sizes;
    for number in numbers {
        let hit = table.row(*number as usize);
        add_once(bins, guards, first, env, hit, mark, stamps, counts);
    }
}

/// Puts the bins of the product of a number into `hit`. They are worked out once, as long as there is room to keep
/// them. `product` is room.
#[tactic(auto, using(crate::proofs::Radix::weights_some))]
fn put_bins(
    bins: &[BinInfo],
    declared: usize,
    sizes: &[u32],
    weights: &[u32],
    number: u32,
    known: &mut Known,
    product: &mut Vec<u32>,
    hit: &mut Vec<u32>,
) -> Result<(), Memory>
    requires few { length bins.now ≤ most_bins }
    requires declared { IsDeclaredEnd bins.now declared }
    requires products { HasProducts sizes.now weights.now }
    requires known { AreKnown sizes.now bins.now known.old }
    ensures bins { OnOk result (hit.new.items ≡ bins_with bins.now (product_at sizes.now number) (length bins.now)) }
    ensures known { OnOk result (AreKnown sizes.now bins.now known.new) }
{
    if known.recall(bins, sizes, number, hit)? {
        return Ok(());
    }
    put_product(weights, number, product)?;
    hit.clear();
    push_bins(bins, declared, bins.len(), product.as_slice(), hit)?;
    known.keep(bins, sizes, number, hit.as_slice())?;
    Ok(())
}

/// Adds one to each bin that has one of the products, whose bins are worked out where they aren't known.
fn add_by_scan(
    bins: &[BinInfo],
    declared: usize,
    guards: usize,
    first: usize,
    sizes: &[u32],
    weights: &[u32],
    numbers: &[u32],
    env: &[Option<Int>],
    mark: u32,
    known: &mut Known,
    product: &mut Vec<u32>,
    hit: &mut Vec<u32>,
    stamps: &mut [u32],
    counts: &mut [u64],
) -> Result<(), Memory>
    requires few { length bins.now ≤ most_bins }
    requires declared { IsDeclaredEnd bins.now declared }
    requires products { HasProducts sizes.now weights.now }
    requires guards { IsGuardEnd bins.now guards }
    requires bins { length stamps.old ≡ length bins.now }
    requires within { first + length stamps.old ≤ length counts.old }
    requires known { AreKnown sizes.now bins.now known.old }
    ensures known { OnOk result (AreKnown sizes.now bins.now known.new) }
    ensures once { OnOk result (HasRoom first mark stamps.old counts.old
        → Once (guard_at bins.now env.now) first mark (visited bins.now sizes.now numbers.now) stamps.old counts.old stamps.new counts.new) }
{
    for number in numbers {
        put_bins(bins, declared, sizes, weights, *number, known, product, hit)?;
        add_once(
            bins,
            guards,
            first,
            env,
            hit.as_slice(),
            mark,
            stamps,
            counts,
        );
    }
    Ok(())
}

impl CrossPlan {
    /// Adds one to each bin of the cross that has a product all of whose members are hit, by the rows of all products.
    fn raise_by_rows(
        &self,
        table: &Rows,
        item: &ItemInfo,
        axes: &[u32],
        state: &mut CrossState,
        env: &[Option<Int>],
        rows: &[Vec<u32>],
        counts: &mut [u64],
    ) -> Result<(), Memory>
        requires plan { IsPlan item.now.bins self.now }
        requires products { HasProducts self.now.sizes self.now.weights }
        requires table { AreRows self.now.sizes item.now.bins (length item.now.bins) table.now }
        requires axes { length self.now.sizes ≡ length axes.now }
        requires fits { Fits item.now self.now state.old }
        requires within { item.now.first_bin + length item.now.bins ≤ length counts.old }
        ensures samples { OnOk result (state.new.samples ≡ state.old.samples) }
        ensures fits { OnOk result (Fits item.now self.now state.new) }
        ensures once { OnOk result (Raises item.now.bins item.now.first_bin env.now state.old.samples (hit_bins item.now.bins self.now.sizes rows.now axes.now) state.old.stamps.items counts.old state.new.stamps.items counts.new) }
    {
        let sizes = self.sizes.as_slice();
        let bins = item.bins.as_slice();
        let guards = self.guards as usize;
        let first = item.first_bin as usize;
        let mark = state.samples;
        if let Some(number) = one_number(sizes, axes, rows) {
            let stamps = state.stamps.as_mut_slice();
            let numbers = [number];
            add_by_rows(
                bins, guards, first, sizes, table, &numbers, env, mark, stamps, counts,
            );
            return Ok(());
        }
        product_numbers(sizes, axes, rows, &mut state.numbers, &mut state.spare)?;
        let stamps = state.stamps.as_mut_slice();
        let numbers = state.numbers.as_slice();
        add_by_rows(
            bins, guards, first, sizes, table, numbers, env, mark, stamps, counts,
        );
        Ok(())
    }

    /// The same, where the bins of a product are worked out.
    fn raise_by_scan(
        &self,
        item: &ItemInfo,
        axes: &[u32],
        state: &mut CrossState,
        env: &[Option<Int>],
        rows: &[Vec<u32>],
        counts: &mut [u64],
    ) -> Result<(), Memory>
        requires plan { IsPlan item.now.bins self.now }
        requires products { HasProducts self.now.sizes self.now.weights }
        requires axes { length self.now.sizes ≡ length axes.now }
        requires fits { Fits item.now self.now state.old }
        requires within { item.now.first_bin + length item.now.bins ≤ length counts.old }
        ensures samples { OnOk result (state.new.samples ≡ state.old.samples) }
        ensures fits { OnOk result (Fits item.now self.now state.new) }
        ensures once { OnOk result (Raises item.now.bins item.now.first_bin env.now state.old.samples (hit_bins item.now.bins self.now.sizes rows.now axes.now) state.old.stamps.items counts.old state.new.stamps.items counts.new) }
    {
        let sizes = self.sizes.as_slice();
        product_numbers(sizes, axes, rows, &mut state.numbers, &mut state.spare)?;
        add_by_scan(
            item.bins.as_slice(),
            self.declared as usize,
            self.guards as usize,
            item.first_bin as usize,
            sizes,
            self.weights.as_slice(),
            state.numbers.as_slice(),
            env,
            state.samples,
            &mut state.known,
            &mut state.product,
            &mut state.bins,
            state.stamps.as_mut_slice(),
            counts,
        )?;
        Ok(())
    }

    /// The same by the table that there is.
    fn raise(
        &self,
        item: &ItemInfo,
        axes: &[u32],
        state: &mut CrossState,
        env: &[Option<Int>],
        rows: &[Vec<u32>],
        counts: &mut [u64],
    ) -> Result<(), Memory>
        requires plan { IsPlan item.now.bins self.now }
        requires axes { length self.now.sizes ≡ length axes.now }
        requires fits { Fits item.now self.now state.old }
        requires within { item.now.first_bin + length item.now.bins ≤ length counts.old }
        ensures samples { OnOk result (state.new.samples ≡ state.old.samples) }
        ensures fits { OnOk result (Fits item.now self.now state.new) }
        ensures once { OnOk result (Raises item.now.bins item.now.first_bin env.now state.old.samples (hit_bins item.now.bins self.now.sizes rows.now axes.now) state.old.stamps.items counts.old state.new.stamps.items counts.new) }
    {
        match &self.table {
            Table::Rows(table) => {
                self.raise_by_rows(table, item, axes, state, env, rows, counts)
            }
            Table::Scan => self.raise_by_scan(item, axes, state, env, rows, counts),
            Table::Nothing => Ok(()),
        }
    }

    /// Takes the cross over a sample of its instance, whose values are `env`: raises the count of each bin that has a
    /// product all of whose members are hit, once. `axes` are the indexes of its points, and `rows` has the numbers of the
    /// coverage bins of each point of the instance that are hit at the sample, by the point's index. `counts` are those of
    /// the whole design. A sample takes memory only where more products are hit than at each sample before. After want
    /// of memory the state and the counts are of no use.
    pub fn sample(
        &self,
        item: &ItemInfo,
        axes: &[u32],
        state: &mut CrossState,
        env: &[Option<Int>],
        rows: &[Vec<u32>],
        counts: &mut [u64],
    ) -> Result<(), Memory>
        requires plan { IsPlan item.now.bins self.now }
        requires axes { length self.now.sizes ≡ length axes.now }
        requires fits { Fits item.now self.now state.old }
        requires within { item.now.first_bin + length item.now.bins ≤ length counts.old }
        ensures fits { OnOk result (Fits item.now self.now state.new) }
        ensures takes { OnOk result (TakesSample self.now.sizes item.now axes.now env.now rows.now
            state.old counts.old state.new counts.new) }
    {
        state.begin();
        if !holds(&item.guard, env) {
            return Ok(());
        }
        self.raise(item, axes, state, env, rows, counts)?;
        Ok(())
    }
}
