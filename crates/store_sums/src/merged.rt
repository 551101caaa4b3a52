//! Coverage of types whose instances are merged: bins of one item name and one name are one (IEEE 1800-2017, 19.7.1).
ghost use Rattle.std.specs.Prelude.{◌≡◌, ◌+◌, ◌*◌, ◌<◌, ◌≤◌, ◌^◌, ◌++◌, ◌∷◌, [], ℕ, List, map, max, fold, filter, length, count_by, sum_by, if◌then◌else◌, true, false, IfOk, OnOk};
ghost use Rattle.percent.specs.Millionths.{mean, sums};
ghost use Rattle.cov_history.specs.Coverage as cover;
ghost use Rattle.store_sums.specs.Groups.{Group, groups_of, name_by, merged_parts};
ghost use Rattle.store_sums.specs.Now.{nodes_now, count_now, excluded_now};

use crate::Sums;
use crate::groups::put_by_name;
use cov_base::Memory;
use name_map::NameMap;
use percent::{Mean, item};

impl Sums {
    /// The name of a bin, or of its item.
    fn name_by(&self, of_item: bool, bin: u32) -> &[u8]
        ensures { result.now ≡ name_by (nodes_now self.now) of_item bin }
    {
        if of_item {
            return self.name(self.facts(bin).parent);
        }
        self.name(bin)
    }

    /// The bins by their names, or by those of their items.
    fn grouped(&self, of_item: bool, bins: &[u32]) -> Result<Vec<Vec<u32>>, Memory>
        ensures { IfOk result (λ lists. map (λ list. list.items) lists.items
            ≡ map (λ (g : Group). g.1) (groups_of (name_by (nodes_now self.now) of_item) bins.now)) }
    {
        let mut names = NameMap::new(self.alloc);
        let mut lists = Vec::new(self.alloc);
        for bin in bins {
            let name = self.name_by(of_item, *bin);
            put_by_name(self.alloc, &mut names, &mut lists, name, *bin)?;
        }
        Ok(lists)
    }

    /// The greatest of the numbers of hits that the bins want.
    fn greatest(&self, bins: &[u32]) -> u32
        ensures { result ≡ fold max 0 (map (cover.at_least (nodes_now self.now)) bins.now) }
    {
        let mut greatest = 0;
        for bin in bins {
            greatest = larger(greatest, self.facts(*bin).at_least);
        }
        greatest
    }

    /// The counts of the bins together.
    fn total(&self, bins: &[u32]) -> u128
        ensures { result ≡ sum_by (cover.count_at (nodes_now self.now) (count_now self.now)) bins.now }
    {
        let _many = bins.len();
        let mut total = 0u128;
        for bin in bins {
            total += u128::from(self.count(*bin));
        }
        total
    }

    /// Whether the bins are covered as one.
    fn is_covered_as_one(&self, bins: &[u32]) -> bool
        ensures { result ≡ cover.is_covered_as_one (nodes_now self.now) (count_now self.now) bins.now }
    {
        u128::from(self.greatest(bins)) <= self.total(bins)
    }

    /// How many of the lists of bins are covered as one.
    fn covered_lists(&self, lists: &[Vec<u32>]) -> u32
        requires { length lists.now < 2 ^ 32 }
        ensures is { result ≡ count_by (cover.is_covered_as_one (nodes_now self.now) (count_now self.now))
            (map (λ list. list.items) lists.now) }
        ensures few { result ≤ length lists.now }
    {
        let mut covered = 0;
        for list in lists {
            covered += u32::from(self.is_covered_as_one(list));
        }
        covered
    }

    /// Of items of one name as one, which have these live bins.
    fn merged_item(&self, bins: &[u32]) -> Result<u32, Memory>
        ensures { IfOk result (λ part. part
            ≡ cover.merged_item (nodes_now self.now) (count_now self.now) bins.now) }
    {
        let lists = self.grouped(false, bins)?;
        let many = lists.as_slice().len();
        if many > u32::MAX as usize {
            // no memory holds more
            return Err(Memory);
        }
        Ok(item(self.covered_lists(lists.as_slice()), many as u32))
    }

    /// The weight of the bins' item in its type.
    fn type_weight(&self, bins: &[u32]) -> u32
        ensures { result ≡ cover.type_weight (nodes_now self.now) bins.now }
    {
        if bins.is_empty() {
            return 0;
        }
        self.facts(self.facts(bins[0]).parent).type_weight
    }

    /// The mean over items, each with its live bins.
    fn mean_of(&self, lists: &[Vec<u32>]) -> Result<u32, Memory>
        ensures { IfOk result (λ part. part
            ≡ mean (merged_parts (nodes_now self.now) (count_now self.now) (map (λ list. list.items) lists.now))) }
    {
        let mut mean = Mean::new();
        for list in lists {
            let part = self.merged_item(list)?;
            mean.add(self.type_weight(list), part);
        }
        Ok(mean.get())
    }

    /// The live bins under a node.
    fn live_under(&self, node: u32) -> Result<Vec<u32>, Memory>
        ensures { IfOk result (λ live. live.items
            ≡ cover.live_under (nodes_now self.now) (excluded_now self.now) node) }
    {
        let mut live = Vec::new(self.alloc);
        for bin in self.bins_under(node) {
            self.push_live(&mut live, *bin)?;
        }
        Ok(live)
    }

    /// One bin more, if it is live.
    fn push_live(&self, live: &mut Vec<u32>, bin: u32) -> Result<(), Memory>
        ensures { OnOk result (live.new.items
            ≡ live.old.items ++ (if cover.is_live (nodes_now self.now) (excluded_now self.now) bin then bin ∷ [] else [])) }
    {
        if self.is_live(bin) {
            live.push(bin)?;
        }
        Ok(())
    }

    /// Of a type whose instances are merged.
    pub(crate) fn merged(&self, node: u32) -> Result<u32, Memory>
        ensures { IfOk result (λ part. part
            ≡ cover.merged_coverage (nodes_now self.now) (count_now self.now) (excluded_now self.now) node) }
    {
        let live = self.live_under(node)?;
        let lists = self.grouped(true, live.as_slice())?;
        let part = self.mean_of(lists.as_slice())?;
        Ok(part)
    }
}

fn larger(a: u32, b: u32) -> u32
    ensures { result ≡ max a b }
{
    a.max(b)
}
