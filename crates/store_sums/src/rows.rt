//! Rows of bins, and bins that are picked out.
ghost use Rattle.std.specs.Prelude.{◌≡◌, ◌<◌, ◌^◌, ◌&&◌, ◌++◌, ◌∷◌, [], length, map, nat_lt, if◌then◌else◌, IfOk, OnOk};
ghost use Rattle.ucis_model.specs.declared.answers.Answer.TheVariants as answer;
ghost use Rattle.ucis_model.specs.Paths.{node_at};
ghost use Rattle.tally.specs.Rows.{count_in};
ghost use Rattle.cov_history.specs.Nodes.{is_illegal, kind_of_bin};
ghost use Rattle.cov_history.specs.Coverage.{count_at, is_live, live_under};
ghost use Rattle.cov_history.specs.Answers.{count_row, rows, illegal_hit};
ghost use Rattle.store_sums.specs.Now.{nodes_now, count_now, excluded_now};

use crate::Sums;
use crate::branches::part_of;
use cov_base::Memory;
use cov_ground::limits::MOST_ROWS;
use cov_tree::List;
use design_data::BinKind;
use tally::Tally;
use ucis_model::{CountRow, NodeKind};

impl Sums {
    /// One row more, of a bin.
    fn push_row(&self, list: &mut Vec<CountRow>, bin: u32) -> Result<(), Memory>
        ensures { OnOk result (list.new.items ≡ list.old.items ++ count_row (nodes_now self.now) (count_now self.now) (excluded_now self.now) bin ∷ []) }
    {
        list.push(self.count_row(bin, self.count(bin)))?;
        Ok(())
    }

    /// How many bins these are, and the counts of a page of them.
    pub fn rows(&self, bins: &[u32], first: u32) -> Result<(u32, List<CountRow>), Memory>
        requires { length bins.now < 2 ^ 32 }
        ensures { IfOk result (λ r. answer.Rows r.0 r.1 ≡ rows (nodes_now self.now) (count_now self.now) (excluded_now self.now) first bins.now) }
    {
        let mut list = Vec::new(self.alloc);
        for bin in part_of(bins, first as usize, MOST_ROWS) {
            self.push_row(&mut list, *bin)?;
        }
        Ok((bins.len() as u32, List::of(list)))
    }

    /// Whether the node is an illegal bin that was hit.
    fn is_illegal_hit(&self, node: u32) -> bool
        ensures { result ≡ (is_illegal (kind_of_bin (nodes_now self.now) node) && nat_lt 0 (count_at (nodes_now self.now) (count_now self.now) node)) }
    {
        match self.facts(node).kind {
            NodeKind::Bin(BinKind::IllegalBin) => self.count(node) > 0,
            _ => false,
        }
    }

    fn push_illegal(&self, hit: &mut Vec<u32>, node: u32) -> Result<(), Memory>
        ensures { OnOk result (hit.new.items ≡ hit.old.items ++ (if is_illegal (kind_of_bin (nodes_now self.now) node) && nat_lt 0 (count_at (nodes_now self.now) (count_now self.now) node) then node ∷ [] else [])) }
    {
        if self.is_illegal_hit(node) {
            hit.push(node)?;
        }
        Ok(())
    }

    /// The illegal bins that were hit.
    pub fn illegal_bins(&self) -> Result<Vec<u32>, Memory>
        ensures bins { IfOk result (λ bins. bins.items ≡ illegal_hit (nodes_now self.now) (count_now self.now)) }
        ensures few { IfOk result (λ bins. length bins.items < 2 ^ 32) }
    {
        let mut hit = Vec::new(self.alloc);
        for bin in self.branches.bins() {
            self.push_illegal(&mut hit, *bin)?;
        }
        Ok(hit)
    }

    /// One row more, of a bin with what a test counts.
    fn push_test_row(&self, list: &mut Vec<CountRow>, tally: &Tally, bin: u32) -> Result<(), Memory>
        ensures { OnOk result (list.new.items ≡ list.old.items ++ count_row (nodes_now self.now) (count_in tally.now) (excluded_now self.now) bin ∷ []) }
    {
        let count = tally.get(self.facts(bin).first_bin);
        list.push(self.count_row(bin, count))?;
        Ok(())
    }

    /// How many bins these are, and what a test counts of a page of them.
    pub fn test_rows(
        &self,
        tally: &Tally,
        bins: &[u32],
        first: u32,
    ) -> Result<(u32, List<CountRow>), Memory>
        requires { length bins.now < 2 ^ 32 }
        ensures { IfOk result (λ r. answer.Rows r.0 r.1 ≡ rows (nodes_now self.now) (count_in tally.now) (excluded_now self.now) first bins.now) }
    {
        let mut list = Vec::new(self.alloc);
        for bin in part_of(bins, first as usize, MOST_ROWS) {
            self.push_test_row(&mut list, tally, *bin)?;
        }
        Ok((bins.len() as u32, List::of(list)))
    }

    /// One pair more, where the node is a live bin: its number, and how many hits of it are wanted.
    fn push_wanted(&self, wanted: &mut Vec<(u32, u32)>, node: u32) -> Result<(), Memory>
        ensures { OnOk result (wanted.new.items ≡ wanted.old.items ++ (if is_live (nodes_now self.now) (excluded_now self.now) node then ((node_at (nodes_now self.now) node).first_bin, (node_at (nodes_now self.now) node).at_least) ∷ [] else [])) }
    {
        if self.is_live(node) {
            let facts = self.facts(node);
            wanted.push((facts.first_bin, facts.at_least))?;
        }
        Ok(())
    }

    /// The live bins of the design, each with how many hits of it are wanted.
    pub fn wanted(&self) -> Result<Vec<(u32, u32)>, Memory>
        ensures wanted { IfOk result (λ wanted. wanted.items ≡ map (λ n. ((node_at (nodes_now self.now) n).first_bin, (node_at (nodes_now self.now) n).at_least)) (live_under (nodes_now self.now) (excluded_now self.now) 0)) }
        ensures few { IfOk result (λ wanted. length wanted.items < 2 ^ 32) }
    {
        let mut wanted = Vec::new(self.alloc);
        for bin in self.bins_under(0) {
            self.push_wanted(&mut wanted, *bin)?;
        }
        Ok(wanted)
    }
}
