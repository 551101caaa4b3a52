//! Coverage, over running sums (IEEE 1800-2017, 19.11).
ghost use Rattle.std.specs.Prelude.{◌≡◌, ◌+◌, ◌-◌, ◌<◌, ◌≤◌, ◌^◌, ◌&&◌, ◌++◌, ℕ, List, Some, None, cond, count_by, filter, length, nat_lt, not, if◌then◌else◌, option_to_list, IfOk};
ghost use Rattle.percent.specs.Millionths.{sums};
ghost use Rattle.ucis_model.specs.Paths.{node_at};
ghost use Rattle.cov_history.specs.Nodes.{bin_nodes, bins_under};
ghost use Rattle.cov_history.specs.Coverage as cover;
ghost use Rattle.cov_history.specs.Answers.{cover_row};
ghost use Rattle.store_sums.specs.Branches.{part};
ghost use Rattle.store_sums.specs.Runs.{bin_at, live_in, covered_in};
ghost use Rattle.store_sums.specs.Now.{nodes_now, count_now, excluded_now};

use crate::Sums;
use crate::runs::Piece;
use cov_base::Memory;
use percent::{Mean, item};
use ucis_model::{CoverRow, NodeKind};

/// Takes a part of a mean, if it is one.
fn add_part(mean: &mut Mean, part: Option<(u32, u32)>)
    requires { mean.old.pairs + 1 < 2 ^ 64 }
    ensures sums { (parts : List (ℕ × ℕ)) → mean.old ≡ sums parts → mean.new ≡ sums (parts ++ option_to_list part) }
    ensures pairs { mean.new.pairs ≤ mean.old.pairs + 1 }
{
    if let Some((weight, value)) = part {
        mean.add(weight, value);
    }
}

impl Sums {
    /// Where the bins under a node begin and end among all bins.
    fn ends_of(&self, node: u32) -> (u32, u32)
        ensures part { bins_under (nodes_now self.now) node ≡ part result.0 (result.1 - result.0) (bin_nodes (nodes_now self.now)) }
        ensures inside { result.1 ≤ length (bin_nodes (nodes_now self.now)) }
        ensures few { length (bin_nodes (nodes_now self.now)) < 2 ^ 32 }
    {
        let facts = self.facts(node);
        let many = self.branches.bins().len() as u64;
        let end = (u64::from(facts.first_bin) + u64::from(facts.bins)).min(many);
        (facts.first_bin, end as u32)
    }

    /// The node right above the bin at a place.
    fn above_bin(&self, place: u32) -> u32
        requires { place < length (bin_nodes (nodes_now self.now)) }
        ensures { result ≡ (node_at (nodes_now self.now) (bin_at (nodes_now self.now) place)).parent }
    {
        match self.branches.bin(place) {
            Some(node) => self.facts(node).parent,
            None => 0,
        }
    }

    /// Some bins that stand in a row: where they end, before the end that is given, and how many of them are live, and
    /// covered as well.
    fn live_piece(&self, first: u32, end: u32) -> Piece
        requires some { first < end }
        requires inside { end ≤ length (bin_nodes (nodes_now self.now)) }
        ensures some { first < result.end }
        ensures within { result.end ≤ end }
        ensures live { result.live ≡ live_in (nodes_now self.now) (excluded_now self.now) (part first (result.end - first) (bin_nodes (nodes_now self.now))) }
        ensures covered { result.covered ≡ covered_in (nodes_now self.now) (count_now self.now) (excluded_now self.now) (part first (result.end - first) (bin_nodes (nodes_now self.now))) }
    {
        let piece = self.runs.piece(first, end);
        if self.is_excluded(self.above_bin(first)) {
            return Piece {
                end: piece.end,
                live: 0,
                covered: 0,
            };
        }
        piece
    }

    /// How many live bins under a node are covered, and how many they are.
    fn under(&self, node: u32) -> (u32, u32)
        ensures covered { result.0 ≡ cover.covered_under (nodes_now self.now) (count_now self.now) (excluded_now self.now) node }
        ensures live { result.1 ≡ length (cover.live_under (nodes_now self.now) (excluded_now self.now) node) }
        ensures fewer { result.0 ≤ result.1 }
    {
        let (mut first, end) = self.ends_of(node);
        let mut covered = 0;
        let mut live = 0;
        while first < end {
            let piece = self.live_piece(first, end);
            covered += piece.covered;
            live += piece.live;
            first = piece.end;
        }
        (covered, live)
    }

    /// Of an item, or of a bin, which counts itself.
    #[tactic(auto, unfolding(cov_history::specs::Coverage::item_coverage))]
    fn item(&self, node: u32) -> u32
        ensures { result ≡ cover.item_coverage (nodes_now self.now) (count_now self.now) (excluded_now self.now) node }
    {
        let (covered, live) = self.under(node);
        item(covered, live)
    }

    /// What an item adds to the mean of its instance: nothing where it has no live bin.
    #[tactic(auto, unfolding(cov_history::specs::Coverage::item_coverage))]
    fn item_part(&self, node: u32) -> Option<(u32, u32)>
        ensures { result ≡ (if cover.has_live (nodes_now self.now) (excluded_now self.now) node
            then Some ((node_at (nodes_now self.now) node).weight, cover.item_coverage (nodes_now self.now) (count_now self.now) (excluded_now self.now) node)
            else None) }
    {
        let (covered, live) = self.under(node);
        if live == 0 {
            return None;
        }
        Some((self.facts(node).weight, item(covered, live)))
    }

    fn instance(&self, node: u32) -> u32
        ensures { result ≡ cover.instance_coverage (nodes_now self.now) (count_now self.now) (excluded_now self.now) node }
    {
        let mut mean = Mean::new();
        for child in self.children(node) {
            add_part(&mut mean, self.item_part(*child));
        }
        mean.get()
    }

    /// What an instance adds to the mean of its type: nothing where it is excluded.
    fn instance_part(&self, node: u32) -> Option<(u32, u32)>
        ensures { result ≡ (if not (excluded_now self.now node)
            then Some ((node_at (nodes_now self.now) node).weight, cover.instance_coverage (nodes_now self.now) (count_now self.now) (excluded_now self.now) node)
            else None) }
    {
        if self.is_excluded(node) {
            return None;
        }
        Some((self.facts(node).weight, self.instance(node)))
    }

    /// Of a type without merging.
    fn plain(&self, node: u32) -> u32
        ensures { result ≡ cover.plain_coverage (nodes_now self.now) (count_now self.now) (excluded_now self.now) node }
    {
        let mut mean = Mean::new();
        for child in self.children(node) {
            add_part(&mut mean, self.instance_part(*child));
        }
        mean.get()
    }

    /// Of a type.
    #[tactic(auto, unfolding(cov_history::specs::Coverage::type_coverage))]
    fn type_at(&self, node: u32) -> Result<u32, Memory>
        ensures { IfOk result (λ part. part
            ≡ cover.type_coverage (nodes_now self.now) (count_now self.now) (excluded_now self.now) node) }
    {
        if self.facts(node).merge {
            let part = self.merged(node)?;
            return Ok(part);
        }
        Ok(self.plain(node))
    }

    /// What a type adds to the mean of all: nothing where it is excluded.
    fn type_part(&self, node: u32) -> Result<Option<(u32, u32)>, Memory>
        ensures { IfOk result (λ part. part ≡ (if not (excluded_now self.now node)
            then Some ((node_at (nodes_now self.now) node).weight, cover.type_coverage (nodes_now self.now) (count_now self.now) (excluded_now self.now) node)
            else None)) }
    {
        if self.is_excluded(node) {
            return Ok(None);
        }
        let part = self.type_at(node)?;
        Ok(Some((self.facts(node).weight, part)))
    }

    fn root(&self, node: u32) -> Result<u32, Memory>
        ensures { IfOk result (λ part. part
            ≡ cover.root_coverage (nodes_now self.now) (count_now self.now) (excluded_now self.now) node) }
    {
        let mut mean = Mean::new();
        for child in self.children(node) {
            let part = self.type_part(*child)?;
            add_part(&mut mean, part);
        }
        Ok(mean.get())
    }

    /// Of a node of this kind.
    fn by_kind(&self, kind: NodeKind, node: u32) -> Result<u32, Memory>
        ensures { IfOk result (λ part. part
            ≡ cover.coverage_by kind (nodes_now self.now) (count_now self.now) (excluded_now self.now) node) }
    {
        match kind {
            NodeKind::Root => self.root(node),
            NodeKind::CoverGroup => self.type_at(node),
            NodeKind::CoverInstance => Ok(self.instance(node)),
            NodeKind::CoverPoint | NodeKind::Cross | NodeKind::Bin(_) => Ok(self.item(node)),
        }
    }

    /// Of a node, in millionths.
    #[tactic(auto, unfolding(cov_history::specs::Coverage::coverage))]
    fn millionths(&self, node: u32) -> Result<u32, Memory>
        ensures { IfOk result (λ part. part
            ≡ cover.coverage (nodes_now self.now) (count_now self.now) (excluded_now self.now) node) }
    {
        self.by_kind(self.facts(node).kind, node)
    }

    /// The coverage of a node. Memory is wanted only for types whose instances are merged, and for the root.
    pub fn cover_row(&self, node: u32) -> Result<CoverRow, Memory>
        ensures { IfOk result (λ row. row
            ≡ cover_row (nodes_now self.now) (count_now self.now) (excluded_now self.now) node) }
    {
        let millionths = self.millionths(node)?;
        let (covered, bins) = self.under(node);
        let wanted = 10_000 * u64::from(self.facts(node).goal);
        Ok(CoverRow {
            millionths,
            met: wanted <= u64::from(millionths),
            excluded: self.is_excluded(node),
            covered,
            bins,
        })
    }
}
