//! What a store says of single nodes.
ghost use Rattle.std.specs.Prelude.{◌≡◌, ◌<◌, ◌^◌, length, IfOk};
ghost use Rattle.std.specs.Arc.{arc_value};
ghost use Rattle.ucis_model.specs.Paths.{path_of};
ghost use Rattle.cov_history.specs.Nodes.{children as children_meant, bins_under as bins_meant};
ghost use Rattle.cov_history.specs.Coverage as cover;
ghost use Rattle.cov_history.specs.Answers.{cover_row, coverage_at};
ghost use Rattle.cov_history.specs.History.{design_of};
ghost use Rattle.store_parts.specs.Told.{Reads, cover_read};
ghost use Rattle.merge_store.specs.Stores.{opening_of, entries_of};
ghost use Rattle.merge_store.specs.Now.{nodes_now, count_now, excluded_now};

use crate::{QueryFault, Store};
use cov_base::Memory;
use cov_tree::Name;
use design_data::Design;
use sampler::Planned;
use std::sync::Arc;
use ucis_model::{CoverRow, Node};

impl Store {
    /// The design of now.
    pub fn design(&self) -> &Arc<Design>
        ensures { arc_value result.now ≡ design_of (opening_of self.now) (entries_of self.now) }
    {
        self.sums.design.design()
    }

    /// The same, with what is worked out of it once.
    pub fn planned(&self) -> &Planned
        ensures { result.now ≡ design_of (opening_of self.now) (entries_of self.now) }
    {
        &self.sums.design
    }

    /// The nodes of the design of now in depth-first order. Node 0 is the root.
    pub fn nodes(&self) -> &[Node]
        ensures { result.now ≡ nodes_now self.now }
    {
        self.sums.nodes()
    }

    /// The path of a node: the names from its group down to it, with `/` between them. The root has the empty path.
    pub fn path_text(&self, node: u32) -> Result<Name, Memory>
        requires { node < length (nodes_now self.now) }
        ensures { IfOk result (λ path. path ≡ path_of (nodes_now self.now) node) }
    {
        self.sums.path_text(node)
    }

    /// The nodes right below one, in order.
    pub fn children(&self, node: u32) -> &[u32]
        ensures { result.now ≡ children_meant (nodes_now self.now) node }
    {
        self.sums.children(node)
    }

    /// The nodes of the bins under a node.
    pub fn bins_under(&self, node: u32) -> &[u32]
        ensures bins { result.now ≡ bins_meant (nodes_now self.now) node }
        ensures few { length result.now < 2 ^ 32 }
    {
        self.sums.bins_under(node)
    }

    /// How often the bin that a node is was hit.
    pub fn count(&self, node: u32) -> u64
        ensures { result ≡ cover.count_at (nodes_now self.now) (count_now self.now) node }
    {
        self.sums.count(node)
    }

    /// The coverage of a node. Memory is wanted only for types whose instances are merged, and for the root.
    pub fn cover_row(&self, node: u32) -> Result<CoverRow, Memory>
        ensures { IfOk result (λ row. row
            ≡ cover_row (nodes_now self.now) (count_now self.now) (excluded_now self.now) node) }
    {
        let row = self.sums.cover_row(node)?;
        Ok(row)
    }

    /// The coverage of the node that the path finds.
    pub fn coverage(&self, path: &[u8]) -> Result<CoverRow, QueryFault>
        ensures { Reads (coverage_at (opening_of self.now) (entries_of self.now) path.now)
            (cover_read result) }
    {
        let Some(node) = self.sums.find(path) else {
            return Err(QueryFault::NoSuchPath);
        };
        match self.cover_row(node) {
            Ok(row) => Ok(row),
            Err(Memory) => Err(QueryFault::Memory),
        }
    }
}
