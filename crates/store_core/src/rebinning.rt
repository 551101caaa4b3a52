//! A text with its design, for which the tests of a basis are counted anew.
ghost use Rattle.std.specs.Prelude.{◌≡◌, ◌≤◌, length, map, sum_by, IfOk};
ghost use Rattle.std.specs.Arc.{arc_value};
ghost use Rattle.ucis_model.specs.declared.answers.Which.TheVariants.{Tests};
ghost use Rattle.ucis_model.specs.Nodes.{nodes_of};
ghost use Rattle.cov_history.specs.History.{bins_hit, most};
ghost use Rattle.cov_history.specs.Sums.{all_hits};
ghost use Rattle.store_core.specs.Histories.{Declaring};
ghost use Rattle.store_core.specs.Rebins.{tallies_of};
ghost use Rattle.store_core.specs.Bases.{IsRebinned};

use crate::Basis;
use crate::counting::{count_records, shared_records};
use cov_base::{Gate, Memory};
use cov_compile::Compiled;
use cov_tree::{List, Name};
use design_data::Design;
use sampler::{EncodedRecord, Planned};
use std::alloc::Global;
use std::marker::Model;
use std::sync::Arc;
use std::thread::Threads;
use store_sums::Branches;
use tally::Tally;

/// A text with its design and the design's nodes, and what the tests of a basis count under that design: the tally of each
/// test, the sums over all, and how many bins they hit together.
#[derive(Drop)]
pub struct Rebinned {
    text: Name,
    design: Planned,
    branches: Branches,
    since: u64,
    records: List<Arc<EncodedRecord>>,
    tallies: Vec<Arc<Tally>>,
    counts: Vec<u64>,
    entries: u64,
}

impl Model for Rebinned {
    ghost use Rattle.std.specs.Prelude.{◌≡◌, map, sum_by};
    ghost use Rattle.std.specs.Arc.{arc_value};
    ghost use Rattle.std.specs.Coded.{codes};
    ghost use Rattle.ucis_model.specs.Nodes.{nodes_of};
    ghost use Rattle.cov_history.specs.History.{bins_hit};
    ghost use Rattle.cov_history.specs.Sums.{all_hits};
    ghost use Rattle.store_core.specs.Histories.{Declaring};
    ghost use Rattle.store_core.specs.Rebins.{Redone, tallies_of};
    ghost use Rattle.design_data.specs.contracts.design.Design as design_type;
    ghost use Rattle.record_codec.specs.contracts.record.Record as record_type;

    ghost Value = { Redone };

    ghost coded = { Prim.hlevel (codes, design_type.the_row.coded, record_type.the_row.coded) };

    ghost view = { λ r. record {
      text = r.text;
      design = r.design;
      since = r.since;
      records = map arc_value r.records;
    } };

    ghost invariant = { λ r. Declaring r.text r.design
        × (r.branches ≡ nodes_of r.design)
        × (map arc_value r.tallies.items
        ≡ tallies_of r.design (map arc_value r.records))
        × (r.counts.items ≡ all_hits r.design (map arc_value r.records))
        × (r.entries ≡ sum_by (bins_hit r.design) (map arc_value r.records)) };
}

/// What a `Rebinned` holds.
#[derive(Drop)]
pub struct Parts {
    pub text: Name,
    pub design: Planned,
    /// The design's nodes.
    pub branches: Branches,
    /// The tally of each test under the design, in order.
    pub tallies: Vec<Arc<Tally>>,
    /// For each bin, by its number, how often the tests hit it together.
    pub counts: Vec<u64>,
}

impl Rebinned {
    /// The text.
    pub fn text(&self) -> &[u8]
        ensures text { result.now ≡ self.now.text }
        ensures declared { Declaring self.now.text self.now.design }
    {
        self.text.as_slice()
    }

    /// The design that it declares.
    pub fn design(&self) -> &Arc<Design>
        ensures design { arc_value result.now ≡ self.now.design }
        ensures declared { Declaring self.now.text self.now.design }
    {
        self.design.design()
    }

    /// The design's nodes.
    pub fn branches(&self) -> &Branches
        ensures { result.now ≡ nodes_of self.now.design }
    {
        &self.branches
    }

    /// The point of the basis.
    pub fn since(&self) -> u64
        ensures { result ≡ self.now.since }
    {
        self.since
    }

    /// How many bins the tests hit, each test counted for itself.
    pub fn entries(&self) -> u64
        ensures { result ≡ sum_by (bins_hit self.now.design) self.now.records }
    {
        self.entries
    }

    /// How often the tests hit each bin together, by the bin's number.
    pub fn counts(&self) -> &[u64]
        ensures { result.now ≡ all_hits self.now.design self.now.records }
    {
        self.counts.as_slice()
    }

    /// Gives away what it holds. It takes no memory.
    pub fn into_parts(self) -> Parts
        ensures text { result.text ≡ self.text }
        ensures design { result.design ≡ self.design }
        ensures branches { result.branches ≡ nodes_of self.design }
        ensures tallies { map arc_value result.tallies.items ≡ tallies_of self.design self.records }
        ensures counts { result.counts.items ≡ all_hits self.design self.records }
    {
        Parts {
            text: self.text,
            design: self.design,
            branches: self.branches,
            tallies: self.tallies,
            counts: self.counts,
        }
    }
}

/// Makes the nodes of a text's design, and counts the records of a basis under it, in as many threads as there are processors.
/// Each record is decoded where it is counted, and given back then. The gate is passed at place 3 before and at place 4 after it.
pub fn rebin<R: Threads + Sync, G: Gate>(
    rt: &R,
    alloc: Global,
    compiled: Compiled,
    basis: &Basis,
    gate: &G,
) -> Result<Rebinned, Memory>
    requires { length basis.now.records ≤ most Tests }
    ensures { IfOk result (λ r. IsRebinned compiled basis.now r) }
{
    gate.pass(3);
    let design = Planned::of(alloc, compiled.design())?;
    let branches = Branches::of(alloc, compiled.design())?;
    let counted = count_records(rt, alloc, &design, basis.records.as_slice())?;
    gate.pass(4);
    let text = Name::of(alloc, compiled.text())?;
    let records = shared_records(alloc, basis.records.as_slice())?;
    Ok(Rebinned {
        text,
        design,
        branches,
        since: basis.point,
        records,
        tallies: counted.tallies,
        counts: counted.counts,
        entries: counted.entries,
    })
}
