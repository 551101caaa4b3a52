//! How running sums begin, and how they change.
ghost use Rattle.std.specs.Prelude.{◌≡◌, ◌<◌, IfNone, IfOk, All, map, option_map, length, replicate, slice_set, slice_index_or, is_some, true, None, Some};
ghost use Rattle.std.specs.Arc.{arc_value};
ghost use Rattle.ucis_model.specs.Nodes.{nodes_of};
ghost use Rattle.tally.specs.Rows.{count_in, Adds, HasRoom};
ghost use Rattle.store_sums.specs.Runs.{HasMarks};
ghost use Rattle.store_sums.specs.Now.{nodes_now, outs_now};

use crate::Sums;
use crate::branches::Branches;
use crate::marks::{mark_bin, mark_rows, marks_of};
use crate::places::{is_some_at, nothing_out, put_at, take_at};
use crate::runs::Runs;
use cov_base::Memory;
use cov_tree::Name;
use design_data::Design;
use sampler::Planned;
use std::alloc::Global;
use std::sync::Arc;
use tally::Tally;

fn no_counts(alloc: Global, bins: u32) -> Result<Vec<u64>, Memory>
    ensures { IfOk result (λ counts. counts.items ≡ replicate bins 0) }
{
    Ok(vec![in alloc; 0u64; bins as usize]?)
}

/// Adds a test's counts. It takes no memory.
fn add_counts(counts: &mut Vec<u64>, tally: &Tally)
    requires inside { All (λ row. row.0 < length counts.old.items) tally.now }
    requires room { HasRoom (count_in tally.now) counts.old.items }
    ensures { Adds (count_in tally.now) counts.old.items counts.new.items }
{
    tally.add_into(counts.as_mut_slice());
}

impl Sums {
    /// Those of a design without tests, of which nothing is out.
    pub fn of(alloc: Global, design: &Arc<Design>) -> Result<Sums, Memory>
        ensures design { IfOk result (λ s. s.design ≡ arc_value design.now) }
        ensures counts { IfOk result (λ s. s.counts.items ≡ replicate s.design.bin_count 0) }
        ensures out { IfOk result (λ s. s.out.items ≡ replicate (length (nodes_now s)) None) }
    {
        let branches = Branches::of(alloc, design)?;
        let counts = no_counts(alloc, design.bin_count())?;
        let out = nothing_out(alloc, branches.len())?;
        let runs = marks_of(alloc, &branches, counts.as_slice(), out.as_slice())?;
        let again = Planned::of(alloc, design)?;
        Ok(Sums {
            alloc,
            design: again,
            branches,
            runs,
            counts,
            out,
        })
    }

    /// Those that consist of these parts.
    pub fn of_parts(
        alloc: Global,
        design: Planned,
        branches: Branches,
        runs: Runs,
        counts: Vec<u64>,
        out: Vec<Option<Arc<Name>>>,
    ) -> Sums
        requires nodes { branches ≡ nodes_of design }
        requires marked { HasMarks branches counts.items
            (map (λ p. option_map arc_value p) out.items) (λ bin. true) runs }
        ensures design { result.design ≡ design }
        ensures counts { result.counts ≡ counts }
        ensures out { result.out ≡ out }
    {
        Sums {
            alloc,
            design,
            branches,
            runs,
            counts,
            out,
        }
    }

    /// Whether the node itself is out.
    pub fn is_out(&self, node: u32) -> bool
        ensures { result ≡ is_some (slice_index_or (outs_now self.now) node None) }
    {
        is_some_at(self.out.as_slice(), node as usize)
    }

    /// Adds a test's counts. It takes no memory.
    pub fn add(&mut self, tally: &Tally)
        requires inside { All (λ row. row.0 < length self.old.counts.items) tally.now }
        requires room { HasRoom (count_in tally.now) self.old.counts.items }
        ensures design { self.new.design ≡ self.old.design }
        ensures counts { Adds (count_in tally.now) self.old.counts.items self.new.counts.items }
        ensures out { self.new.out ≡ self.old.out }
    {
        add_counts(&mut self.counts, tally);
        mark_rows(
            &mut self.runs,
            &self.branches,
            self.counts.as_slice(),
            self.out.as_slice(),
            tally.rows(),
        );
    }

    /// Takes a node out, with its path.
    pub fn put_out(&mut self, node: u32, path: Arc<Name>)
        ensures design { self.new.design ≡ self.old.design }
        ensures counts { self.new.counts ≡ self.old.counts }
        ensures out { self.new.out.items ≡ slice_set self.old.out.items node (Some path) }
    {
        put_at(&mut self.out, node as usize, path);
        let first = self.branches.facts(node).first_bin;
        mark_bin(
            &mut self.runs,
            &self.branches,
            self.counts.as_slice(),
            self.out.as_slice(),
            first,
        );
    }

    /// Puts a node back, and hands over its path, if it is out itself.
    pub fn put_back(&mut self, node: u32) -> Option<Arc<Name>>
        ensures design { self.new.design ≡ self.old.design }
        ensures counts { self.new.counts ≡ self.old.counts }
        ensures out { self.new.out.items ≡ slice_set self.old.out.items node None }
        ensures none { IfNone result (self.new.out.items ≡ self.old.out.items) }
        ensures path { result ≡ slice_index_or self.old.out.items node None }
    {
        let path = take_at(&mut self.out, node as usize);
        let first = self.branches.facts(node).first_bin;
        mark_bin(
            &mut self.runs,
            &self.branches,
            self.counts.as_slice(),
            self.out.as_slice(),
            first,
        );
        path
    }
}
