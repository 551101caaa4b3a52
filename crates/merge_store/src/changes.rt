//! Nodes that are taken out of coverage, and put back.
ghost use Rattle.std.specs.Prelude.{◌≡◌, ◌+◌, ℕ, ◌<◌, ◌≤◌, ◌++◌, ◌∷◌, [], map, option_map, IfOk, IfErr, OnOk, OnErr, vec_len, vec_capacity, Some, None, slice_set, Option};
ghost use Rattle.std.specs.Arc.{arc_value};
ghost use Rattle.cov_history.specs.declared.entry.Event.TheVariants as event;
ghost use Rattle.cov_history.specs.Coverage.{is_out as is_out_meant};
ghost use Rattle.cov_history.specs.Answers.{exclude_at, include_at, by};
ghost use Rattle.store_parts.specs.May.{MayExclude};
ghost use Rattle.merge_store.specs.Now.{nodes_now, outs_now};
ghost use Rattle.store_parts.specs.Told.{Gives, Makes, excluded, not_excluded, included};
ghost use Rattle.merge_store.specs.Stores.{opening_of, entries_of};

use crate::{ExcludeFault, IncludeFault, Store};
use cov_base::Memory;
use cov_ground::limits::MOST_HISTORY;
use cov_tree::Name;
use std::alloc::Global;
use std::sync::Arc;
use store_parts::{Held, HeldEvent, put};
use ucis_model::Which;

/// The path twice, shared.
fn shared_path(alloc: Global, path: &[u8]) -> Result<(Arc<Name>, Arc<Name>), Memory>
    ensures { IfOk result (λ p. (arc_value p.0 ≡ path.now) × (arc_value p.1 ≡ path.now)) }
{
    let name = Arc::new(alloc, Name::of(alloc, path)?)?;
    let again = name.clone()?;
    Ok((name, again))
}

impl Store {
    /// Whether the node itself is out.
    pub(crate) fn is_out(&self, node: u32) -> bool
        ensures { result ≡ is_out_meant (nodes_now self.now) (outs_now self.now) node }
    {
        self.sums.is_out(node)
    }

    /// The node to exclude, or why it isn't, apart from want of memory.
    fn may_exclude(&self, path: &[u8]) -> Result<u32, ExcludeFault>
        ensures refused { IfErr result (λ f. (caller : ℕ) → exclude_at (opening_of self.now) (entries_of self.now) (by caller (event.Exclude path.now)) path.now ≡ not_excluded f) }
        ensures may { IfOk result (λ n. MayExclude (opening_of self.now) (entries_of self.now) path.now n) }
    {
        let Some(node) = self.sums.find(path) else {
            return Err(ExcludeFault::NoSuchPath);
        };
        if self.is_out(node) {
            return Err(ExcludeFault::AlreadyExcluded);
        }
        let have = self.entries.as_slice().len() as u64 + self.outs;
        let want = have + 2;
        if want > MOST_HISTORY {
            return Err(ExcludeFault::Full {
                which: Which::History,
                have,
                want,
            });
        }
        Ok(node)
    }

    /// Takes the node out, with room for a later Include.
    fn put_out(&mut self, caller: u32, path: &[u8], node: u32) -> Result<(), Memory>
        requires { MayExclude (opening_of self.old) (entries_of self.old) path.now node }
        ensures opening { opening_of self.new ≡ opening_of self.old }
        ensures done { OnOk result (entries_of self.new ≡ entries_of self.old ++ by caller (event.Exclude path.now) ∷ []) }
        ensures err { OnErr result (entries_of self.new ≡ entries_of self.old) }
    {
        let (name, spare) = shared_path(self.alloc, path)?;
        if self.entries.reserve(self.outs as usize + 2).is_err() {
            return Err(Memory);
        }
        let event = HeldEvent::Exclude(name);
        put(&mut self.entries, Held { caller, event });
        self.sums.put_out(node, spare);
        self.outs += 1;
        Ok(())
    }

    /// Takes the node that the path finds out of coverage, with all below it. It takes the room of a later Include too.
    pub fn exclude(&mut self, caller: u32, path: &[u8]) -> Result<(), ExcludeFault>
        ensures opening { opening_of self.new ≡ opening_of self.old }
        ensures answer { let e = by caller (event.Exclude path.now) in
            Makes (entries_of self.old) e
            (exclude_at (opening_of self.old) (entries_of self.old) e path.now)
            (excluded result) (entries_of self.new) }
    {
        let node = self.may_exclude(path)?;
        match self.put_out(caller, path, node) {
            Ok(()) => Ok(()),
            Err(Memory) => Err(ExcludeFault::Memory),
        }
    }

    /// Takes an Exclude of the path back. It takes no memory.
    pub fn include(&mut self, caller: u32, path: &[u8]) -> Result<(), IncludeFault>
        ensures opening { opening_of self.new ≡ opening_of self.old }
        ensures answer { Gives (entries_of self.old) (by caller (event.Include path.now))
            (include_at (opening_of self.old) (entries_of self.old) path.now)
            (included result) (entries_of self.new) }
    {
        let Some(node) = self.sums.find(path) else {
            return Err(IncludeFault::NoSuchPath);
        };
        let Some(name) = self.sums.put_back(node) else {
            return Err(IncludeFault::NotExcluded);
        };
        let event = HeldEvent::Include(name);
        put(&mut self.entries, Held { caller, event });
        self.outs -= 1;
        Ok(())
    }
}
