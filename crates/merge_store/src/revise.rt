//! Revision: the design of another text takes the place of the one now.
ghost use Rattle.std.specs.Prelude.{◌≡◌, ◌++◌, ◌∷◌, [], ℕ, max, false, true, length, map, filter, option_map, IfErr, IfOk, OnOk, OnErr};
ghost use Rattle.std.specs.Arc.{arc_value};
ghost use Rattle.cov_history.specs.declared.entry.Event.TheVariants as event;
ghost use Rattle.ucis_model.specs.Nodes.{nodes_of};
ghost use Rattle.cov_history.specs.History.{is_test_or_revise, is_found, out_of};
ghost use Rattle.cov_history.specs.Answers.{revise_at, by, stands_since};
ghost use Rattle.cov_history.specs.Sums.{all_hits};
ghost use Rattle.store_core.specs.Asks.{IsReadied, revision_of};
ghost use Rattle.cov_history.specs.Amounts.{AreAmounts};
ghost use Rattle.store_parts.specs.Keeps.{IsLast};
ghost use Rattle.store_parts.specs.Lasts.{is_test};
ghost use Rattle.store_parts.specs.Remakes.{IsRemade, MayRevise, IsRefused};
ghost use Rattle.store_sums.specs.Runs.{HasMarks};
ghost use Rattle.store_parts.specs.Told.{Makes, revised};
ghost use Rattle.merge_store.specs.Stores.{opening_of, entries_of};

use crate::{ReviseFault, Store};
use cov_history::{Amounts, amount, passed};
use store_core::Rebinned;
use store_parts::{Held, HeldEvent, Ready, put, set_tallies};
use store_sums::Sums;

fn later(a: u64, b: u64) -> u64
    ensures { result ≡ max a b }
{
    a.max(b)
}

impl Store {
    /// The point after the last admission, and 0 where there is none.
    fn admitted(&self) -> u64
        ensures { IsLast is_test (entries_of self.now) result }
    {
        match self.test(self.test_count().saturating_sub(1)) {
            Some(test) => test.point,
            None => 0,
        }
    }

    /// The point after the last admission or revision, and 0 where there is neither.
    fn changed(&self) -> u64
        ensures { IsLast is_test_or_revise (entries_of self.now) result }
    {
        later(self.revised, self.admitted())
    }

    /// What its history amounts to with the revision, after which so many paths are out.
    fn amounts_revised(&self, rebinned: &Rebinned, outs: u64) -> Amounts
        requires readied { IsReadied (opening_of self.now) (entries_of self.now) rebinned.now }
        requires calm { stands_since is_test_or_revise (entries_of self.now) rebinned.now.since ≡ false }
        requires outs { outs ≡ length (filter (is_found rebinned.now.design) (out_of (entries_of self.now))) }
        ensures { (caller : ℕ) → AreAmounts (opening_of self.now)
            (entries_of self.now ++ by caller (event.Revise (revision_of rebinned.now)) ∷ []) result }
    {
        let now = self.amounts();
        Amounts {
            tests: now.tests,
            bytes: now.bytes + rebinned.text().len() as u64,
            entries: rebinned.entries(),
            history: self.entries.as_slice().len() as u64 + 1 + outs,
        }
    }

    /// What becomes of the store, or why it isn't revised.
    fn may_revise(&self, rebinned: &Rebinned) -> Result<Ready, ReviseFault>
        requires { IsReadied (opening_of self.now) (entries_of self.now) rebinned.now }
        ensures refused { IfErr result (λ fault. IsRefused (opening_of self.now) (entries_of self.now) rebinned.now fault) }
        ensures may { IfOk result (λ ready. MayRevise (opening_of self.now) (entries_of self.now) rebinned.now ready.after) }
        ensures remade { IfOk result (λ ready. IsRemade (entries_of self.now) rebinned.now.design (map (λ p. option_map arc_value p) ready.remade.out.items) ready.remade.outs) }
        ensures marked { IfOk result (λ ready. HasMarks (nodes_of rebinned.now.design)
            (all_hits rebinned.now.design rebinned.now.records)
            (map (λ p. option_map arc_value p) ready.remade.out.items) (λ bin. true) ready.remade.runs) }
    {
        let since = rebinned.since();
        if since < self.changed() {
            return Err(ReviseFault::Moved { since });
        }
        let Ok(remade) = self.remade(rebinned) else {
            return Err(ReviseFault::Memory);
        };
        let after = self.amounts_revised(rebinned, remade.outs);
        if let Some(which) = passed(&after) {
            let have = amount(&self.amounts(), which);
            let want = amount(&after, which);
            return Err(ReviseFault::Full { which, have, want });
        }
        Ok(Ready { remade, after })
    }

    /// Takes the design with what was made of it, or hands the text back where memory is wanted.
    fn take_up(&mut self, caller: u32, rebinned: Rebinned, ready: Ready) -> Result<(), Rebinned>
        requires readied { IsReadied (opening_of self.old) (entries_of self.old) rebinned }
        requires may { MayRevise (opening_of self.old) (entries_of self.old) rebinned ready.after }
        requires remade { IsRemade (entries_of self.old) rebinned.design (map (λ p. option_map arc_value p) ready.remade.out.items) ready.remade.outs }
        requires marked { HasMarks (nodes_of rebinned.design) (all_hits rebinned.design rebinned.records)
            (map (λ p. option_map arc_value p) ready.remade.out.items) (λ bin. true) ready.remade.runs }
        ensures opening { opening_of self.new ≡ opening_of self.old }
        ensures done { OnOk result (entries_of self.new ≡ entries_of self.old ++ by caller (event.Revise (revision_of rebinned)) ∷ []) }
        ensures err { OnErr result (entries_of self.new ≡ entries_of self.old) }
        ensures handed { IfErr result (λ back. back ≡ rebinned) }
    {
        let Ok(design) = rebinned.design().clone() else {
            return Err(rebinned);
        };
        if self
            .entries
            .reserve(ready.remade.outs as usize + 1)
            .is_err()
        {
            return Err(rebinned);
        }
        let parts = rebinned.into_parts();
        let event = HeldEvent::Revise(parts.text, design);
        set_tallies(&mut self.tests, parts.tallies);
        self.sums = Sums::of_parts(
            self.alloc,
            parts.design,
            parts.branches,
            ready.remade.runs,
            parts.counts,
            ready.remade.out,
        );
        self.outs = ready.remade.outs;
        self.bytes = ready.after.bytes;
        self.rows = ready.after.entries;
        put(&mut self.entries, Held { caller, event });
        self.revised = self.entries.as_slice().len() as u64;
        Ok(())
    }

    /// Takes the design of another text, for which the tests of a basis were counted. Where a test was admitted or the
    /// design revised since that basis, it has moved; else limits are tried, those of bytes, entries of tallies and
    /// history in this order. Nodes whose paths are gone are no longer out. All memory is taken before anything changes.
    pub fn revise(&mut self, caller: u32, rebinned: Rebinned) -> Result<(), (Rebinned, ReviseFault)>
        requires { IsReadied (opening_of self.old) (entries_of self.old) rebinned }
        ensures opening { opening_of self.new ≡ opening_of self.old }
        ensures answer { let e = by caller (event.Revise (revision_of rebinned)) in
            Makes (entries_of self.old) e
            (revise_at (opening_of self.old) (entries_of self.old) rebinned.since e)
            (revised result) (entries_of self.new) }
        ensures handed { IfErr result (λ f. f.0 ≡ rebinned) }
    {
        match self.may_revise(&rebinned) {
            Err(fault) => Err((rebinned, fault)),
            Ok(ready) => match self.take_up(caller, rebinned, ready) {
                Ok(()) => Ok(()),
                Err(rebinned) => Err((rebinned, ReviseFault::Memory)),
            },
        }
    }
}
