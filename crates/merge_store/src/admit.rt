//! Admission.
ghost use Rattle.std.specs.Prelude.{◌≡◌, ◌+◌, ◌≤◌, ◌++◌, ◌∷◌, [], ℕ, length, take, IfErr, IfOk, OnOk, OnErr};
ghost use Rattle.cov_history.specs.declared.entry.Event.TheVariants as event;
ghost use Rattle.cov_history.specs.declared.asks.Ask.TheVariants as ask;
ghost use Rattle.cov_history.specs.History.{design_of};
ghost use Rattle.cov_history.specs.Answers.{admit_at, by, Suits};
ghost use Rattle.cov_history.specs.Amounts.{AreAmounts};
ghost use Rattle.store_parts.specs.May.{MayAdmit, IsJudged};
ghost use Rattle.store_parts.specs.Told.{Makes, IsPoint, admitted};
ghost use Rattle.merge_store.specs.Stores.{opening_of, entries_of};

use crate::{AdmitFault, Admitted, Store};
use cov_history::{Amounts, amount, passed};
use sampler::Prepared;
use store_parts::{Held, HeldEvent, Judged, Kept, add_test, put};

impl Store {
    /// What its history amounts to.
    pub(crate) fn amounts(&self) -> Amounts
        ensures { AreAmounts (opening_of self.now) (entries_of self.now) result }
    {
        Amounts {
            tests: self.tests.len() as u64,
            bytes: self.bytes,
            entries: self.rows,
            history: self.entries.as_slice().len() as u64 + self.outs,
        }
    }

    /// What its history amounts to with one more test.
    fn amounts_with(&self, prepared: &Prepared) -> Amounts
        requires { prepared.now.under ≡ design_of (opening_of self.now) (entries_of self.now) }
        ensures { (caller : ℕ) → AreAmounts (opening_of self.now)
            (entries_of self.now ++ by caller (event.Admit prepared.now.of) ∷ []) result }
    {
        let now = self.amounts();
        Amounts {
            tests: now.tests + 1,
            bytes: now.bytes + prepared.bytes().len() as u64,
            entries: now.entries + prepared.tally().rows().len() as u64,
            history: now.history + 1,
        }
    }

    /// What becomes of a record, apart from want of memory.
    fn judge(&self, since: u64, prepared: &Prepared) -> Judged
        requires suits { Suits (opening_of self.now) (entries_of self.now) (ask.Admit since prepared.now.of) }
        requires under { prepared.now.under ≡ design_of (opening_of self.now) (take since (entries_of self.now)) }
        ensures { IsJudged (opening_of self.now) (entries_of self.now) since prepared.now.of prepared.now.under result }
    {
        if let Some(kept) = self.kept(prepared.id().as_slice()) {
            if kept.rec.bytes() == prepared.bytes() {
                return Judged::Here { point: kept.point };
            }
            let digest = kept.rec.digest();
            return Judged::Refused(AdmitFault::IdTaken { digest });
        }
        if since < self.revised {
            return Judged::Refused(AdmitFault::Moved { since });
        }
        let after = self.amounts_with(prepared);
        if let Some(which) = passed(&after) {
            let have = amount(&self.amounts(), which);
            let want = amount(&after, which);
            return Judged::Refused(AdmitFault::Full { which, have, want });
        }
        Judged::May(after)
    }

    /// Takes a record in as a test: the point after its admission, or the record where memory is wanted.
    fn take_in(&mut self, caller: u32, prepared: Prepared, after: Amounts) -> Result<u64, Prepared>
        requires { MayAdmit (opening_of self.old) (entries_of self.old) prepared.of prepared.under after }
        ensures opening { opening_of self.new ≡ opening_of self.old }
        ensures done { OnOk result (entries_of self.new ≡ entries_of self.old ++ by caller (event.Admit prepared.of) ∷ []) }
        ensures point { IfOk result (λ point. point ≡ length (entries_of self.new)) }
        ensures err { OnErr result (entries_of self.new ≡ entries_of self.old) }
        ensures handed { IfErr result (λ back. back ≡ prepared) }
    {
        let Ok(id) = Vec::from_slice(self.alloc, prepared.id().as_slice()) else {
            return Err(prepared);
        };
        let Ok(content) = prepared.record().clone() else {
            return Err(prepared);
        };
        if self.entries.reserve(self.outs as usize + 1).is_err() {
            return Err(prepared);
        }
        if self.tests.reserve(1).is_err() {
            return Err(prepared);
        }
        let (rec, tally) = prepared.into_parts();
        self.sums.add(&tally);
        let point = self.entries.as_slice().len() as u64 + 1;
        let test = Kept { point, rec, tally };
        add_test(&mut self.tests, id, test);
        let event = HeldEvent::Admit(content);
        put(&mut self.entries, Held { caller, event });
        self.bytes = after.bytes;
        self.rows = after.entries;
        Ok(point)
    }

    /// Admits a record as a test. It was prepared under the design that the store had at the point `since`. Where its id
    /// is kept, it is here or its id is taken; else the design may have been revised since; else limits are tried, those
    /// of tests, bytes, entries of tallies and history in this order. All memory is taken before anything changes.
    pub fn admit(
        &mut self,
        caller: u32,
        since: u64,
        prepared: Prepared,
    ) -> Result<Admitted, (Prepared, AdmitFault)>
        requires suits { Suits (opening_of self.old) (entries_of self.old)
            (ask.Admit since prepared.of) }
        requires under { prepared.under ≡ design_of (opening_of self.old)
            (take since (entries_of self.old)) }
        ensures opening { opening_of self.new ≡ opening_of self.old }
        ensures answer { let e = by caller (event.Admit prepared.of) in
            Makes (entries_of self.old) e
            (admit_at (opening_of self.old) (entries_of self.old) since e prepared.of)
            (admitted result) (entries_of self.new) }
        ensures point { IfOk result (IsPoint (length (entries_of self.new))) }
        ensures handed { IfErr result (λ f. f.0 ≡ prepared) }
    {
        match self.judge(since, &prepared) {
            Judged::Here { point } => Ok(Admitted::Here { point }),
            Judged::Refused(fault) => Err((prepared, fault)),
            Judged::May(after) => match self.take_in(caller, prepared, after) {
                Ok(point) => Ok(Admitted::New { point }),
                Err(prepared) => Err((prepared, AdmitFault::Memory)),
            },
        }
    }
}
