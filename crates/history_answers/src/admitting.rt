//! Admissions one after the other, each without a count of the tests before it.
ghost use Rattle.std.specs.Prelude.{◌≡◌, ◌∷◌, ◌++◌, ◌&&◌, ℕ, [], not, true, if◌then◌else◌, is_some, IfOk, OnErr, IfSome};
ghost use Rattle.cov_history.specs.declared.entry.Event.TheVariants as event;
ghost use Rattle.cov_history.specs.History.{kept, has_stop as has_stop_meant, suits, is_legal, may_follow};
ghost use Rattle.cov_history.specs.Answers.{by};
ghost use Rattle.cov_history.specs.Amounts.{AreAmounts};
ghost use Rattle.history_answers.specs.Kept.{admits as admits_meant};
ghost use Rattle.history_answers.specs.Plain.{opening_of, entries_of};

use crate::PlainStore;
use crate::amounts::amounts_of;
use crate::changes::with_test;
use crate::since::has_stop;
use crate::suiting::fits;
use cov_ground::Memory;
use cov_history::{Amounts, Entry, Event, design_at, passed};
use design_data::Design;
use record_codec::Record;
use std::alloc::Global;

/// Whether a change admits a record of this id.
fn admits(event: &Event, id: &[u8]) -> bool
    ensures { result ≡ admits_meant id.now event.now }
{
    match event {
        Event::Admit(content) => id == content.id.as_slice(),
        _ => false,
    }
}

/// Whether a test of this id is kept.
#[tactic(auto, using(crate::proofs::Following::kept_under))]
fn is_kept(entries: &[Entry], id: &[u8]) -> bool
    ensures { result ≡ is_some (kept entries.now id.now) }
{
    let mut rest = entries;
    while let Some((entry, later)) = rest.split_first() {
        if admits(&entry.event, id) {
            return true;
        }
        rest = later;
    }
    false
}

/// Whether nothing but a limit stands against a record.
fn is_free(opening: &Design, entries: &[Entry], content: &Record) -> bool
    ensures { result ≡ (not (has_stop_meant entries.now) && suits opening.now entries.now (event.Admit content.now)) }
{
    !has_stop(entries)
        && !is_kept(entries, content.id.as_slice())
        && fits(design_at(opening, entries), content)
}

/// What a history of such amounts amounts to with a record more; None where the record may not follow it.
fn with_admission(
    alloc: Global,
    opening: &Design,
    entries: &[Entry],
    before: &Amounts,
    content: &Record,
) -> Result<Option<Amounts>, Memory>
    requires legal { is_legal opening.now entries.now ≡ true }
    requires amounts { AreAmounts opening.now entries.now before.now }
    ensures some { IfOk result (λ after. (caller : ℕ)
        → is_some after ≡ may_follow opening.now entries.now (by caller (event.Admit content.now))) }
    ensures amounts { IfOk result (λ after. (caller : ℕ) → IfSome after (λ known.
        AreAmounts opening.now (entries.now ++ by caller (event.Admit content.now) ∷ []) known)) }
{
    if !is_free(opening, entries, content) {
        return Ok(None);
    }
    let after = with_test(alloc, design_at(opening, entries), before, content)?;
    if passed(&after).is_some() {
        return Ok(None);
    }
    Ok(Some(after))
}

impl PlainStore {
    /// What its history amounts to.
    fn known(&self, alloc: Global) -> Result<Amounts, Memory>
        ensures { IfOk result (λ known. AreAmounts (opening_of self.now) (entries_of self.now) known) }
    {
        match self.amounts {
            Some(known) => Ok(known),
            None => amounts_of(alloc, &self.opening, self.entries.as_slice()),
        }
    }

    /// Admits a record by a caller where it may follow the entries, and says whether it may. The tests before it aren't
    /// counted for it again, so long histories can be made. Where memory is wanted, nothing is added.
    pub fn admit(&mut self, alloc: Global, caller: u32, content: Record) -> Result<bool, Memory>
        ensures opening { opening_of self.new ≡ opening_of self.old }
        ensures admitted { IfOk result (λ admitted. admitted ≡ may_follow
            (opening_of self.old) (entries_of self.old) (by caller (event.Admit content))) }
        ensures entries { IfOk result (λ admitted. entries_of self.new ≡ entries_of self.old
            ++ (if admitted then by caller (event.Admit content) ∷ [] else [])) }
        ensures err { OnErr result (entries_of self.new ≡ entries_of self.old) }
    {
        let before = self.known(alloc)?;
        let entries = self.entries.as_slice();
        let Some(after) = with_admission(alloc, &self.opening, entries, &before, &content)? else {
            return Ok(false);
        };
        self.amounts = None;
        self.entries.push(Entry {
            caller,
            event: Event::Admit(content),
        })?;
        self.amounts = Some(after);
        Ok(true)
    }
}
