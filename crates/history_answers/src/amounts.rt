//! Amounts that have limits.
ghost use Rattle.std.specs.Prelude.{◌≡◌, ◌<◌, ◌≤◌, ◌^◌, ◌+◌, ℕ, length, nat_lt, not, count_by, sum_by, IfOk};
ghost use Rattle.ucis_model.specs.declared.answers.Which as which_type;
ghost use Rattle.cov_history.specs.History.{bytes_in as bytes_meant, is_stop, amount as amount_meant, most};
ghost use Rattle.history_answers.specs.Kept.{hit_by as hit_meant};
ghost use Rattle.cov_history.specs.Amounts.{first_passed, AreAmounts};
ghost use Rattle.history_answers.specs.Amounts.{told_by};

use crate::keeping::{Kept, kept_tests};
use cov_ground::Memory;
use cov_history::{Amounts, Entry, Event, amount, design_at, out_at, passed};
use design_data::Design;
use record_codec::encode;
use std::alloc::Global;
use ucis_model::Answer;

/// What a change is answered that nothing but a limit stands against.
pub(crate) fn unless_full(before: &Amounts, after: &Amounts, made: Answer) -> Answer
    ensures { result ≡ told_by before.now after.now (first_passed after.now) made }
{
    let Some(which) = passed(after) else {
        return made;
    };
    Answer::Full {
        which,
        have: amount(before, which),
        want: amount(after, which),
    }
}

/// How many of the counts are above 0.
pub(crate) fn hit(counts: &[u64]) -> u64
    ensures is { result ≡ count_by (nat_lt 0) counts.now }
    ensures few { result ≤ length counts.now }
{
    let mut hit = 0;
    for count in counts {
        hit += u64::from(*count > 0);
    }
    hit
}

/// How many bins tests hit, each for itself.
pub(crate) fn hit_by(tests: &[Kept]) -> u64
    requires few { length tests.now < 2 ^ 32 }
    requires fits { hit_meant tests.now < 2 ^ 64 }
    ensures { result ≡ hit_meant tests.now }
{
    let mut hits = 0u128;
    for test in tests {
        hits += u128::from(hit(test.counts.as_slice()));
    }
    hits as u64
}

/// How many bytes are kept of a change.
fn bytes_in(alloc: Global, event: &Event) -> Result<u64, Memory>
    ensures { IfOk result (λ bytes. bytes ≡ bytes_meant event.now) }
{
    match event {
        Event::Admit(content) => {
            let bytes = encode(alloc, content)?;
            Ok(bytes.len() as u64)
        }
        Event::Revise(revision) => Ok(revision.text.as_slice().len() as u64),
        Event::Exclude(_) | Event::Include(_) | Event::Stop => Ok(0),
    }
}

/// How many bytes are kept of a history.
fn bytes_of(alloc: Global, entries: &[Entry]) -> Result<u64, Memory>
    requires few { length entries.now < 2 ^ 32 }
    requires fits { sum_by (λ e. bytes_meant e.event) entries.now < 2 ^ 64 }
    ensures { IfOk result (λ bytes. bytes ≡ sum_by (λ e. bytes_meant e.event) entries.now) }
{
    let mut bytes = 0u128;
    for entry in entries {
        let own = bytes_in(alloc, &entry.event)?;
        bytes += u128::from(own);
    }
    Ok(bytes as u64)
}

fn goes_on(event: &Event) -> bool
    ensures { result ≡ not (is_stop event.now) }
{
    !matches!(event, Event::Stop)
}

/// How many entries of a history are no Stop.
pub(crate) fn changes(entries: &[Entry]) -> u64
    ensures is { result ≡ count_by (λ e. not (is_stop e.event)) entries.now }
    ensures few { result ≤ length entries.now }
{
    let mut changes = 0;
    for entry in entries {
        changes += u64::from(goes_on(&entry.event));
    }
    changes
}

/// What a history amounts to.
pub(crate) fn amounts_of(
    alloc: Global,
    opening: &Design,
    entries: &[Entry],
) -> Result<Amounts, Memory>
    requires few { length entries.now < 2 ^ 32 }
    requires within { (which : which_type.Which) → amount_meant opening.now entries.now which ≤ most which }
    ensures { IfOk result (λ amounts. AreAmounts opening.now entries.now amounts) }
{
    let tests = kept_tests(alloc, design_at(opening, entries), entries)?;
    let bytes = bytes_of(alloc, entries)?;
    let out = out_at(alloc, entries)?;
    let (kept, paths) = (tests.as_slice(), out.as_slice());
    Ok(Amounts {
        tests: kept.len() as u64,
        bytes,
        entries: hit_by(kept),
        history: changes(entries) + paths.len() as u64,
    })
}
