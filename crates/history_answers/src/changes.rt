//! The answers to changes that are wanted, as long as no Stop has ended the history.
ghost use Rattle.std.specs.Prelude.{◌≡◌, ℕ, ◌<◌, ◌≤◌, ◌^◌, ◌+◌, length, true, if◌then◌else◌, bytes_eq, sum_by, count_by, filter, not, IfOk};
ghost use Rattle.record_codec.specs.Spelling.{spelling};
ghost use Rattle.ucis_model.specs.declared.answers.Answer.TheVariants as answers;
ghost use Rattle.ucis_model.specs.declared.answers.Which as which_type;
ghost use Rattle.ucis_model.specs.declared.answers.Which.TheVariants as which;
ghost use Rattle.cov_history.specs.declared.entry.Event.TheVariants as event;
ghost use Rattle.cov_history.specs.History.{has as has_meant, is_legal, is_stop, is_found, bins_hit, contents, out_of, most};
ghost use Rattle.cov_history.specs.Answers.{by, admit_at, exclude_at, include_at, revise_at, change};
ghost use Rattle.cov_history.specs.Amounts.{amount_in};

use crate::amounts::{amounts_of, changes, hit, hit_by, unless_full};
use crate::keeping::{Kept, kept_tests, of_id};
use crate::since::{changed_since, revised_since};
use cov_ground::Memory;
use cov_history::{Amounts, Entry, Revision, counts_of, design_at, found, out_at};
use cov_tree::Name;
use design_data::Design;
use record_codec::{Record, encode};
use std::alloc::Global;
use ucis_model::{Answer, tree};

/// Whether a path is among these.
fn has(out: &[Name], path: &[u8]) -> bool
    ensures { result ≡ has_meant path.now out.now }
{
    let mut rest = out;
    while let Some((other, later)) = rest.split_first() {
        if other.as_slice() == path {
            return true;
        }
        rest = later;
    }
    false
}

// ---- amounts afterwards

/// What a history of such amounts amounts to with a record more, which is counted under a design.
pub(crate) fn with_test(
    alloc: Global,
    design: &Design,
    before: &Amounts,
    content: &Record,
) -> Result<Amounts, Memory>
    requires { (which : which_type.Which) → amount_in before.now which ≤ most which }
    ensures tests { IfOk result (λ after. after.tests ≡ before.now.tests + 1) }
    ensures bytes { IfOk result (λ after. after.bytes ≡ before.now.bytes + length (spelling content.now)) }
    ensures entries { IfOk result (λ after. after.entries ≡ before.now.entries + bins_hit design.now content.now) }
    ensures history { IfOk result (λ after. after.history ≡ before.now.history + 1) }
{
    let before = *before;
    let bytes = encode(alloc, content)?;
    let counts = counts_of(alloc, design, content)?;
    Ok(Amounts {
        tests: before.tests + 1,
        bytes: before.bytes + bytes.len() as u64,
        entries: before.entries + hit(counts.as_slice()),
        history: before.history + 1,
    })
}

/// What a history of such amounts amounts to with a path out.
fn with_path(before: &Amounts) -> Amounts
    requires { (which : which_type.Which) → amount_in before.now which ≤ most which }
    ensures tests { result.tests ≡ before.now.tests }
    ensures bytes { result.bytes ≡ before.now.bytes }
    ensures entries { result.entries ≡ before.now.entries }
    ensures history { result.history ≡ before.now.history + 2 }
{
    let before = *before;
    Amounts {
        tests: before.tests,
        bytes: before.bytes,
        entries: before.entries,
        history: before.history + 2,
    }
}

/// What a history of such amounts amounts to with a revision.
fn with_revision(
    alloc: Global,
    entries: &[Entry],
    before: &Amounts,
    revision: &Revision,
) -> Result<Amounts, Memory>
    requires few { length entries.now < 2 ^ 32 }
    requires bytes { before.now.bytes ≤ most which.Bytes }
    ensures tests { IfOk result (λ after. after.tests ≡ before.now.tests) }
    ensures bytes { IfOk result (λ after. after.bytes ≡ before.now.bytes + length revision.now.text) }
    ensures entries { IfOk result (λ after. after.entries ≡ sum_by (bins_hit revision.now.design) (contents entries.now)) }
    ensures history { IfOk result (λ after. after.history ≡ (count_by (λ e. not (is_stop e.event)) entries.now + 1) + length (filter (is_found revision.now.design) (out_of entries.now))) }
{
    let before = *before;
    let tests = kept_tests(alloc, &revision.design, entries)?;
    let out = out_at(alloc, entries)?;
    let left = found(alloc, &revision.design, out.as_slice())?;
    Ok(Amounts {
        tests: before.tests,
        bytes: before.bytes + revision.text.as_slice().len() as u64,
        entries: hit_by(tests.as_slice()),
        history: changes(entries) + 1 + left.len() as u64,
    })
}

// ---- admission

/// What is answered to a record of these bytes whose id is kept.
fn known(test: &Kept, bytes: &[u8]) -> Answer
    ensures { result ≡ (if bytes_eq test.now.bytes bytes.now then answers.Here test.now.row.point else answers.IdTaken test.now.row.digest) }
{
    if test.bytes.as_slice() == bytes {
        return Answer::Here {
            first: test.row.point,
        };
    }
    Answer::IdTaken {
        digest: test.row.digest,
    }
}

/// What is answered to a new record.
fn new_answer(
    alloc: Global,
    opening: &Design,
    entries: &[Entry],
    content: &Record,
) -> Result<Answer, Memory>
    requires few { length entries.now < 2 ^ 32 }
    requires legal { is_legal opening.now entries.now ≡ true }
    ensures { IfOk result (λ answer. (caller : ℕ) → answer ≡ change opening.now entries.now (by caller (event.Admit content.now)) answers.New) }
{
    let before = amounts_of(alloc, opening, entries)?;
    let after = with_test(alloc, design_at(opening, entries), &before, content)?;
    Ok(unless_full(&before, &after, Answer::New))
}

/// The answer to an ask to admit a record that was made for a point. Where its id is kept, it is here or its id is
/// taken; else the design may have been revised since; else limits are tried, those of tests, bytes, entries of tallies
/// and history in this order.
pub fn admit_answer(
    alloc: Global,
    opening: &Design,
    entries: &[Entry],
    since: u64,
    content: &Record,
) -> Result<Answer, Memory>
    requires few { length entries.now < 2 ^ 32 }
    requires legal { is_legal opening.now entries.now ≡ true }
    ensures { IfOk result (λ answer. (caller : ℕ) → answer ≡ admit_at opening.now entries.now
        since (by caller (event.Admit content.now)) content.now) }
{
    let bytes = encode(alloc, content)?;
    let tests = kept_tests(alloc, design_at(opening, entries), entries)?;
    if let Some(test) = of_id(tests.as_slice(), content.id.as_slice()) {
        return Ok(known(test, bytes.as_slice()));
    }
    if revised_since(entries, since) {
        return Ok(Answer::Moved { since });
    }
    let answer = new_answer(alloc, opening, entries, content)?;
    Ok(answer)
}

// ---- exclusions

/// What is answered to an ask to exclude a node that isn't out.
fn excluded_answer(
    alloc: Global,
    opening: &Design,
    entries: &[Entry],
    path: &[u8],
) -> Result<Answer, Memory>
    requires few { length entries.now < 2 ^ 32 }
    requires legal { is_legal opening.now entries.now ≡ true }
    ensures { IfOk result (λ answer. (caller : ℕ) → answer ≡ change opening.now entries.now (by caller (event.Exclude path.now)) answers.Changed) }
{
    let _ = path;
    let before = amounts_of(alloc, opening, entries)?;
    let after = with_path(&before);
    Ok(unless_full(&before, &after, Answer::Changed))
}

/// The answer to an ask to take the node that the path finds out of coverage.
pub fn exclude_answer(
    alloc: Global,
    opening: &Design,
    entries: &[Entry],
    path: &[u8],
) -> Result<Answer, Memory>
    requires few { length entries.now < 2 ^ 32 }
    requires legal { is_legal opening.now entries.now ≡ true }
    ensures { IfOk result (λ answer. (caller : ℕ) → answer
        ≡ exclude_at opening.now entries.now (by caller (event.Exclude path.now)) path.now) }
{
    let tree = tree(alloc, design_at(opening, entries))?;
    let Some(_) = tree.find(path) else {
        return Ok(Answer::NoSuchPath);
    };
    let out = out_at(alloc, entries)?;
    if has(out.as_slice(), path) {
        return Ok(Answer::AlreadyExcluded);
    }
    let answer = excluded_answer(alloc, opening, entries, path)?;
    Ok(answer)
}

/// The answer to an ask to take an Exclude of the path back.
pub fn include_answer(
    alloc: Global,
    opening: &Design,
    entries: &[Entry],
    path: &[u8],
) -> Result<Answer, Memory>
    ensures { IfOk result (λ answer. answer ≡ include_at opening.now entries.now path.now) }
{
    let tree = tree(alloc, design_at(opening, entries))?;
    let Some(_) = tree.find(path) else {
        return Ok(Answer::NoSuchPath);
    };
    let out = out_at(alloc, entries)?;
    if has(out.as_slice(), path) {
        return Ok(Answer::Changed);
    }
    Ok(Answer::NotExcluded)
}

// ---- revision

/// What is answered to a revision for which nothing has happened since its point.
fn revised_answer(
    alloc: Global,
    opening: &Design,
    entries: &[Entry],
    revision: &Revision,
) -> Result<Answer, Memory>
    requires few { length entries.now < 2 ^ 32 }
    requires legal { is_legal opening.now entries.now ≡ true }
    ensures { IfOk result (λ answer. (caller : ℕ) → answer ≡ change opening.now entries.now (by caller (event.Revise revision.now)) answers.Changed) }
{
    let before = amounts_of(alloc, opening, entries)?;
    let after = with_revision(alloc, entries, &before, revision)?;
    Ok(unless_full(&before, &after, Answer::Changed))
}

/// The answer to an ask to take the design of another text, for which the tests at a point were counted. Where a test
/// was admitted or the design revised since, it has moved; else limits are tried in the order of an admission.
pub fn revise_answer(
    alloc: Global,
    opening: &Design,
    entries: &[Entry],
    since: u64,
    revision: &Revision,
) -> Result<Answer, Memory>
    requires few { length entries.now < 2 ^ 32 }
    requires legal { is_legal opening.now entries.now ≡ true }
    ensures { IfOk result (λ answer. (caller : ℕ) → answer
        ≡ revise_at opening.now entries.now since (by caller (event.Revise revision.now))) }
{
    if changed_since(entries, since) {
        return Ok(Answer::Moved { since });
    }
    let answer = revised_answer(alloc, opening, entries, revision)?;
    Ok(answer)
}
