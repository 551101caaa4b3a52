//! Reading one line, from where a word begins or the line ends.
ghost use Rattle.std.specs.Prelude.{◌≡◌, codes, length, IfOk};
ghost use Rattle.waivers.specs.declared.fault.LineFault.TheVariants.{Bad};
ghost use Rattle.waivers.specs.Lines.{is, Gives, at_end as end_meant, at_on as on_meant, at_by as by_meant, at_reason as reason_meant, at_pattern as pattern_meant, at_waive as waive_meant};

use crate::dates::is_date;
use crate::fault::{FaultKind, LineFault};
use crate::waiver::Waiver;
use crate::words::{
    begins_reason, behind, behind_reason, is_name, is_parted, is_pattern, matches_root, reason_in,
    skip, word,
};
use cov_ground::Memory;
use cov_tree::Name;
use std::alloc::Global;

fn fault(kind: FaultKind, rest: &[u8]) -> LineFault
    ensures { result ≡ Bad kind (length rest.now) }
{
    LineFault::Bad {
        kind,
        left: rest.len(),
    }
}

fn is_waive(word: &[u8]) -> bool
    ensures { result ≡ is word.now (codes "waive") }
{
    word == b"waive".as_slice()
}

fn is_by(word: &[u8]) -> bool
    ensures { result ≡ is word.now (codes "by") }
{
    word == b"by".as_slice()
}

fn is_on(word: &[u8]) -> bool
    ensures { result ≡ is word.now (codes "on") }
{
    word == b"on".as_slice()
}

/// A waiver of these parts.
fn waiver_of(
    alloc: Global,
    pattern: &[u8],
    reason: &[u8],
    by: &[u8],
    on: &[u8],
) -> Result<Waiver, Memory>
    ensures { IfOk result (λ made. made
        ≡ record { pattern = pattern.now; reason = reason.now; by = by.now; on = on.now }) }
{
    Ok(Waiver {
        pattern: Name::of(alloc, pattern)?,
        reason: Name::of(alloc, reason)?,
        by: Name::of(alloc, by)?,
        on: Name::of(alloc, on)?,
    })
}

/// Nothing more.
#[tactic(auto, unfolding(crate::specs::Lines::at_end))]
fn at_end(made: Waiver, rest: &[u8]) -> Result<Waiver, LineFault>
    ensures { Gives result (end_meant made rest.now) }
{
    if rest.is_empty() {
        return Ok(made);
    }
    Err(fault(FaultKind::Extra, rest))
}

/// `on DATE`, or nothing.
#[tactic(auto, unfolding(crate::specs::Lines::at_on))]
fn at_on(
    alloc: Global,
    pattern: &[u8],
    reason: &[u8],
    by: &[u8],
    rest: &[u8],
) -> Result<Waiver, LineFault>
    ensures { Gives result (on_meant pattern.now reason.now by.now rest.now) }
{
    if !is_on(word(rest)) {
        let made = waiver_of(alloc, pattern, reason, by, &[])?;
        return at_end(made, rest);
    }
    let date = behind(rest);
    if !is_date(word(date)) {
        return Err(fault(FaultKind::BadDate, date));
    }
    let made = waiver_of(alloc, pattern, reason, by, word(date))?;
    at_end(made, behind(date))
}

/// `by NAME`, or nothing.
#[tactic(auto, unfolding(crate::specs::Lines::at_by))]
fn at_by(alloc: Global, pattern: &[u8], reason: &[u8], rest: &[u8]) -> Result<Waiver, LineFault>
    ensures { Gives result (by_meant pattern.now reason.now rest.now) }
{
    if !is_by(word(rest)) {
        return at_on(alloc, pattern, reason, &[], rest);
    }
    let name = behind(rest);
    if !is_name(word(name)) {
        return Err(fault(FaultKind::BadName, name));
    }
    at_on(alloc, pattern, reason, word(name), behind(name))
}

#[tactic(auto, unfolding(crate::specs::Lines::at_reason))]
fn at_reason(alloc: Global, pattern: &[u8], rest: &[u8]) -> Result<Waiver, LineFault>
    ensures { Gives result (reason_meant pattern.now rest.now) }
{
    if !begins_reason(rest) {
        return Err(fault(FaultKind::BadReason, rest));
    }
    let later = behind_reason(rest);
    if !is_parted(later) {
        return Err(fault(FaultKind::Extra, later));
    }
    at_by(alloc, pattern, reason_in(rest), skip(later))
}

#[tactic(auto, unfolding(crate::specs::Lines::at_pattern))]
fn at_pattern(alloc: Global, rest: &[u8]) -> Result<Waiver, LineFault>
    ensures { Gives result (pattern_meant rest.now) }
{
    let pattern = word(rest);
    if !is_pattern(pattern) {
        return Err(fault(FaultKind::BadPattern, rest));
    }
    if matches_root(pattern) {
        return Err(fault(FaultKind::MatchesRoot, rest));
    }
    at_reason(alloc, pattern, behind(rest))
}

/// The waiver that bytes are which don't begin with a blank.
#[tactic(auto, unfolding(crate::specs::Lines::at_waive))]
pub(crate) fn at_waive(alloc: Global, rest: &[u8]) -> Result<Waiver, LineFault>
    ensures { Gives result (waive_meant rest.now) }
{
    if !is_waive(word(rest)) {
        return Err(fault(FaultKind::BadLine, rest));
    }
    at_pattern(alloc, behind(rest))
}
