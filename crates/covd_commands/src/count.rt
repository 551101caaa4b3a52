//! The command `count`.
ghost use Rattle.std.specs.Prelude.{◌≡◌, ◌≤◌, map, length, string_bytes, IfOk, MatchOption};
ghost use Rattle.covd_commands.specs.Commands.{IsCountCommand, IsNoCount, Counts, IsCountText};
ghost use Rattle.cov_ground.specs.Limits.{longest_record};
ghost use Rattle.sampler.specs.Shape.{Fits};
ghost use Rattle.covd_commands.specs.Lines.{record_refused_text, IsFaultText};
ghost use Rattle.covd_commands.specs.declared.status.Status.TheVariants.{Done, RecordRefused};
ghost use Rattle.covd_commands.specs.Steps.{CountsRecord};

use crate::Status;
use crate::answer::Answer;
use crate::lines::count_lines;
use crate::loading::{HadDesign, Loaded, had_design, load};
use crate::texts::record_refused;
use cov_base::{Memory, Shelf};
use cov_ground::limits::LONGEST_RECORD;
use design_data::Design;
use record_codec::{Record, RecordFault, decode};
use sampler::{Plan, counts_under, shape_fits};
use std::alloc::Global;

/// The two names behind `count`.
pub fn count_words(words: &[String]) -> Option<(&str, &str)>
    ensures { MatchOption result (IsNoCount (map string_bytes words.now)) (λ names. IsCountCommand (map string_bytes words.now) names.0.now names.1.now) }
{
    match words {
        [command, design, rec] => {
            if command.as_str() == "count" {
                Some((design.as_str(), rec.as_str()))
            } else {
                None
            }
        }
        _ => None,
    }
}

/// The answer to the k-th record, which is refused.
pub(crate) fn refused(alloc: Global, k: u64, kind: &str, number: u64) -> Result<Answer, Memory>
    ensures { IfOk result (λ a. (a.status ≡ RecordRefused) × (a.text.items ≡ record_refused_text k kind.now number)) }
{
    let text = record_refused(alloc, k, kind, number)?;
    Ok(Answer {
        status: Status::RecordRefused,
        text,
    })
}

/// The answer to the bytes of the k-th record, which are none.
pub(crate) fn undecoded(alloc: Global, k: u64, fault: RecordFault) -> Result<Answer, Memory>
    ensures { IfOk result (λ a. (a.status ≡ RecordRefused) × IsFaultText k fault a.text.items) }
{
    match fault {
        RecordFault::Short { at } => refused(alloc, k, "Short", at as u64),
        RecordFault::BadMagic => refused(alloc, k, "BadMagic", 0),
        RecordFault::BadVersion { v } => refused(alloc, k, "BadVersion", v as u64),
        RecordFault::BadField { at } => refused(alloc, k, "BadField", at as u64),
        RecordFault::TooManyEvents { n } => refused(alloc, k, "TooManyEvents", n),
        RecordFault::Trailing { at } => refused(alloc, k, "Trailing", at as u64),
        RecordFault::Memory => Err(Memory),
    }
}

// The counts of a record that fits.
fn counted(alloc: Global, design: &Design, rec: &Record) -> Result<Answer, Memory>
    requires { Fits design.now rec.now }
    ensures { IfOk result (λ a. (a.status ≡ Done) × IsCountText design.now rec.now a.text.items) }
{
    let plan = Plan::of(alloc, design)?;
    let counts = counts_under(alloc, &plan, design, rec)?;
    let text = count_lines(alloc, design, rec.id.as_slice(), counts.as_slice())?;
    Ok(Answer {
        status: Status::Done,
        text,
    })
}

// The answer to the record of these bytes.
fn count_record(alloc: Global, design: &Design, bytes: &[u8]) -> Result<Answer, Memory>
    requires { length bytes.now ≤ longest_record }
    ensures { IfOk result (λ a. CountsRecord design.now bytes.now a.status a.text.items) }
{
    match decode(alloc, bytes) {
        Ok(decoded) => match shape_fits(design, &decoded) {
            Ok(()) => counted(alloc, design, &decoded),
            Err(wrong) => refused(alloc, 1, "WrongShape", wrong.at as u64),
        },
        Err(fault) => undecoded(alloc, 1, fault),
    }
}

/// Loads, compiles, decodes and counts.
pub fn count<F: Shelf>(
    alloc: Global,
    design: &str,
    rec: &str,
    shelf: &mut F,
) -> Result<Answer, Memory>
    ensures same { F.files shelf.new ≡ F.files shelf.old }
    ensures later { F.faults shelf.old ≤ F.faults shelf.new }
    ensures answer { IfOk result (λ a. Counts (F.files shelf.old) (F.faults shelf.old) (F.faults shelf.new) design.now rec.now a.status a.text.items) }
{
    let design = match had_design(alloc, design, shelf)? {
        HadDesign::Compiled(design) => design,
        HadDesign::Refused(answer) => return Ok(answer),
    };
    match load(alloc, rec, LONGEST_RECORD, shelf)? {
        Loaded::Bytes(bytes) => count_record(alloc, &design, &bytes),
        Loaded::Refused(answer) => Ok(answer),
    }
}
