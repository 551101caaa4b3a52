//! Hints on records that are refused.
ghost use Rattle.std.specs.Prelude.{◌≤◌, length, vec_len};
ghost use Rattle.cov_ground.specs.Limits.{longest_record};

use crate::file_hints::{read_again, stream_hint};
use crate::kind_hints::{Wanted, kind_hint};
use crate::shape_hints::shape_hint;
use cov_ground::limits::{LONGEST_DESIGN, LONGEST_RECORD};
use covd_core::compile;
use design_data::Design;
use record_codec::{Record, RecordFault, decode};
use sampler::shape_fits;
use std::alloc::{AllocError, Global};
use std::rt::Files;
use text_place::kind_of;

/// What is known of a record that was read again.
enum Judged {
    /// It is a record that fits the design.
    Fits,
    /// It is refused, and this says why; none where nothing more is to say.
    Refused(Option<String>),
    /// It isn't read again, or can't be any more.
    Unread,
    /// It is a record, and no design is there to compare it with.
    Uncompared,
}

/// What is wrong with the bytes of a file that are no record.
fn fault_text(alloc: Global, name: &str, fault: RecordFault) -> Result<String, AllocError> {
    match fault {
        RecordFault::BadMagic => {
            format!(in alloc; "{name} is no test record: it doesn't begin with CVRC\n")
        }
        RecordFault::Short { at } => format!(in alloc;
            "{name} is no whole record: it ends within the field at byte {at}\n"
        ),
        RecordFault::BadVersion { v } => {
            format!(in alloc; "{name} is a record of version {v}: only 1 and 2 are read\n")
        }
        RecordFault::BadField { at } => format!(in alloc;
            "{name} has a value out of its range in the field at byte {at} (see docs/FORMATS.md)\n"
        ),
        RecordFault::TooManyEvents { n } => {
            format!(in alloc; "{name} says that it has {n} events: a record has at most 1048576\n")
        }
        RecordFault::Trailing { at } => {
            format!(in alloc; "{name} goes on behind its last event, from byte {at} on\n")
        }
        RecordFault::Memory => format!(in alloc; "out of memory\n"),
    }
}

/// The hint on bytes that are no record.
fn fault_hint(alloc: Global, name: &str, bytes: &[u8], fault: RecordFault) -> Option<String> {
    let hint = kind_hint(alloc, name, kind_of(bytes), Wanted::Record);
    if hint.is_some() {
        return hint;
    }
    fault_text(alloc, name, fault).ok()
}

/// What is known of a record.
fn judge_shape(alloc: Global, name: &str, design: &Design, rec: &Record) -> Judged {
    match shape_fits(design, rec) {
        Ok(()) => Judged::Fits,
        Err(wrong) => Judged::Refused(shape_hint(alloc, name, design, rec, wrong.at as usize)),
    }
}

/// What is known of the bytes of a file.
fn judge_bytes(alloc: Global, name: &str, design: Option<&Design>, bytes: &[u8]) -> Judged
    requires { length bytes.now ≤ longest_record }
{
    match (decode(alloc, bytes), design) {
        (Ok(rec), Some(design)) => judge_shape(alloc, name, design, &rec),
        (Ok(_), None) => Judged::Uncompared,
        (Err(fault), _) => Judged::Refused(fault_hint(alloc, name, bytes, fault)),
    }
}

/// What is known of the record of a file.
fn judge<R: Files + AllocGlobal>(rt: &R, name: &str, design: Option<&Design>) -> Judged {
    match read_again(rt, name, LONGEST_RECORD) {
        Some(bytes) => judge_bytes(rt.alloc(), name, design, &bytes),
        None => Judged::Unread,
    }
}

/// The hint on the first of these records that is refused. Where one before it isn't read again, or can't be compared with
/// the design of this name, it may be that one.
fn first_refused<R: Files + AllocGlobal>(
    rt: &R,
    design_name: &str,
    design: Option<&Design>,
    names: &[String],
) -> Option<String> {
    for name in names {
        match judge(rt, name.as_str(), design) {
            Judged::Fits => {}
            Judged::Refused(hint) => return hint,
            Judged::Unread => return stream_hint(rt.alloc(), name.as_str()),
            Judged::Uncompared => return stream_hint(rt.alloc(), design_name),
        }
    }
    None
}

/// The design of a file that may be read again.
fn design_again<R: Files + AllocGlobal>(rt: &R, name: &str) -> Option<Design> {
    let text = read_again(rt, name, LONGEST_DESIGN)?;
    compile(rt.alloc(), &text).ok()
}

/// The hint on the records of files under a design, of which one is refused.
pub(crate) fn on_records<R: Files + AllocGlobal>(
    rt: &R,
    design: &str,
    names: &[String],
) -> Option<String> {
    match design_again(rt, design) {
        Some(compiled) => first_refused(rt, design, Some(&compiled), names),
        None => first_refused(rt, design, None, names),
    }
}
