//! Hints on files that can't be read, and which files are read again for a hint.
ghost use Rattle.std.specs.Prelude.{◌≤◌, IfSome, IfOk, vec_len};

use crate::kind_hints::{Wanted, kind_hint};
use cov_base::Shelf;
use cov_ground::limits::{LONGEST_DESIGN, LONGEST_RECORD};
use cov_net::FileShelf;
use covd_core::{LONGEST_DUMP, LONGEST_WAIVERS};
use std::alloc::Global;
use std::fs;
use std::fs::File;
use std::io::{ErrorKind, Read};
use std::rt::Files;
use text_place::kind_of;

/// How many bytes show of which kind a file is.
const FRONT: usize = 4096;

/// What the system says of a name.
#[derive(Clone, Copy)]
enum Found {
    /// A file with so many bytes, which can be read again.
    Regular { size: u64 },
    Folder,
    /// A pipe, a socket or a device, of which a further read would take what isn't meant for it.
    Stream,
    /// Why nothing is said of it.
    Unknown { cause: ErrorKind },
}

/// What the system says of a name, of which nothing is opened.
fn look_up<R: Files>(rt: &R, name: &str) -> Found {
    match fs::metadata(rt, name) {
        Ok(metadata) if metadata.is_file() => Found::Regular {
            size: metadata.len(),
        },
        Ok(metadata) if metadata.is_dir() => Found::Folder,
        Ok(_) => Found::Stream,
        Err(error) => Found::Unknown {
            cause: error.kind(),
        },
    }
}

/// Whether a file may be read again.
pub(crate) fn is_regular<R: Files>(rt: &R, name: &str) -> bool {
    matches!(look_up(rt, name), Found::Regular { .. })
}

/// The bytes of a file of at most so many bytes, which is no pipe and no device.
pub(crate) fn read_again<R: Files + AllocGlobal>(rt: &R, name: &str, most: u64) -> Option<Vec<u8>>
    ensures { IfSome result (λ bytes. vec_len bytes ≤ most) }
{
    if !is_regular(rt, name) {
        return None;
    }
    match FileShelf::new(rt).load(rt.alloc(), name, most) {
        Ok(bytes) => Some(bytes),
        Err(_) => None,
    }
}

/// That nothing more is said of a file which isn't read again.
pub(crate) fn stream_hint(alloc: Global, name: &str) -> Option<String> {
    format!(in alloc;
        "{name} is no regular file, and isn't read again to say more; places count bytes from 0\n"
    ).ok()
}

/// The bytes that stand first in a regular file.
fn front_of<R: Files + AllocGlobal>(rt: &R, name: &str) -> Option<Vec<u8>> {
    let mut front = Vec::new(rt.alloc());
    front.resize(FRONT, 0u8).ok()?;
    let mut file = File::open(rt, name).ok()?;
    let count = file.read(front.as_mut_slice()).ok()?;
    front.truncate(count);
    Some(front)
}

/// Why a name can't be read.
fn reason(cause: ErrorKind) -> &'static str {
    match cause {
        ErrorKind::NotFound => "there is no such file",
        ErrorKind::PermissionDenied => "you may not read it",
        ErrorKind::NotADirectory => "a part of its path is no folder",
        ErrorKind::FilesystemLoop => "its path goes round in a circle",
        ErrorKind::InvalidFilename | ErrorKind::InvalidInput => "no file can have this name",
        _ => "the system can't read it",
    }
}

/// The hint on a file that can't be read for that reason.
fn reason_hint(alloc: Global, name: &str, why: &str) -> Option<String> {
    format!(in alloc; "{name}: {why}\n").ok()
}

/// The hint on a regular file that can't be opened; none where it can be.
fn opening_hint<R: Files + AllocGlobal>(rt: &R, name: &str) -> Option<String> {
    match File::open(rt, name) {
        Ok(_) => None,
        Err(error) => reason_hint(rt.alloc(), name, reason(error.kind())),
    }
}

/// The limit of a file that is to be this, and what to do above it.
fn limit_of(wanted: Wanted) -> (u64, &'static str) {
    match wanted {
        Wanted::Design => (LONGEST_DESIGN, "a design text has at most 1048576 bytes"),
        Wanted::Waivers => (
            LONGEST_WAIVERS,
            "a file of waivers has at most 1048576 bytes",
        ),
        Wanted::Record => (
            LONGEST_RECORD,
            "a record has at most 8388608 bytes; make more records, of shorter pieces of the test",
        ),
        Wanted::Dump => (
            LONGEST_DUMP,
            "a dump has at most 33554432 bytes; cut it into pieces, as hooks/vcdprep.py does",
        ),
    }
}

/// The hint on a file that is too long: another is wanted, or a shorter one.
fn length_hint<R: Files + AllocGlobal>(
    rt: &R,
    name: &str,
    wanted: Wanted,
    limit: &str,
) -> Option<String> {
    let hint = match front_of(rt, name) {
        Some(front) => kind_hint(rt.alloc(), name, kind_of(&front), wanted),
        None => None,
    };
    if hint.is_some() {
        return hint;
    }
    reason_hint(rt.alloc(), name, limit)
}

/// The hint on a regular file of so many bytes, where it can't be read or is too long.
fn regular_hint<R: Files + AllocGlobal>(
    rt: &R,
    name: &str,
    wanted: Wanted,
    size: u64,
) -> Option<String> {
    let (most, limit) = limit_of(wanted);
    if size > most {
        return length_hint(rt, name, wanted, limit);
    }
    opening_hint(rt, name)
}

/// The hint on a file that can't be had; none where nothing is in its way, and of pipes and devices.
pub(crate) fn file_hint<R: Files + AllocGlobal>(
    rt: &R,
    name: &str,
    wanted: Wanted,
) -> Option<String> {
    match look_up(rt, name) {
        Found::Regular { size } => regular_hint(rt, name, wanted, size),
        Found::Folder => reason_hint(rt.alloc(), name, "this is a folder"),
        Found::Stream => None,
        Found::Unknown { cause } => reason_hint(rt.alloc(), name, reason(cause)),
    }
}

/// The hint on the first of these files that can't be had.
pub(crate) fn first_file_hint<R: Files + AllocGlobal>(
    rt: &R,
    names: &[String],
    wanted: Wanted,
) -> Option<String> {
    for name in names {
        let hint = file_hint(rt, name.as_str(), wanted);
        if hint.is_some() {
            return hint;
        }
    }
    None
}
