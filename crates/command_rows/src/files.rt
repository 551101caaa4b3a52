//! The files that commands run over.
use crate::digits::bytes_of;
use crate::words::{copy_of, count_of, split, text_of};
use cov_base::Shelf;
use cov_net::FileShelf;
use covd_core::LONGEST_DUMP;
use std::alloc::Global;
use std::rt::Files as System;

/// A design text, a dump, a record, the record before other bytes were put in, and the files that are kept.
#[derive(Drop)]
pub struct Files {
    design: Vec<u8>,
    dump: Vec<u8>,
    pub(crate) record: Vec<u8>,
    whole: Vec<u8>,
    kept: Vec<(String, Vec<u8>)>,
}

impl Files {
    /// Files of nothing.
    pub fn new(alloc: Global) -> Files {
        Files {
            design: Vec::new(alloc),
            dump: Vec::new(alloc),
            record: Vec::new(alloc),
            whole: Vec::new(alloc),
            kept: Vec::new(alloc),
        }
    }
}

/// A text with its newlines.
fn lines_of(alloc: Global, row: &str) -> Vec<u8> {
    let mut text = Vec::new(alloc);
    for (place, part) in row.split("\\n").enumerate() {
        if place > 0 {
            let _ = text.push(b'\n');
        }
        let _ = text.extend_from_slice(part.as_bytes());
    }
    text
}

/// TEXT: takes a design text.
pub fn take_design(alloc: Global, files: &mut Files, row: &str) {
    files.design = lines_of(alloc, row);
}

/// TEXT: takes a dump.
pub fn take_dump(alloc: Global, files: &mut Files, row: &str) {
    files.dump = lines_of(alloc, row);
}

/// HEX: takes the record that is made of these bytes.
pub fn take_record(alloc: Global, files: &mut Files, digits: &str) {
    files.whole = bytes_of(alloc, digits);
    files.record = copy_of(alloc, &files.whole);
}

/// Adds a file of these bytes.
fn add_file(alloc: Global, files: &mut Vec<(String, Vec<u8>)>, name: &str, bytes: &[u8]) {
    let _ = files.push((text_of(alloc, name), copy_of(alloc, bytes)));
}

/// A copy of all files: `d`, `v`, `r`, and those that are kept.
pub(crate) fn all_files(alloc: Global, files: &Files) -> Vec<(String, Vec<u8>)> {
    let mut all = Vec::new(alloc);
    add_file(alloc, &mut all, "d", &files.design);
    add_file(alloc, &mut all, "v", &files.dump);
    add_file(alloc, &mut all, "r", &files.record);
    for file in &files.kept {
        add_file(alloc, &mut all, file.0.as_str(), &file.1);
    }
    all
}

/// NAME: keeps the record as a file too.
pub fn keep_record(alloc: Global, files: &mut Files, name: &str) {
    add_file(alloc, &mut files.kept, name, &files.record);
}

/// NAME COUNT: keeps a file of so many blanks.
pub fn keep_blanks(alloc: Global, files: &mut Files, row: &str) {
    let (name, count) = split(row);
    if let Ok(blanks) = vec![in alloc; b' '; count_of(count) as usize] {
        add_file(alloc, &mut files.kept, name, &blanks);
    }
}

/// The number of a word, and no more than the length.
fn place_of(word: &str, length: usize) -> usize {
    let place: usize = word.parse().unwrap_or(0);
    place.min(length)
}

/// FROM TO HEX: the bytes with others in place of those from FROM up to TO.
fn changed(alloc: Global, whole: &[u8], row: &str) -> Vec<u8> {
    let (from, rest) = split(row);
    let (to, digits) = split(rest);
    let from = place_of(from, whole.len());
    let to = place_of(to, whole.len()).max(from);
    let mut bytes = copy_of(alloc, whole.get(..from).unwrap_or(b""));
    let _ = bytes.append(&mut bytes_of(alloc, digits));
    let _ = bytes.extend_from_slice(whole.get(to..).unwrap_or(b""));
    bytes
}

/// FROM TO HEX: makes the record the one that was taken, with other bytes in place of those from FROM up to TO.
pub fn change_record(alloc: Global, files: &mut Files, row: &str) {
    files.record = changed(alloc, &files.whole, row);
}

/// The path of the file NAME.KIND.
fn path_of(alloc: Global, name: &str, kind: &str) -> String {
    format!(in alloc; "{name}.{kind}").unwrap_or(String::new(alloc))
}

/// The file at a path; nothing where it can't be read.
fn real_file<R: System + AllocGlobal>(rt: &R, path: &str) -> Vec<u8> {
    match FileShelf::new(rt).load(rt.alloc(), path, LONGEST_DUMP) {
        Ok(bytes) => bytes,
        Err(_) => Vec::new(rt.alloc()),
    }
}

/// NAME: takes a design text and the dump of a simulator, from NAME.cov and NAME.vcd.
pub fn take_files<R: System + AllocGlobal>(rt: &R, files: &mut Files, name: &str) {
    files.design = real_file(rt, path_of(rt.alloc(), name, "cov").as_str());
    files.dump = real_file(rt, path_of(rt.alloc(), name, "vcd").as_str());
}
