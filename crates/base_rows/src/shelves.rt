//! Shelves in memory, through their trait's bound.
use crate::words::{bytes_of, calls_of, show, show_bytes, show_count, small_of, split};
use cov_base::{MemShelf, Shelf, ShelfRefusal, SureShelf};
use std::alloc::Global;
use std::io::Print;

/// The file that a word spells, as `name=bytes`.
fn file_of(alloc: Global, word: &str) -> Option<(String, Vec<u8>)> {
    let (name, bytes) = split(word, '=');
    let name = String::from_str(alloc, name).ok()?;
    Some((name, bytes_of(alloc, bytes)))
}

/// Adds the file that a word spells.
fn add_file(alloc: Global, files: &mut Vec<(String, Vec<u8>)>, word: &str) {
    if let Some(file) = file_of(alloc, word) {
        let _ = files.push(file);
    }
}

/// The files of some words.
fn files_of(alloc: Global, text: &str) -> Vec<(String, Vec<u8>)> {
    let mut files = Vec::new(alloc);
    for word in text.split_whitespace() {
        add_file(alloc, &mut files, word);
    }
    files
}

/// Writes a refusal.
pub(crate) fn show_refusal<R: Print>(rt: &R, refusal: ShelfRefusal) {
    match refusal {
        ShelfRefusal::Failed => show(rt, " Failed"),
        ShelfRefusal::Missing => show(rt, " Missing"),
        ShelfRefusal::TooLong { size } => {
            show(rt, " TooLong");
            show_count(rt, size as u128)
        }
        ShelfRefusal::Memory => show(rt, " Memory"),
    }
}

/// Writes a file's bytes behind a sign, since it may have none.
fn show_file<R: Print>(rt: &R, bytes: &[u8]) {
    show(rt, " =");
    show_bytes(rt, bytes);
}

/// Loads a file, as `name:most`.
fn load<R: Print, S: Shelf>(rt: &R, alloc: Global, shelf: &mut S, word: &str) {
    let (name, most) = split(word, ':');
    match shelf.load(alloc, name, small_of(most)) {
        Ok(bytes) => show_file(rt, bytes.as_slice()),
        Err(refusal) => show_refusal(rt, refusal),
    }
}

/// Loads each file.
fn loads<R: Print, S: Shelf>(rt: &R, alloc: Global, shelf: &mut S, asked: &str) {
    for word in asked.split_whitespace() {
        load(rt, alloc, shelf, word);
    }
}

/// FAILS FILES / LOADS: loads files from a shelf that fails at the calls FAILS, or at none where it is `sure`.
pub(crate) fn shelf<R: Print>(rt: &R, alloc: Global, row: &str) {
    let (shelf, asked) = split(row, '/');
    let (fails, files) = split(shelf, ' ');
    let files = files_of(alloc, files);
    if fails == "sure" {
        return loads(rt, alloc, &mut SureShelf::new(files), asked);
    }
    let failing = calls_of(alloc, fails);
    loads(rt, alloc, &mut MemShelf::new(files, failing), asked);
}
