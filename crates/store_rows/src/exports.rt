//! The forms in which a store is shown.
use ask_rows::say;
use cov_base::Memory;
use export_json::json_lines;
use export_lists::{bins_lines, holes_lines};
use export_ucis::ucis_lines;
use merge_store::Store;
use std::alloc::Global;
use std::io::Print;
use std::thread::Threads;

/// The text of a store in the form of this word; as the digest of the design text 32 zeros are told.
fn text_of<R: Threads + Sync>(
    rt: &R,
    alloc: Global,
    store: &Store,
    form: &str,
) -> Result<Vec<u8>, Memory> {
    match form {
        "bins" => bins_lines(alloc, store),
        "holes" => holes_lines(alloc, store),
        "ucis" => ucis_lines(alloc, store),
        _ => json_lines(rt, alloc, store, &[0; 32]),
    }
}

/// Writes the store in the form of this word.
pub fn export<R: Threads + Sync + Print>(rt: &R, alloc: Global, store: &Store, form: &str) {
    match text_of(rt, alloc, store, form) {
        Ok(text) => match str::from_utf8(&text) {
            Ok(text) => say(rt, text),
            Err(_) => say(rt, "no text"),
        },
        Err(_) => say(rt, "no memory"),
    }
}
