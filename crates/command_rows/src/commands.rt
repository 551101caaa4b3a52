//! Commands whose text is written as it comes.
use crate::files::{Files, all_files};
use crate::words::{show, show_status, words_of};
use cov_base::{Pair, SureShelf, SureSource};
use cov_net::{FileShelf, StdSink, StdSource};
use covd_core::{Status, run};
use std::alloc::Global;
use std::io;
use std::io::Print;
use std::rt::Files as System;
use std::thread::Threads;

/// Runs the words over the files of the rows.
fn status_of<R: Threads + Sync + Print>(
    rt: &R,
    alloc: Global,
    files: &Files,
    words: &[String],
) -> Status {
    let mut shelf = SureShelf::new(all_files(alloc, files));
    let mut source = SureSource::new(Vec::new(alloc), 1);
    let mut sink = StdSink::new(io::writer(rt));
    let mut link = Pair {
        source: &mut source,
        sink: &mut sink,
    };
    run(rt, alloc, words, &mut shelf, &mut link)
}

/// Runs the words over the files of the folder.
fn real_status_of<R: Threads + Sync + System + Print + AllocGlobal>(
    rt: &R,
    words: &[String],
) -> Status {
    let mut shelf = FileShelf::new(rt);
    let mut source = StdSource::new(io::empty());
    let mut sink = StdSink::new(io::writer(rt));
    let mut link = Pair {
        source: &mut source,
        sink: &mut sink,
    };
    run(rt, rt.alloc(), words, &mut shelf, &mut link)
}

/// Writes the words of a command over the files of the rows, its text and its status.
pub fn command<R: Threads + Sync + Print>(rt: &R, alloc: Global, files: &Files, row: &str) {
    show(rt, "$", row);
    let status = status_of(rt, alloc, files, &words_of(alloc, row));
    show_status(rt, status);
}

/// Writes the words of a command over the files of the folder, its text and its status.
pub fn real_command<R: Threads + Sync + System + Print + AllocGlobal>(rt: &R, row: &str) -> Status {
    show(rt, "$ covd", row);
    let status = real_status_of(rt, &words_of(rt.alloc(), row));
    show_status(rt, status);
    status
}
