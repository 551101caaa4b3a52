//! Answers as text.
use crate::words::put;
use design_data::BinKind;
use std::alloc::Global;
use tally::Ranked;
use ucis_model::{Answer, CountRow, CoverRow, HistoryNode, Which};

fn kind(kind: BinKind) -> &'static str {
    match kind {
        BinKind::CvgBin => "bin",
        BinKind::IllegalBin => "illegal",
        BinKind::IgnoreBin => "ignored",
        BinKind::DefaultBin => "default",
    }
}

fn out(excluded: bool) -> &'static str {
    if excluded { " excluded" } else { "" }
}

fn which(which: Which) -> &'static str {
    match which {
        Which::Tests => "tests",
        Which::Bytes => "bytes",
        Which::Entries => "entries",
        Which::History => "history",
    }
}

fn write_row(text: &mut String, row: &CountRow) {
    let (kind, out) = (kind(row.kind), out(row.excluded));
    let _ = write!(text, "\n{} {kind} {}{out}", row.bin, row.count);
}

fn write_total(text: &mut String, total: u32, what: &str) {
    let _ = write!(text, "{total} {what}");
}

fn write_rows(text: &mut String, total: u32, rows: &[CountRow]) {
    write_total(text, total, "bins");
    for row in rows {
        write_row(text, row);
    }
}

fn write_cover(text: &mut String, row: &CoverRow) {
    let word = if row.met { "met" } else { "miss" };
    let out = out(row.excluded);
    let _ = write!(
        text,
        "{} {}/{} {word}{out}",
        row.millionths, row.covered, row.bins
    );
}

fn write_hex(alloc: Global, text: &mut String, bytes: &[u8]) {
    if let Ok(digits) = hex::encode(alloc, bytes) {
        put(text, digits.as_str());
    }
}

fn write_bytes(text: &mut String, bytes: &[u8]) {
    put(text, str::from_utf8(bytes).unwrap_or("?"));
}

fn write_head(text: &mut String, test: &HistoryNode) {
    put(text, "\n");
    write_bytes(text, test.id.as_slice());
    let _ = write!(text, " at {} status {}", test.point, test.status);
}

fn write_tests(alloc: Global, text: &mut String, total: u32, tests: &[HistoryNode]) {
    write_total(text, total, "tests");
    for test in tests {
        write_head(text, test);
        put(text, "\nsha256 ");
        write_hex(alloc, text, &test.digest);
    }
}

fn write_rank(text: &mut String, row: &Ranked) {
    let _ = write!(text, "\ntest {} adds {}", row.test, row.gain);
}

fn write_ranks(text: &mut String, rows: &[Ranked]) {
    let _ = write!(text, "{} ranked", rows.len());
    for row in rows {
        write_rank(text, row);
    }
}

fn write_taken(alloc: Global, text: &mut String, digest: &[u8]) {
    put(text, "taken by ");
    write_hex(alloc, text, digest);
}

fn write_chunk(alloc: Global, text: &mut String, len: u64, bytes: &[u8]) {
    let _ = write!(text, "{len} bytes\nbytes ");
    write_hex(alloc, text, bytes);
}

fn write_full(text: &mut String, limit: Which, have: u64, want: u64) {
    let limit = which(limit);
    let _ = write!(text, "full of {limit} with {have}, not {want}");
}

/// The words of an answer that is no more than its name.
fn words(answer: &Answer) -> &'static str {
    match answer {
        Answer::New => "new",
        Answer::Changed => "changed",
        Answer::NoSuchPath => "no such path",
        Answer::AlreadyExcluded => "excluded already",
        Answer::NotExcluded => "not excluded",
        Answer::NoSuchTest => "no such test",
        Answer::Stopped => "stopped",
        _ => "memory ran out",
    }
}

fn write_since(text: &mut String, word: &str, number: u64) {
    let _ = write!(text, "{word} {number}");
}

fn write_welcome(text: &mut String, bins: u32) {
    let _ = write!(text, "welcome to {bins} bins");
}

fn write_number(text: &mut String, answer: &Answer) {
    match answer {
        Answer::Welcome { bins } => write_welcome(text, *bins),
        Answer::Here { first } => write_since(text, "here since", *first),
        Answer::Ahead { have } => write_since(text, "ahead of", *have),
        Answer::Moved { since } => write_since(text, "moved since", *since),
        Answer::Full { which, have, want } => write_full(text, *which, *have, *want),
        _ => put(text, words(answer)),
    }
}

fn write_answer(alloc: Global, text: &mut String, answer: &Answer) {
    match answer {
        Answer::Rows { total, rows } => write_rows(text, *total, rows.as_slice()),
        Answer::CoverageIs(row) => write_cover(text, row),
        Answer::TestRows { total, rows } => write_tests(alloc, text, *total, rows.as_slice()),
        Answer::RankRows(rows) => write_ranks(text, rows.as_slice()),
        Answer::PathIs(path) => write_bytes(text, path.as_slice()),
        Answer::IdTaken { digest } => write_taken(alloc, text, digest),
        Answer::Chunk { len, bytes } => write_chunk(alloc, text, *len, bytes.as_slice()),
        _ => write_number(text, answer),
    }
}

/// An answer on lines.
pub fn text_of(alloc: Global, answer: &Answer) -> String {
    let mut text = String::new(alloc);
    write_answer(alloc, &mut text, answer);
    text
}
