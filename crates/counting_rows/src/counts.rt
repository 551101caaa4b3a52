//! Rows of counts: a design text of one instance, ` # `, and samples. A row is written again with the count of each of the
//! design's bins behind ` = `, as the definition gives it and the sampler too; or with `no design` where the text is none.
//! The counts were written after IEEE 1800-2017, clause 19.
use crate::samples::record_of;
use cov_compile::compile;
use cov_counting::tally_by_definition;
use design_data::Design;
use record_codec::Record;
use sampler::bin_record;
use std::alloc::Global;
use std::io::Print;
use tally::Tally;

/// The most bytes of a design text.
const LONGEST_DESIGN: usize = 1_048_576;

/// Writes a word behind a blank.
fn show<R: Print>(rt: &R, word: &str) {
    let _ = print!(rt; " {word}");
}

/// Writes a count behind a blank.
fn show_count<R: Print>(rt: &R, count: u64) {
    let _ = print!(rt; " {count}");
}

fn show_counts<R: Print>(rt: &R, counts: &[u64]) {
    for count in counts {
        show_count(rt, *count);
    }
}

/// Whether a tally has these counts of the bins, in order.
fn has_counts(tally: &Tally, counts: &[u64]) -> bool {
    let mut bin: u32 = 0;
    for count in counts {
        if tally.get(bin) != *count {
            return false;
        }
        bin = bin.saturating_add(1);
    }
    true
}

/// Whether the sampler has the same counts.
fn is_sampled(alloc: Global, design: &Design, record: &Record, counts: &[u64]) -> bool {
    match bin_record(alloc, design, record) {
        Ok(tally) => has_counts(&tally, counts),
        Err(_) => false,
    }
}

/// Writes the counts by definition, where the sampler has the same.
fn show_agreed<R: Print>(rt: &R, alloc: Global, design: &Design, record: &Record, counts: &[u64]) {
    if is_sampled(alloc, design, record, counts) {
        show_counts(rt, counts);
    } else {
        show(rt, "other counts by the sampler");
    }
}

/// Writes the counts of a record.
fn show_record<R: Print>(rt: &R, alloc: Global, design: &Design, record: &Record) {
    match tally_by_definition(alloc, design, record) {
        Ok(counts) => show_agreed(rt, alloc, design, record, counts.as_slice()),
        Err(_) => show(rt, "no counts"),
    }
}

/// Writes the counts of samples.
fn show_samples<R: Print>(rt: &R, alloc: Global, design: &Design, samples: &str) {
    match record_of(alloc, design, samples) {
        Some(record) => show_record(rt, alloc, design, &record),
        None => show(rt, "no record"),
    }
}

/// The design that a text declares.
fn design_of(alloc: Global, text: &[u8]) -> Option<Design> {
    if text.len() > LONGEST_DESIGN {
        return None;
    }
    compile(alloc, text).ok()
}

/// Writes a row with its counts.
pub(crate) fn row<R: Print>(rt: &R, alloc: Global, line: &str) {
    let _ = print!(rt; "{line} =");
    let (text, samples) = line.split_once('#').unwrap_or((line, ""));
    match design_of(alloc, text.as_bytes()) {
        Some(design) => show_samples(rt, alloc, &design, samples),
        None => show(rt, "no design"),
    }
    let _ = println!(rt; "");
}
