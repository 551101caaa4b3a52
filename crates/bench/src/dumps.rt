//! Records of a dump: `dumps DESIGN DUMP SCOPE READS RECORDS` reads the dump so many times, makes its record so many times,
//! and prints how many events it has.
ghost use Rattle.std.specs.Prelude.{◌≡◌, ◌≤◌, length, Ok};
ghost use Rattle.cov_design.specs.Elaboration.{Elaborates, parts_of};
ghost use Rattle.vcd_reader.specs.Reading.{longest_dump};

use bench_values::{Found, bytes_at, number_at, text_at};
use cov_design::elaborate;
use cov_lexer::lex;
use cov_parser::parse;
use cov_tree::{DesignText, Name};
use design_data::Design;
use record_codec::Record;
use std::alloc::Global;
use std::rt::Files;
use vcd_reader::{DumpFault, read_dump, record_of};

/// The most bytes of a design text.
const LONGEST_DESIGN: usize = 1_048_576;

/// The most bytes of a dump.
const LONGEST_DUMP: usize = 33_554_432;

/// The declarations of a text.
fn tree_of(alloc: Global, text: &[u8]) -> Option<DesignText> {
    if text.len() > LONGEST_DESIGN {
        return None;
    }
    match lex(alloc, text) {
        Ok(tokens) => parse(alloc, text, &tokens).ok(),
        Err(_) => None,
    }
}

/// How many events a record has.
fn events_in(record: Result<Record, DumpFault>) -> Option<Found> {
    match record {
        Ok(record) => Some(Found::One(record.events.as_slice().len() as u64)),
        Err(_) => None,
    }
}

/// How many events the record of a dump has.
fn events_by(
    alloc: Global,
    tree: &DesignText,
    design: &Design,
    bytes: &[u8],
    scope: &[u8],
) -> Option<Found>
    requires short { length bytes.now ≤ longest_dump }
    requires design { Elaborates tree.now ≡ Ok (parts_of design.now) }
{
    let id = Name::of(alloc, b"bench").unwrap_or(Name::empty());
    match read_dump(alloc, bytes) {
        Ok(dump) => events_in(record_of(alloc, tree, design, &dump, scope, &id)),
        Err(_) => None,
    }
}

/// The same, from the declarations of the design's text.
fn events_under(alloc: Global, tree: &DesignText, bytes: &[u8], scope: &[u8]) -> Option<Found>
    requires { length bytes.now ≤ longest_dump }
{
    match elaborate(alloc, tree) {
        Ok(design) => events_by(alloc, tree, &design, bytes, scope),
        Err(_) => None,
    }
}

/// The same, from the design's text.
fn events_of(alloc: Global, text: &[u8], bytes: &[u8], scope: &[u8]) -> Option<Found>
    requires { length bytes.now ≤ longest_dump }
{
    match tree_of(alloc, text) {
        Some(tree) => events_under(alloc, &tree, bytes, scope),
        None => None,
    }
}

/// Reads the dump so many times: whether it is one each time.
fn is_read(alloc: Global, bytes: &[u8], reads: u32) -> bool
    requires { length bytes.now ≤ longest_dump }
{
    let mut done = true;
    for _ in 0..reads {
        done &= read_dump(alloc, bytes).is_ok();
    }
    done
}

/// The events of the last record; None where something is refused or too long, or memory ran out.
fn recorded(alloc: Global, text: &[u8], bytes: &[u8], scope: &[u8], records: u32) -> Option<Found>
    requires { length bytes.now ≤ longest_dump }
{
    let mut events = Some(Found::One(0));
    for _ in 0..records {
        events = events_of(alloc, text, bytes, scope);
    }
    events
}

/// The same, where the dump is read so many times before.
fn done(alloc: Global, text: &[u8], bytes: &[u8], words: &[String]) -> Option<Found> {
    if bytes.len() > LONGEST_DUMP {
        return None;
    }
    let reads = number_at(words, 3)?;
    let records = number_at(words, 4)?;
    if !is_read(alloc, bytes, reads) {
        return None;
    }
    recorded(alloc, text, bytes, text_at(words, 2).as_bytes(), records)
}

pub(crate) fn measured<R: Files + AllocGlobal>(rt: &R, words: &[String]) -> Option<Found> {
    if let Some(text) = bytes_at(rt, words, 0)
        && let Some(dump) = bytes_at(rt, words, 1)
    {
        done(rt.alloc(), &text, &dump, words)
    } else {
        None
    }
}
