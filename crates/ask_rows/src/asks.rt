//! The asks that lines name.
use crate::designs::design_of;
use crate::records::{name_of, record_of};
use crate::words::{number_of, small_of, split};
use cov_history::{Ask, Revision};
use cov_tree::Name;
use design_data::Design;
use std::alloc::Global;

fn name(alloc: Global, text: &str) -> Name {
    name_of(alloc, text.as_bytes())
}

/// To admit a record of a design, which is made for a point.
fn admit(alloc: Global, design: &Design, point: u64, words: &str) -> Option<Ask> {
    let (id, steps) = split(words);
    match record_of(alloc, design, id, steps) {
        Some(content) => Some(Ask::Admit {
            since: point,
            content,
        }),
        None => None,
    }
}

/// To take the design of a text, which is compiled for a point.
fn revise(alloc: Global, point: u64, text: &str) -> Option<Ask> {
    match design_of(alloc, text) {
        Some(design) => Some(Ask::Revise {
            since: point,
            revision: Revision {
                text: name(alloc, text),
                design,
            },
        }),
        None => None,
    }
}

fn counts(alloc: Global, words: &str) -> Ask {
    let (first, path) = split(words);
    Ask::Counts {
        first: small_of(first),
        path: name(alloc, path),
    }
}

/// What a test counts.
fn test_counts(alloc: Global, words: &str) -> Ask {
    let (first, words) = split(words);
    let (id, path) = split(words);
    Ask::TestCounts {
        first: small_of(first),
        id: name(alloc, id),
        path: name(alloc, path),
    }
}

/// A part of a record's bytes.
fn fetch(words: &str) -> Ask {
    let (place, offset) = split(words);
    Ask::Fetch {
        place: small_of(place),
        offset: number_of(offset),
    }
}

/// A question of one number.
fn by_number(verb: &str, words: &str) -> Option<Ask> {
    let number = small_of(words);
    match verb {
        "illegal" => Some(Ask::Illegal { first: number }),
        "tests" => Some(Ask::Tests { first: number }),
        "name" => Some(Ask::NameOf { bin: number }),
        _ => None,
    }
}

/// A question or a change of one path, or what is not of one number.
fn by_path(alloc: Global, verb: &str, words: &str) -> Option<Ask> {
    let path = name(alloc, words);
    match verb {
        "coverage" => Some(Ask::Coverage { path }),
        "exclude" => Some(Ask::Exclude { path }),
        "include" => Some(Ask::Include { path }),
        _ => by_number(verb, words),
    }
}

/// The ask of a verb with the words behind it.
fn ask_by(alloc: Global, design: &Design, point: u64, verb: &str, words: &str) -> Option<Ask> {
    match verb {
        "hello" => Some(Ask::Hello {
            point: number_of(words),
        }),
        "counts" => Some(counts(alloc, words)),
        "of" => Some(test_counts(alloc, words)),
        "rank" => Some(Ask::Rank),
        "fetch" => Some(fetch(words)),
        "admit" => admit(alloc, design, point, words),
        "revise" => revise(alloc, point, words),
        _ => by_path(alloc, verb, words),
    }
}

/// The ask that a line names, made for a history that stands at this point, under this design.
pub fn ask_of(alloc: Global, design: &Design, point: u64, line: &str) -> Option<Ask> {
    let (verb, words) = split(line);
    ask_by(alloc, design, point, verb, words)
}
