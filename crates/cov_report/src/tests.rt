//! The tests of a store, a line for each.
ghost use Rattle.std.specs.Prelude.{◌≡◌, ◌++◌, length, map, IfOk, OnOk};
ghost use Rattle.std.specs.List.{flat_map};
ghost use Rattle.cov_report.specs.Lines.{merge_line, test_line};

use appending::{append, append_number};
use cov_base::Memory;
use cov_tree::Name;
use std::alloc::Global;
use store_views::status_word;
use ucis_model::HistoryNode;

fn append_test(text: &mut Vec<u8>, point: u64, status: u8, id: &[u8]) -> Result<(), Memory>
    ensures { OnOk result (text.new.items ≡ text.old.items ++ test_line point status id.now) }
{
    append(text, b"TEST ")?;
    append_number(text, point)?;
    append(text, b" ")?;
    append(text, status_word(status).as_bytes())?;
    append(text, b" ")?;
    append(text, id)?;
    append(text, b"\n")
}

/// How many tests there are.
pub(crate) fn append_merge(text: &mut Vec<u8>, tests: usize) -> Result<(), Memory>
    ensures { OnOk result (text.new.items ≡ text.old.items ++ merge_line tests) }
{
    append(text, b"MERGE tests ")?;
    append_number(text, tests as u64)?;
    append(text, b"\n")
}

/// How many tests there are, and a line for each.
pub(crate) fn append_tests(text: &mut Vec<u8>, tests: &[HistoryNode]) -> Result<(), Memory>
    ensures { OnOk result (text.new.items ≡ text.old.items ++ (merge_line (length tests.now) ++ flat_map (λ row. test_line row.point row.status row.id) tests.now)) }
{
    append_merge(text, tests.len())?;
    for test in tests {
        append_test(text, test.point, test.status, test.id.as_slice())?;
    }
    Ok(())
}

/// The ids of tests.
pub(crate) fn ids_of(alloc: Global, tests: &[HistoryNode]) -> Result<Vec<Name>, Memory>
    ensures { IfOk result (λ ids. ids.items ≡ map (λ row. row.id) tests.now) }
{
    let mut ids = Vec::new(alloc);
    for test in tests {
        ids.push(test.id.share()?)?;
    }
    Ok(ids)
}
