//! The tests of a history, each with what is answered about it.
ghost use Rattle.std.specs.Prelude.{◌≡◌, ◌++◌, ◌<◌, ◌^◌, ◌+◌, map, find, bytes_eq, option_map, length, slice_index, IfOk, OnOk};
ghost use Rattle.record_codec.specs.Spelling.{spelling};
ghost use Rattle.cov_history.specs.History.{tests_in};
ghost use Rattle.cov_history.specs.Answers.{test_row};
ghost use Rattle.history_answers.specs.Kept.{test_of, kept_as, kept_from};

use cov_ground::Memory;
use cov_history::{Entry, Event, counts_of};
use cov_tree::{List, Name};
use design_data::Design;
use record_codec::{Record, encode};
use sha2::{Digest, Sha256};
use std::alloc::Global;
use ucis_model::{HistoryKind, HistoryNode};

/// A test with what is answered about it.
#[derive(Drop)]
pub(crate) struct Kept {
    /// Its row among the tests.
    pub(crate) row: HistoryNode,
    /// The bytes of its record.
    pub(crate) bytes: Name,
    /// A count for each bin.
    pub(crate) counts: List<u64>,
}

/// The row of a test whose record has these bytes.
fn row_of(alloc: Global, point: u64, content: &Record, bytes: &[u8]) -> Result<HistoryNode, Memory>
    requires { bytes.now ≡ spelling content.now }
    ensures { IfOk result (λ row. row ≡ test_row (test_of point content.now)) }
{
    Ok(HistoryNode {
        kind: HistoryKind::Test,
        point,
        status: content.status,
        seed: content.seed,
        time: content.time,
        digest: Sha256::digest(bytes),
        id: content.id.share()?,
        user: content.user.share()?,
    })
}

/// A test, from the point after its admission and its record.
fn keep(alloc: Global, design: &Design, point: u64, content: &Record) -> Result<Kept, Memory>
    ensures { IfOk result (λ test. test ≡ kept_as design.now (test_of point content.now)) }
{
    let bytes = encode(alloc, content)?;
    let row = row_of(alloc, point, content, bytes.as_slice())?;
    let counts = counts_of(alloc, design, content)?;
    Ok(Kept {
        row,
        bytes: Name::from_vec(bytes)?,
        counts,
    })
}

/// One test more, where the change admits it.
fn push_kept(
    alloc: Global,
    design: &Design,
    tests: &mut Vec<Kept>,
    point: u64,
    event: &Event,
) -> Result<(), Memory>
    ensures { OnOk result (tests.new.items ≡ tests.old.items ++ map (kept_as design.now) (tests_in point event.now)) }
{
    if let Event::Admit(content) = event {
        tests.push(keep(alloc, design, point, content)?)?;
    }
    Ok(())
}

/// The tests of a history, counted under a design.
#[tactic(auto, using(crate::proofs::Worked::kept_step))]
pub(crate) fn kept_tests(
    alloc: Global,
    design: &Design,
    entries: &[Entry],
) -> Result<Vec<Kept>, Memory>
    ensures { IfOk result (λ tests. tests.items ≡ kept_from design.now 0 entries.now) }
{
    let mut tests = Vec::new(alloc);
    let mut point = 0;
    let mut rest = entries;
    while let Some((entry, later)) = rest.split_first() {
        point += 1;
        push_kept(alloc, design, &mut tests, point, &entry.event)?;
        rest = later;
    }
    Ok(tests)
}

/// The test of an id.
pub(crate) fn of_id<'a>(tests: &'a [Kept], id: &[u8]) -> Option<&'a Kept>
    ensures { option_map (λ test. test.now) result ≡ find (λ test. bytes_eq id.now test.row.id) tests.now }
{
    let mut rest = tests;
    while let Some((test, later)) = rest.split_first() {
        if id == test.row.id.as_slice() {
            return Some(test);
        }
        rest = later;
    }
    None
}
