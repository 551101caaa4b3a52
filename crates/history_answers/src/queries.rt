//! The answers to questions.
ghost use Rattle.std.specs.Prelude.{◌≡◌, ℕ, ◌<◌, ◌^◌, length, map, slice_index, IfOk};
ghost use Rattle.std.specs.List.{range_with_len};
ghost use Rattle.ucis_model.specs.Nodes.{nodes_of};
ghost use Rattle.cov_history.specs.Nodes.{bin_nodes as bin_nodes_of, bins_under as bins_meant};
ghost use Rattle.cov_history.specs.Coverage.{is_excluded};
ghost use Rattle.cov_history.specs.History.{contents, out_of};
ghost use Rattle.cov_history.specs.Sums.{all_hits};
ghost use Rattle.cov_history.specs.Answers.{rows as rows_meant, illegal_hit as illegal_meant, hello_at, counts_at as counts_meant, test_counts_at, illegal_at, tests_at, name_at, fetch_at};
ghost use Rattle.history_answers.specs.Kept.{kept_from, total as total_meant};

use crate::bins::{bin_at, illegal_hit};
use crate::keeping::{Kept, kept_tests, of_id};
use crate::rows::{page, rows};
use cov_ground::Memory;
use cov_ground::limits::{LONGEST_CHUNK, MOST_TEST_ROWS};
use cov_history::{Entry, bin_nodes, bins_under, count, design_at, out_at};
use cov_tree::{List, Name};
use design_data::Design;
use std::alloc::Global;
use ucis_model::{Answer, HistoryNode, Tree, tree};

/// The answer to a Hello with a point.
pub fn hello_answer(opening: &Design, entries: &[Entry], point: u64) -> Answer
    ensures { result ≡ hello_at opening.now entries.now point }
{
    let have = entries.len() as u64;
    if have < point {
        return Answer::Ahead { have };
    }
    let bins = design_at(opening, entries).bin_count();
    Answer::Welcome { bins }
}

/// How often tests hit a bin together.
fn total(tests: &[Kept], bin: u32) -> u64
    requires few { length tests.now < 2 ^ 32 }
    requires fits { total_meant tests.now bin < 2 ^ 64 }
    ensures { result ≡ total_meant tests.now bin }
{
    let mut total = 0u128;
    for test in tests {
        total += u128::from(count(test.counts.as_slice(), bin));
    }
    total as u64
}

/// How often tests hit each of so many bins together.
fn totals(alloc: Global, tests: &[Kept], bins: u32) -> Result<Vec<u64>, Memory>
    requires few { length tests.now < 2 ^ 32 }
    requires fits { (bin : ℕ) → total_meant tests.now bin < 2 ^ 64 }
    ensures { IfOk result (λ totals. totals.items ≡ map (total_meant tests.now) (range_with_len 0 bins)) }
{
    let mut totals = Vec::new(alloc);
    for bin in 0..bins {
        totals.push(total(tests, bin))?;
    }
    Ok(totals)
}

/// The counts of all tests of a history under a design.
fn counts_at(alloc: Global, design: &Design, entries: &[Entry]) -> Result<Vec<u64>, Memory>
    requires { length entries.now < 2 ^ 32 }
    ensures { IfOk result (λ counts. counts.items ≡ all_hits design.now (contents entries.now)) }
{
    let tests = kept_tests(alloc, design, entries)?;
    let counts = totals(alloc, tests.as_slice(), design.bin_count())?;
    Ok(counts)
}

/// The rows of the bins under a node at the end of a history.
fn rows_under(
    alloc: Global,
    entries: &[Entry],
    tree: &Tree,
    counts: &[u64],
    first: u32,
    place: u32,
) -> Result<Answer, Memory>
    requires { length tree.now < 2 ^ 32 }
    ensures { IfOk result (λ answer. answer ≡ rows_meant tree.now (slice_index counts.now) (is_excluded tree.now (out_of entries.now)) first (bins_meant tree.now place)) }
{
    let out = out_at(alloc, entries)?;
    let bins = bin_nodes(alloc, tree.nodes())?;
    let under = bins_under(tree.nodes(), bins.as_slice(), place);
    let answer = rows(alloc, tree, counts, out.as_slice(), under, first)?;
    Ok(answer)
}

/// The answer to a question for counts: how many bins are under the node that the path finds, and at most 65,536 of
/// their rows from the first-th on.
pub fn counts_answer(
    alloc: Global,
    opening: &Design,
    entries: &[Entry],
    first: u32,
    path: &[u8],
) -> Result<Answer, Memory>
    requires { length entries.now < 2 ^ 32 }
    ensures { IfOk result (λ answer. answer ≡ counts_meant opening.now entries.now first path.now) }
{
    let design = design_at(opening, entries);
    let tree = tree(alloc, design)?;
    let Some(place) = tree.find(path) else {
        return Ok(Answer::NoSuchPath);
    };
    let counts = counts_at(alloc, design, entries)?;
    let answer = rows_under(alloc, entries, &tree, counts.as_slice(), first, place)?;
    Ok(answer)
}

/// The answer to a question for what the test of an id counts.
pub fn test_counts_answer(
    alloc: Global,
    opening: &Design,
    entries: &[Entry],
    first: u32,
    id: &[u8],
    path: &[u8],
) -> Result<Answer, Memory>
    ensures { IfOk result (λ answer. answer
        ≡ test_counts_at opening.now entries.now first id.now path.now) }
{
    let design = design_at(opening, entries);
    let tests = kept_tests(alloc, design, entries)?;
    let Some(test) = of_id(tests.as_slice(), id) else {
        return Ok(Answer::NoSuchTest);
    };
    let tree = tree(alloc, design)?;
    let Some(place) = tree.find(path) else {
        return Ok(Answer::NoSuchPath);
    };
    let counts = test.counts.as_slice();
    let answer = rows_under(alloc, entries, &tree, counts, first, place)?;
    Ok(answer)
}

/// The rows of the illegal bins that were hit, at the end of a history.
fn illegal_rows(
    alloc: Global,
    entries: &[Entry],
    tree: &Tree,
    counts: &[u64],
    first: u32,
) -> Result<Answer, Memory>
    requires { length tree.now < 2 ^ 32 }
    ensures { IfOk result (λ answer. answer ≡ rows_meant tree.now (slice_index counts.now) (is_excluded tree.now (out_of entries.now)) first (illegal_meant tree.now (slice_index counts.now))) }
{
    let out = out_at(alloc, entries)?;
    let bins = bin_nodes(alloc, tree.nodes())?;
    let hit = illegal_hit(alloc, tree.nodes(), counts, bins.as_slice())?;
    let answer = rows(alloc, tree, counts, out.as_slice(), hit.as_slice(), first)?;
    Ok(answer)
}

/// The answer to a question for the illegal bins that were hit.
pub fn illegal_answer(
    alloc: Global,
    opening: &Design,
    entries: &[Entry],
    first: u32,
) -> Result<Answer, Memory>
    requires { length entries.now < 2 ^ 32 }
    ensures { IfOk result (λ answer. answer ≡ illegal_at opening.now entries.now first) }
{
    let design = design_at(opening, entries);
    let tree = tree(alloc, design)?;
    let counts = counts_at(alloc, design, entries)?;
    let answer = illegal_rows(alloc, entries, &tree, counts.as_slice(), first)?;
    Ok(answer)
}

/// A row of a test once more.
fn copy(alloc: Global, row: &HistoryNode) -> Result<HistoryNode, Memory>
    ensures { IfOk result (λ copy. copy ≡ row.now) }
{
    Ok(HistoryNode {
        kind: row.kind,
        point: row.point,
        status: row.status,
        seed: row.seed,
        time: row.time,
        digest: row.digest,
        id: row.id.share()?,
        user: row.user.share()?,
    })
}

/// The rows of tests.
fn test_rows(alloc: Global, tests: &[Kept]) -> Result<Vec<HistoryNode>, Memory>
    ensures { IfOk result (λ rows. rows.items ≡ map (λ test. test.row) tests.now) }
{
    let mut rows = Vec::new(alloc);
    let mut rest = tests;
    while let Some((test, later)) = rest.split_first() {
        rows.push(copy(alloc, &test.row)?)?;
        rest = later;
    }
    Ok(rows)
}

/// The answer to a question for the tests: how many they are, and at most 1,024 of their rows from the first-th on.
pub fn tests_answer(
    alloc: Global,
    opening: &Design,
    entries: &[Entry],
    first: u32,
) -> Result<Answer, Memory>
    requires { length entries.now < 2 ^ 32 }
    ensures { IfOk result (λ answer. answer ≡ tests_at entries.now first) }
{
    let tests = kept_tests(alloc, design_at(opening, entries), entries)?;
    let all = tests.as_slice();
    let part = page(all, first as usize, MOST_TEST_ROWS);
    let rows = test_rows(alloc, part)?;
    Ok(Answer::TestRows {
        total: all.len() as u32,
        rows: List::of(rows),
    })
}

/// The answer to a question for the path of a bin.
pub fn name_answer(
    alloc: Global,
    opening: &Design,
    entries: &[Entry],
    bin: u32,
) -> Result<Answer, Memory>
    ensures { IfOk result (λ answer. answer ≡ name_at opening.now entries.now bin) }
{
    let tree = tree(alloc, design_at(opening, entries))?;
    let bins = bin_nodes(alloc, tree.nodes())?;
    let Some(node) = bin_at(tree.nodes(), bins.as_slice(), bin) else {
        return Ok(Answer::NoSuchPath);
    };
    let path = tree.path_text(alloc, node)?;
    Ok(Answer::PathIs(path))
}

/// The answer to a question for the bytes of the record that was admitted at a place: how many they are, and at most
/// 1,048,576 of them from an offset on.
pub fn fetch_answer(
    alloc: Global,
    opening: &Design,
    entries: &[Entry],
    place: u32,
    offset: u64,
) -> Result<Answer, Memory>
    ensures { IfOk result (λ answer. answer ≡ fetch_at entries.now place offset) }
{
    let tests = kept_tests(alloc, design_at(opening, entries), entries)?;
    let Some(test) = tests.get(place as usize) else {
        return Ok(Answer::NoSuchTest);
    };
    let bytes = test.bytes.as_slice();
    let part = Name::of(alloc, page(bytes, offset as usize, LONGEST_CHUNK))?;
    Ok(Answer::Chunk {
        len: bytes.len() as u64,
        bytes: part,
    })
}
