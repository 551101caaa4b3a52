//! The whole text.
ghost use Rattle.std.specs.Prelude.{◌≡◌, ◌++◌, ◌∷◌, [], codes, length, IfOk, OnOk};
ghost use Rattle.json_text.specs.Tree.{json_tokens};
ghost use Rattle.json_text.specs.Values.{all_member_tokens, object_of, text as text_value, number as number_value};
ghost use Rattle.merge_store.specs.Stores.{opening_of, entries_of};
ghost use Rattle.store_views.specs.Version.{version};
ghost use Rattle.store_views.specs.Views.{rows_at, ranked_at};
ghost use Rattle.export_json.specs.Export.{design_value, overall_value, tests_value, types_value, all_illegal_value, ranking_value, ids_in, test_rows, export_members, json_of};

use crate::covers::write_types;
use crate::illegal::write_all_illegal;
use crate::items::write_millionths;
use crate::ranking::write_ranking;
use crate::tests::{digits_of, write_tests};
use cov_ground::Memory;
use json_text::JsonWriter;
use merge_store::Store;
use std::alloc::Global;
use std::thread::Threads;
use store_views::{VERSION, all_tests, ranked};
use ucis_model::HistoryNode;

#[tactic(auto, unfolding(crate::specs::Export::design_value, json_text::specs::Values::object_of, json_text::specs::Values::member_tokens))]
fn write_design(out: &mut JsonWriter, digest: &[u8; 32]) -> Result<(), Memory>
    ensures { OnOk result (out.new ≡ out.old ++ json_tokens (design_value digest.now)) }
{
    out.begin_object()?;
    out.text_member("sha256", digits_of(digest).as_slice())?;
    out.end_object()
}

fn write_overall(out: &mut JsonWriter, millionths: u32) -> Result<(), Memory>
    ensures { OnOk result (out.new ≡ out.old ++ json_tokens (overall_value millionths)) }
{
    out.begin_object()?;
    write_millionths(out, millionths)?;
    out.end_object()?;
    Ok(())
}

/// The program, the point of the history and its design.
#[tactic(auto, unfolding(json_text::specs::Values::member_tokens))]
fn write_head(out: &mut JsonWriter, store: &Store, digest: &[u8; 32]) -> Result<(), Memory>
    ensures { OnOk result (out.new ≡ out.old ++ all_member_tokens ((codes "covd", text_value version)
        ∷ (codes "point", number_value (length (entries_of store.now)))
        ∷ (codes "design", design_value digest.now) ∷ [])) }
{
    out.text_member("covd", VERSION.as_bytes())?;
    out.number_member("point", store.point() as u128)?;
    out.key("design")?;
    write_design(out, digest)
}

/// The coverage of all, the types and the illegal bins.
#[tactic(auto, unfolding(json_text::specs::Values::member_tokens))]
fn write_coverage(out: &mut JsonWriter, store: &Store) -> Result<(), Memory>
    ensures { OnOk result (out.new ≡ out.old ++ all_member_tokens
        ((codes "overall", overall_value (rows_at (opening_of store.now) (entries_of store.now) 0).millionths)
        ∷ (codes "types", types_value (opening_of store.now) (entries_of store.now))
        ∷ (codes "illegal", all_illegal_value (opening_of store.now) (entries_of store.now)) ∷ [])) }
{
    let row = store.cover_row(0)?;
    out.key("overall")?;
    write_overall(out, row.millionths)?;
    out.key("types")?;
    write_types(out, store)?;
    out.key("illegal")?;
    write_all_illegal(out, store)
}

/// The ranking of the tests.
#[tactic(auto, unfolding(json_text::specs::Values::member_tokens))]
fn write_ranked_tests<R: Threads + Sync>(
    rt: &R,
    out: &mut JsonWriter,
    store: &Store,
    tests: &[HistoryNode],
) -> Result<(), Memory>
    requires { tests.now ≡ test_rows (entries_of store.now) }
    ensures { OnOk result (out.new ≡ out.old ++ all_member_tokens ((
      codes "ranking",
      ranking_value (ids_in tests.now) (ranked_at (opening_of store.now) (entries_of store.now)),
    ) ∷ [])) }
{
    let rows = ranked(rt, store)?;
    out.key("ranking")?;
    write_ranking(out, tests, rows.as_slice())?;
    Ok(())
}

/// The whole, with these tests.
fn write_all<R: Threads + Sync>(
    rt: &R,
    out: &mut JsonWriter,
    store: &Store,
    digest: &[u8; 32],
    tests: &[HistoryNode],
) -> Result<(), Memory>
    requires { tests.now ≡ test_rows (entries_of store.now) }
    ensures { OnOk result (out.new ≡ out.old ++ json_tokens (object_of (export_members (opening_of store.now)
        (entries_of store.now) digest.now tests.now))) }
{
    out.begin_object()?;
    write_head(out, store, digest)?;
    out.key("tests")?;
    write_tests(out, tests)?;
    write_coverage(out, store)?;
    write_ranked_tests(rt, out, store, tests)?;
    out.end_object()?;
    Ok(())
}

/// A store as one text of JSON (RFC 8259) on a line that ends with a newline: the version of the program, the point of the
/// history, the SHA-256 of the design's text, which is handed in, the tests, the coverage of all, each type with its
/// instances, their items and their bins, the illegal bins that were hit, and the ranking of the tests. Coverage is in
/// millionths. All numbers are whole ones; one above 2^53 - 1 is a string of its digits. The tests are ranked by all
/// processors.
///
/// # Errors
/// Want of memory.
#[tactic(auto, unfolding(crate::specs::Export::export_value, crate::specs::Export::json_of, json_text::specs::Values::line_of))]
pub fn json_lines<R: Threads + Sync>(
    rt: &R,
    alloc: Global,
    store: &Store,
    digest: &[u8; 32],
) -> Result<Vec<u8>, Memory>
    ensures { IfOk result (λ text. text.items
        ≡ json_of (opening_of store.now) (entries_of store.now) digest.now) }
{
    let tests = all_tests(alloc, store)?;
    let mut out = JsonWriter::new(alloc);
    write_all(rt, &mut out, store, digest, tests.as_slice())?;
    let line = out.into_line()?;
    Ok(line)
}
