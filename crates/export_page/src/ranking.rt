//! The ranking of the tests.
ghost use Rattle.std.specs.Prelude.{◌≡◌, ◌<◌, ◌++◌, [], All, codes, length, slice_index_or, IfOk, OnOk};
ghost use Rattle.markup.specs.Trees.{each, markup_text};
ghost use Rattle.page_parts.specs.Curves.{points_of as points_meant, curve};
ghost use Rattle.export_json.specs.Export.{ids_in, with_totals};
ghost use Rattle.export_page.specs.Page.{ranked_row as row_meant, ranked_table, heights_of, ranking_part};

use appending::append;
use cov_ground::Memory;
use page_parts::{
    append_curve, append_point, begin_section, begin_table, end_block, end_table, ranked_row,
};
use std::alloc::Global;
use tally::Ranked;
use ucis_model::HistoryNode;

/// The heads of the columns of the ranking.
const COLUMNS: [&str; 3] = ["Test", "Gain", "Covered"];

/// The id of a test.
fn id_of(tests: &[HistoryNode], test: u32) -> &[u8]
    requires { test < length tests.now }
    ensures { result.now ≡ slice_index_or (ids_in tests.now) test [] }
{
    tests[test as usize].id.as_slice()
}

/// A row, with the sum of the gains so far.
#[tactic(auto, unfolding(crate::specs::Page::ranked_row))]
fn append_row(
    text: &mut Vec<u8>,
    tests: &[HistoryNode],
    row: Ranked,
    total: u128,
) -> Result<(), Memory>
    requires { row.test < length tests.now }
    ensures { OnOk result (text.new.items ≡ text.old.items ++ markup_text (row_meant (ids_in tests.now) (row, total))) }
{
    ranked_row(text, id_of(tests, row.test), row.gain, total)
}

/// The rows, the best test first.
fn append_rows(text: &mut Vec<u8>, tests: &[HistoryNode], rows: &[Ranked]) -> Result<(), Memory>
    requires { All (λ row. row.test < length tests.now) rows.now }
    ensures { OnOk result (text.new.items ≡ text.old.items
        ++ markup_text (each (row_meant (ids_in tests.now)) (with_totals 0 rows.now))) }
{
    let mut total = 0;
    for row in rows {
        total += row.gain as u128;
        append_row(text, tests, *row, total)?;
    }
    Ok(())
}

fn append_table(text: &mut Vec<u8>, tests: &[HistoryNode], rows: &[Ranked]) -> Result<(), Memory>
    requires { All (λ row. row.test < length tests.now) rows.now }
    ensures { OnOk result (text.new.items ≡ text.old.items ++ markup_text (ranked_table (ids_in tests.now) rows.now)) }
{
    begin_table(
        text,
        "The best test first: the bins that each adds, and the sum",
        &COLUMNS,
    )?;
    append_rows(text, tests, rows)?;
    end_table(text)?;
    Ok(())
}

/// The points of the curve.
fn points_of(alloc: Global, rows: &[Ranked]) -> Result<Vec<u8>, Memory>
    ensures { IfOk result (λ points. points.items ≡ points_meant (heights_of rows.now)) }
{
    let mut points = Vec::new(alloc);
    let mut total = 0;
    let mut place = 1;
    append(&mut points, b"0,0")?;
    for row in rows {
        total += row.gain as u128;
        append_point(&mut points, place, total)?;
        place += 1;
    }
    Ok(points)
}

fn append_drawing(
    alloc: Global,
    text: &mut Vec<u8>,
    bins: u32,
    rows: &[Ranked],
) -> Result<(), Memory>
    ensures { OnOk result (text.new.items ≡ text.old.items
        ++ markup_text (curve (length rows.now) bins (points_meant (heights_of rows.now)))) }
{
    let points = points_of(alloc, rows)?;
    append_curve(
        alloc,
        text,
        rows.len() as u64,
        u64::from(bins),
        points.as_slice(),
    )?;
    Ok(())
}

/// The section of the ranking, with its curve among so many live bins.
pub(crate) fn append_ranking(
    alloc: Global,
    text: &mut Vec<u8>,
    bins: u32,
    tests: &[HistoryNode],
    rows: &[Ranked],
) -> Result<(), Memory>
    requires { All (λ row. row.test < length tests.now) rows.now }
    ensures { OnOk result (text.new.items ≡ text.old.items
        ++ markup_text (ranking_part (ids_in tests.now) bins rows.now)) }
{
    begin_section(text, "ranking", "Ranking")?;
    append_drawing(alloc, text, bins, rows)?;
    append_table(text, tests, rows)?;
    end_block(text, "section")?;
    Ok(())
}
