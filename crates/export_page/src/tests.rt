//! The tests of a store.
ghost use Rattle.std.specs.Prelude.{◌≡◌, ◌++◌, codes, count_by, OnOk};
ghost use Rattle.markup.specs.Trees.{each, markup_text};
ghost use Rattle.page_parts.specs.Frames.{table_with};
ghost use Rattle.export_page.specs.Views.{is_of_status as status_meant};
ghost use Rattle.export_page.specs.Page.{test_row as row_meant, test_columns, tests_part, status_figure, test_figures};

use cov_ground::Memory;
use page_parts::{begin_section, begin_table, end_block, end_table, figure_count, test_row};
use store_views::status_word;
use ucis_model::HistoryNode;

/// The heads of the columns of tests.
const COLUMNS: [&str; 5] = ["Test", "Status", "Seed", "Time", "User"];

/// The row of a test.
#[tactic(auto, unfolding(crate::specs::Page::test_row))]
fn append_test(text: &mut Vec<u8>, test: &HistoryNode) -> Result<(), Memory>
    ensures { OnOk result (text.new.items ≡ text.old.items ++ markup_text (row_meant test.now)) }
{
    test_row(
        text,
        test.id.as_slice(),
        status_word(test.status),
        test.seed,
        test.time,
        test.user.as_slice(),
    )
}

fn append_rows(text: &mut Vec<u8>, tests: &[HistoryNode]) -> Result<(), Memory>
    ensures { OnOk result (text.new.items ≡ text.old.items ++ markup_text (each row_meant tests.now)) }
{
    for test in tests {
        append_test(text, test)?;
    }
    Ok(())
}

fn append_table(text: &mut Vec<u8>, tests: &[HistoryNode]) -> Result<(), Memory>
    ensures { OnOk result (text.new.items ≡ text.old.items
        ++ markup_text (table_with (codes "Tests in order of admission") test_columns (each row_meant tests.now))) }
{
    begin_table(text, "Tests in order of admission", &COLUMNS)?;
    append_rows(text, tests)?;
    end_table(text)?;
    Ok(())
}

/// The section of the tests.
pub(crate) fn append_tests(text: &mut Vec<u8>, tests: &[HistoryNode]) -> Result<(), Memory>
    ensures { OnOk result (text.new.items ≡ text.old.items ++ markup_text (tests_part tests.now)) }
{
    begin_section(text, "tests", "Tests")?;
    append_table(text, tests)?;
    end_block(text, "section")?;
    Ok(())
}

/// Whether a test ended with a status; each above 3 is told as 3.
fn is_of_status(status: u8, test: &HistoryNode) -> bool
    ensures { result ≡ status_meant status test.now }
{
    if status >= 3 {
        test.status >= 3
    } else {
        test.status == status
    }
}

/// How many tests ended with a status.
fn count_of(tests: &[HistoryNode], status: u8) -> usize
    ensures { result ≡ count_by (status_meant status) tests.now }
{
    tests
        .iter()
        .filter(|test| is_of_status(status, test))
        .count()
}

fn append_status(text: &mut Vec<u8>, tests: &[HistoryNode], status: u8) -> Result<(), Memory>
    ensures { OnOk result (text.new.items ≡ text.old.items ++ markup_text (status_figure tests.now status)) }
{
    figure_count(text, status_word(status), count_of(tests, status) as u64)
}

/// How many tests there are, and how many ended in which way.
#[tactic(auto, unfolding(crate::specs::Page::test_figures))]
pub(crate) fn append_figures(text: &mut Vec<u8>, tests: &[HistoryNode]) -> Result<(), Memory>
    ensures { OnOk result (text.new.items ≡ text.old.items ++ markup_text (test_figures tests.now)) }
{
    figure_count(text, "Tests", tests.len() as u64)?;
    append_status(text, tests, 0)?;
    append_status(text, tests, 1)?;
    append_status(text, tests, 2)?;
    append_status(text, tests, 3)
}
