//! Rows of tables.
ghost use Rattle.std.specs.Prelude.{◌≡◌, [], ◌∷◌, ◌++◌, codes, OnOk};
ghost use Rattle.markup.specs.Trees.{markup_text, start_text, end_text, line_end};
ghost use Rattle.page_parts.specs.Pieces.{of_class};
ghost use Rattle.page_parts.specs.Rows.{row_head, text_cell as text_meant, number_cell as number_meant, bin_row as bin_meant, illegal_row as illegal_meant, run_cells, test_row as test_meant, ranked_row as ranked_meant};

use crate::pieces::{begin_of_class, counted, said};
use cov_ground::Memory;
use markup::{append_escaped, begin_tag, close, end_line, end_tag, value};

/// The head of a row.
fn append_head(text: &mut Vec<u8>, name: &[u8]) -> Result<(), Memory>
    ensures { OnOk result (text.new.items ≡ text.old.items ++ markup_text (row_head name.now)) }
{
    begin_tag(text, "th")?;
    value(text, "scope", b"row")?;
    end_tag(text)?;
    append_escaped(text, name)?;
    close(text, "th")
}

/// The first tag of a row of a class, and its head.
fn begin_row(text: &mut Vec<u8>, kind: &str, name: &[u8]) -> Result<(), Memory>
    ensures { OnOk result (text.new.items ≡ text.old.items ++ (start_text (codes "tr") (of_class kind.now ∷ []) ++ markup_text (row_head name.now))) }
{
    begin_of_class(text, "tr", kind)?;
    append_head(text, name)
}

fn end_row(text: &mut Vec<u8>) -> Result<(), Memory>
    ensures { OnOk result (text.new.items ≡ text.old.items ++ (end_text (codes "tr") ++ line_end)) }
{
    close(text, "tr")?;
    end_line(text)
}

fn text_cell(text: &mut Vec<u8>, bytes: &[u8]) -> Result<(), Memory>
    ensures { OnOk result (text.new.items ≡ text.old.items ++ markup_text (text_meant bytes.now)) }
{
    said(text, "td", "t", bytes)
}

fn number_cell(text: &mut Vec<u8>, number: u128) -> Result<(), Memory>
    ensures { OnOk result (text.new.items ≡ text.old.items ++ markup_text (number_meant number)) }
{
    counted(text, "td", "n", number)
}

/// A bin: how often it was hit, how often it has to be, and the word of how it stands.
#[tactic(auto, unfolding(crate::specs::Rows::bin_row))]
pub fn bin_row(
    text: &mut Vec<u8>,
    name: &[u8],
    count: u64,
    at_least: u32,
    state: &str,
) -> Result<(), Memory>
    ensures { OnOk result (text.new.items ≡ text.old.items ++ markup_text (bin_meant name.now count at_least state.now)) }
{
    begin_row(text, state, name)?;
    number_cell(text, u128::from(count))?;
    number_cell(text, u128::from(at_least))?;
    text_cell(text, state.as_bytes())?;
    end_row(text)
}

/// An illegal bin that was hit.
#[tactic(auto, unfolding(crate::specs::Rows::illegal_row))]
pub fn illegal_row(text: &mut Vec<u8>, path: &[u8], count: u64) -> Result<(), Memory>
    ensures { OnOk result (text.new.items ≡ text.old.items ++ markup_text (illegal_meant path.now count)) }
{
    begin_row(text, "illegal", path)?;
    number_cell(text, u128::from(count))?;
    end_row(text)
}

/// What a test's record says of the run.
#[tactic(auto, unfolding(crate::specs::Rows::run_cells))]
fn append_run(text: &mut Vec<u8>, seed: u64, time: u64, user: &[u8]) -> Result<(), Memory>
    ensures { OnOk result (text.new.items ≡ text.old.items ++ markup_text (run_cells seed time user.now)) }
{
    number_cell(text, u128::from(seed))?;
    number_cell(text, u128::from(time))?;
    text_cell(text, user)
}

/// A test: the word of how it ended, and the seed, the time and the user of its run.
#[tactic(auto, unfolding(crate::specs::Rows::test_row))]
pub fn test_row(
    text: &mut Vec<u8>,
    id: &[u8],
    status: &str,
    seed: u64,
    time: u64,
    user: &[u8],
) -> Result<(), Memory>
    ensures { OnOk result (text.new.items ≡ text.old.items ++ markup_text (test_meant id.now status.now seed time user.now)) }
{
    begin_row(text, status, id)?;
    text_cell(text, status.as_bytes())?;
    append_run(text, seed, time, user)?;
    end_row(text)
}

/// A test of the ranking: how many bins it adds, and how many that makes.
#[tactic(auto, unfolding(crate::specs::Rows::ranked_row))]
pub fn ranked_row(text: &mut Vec<u8>, id: &[u8], gain: u64, total: u128) -> Result<(), Memory>
    ensures { OnOk result (text.new.items ≡ text.old.items ++ markup_text (ranked_meant id.now gain total)) }
{
    begin_row(text, "ranked", id)?;
    number_cell(text, u128::from(gain))?;
    number_cell(text, total)?;
    end_row(text)
}
