//! The ranking of the tests.
ghost use Rattle.std.specs.Prelude.{◌≡◌, ◌<◌, ◌++◌, [], All, length, slice_index_or, OnOk};
ghost use Rattle.json_text.specs.Tree.{json_tokens};
ghost use Rattle.export_json.specs.Export.{ids_in, ranked_value, ranking_value};

use cov_ground::Memory;
use json_text::JsonWriter;
use tally::Ranked;
use ucis_model::HistoryNode;

/// The id of a test.
fn id_of(tests: &[HistoryNode], test: u32) -> &[u8]
    requires { test < length tests.now }
    ensures { result.now ≡ slice_index_or (ids_in tests.now) test [] }
{
    tests[test as usize].id.as_slice()
}

/// A row, with the sum of the gains so far.
#[tactic(auto, unfolding(crate::specs::Export::ranked_value, json_text::specs::Values::object_of, json_text::specs::Values::member_tokens))]
fn write_ranked(
    out: &mut JsonWriter,
    tests: &[HistoryNode],
    row: Ranked,
    total: u128,
) -> Result<(), Memory>
    requires { row.test < length tests.now }
    ensures { OnOk result (out.new ≡ out.old ++ json_tokens (ranked_value (ids_in tests.now) (row, total))) }
{
    out.begin_object()?;
    out.text_member("id", id_of(tests, row.test))?;
    out.number_member("gain", row.gain as u128)?;
    out.number_member("total", total)?;
    out.end_object()
}

/// The rows of a ranking, the best test first.
pub(crate) fn write_ranking(
    out: &mut JsonWriter,
    tests: &[HistoryNode],
    rows: &[Ranked],
) -> Result<(), Memory>
    requires { All (λ row. row.test < length tests.now) rows.now }
    ensures { OnOk result (out.new ≡ out.old ++ json_tokens (ranking_value (ids_in tests.now) rows.now)) }
{
    let mut total = 0;
    out.begin_array()?;
    for row in rows {
        total += row.gain as u128;
        write_ranked(out, tests, *row, total)?;
    }
    out.end_array()?;
    Ok(())
}
