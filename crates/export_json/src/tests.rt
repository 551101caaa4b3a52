//! The tests of a store.
ghost use Rattle.std.specs.Prelude.{◌≡◌, ◌++◌, [], OnOk};
ghost use Rattle.hex.specs.Hex.{encode_lower};
ghost use Rattle.json_text.specs.Tree.{json_tokens};
ghost use Rattle.json_text.specs.Values.{all_member_tokens};
ghost use Rattle.export_json.specs.Export.{run_members, test_members, test_value, tests_value};

use cov_ground::Memory;
use hex::encode_to_slice;
use json_text::JsonWriter;
use store_views::status_word;
use ucis_model::HistoryNode;

/// A digest in hexadecimal digits.
pub(crate) fn digits_of(digest: &[u8; 32]) -> [u8; 64]
    ensures { result ≡ encode_lower digest.now }
{
    let mut digits = [0; 64];
    let _ = encode_to_slice(digest.as_slice(), &mut digits);
    digits
}

/// What a test's record says of the run.
fn write_run(out: &mut JsonWriter, test: &HistoryNode) -> Result<(), Memory>
    ensures { OnOk result (out.new ≡ out.old ++ all_member_tokens (run_members test.now [])) }
{
    out.text_member("id", test.id.as_slice())?;
    out.text_member("status", status_word(test.status).as_bytes())?;
    out.number_member("seed", test.seed as u128)?;
    out.number_member("time", test.time as u128)
}

fn write_members(out: &mut JsonWriter, test: &HistoryNode) -> Result<(), Memory>
    ensures { OnOk result (out.new ≡ out.old ++ all_member_tokens (test_members test.now)) }
{
    write_run(out, test)?;
    out.text_member("user", test.user.as_slice())?;
    out.number_member("point", test.point as u128)?;
    out.text_member("sha256", digits_of(&test.digest).as_slice())
}

fn write_test(out: &mut JsonWriter, test: &HistoryNode) -> Result<(), Memory>
    ensures { OnOk result (out.new ≡ out.old ++ json_tokens (test_value test.now)) }
{
    out.begin_object()?;
    write_members(out, test)?;
    out.end_object()?;
    Ok(())
}

/// All tests, in order.
pub(crate) fn write_tests(out: &mut JsonWriter, tests: &[HistoryNode]) -> Result<(), Memory>
    ensures { OnOk result (out.new ≡ out.old ++ json_tokens (tests_value tests.now)) }
{
    out.begin_array()?;
    for test in tests {
        write_test(out, test)?;
    }
    out.end_array()?;
    Ok(())
}
