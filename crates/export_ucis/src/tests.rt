//! The tests of a store.
ghost use Rattle.std.specs.Prelude.{◌≡◌, ◌++◌, codes, OnOk};
ghost use Rattle.markup.specs.Trees.{attribute, attribute_text, attributes_text, markup_text, start_text};
ghost use Rattle.store_views.specs.Version.{version};
ghost use Rattle.export_ucis.specs.Tests.{format_version, no_time, tool_versions, tool_attributes, merge_id, merge_node, has_passed as passed_meant, test_id, run_attributes, test_attributes, test_node, test_nodes};

use cov_base::Memory;
use markup::{begin_tag, close, end_empty, end_line, end_tag, number, truth, value};
use store_views::{VERSION, status_word};
use ucis_elements::append_user_attr;
use ucis_model::HistoryNode;

/// The version of the format.
pub(crate) fn append_format_version(text: &mut Vec<u8>) -> Result<(), Memory>
    ensures { OnOk result (text.new.items ≡ text.old.items
        ++ attribute_text (attribute (codes "ucisVersion") format_version)) }
{
    value(text, "ucisVersion", b"1.0")
}

/// A time, as an attribute of this name.
pub(crate) fn append_time(text: &mut Vec<u8>, name: &str) -> Result<(), Memory>
    ensures { OnOk result (text.new.items ≡ text.old.items ++ attribute_text (attribute name.now no_time)) }
{
    value(text, name, b"1970-01-01T00:00:00Z")
}

/// The version of the program.
fn append_version(text: &mut Vec<u8>) -> Result<(), Memory>
    ensures { OnOk result (text.new.items ≡ text.old.items
        ++ attribute_text (attribute (codes "vendorToolVersion") version)) }
{
    value(text, "vendorToolVersion", VERSION.as_bytes())
}

/// The versions of the format and of the program.
fn append_versions(text: &mut Vec<u8>) -> Result<(), Memory>
    ensures { OnOk result (text.new.items ≡ text.old.items ++ attributes_text tool_versions) }
{
    append_format_version(text)?;
    value(text, "vendorId", b"covd")?;
    value(text, "vendorTool", b"covd")?;
    append_version(text)
}

/// What made a node.
#[tactic(auto, unfolding(crate::specs::Tests::tool_attributes))]
fn append_tool(text: &mut Vec<u8>, category: &str) -> Result<(), Memory>
    ensures { OnOk result (text.new.items ≡ text.old.items ++ attributes_text (tool_attributes category.now)) }
{
    append_time(text, "date")?;
    value(text, "toolCategory", category.as_bytes())?;
    append_versions(text)
}

/// What the merge is called.
fn append_merge_id(text: &mut Vec<u8>) -> Result<(), Memory>
    ensures { OnOk result (text.new.items ≡ text.old.items ++ attributes_text merge_id) }
{
    number(text, "historyNodeId", 0)?;
    value(text, "logicalName", b"merge")?;
    value(text, "kind", b"MERGE")?;
    truth(text, "testStatus", true)
}

/// What all tests make together.
pub(crate) fn append_merge(text: &mut Vec<u8>) -> Result<(), Memory>
    ensures { OnOk result (text.new.items ≡ text.old.items ++ markup_text merge_node) }
{
    begin_tag(text, "historyNodes")?;
    append_merge_id(text)?;
    append_tool(text, "UCIS:Merge")?;
    end_empty(text)?;
    end_line(text)
}

/// Whether a test ended without an error.
fn has_passed(status: u8) -> bool
    ensures { result ≡ passed_meant status }
{
    status < 2
}

/// What a test's record says of the run.
fn append_run(text: &mut Vec<u8>, test: &HistoryNode) -> Result<(), Memory>
    ensures { OnOk result (text.new.items ≡ text.old.items ++ attributes_text (run_attributes test.now)) }
{
    truth(text, "testStatus", has_passed(test.status))?;
    number(text, "simtime", test.time)?;
    number(text, "seed", test.seed)?;
    value(text, "userName", test.user.as_slice())
}

/// The number of a test, and its id.
fn append_test_id(text: &mut Vec<u8>, id: u64, test: &HistoryNode) -> Result<(), Memory>
    ensures { OnOk result (text.new.items ≡ text.old.items ++ attributes_text (test_id id test.now)) }
{
    number(text, "historyNodeId", id)?;
    number(text, "parentId", 0)?;
    value(text, "logicalName", test.id.as_slice())?;
    value(text, "kind", b"TEST")
}

/// The first tag of a test.
fn begin_test(text: &mut Vec<u8>, id: u64, test: &HistoryNode) -> Result<(), Memory>
    ensures { OnOk result (text.new.items ≡ text.old.items ++ start_text (codes "historyNodes")
        (test_attributes id test.now)) }
{
    begin_tag(text, "historyNodes")?;
    append_test_id(text, id, test)?;
    append_run(text, test)?;
    append_tool(text, "UCIS:Simulator")?;
    end_tag(text)
}

fn append_test(text: &mut Vec<u8>, id: u64, test: &HistoryNode) -> Result<(), Memory>
    ensures { OnOk result (text.new.items ≡ text.old.items ++ markup_text (test_node id test.now)) }
{
    begin_test(text, id, test)?;
    append_user_attr(text, "status", status_word(test.status).as_bytes())?;
    close(text, "historyNodes")?;
    end_line(text)
}

/// Tests, in order, with numbers from 1 on.
pub(crate) fn append_tests(text: &mut Vec<u8>, tests: &[HistoryNode]) -> Result<(), Memory>
    ensures { OnOk result (text.new.items ≡ text.old.items ++ markup_text (test_nodes 1 tests.now)) }
{
    for (place, test) in tests.iter().enumerate() {
        append_test(text, place as u64 + 1, test)?;
    }
    Ok(())
}
