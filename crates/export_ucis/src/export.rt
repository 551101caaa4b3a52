//! The whole text.
ghost use Rattle.std.specs.Prelude.{◌≡◌, ◌++◌, IfOk, OnOk, codes};
ghost use Rattle.markup.specs.Trees.{attribute, attribute_text, markup_text, start_text};
ghost use Rattle.merge_store.specs.Stores.{opening_of, entries_of};
ghost use Rattle.store_views.specs.Version.{version};
ghost use Rattle.export_ucis.specs.Export.{source_file, design_attributes, coverage_element, head_attributes, history_part, whole, ucis_text};

use crate::covers::append_types;
use crate::tests::{append_format_version, append_merge, append_tests, append_time};
use appending::append;
use cov_base::Memory;
use markup::{begin_tag, close, end_empty, end_line, end_tag, number, value};
use merge_store::Store;
use std::alloc::Global;
use store_views::{VERSION, all_tests, children};
use ucis_elements::append_source_id;
use ucis_model::HistoryNode;

/// The one source.
fn append_source(text: &mut Vec<u8>) -> Result<(), Memory>
    ensures { OnOk result (text.new.items ≡ text.old.items ++ markup_text source_file) }
{
    begin_tag(text, "sourceFiles")?;
    value(text, "fileName", b"design")?;
    number(text, "id", 1)?;
    end_empty(text)?;
    end_line(text)
}

/// The design as the instance of a module, up to its types.
fn begin_coverage(text: &mut Vec<u8>) -> Result<(), Memory>
    ensures { OnOk result (text.new.items ≡ text.old.items ++ start_text (codes "instanceCoverages") design_attributes) }
{
    begin_tag(text, "instanceCoverages")?;
    value(text, "name", b"design")?;
    number(text, "key", 0)?;
    value(text, "moduleName", b"design")?;
    end_tag(text)
}

/// The design with all its types.
fn append_coverage(alloc: Global, text: &mut Vec<u8>, store: &Store) -> Result<(), Memory>
    ensures { OnOk result (text.new.items ≡ text.old.items
        ++ markup_text (coverage_element (opening_of store.now) (entries_of store.now))) }
{
    let nodes = children(store, 0);
    begin_coverage(text)?;
    end_line(text)?;
    append_source_id(text, "id")?;
    end_line(text)?;
    append_types(alloc, text, store, nodes)?;
    close(text, "instanceCoverages")?;
    end_line(text)
}

/// The program with its version.
fn append_writer(alloc: Global, text: &mut Vec<u8>) -> Result<(), Memory>
    ensures { OnOk result (text.new.items ≡ text.old.items
        ++ attribute_text (attribute (codes "writtenBy") (codes "covd " ++ version))) }
{
    let mut writer = Vec::new(alloc);
    append(&mut writer, b"covd ")?;
    append(&mut writer, VERSION.as_bytes())?;
    value(text, "writtenBy", writer.as_slice())?;
    Ok(())
}

/// The first tag.
fn begin_whole(alloc: Global, text: &mut Vec<u8>) -> Result<(), Memory>
    ensures { OnOk result (text.new.items ≡ text.old.items ++ start_text (codes "UCIS") head_attributes) }
{
    begin_tag(text, "UCIS")?;
    append_format_version(text)?;
    append_writer(alloc, text)?;
    append_time(text, "writtenTime")?;
    end_tag(text)
}

/// What stands in the first tag's element before the coverage.
fn append_history(text: &mut Vec<u8>, tests: &[HistoryNode]) -> Result<(), Memory>
    ensures { OnOk result (text.new.items ≡ text.old.items ++ markup_text (history_part tests.now)) }
{
    append_source(text)?;
    append_merge(text)?;
    append_tests(text, tests)
}

/// All of it, with these tests.
fn append_whole(
    alloc: Global,
    text: &mut Vec<u8>,
    store: &Store,
    tests: &[HistoryNode],
) -> Result<(), Memory>
    ensures { OnOk result (text.new.items ≡ text.old.items
        ++ markup_text (whole (opening_of store.now) (entries_of store.now) tests.now)) }
{
    begin_whole(alloc, text)?;
    end_line(text)?;
    append_history(text, tests)?;
    append_coverage(alloc, text, store)?;
    close(text, "UCIS")?;
    end_line(text)
}

/// A store as a text of XML 1.0 in the interchange format of UCIS 1.0: its tests and what they make together as history
/// nodes, and each type that has an instance with its instances, their coverpoints and crosses and the bins of these. The
/// key of an element is the place of its node. All of it is printable ASCII and newlines, whatever names the design has. The
/// time is linear in the bins.
///
/// # Errors
/// Want of memory.
pub fn ucis_lines(alloc: Global, store: &Store) -> Result<Vec<u8>, Memory>
    ensures { IfOk result (λ text. text.items ≡ ucis_text (opening_of store.now) (entries_of store.now)) }
{
    let tests = all_tests(alloc, store)?;
    let mut text = Vec::new(alloc);
    append(&mut text, b"<?xml version='1.0' encoding='UTF-8'?>\n")?;
    append_whole(alloc, &mut text, store, tests.as_slice())?;
    Ok(text)
}
