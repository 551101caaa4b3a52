//! The lines of coverage.
ghost use Rattle.std.specs.Prelude.{◌≡◌, ◌<◌, ◌++◌, [], codes, length, IfOk, OnOk, if◌then◌else◌};
ghost use Rattle.ucis_model.specs.Paths.{node_at, path_of};
ghost use Rattle.cov_history.specs.History.{design_of};
ghost use Rattle.merge_store.specs.Now.{nodes_now};
ghost use Rattle.merge_store.specs.Stores.{opening_of, entries_of};
ghost use Rattle.cov_report.specs.Lines.{overall_line, goal_word as goal_meant, bins_and_goal, cover_line, item_line, item_word as word_meant};
ghost use Rattle.cov_report.specs.Report.{is_printed as is_printed_meant, line_of_item, lines_of_instance, lines_of_type, coverage_text};
ghost use Rattle.store_views.specs.Views.{rows_at};

use appending::{append, append_number};
use cov_base::Memory;
use cov_tree::Name;
use design_data::InstInfo;
use merge_store::Store;
use store_views::children;
use ucis_model::{CoverRow, NodeKind};

fn goal_word(met: bool) -> &'static str
    ensures { result.now ≡ goal_meant met }
{
    if met { "met" } else { "miss" }
}

fn item_word(kind: NodeKind) -> &'static str
    ensures { result.now ≡ word_meant kind }
{
    match kind {
        NodeKind::Cross => "cross",
        _ => "point",
    }
}

/// The line of a type or an instance.
fn append_cover(text: &mut Vec<u8>, word: &str, path: &[u8], row: CoverRow) -> Result<(), Memory>
    ensures { OnOk result (text.new.items ≡ text.old.items ++ cover_line word.now path.now row) }
{
    append(text, word.as_bytes())?;
    append(text, b" ")?;
    append(text, path)?;
    append(text, b" ")?;
    append_number(text, row.millionths as u64)?;
    append(text, b" ")?;
    append(text, goal_word(row.met).as_bytes())?;
    append(text, b"\n")
}

/// How many of an item's bins are covered, and whether its goal is met.
fn append_bins(text: &mut Vec<u8>, row: CoverRow) -> Result<(), Memory>
    ensures { OnOk result (text.new.items ≡ text.old.items ++ bins_and_goal row) }
{
    append_number(text, row.covered as u64)?;
    append(text, b"/")?;
    append_number(text, row.bins as u64)?;
    append(text, b" ")?;
    append(text, goal_word(row.met).as_bytes())?;
    append(text, b"\n")
}

/// The line of an item.
fn append_item(text: &mut Vec<u8>, word: &str, path: &[u8], row: CoverRow) -> Result<(), Memory>
    ensures { OnOk result (text.new.items ≡ text.old.items ++ item_line word.now path.now row) }
{
    append(text, word.as_bytes())?;
    append(text, b" ")?;
    append(text, path)?;
    append(text, b" ")?;
    append_number(text, row.millionths as u64)?;
    append(text, b" ")?;
    append_bins(text, row)
}

/// The line of an item.
fn append_item_at(text: &mut Vec<u8>, store: &Store, node: u32) -> Result<(), Memory>
    requires { node < length (nodes_now store.now) }
    ensures { OnOk result (text.new.items ≡ text.old.items
        ++ line_of_item (nodes_now store.now) (rows_at (opening_of store.now) (entries_of store.now)) node) }
{
    let row = store.cover_row(node)?;
    let path = store.path_text(node)?;
    let word = item_word(store.nodes()[node as usize].kind);
    append_item(text, word, path.as_slice(), row)?;
    Ok(())
}

/// Whether the instance of a name is printed.
fn is_printed(instances: &[InstInfo], name: &Name) -> bool
    ensures { result ≡ is_printed_meant instances.now name.now }
{
    instances
        .iter()
        .any(|instance| instance.name == *name && instance.print)
}

/// The line of a type or an instance.
fn append_cover_at(text: &mut Vec<u8>, store: &Store, word: &str, node: u32) -> Result<(), Memory>
    requires { node < length (nodes_now store.now) }
    ensures { OnOk result (text.new.items ≡ text.old.items ++ cover_line word.now (path_of (nodes_now store.now) node)
        (rows_at (opening_of store.now) (entries_of store.now) node)) }
{
    let row = store.cover_row(node)?;
    let path = store.path_text(node)?;
    append_cover(text, word, path.as_slice(), row)?;
    Ok(())
}

/// The line of an instance, where it is printed.
fn append_printed(text: &mut Vec<u8>, store: &Store, node: u32) -> Result<(), Memory>
    requires { node < length (nodes_now store.now) }
    ensures { OnOk result (text.new.items ≡ text.old.items
        ++ (if is_printed_meant (design_of (opening_of store.now) (entries_of store.now)).instances
        (node_at (nodes_now store.now) node).name
        then cover_line (codes "instance") (path_of (nodes_now store.now) node)
        (rows_at (opening_of store.now) (entries_of store.now) node) else [])) }
{
    let instances = store.design().instances();
    if is_printed(instances, &store.nodes()[node as usize].name) {
        append_cover_at(text, store, "instance", node)?;
    }
    Ok(())
}

/// The lines of an instance and its items.
fn append_instance(text: &mut Vec<u8>, store: &Store, node: u32) -> Result<(), Memory>
    requires { node < length (nodes_now store.now) }
    ensures { OnOk result (text.new.items ≡ text.old.items
        ++ lines_of_instance (design_of (opening_of store.now) (entries_of store.now)).instances (nodes_now store.now)
        (rows_at (opening_of store.now) (entries_of store.now)) node) }
{
    append_printed(text, store, node)?;
    for item in children(store, node) {
        append_item_at(text, store, *item)?;
    }
    Ok(())
}

/// The lines of a type, its instances and their items.
fn append_type(text: &mut Vec<u8>, store: &Store, node: u32) -> Result<(), Memory>
    requires { node < length (nodes_now store.now) }
    ensures { OnOk result (text.new.items ≡ text.old.items
        ++ lines_of_type (design_of (opening_of store.now) (entries_of store.now)).instances (nodes_now store.now)
        (rows_at (opening_of store.now) (entries_of store.now)) node) }
{
    append_cover_at(text, store, "type", node)?;
    for instance in children(store, node) {
        append_instance(text, store, *instance)?;
    }
    Ok(())
}

/// The line of the coverage of all.
fn append_overall(text: &mut Vec<u8>, millionths: u32) -> Result<(), Memory>
    ensures { OnOk result (text.new.items ≡ text.old.items ++ overall_line millionths) }
{
    append(text, b"overall ")?;
    append_number(text, millionths as u64)?;
    append(text, b"\n")
}

/// The coverage of all, what stands below it, and the lines of each type.
pub(crate) fn append_coverage(text: &mut Vec<u8>, store: &Store, below: &[u8]) -> Result<(), Memory>
    ensures { OnOk result (text.new.items ≡ text.old.items ++ coverage_text below.now
        (design_of (opening_of store.now) (entries_of store.now)).instances (nodes_now store.now)
        (rows_at (opening_of store.now) (entries_of store.now))) }
{
    append_overall(text, store.cover_row(0)?.millionths)?;
    append(text, below)?;
    for group in children(store, 0) {
        append_type(text, store, *group)?;
    }
    Ok(())
}
