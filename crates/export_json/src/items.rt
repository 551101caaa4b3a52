//! The coverpoints and crosses of an instance.
ghost use Rattle.std.specs.Prelude.{◌≡◌, ◌<◌, ◌++◌, [], length, OnOk};
ghost use Rattle.json_text.specs.Tree.{json_tokens};
ghost use Rattle.json_text.specs.Values.{member_tokens, all_member_tokens};
ghost use Rattle.ucis_model.specs.Paths.{node_at, path_of};
ghost use Rattle.merge_store.specs.Now.{nodes_now};
ghost use Rattle.merge_store.specs.Stores.{opening_of, entries_of};
ghost use Rattle.store_views.specs.Views.{rows_at};
ghost use Rattle.export_json.specs.Export.{millionths_member, bins_total_member, item_word as word_meant, goal_members, item_members, item_value, items_value};

use crate::bins::write_bins;
use cov_ground::Memory;
use json_text::JsonWriter;
use merge_store::Store;
use store_views::children;
use ucis_model::{CoverRow, Node, NodeKind};

fn item_word(kind: NodeKind) -> &'static str
    ensures { result.now ≡ word_meant kind }
{
    match kind {
        NodeKind::Cross => "cross",
        _ => "coverpoint",
    }
}

/// Coverage in millionths.
pub(crate) fn write_millionths(out: &mut JsonWriter, millionths: u32) -> Result<(), Memory>
    ensures { OnOk result (out.new ≡ out.old ++ member_tokens (millionths_member millionths)) }
{
    out.number_member("millionths", millionths as u128)?;
    Ok(())
}

/// How many coverage bins are not excluded.
fn write_bins_total(out: &mut JsonWriter, bins: u32) -> Result<(), Memory>
    ensures { OnOk result (out.new ≡ out.old ++ member_tokens (bins_total_member bins)) }
{
    out.number_member("bins_total", bins as u128)?;
    Ok(())
}

/// The coverage of an item, and its options.
fn write_goal(out: &mut JsonWriter, path: &[u8], row: CoverRow, node: &Node) -> Result<(), Memory>
    ensures { OnOk result (out.new ≡ out.old ++ all_member_tokens (goal_members path.now row node.now [])) }
{
    out.text_member("path", path)?;
    out.text_member("kind", item_word(node.kind).as_bytes())?;
    write_millionths(out, row.millionths)?;
    out.number_member("goal", node.goal as u128)?;
    out.number_member("at_least", node.at_least as u128)
}

/// What is said of an item before its bins.
fn write_members(
    out: &mut JsonWriter,
    path: &[u8],
    row: CoverRow,
    node: &Node,
) -> Result<(), Memory>
    ensures { OnOk result (out.new ≡ out.old ++ all_member_tokens (item_members path.now row node.now [])) }
{
    write_goal(out, path, row, node)?;
    out.truth_member("met", row.met)?;
    out.number_member("covered", row.covered as u128)?;
    write_bins_total(out, row.bins)?;
    out.truth_member("excluded", row.excluded)
}

fn write_members_at(out: &mut JsonWriter, store: &Store, node: u32) -> Result<(), Memory>
    requires { node < length (nodes_now store.now) }
    ensures { OnOk result (out.new ≡ out.old ++ all_member_tokens (item_members (path_of (nodes_now store.now) node)
        (rows_at (opening_of store.now) (entries_of store.now) node) (node_at (nodes_now store.now) node) [])) }
{
    let row = store.cover_row(node)?;
    let path = store.path_text(node)?;
    write_members(out, path.as_slice(), row, &store.nodes()[node as usize])?;
    Ok(())
}

/// An item with its bins.
fn write_item(out: &mut JsonWriter, store: &Store, node: u32) -> Result<(), Memory>
    requires { node < length (nodes_now store.now) }
    ensures { OnOk result (out.new ≡ out.old ++ json_tokens
        (item_value (opening_of store.now) (entries_of store.now) node)) }
{
    out.begin_object()?;
    write_members_at(out, store, node)?;
    out.key("bins")?;
    write_bins(out, store, node)?;
    out.end_object()?;
    Ok(())
}

/// All items of an instance, in order.
pub(crate) fn write_items(out: &mut JsonWriter, store: &Store, node: u32) -> Result<(), Memory>
    ensures { OnOk result (out.new ≡ out.old ++ json_tokens
        (items_value (opening_of store.now) (entries_of store.now) node)) }
{
    out.begin_array()?;
    for item in children(store, node) {
        write_item(out, store, *item)?;
    }
    out.end_array()?;
    Ok(())
}
