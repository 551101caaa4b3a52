//! Types with their instances.
ghost use Rattle.std.specs.Prelude.{◌≡◌, ◌<◌, ◌++◌, [], length, OnOk};
ghost use Rattle.json_text.specs.Tree.{json_tokens};
ghost use Rattle.json_text.specs.Values.{all_member_tokens};
ghost use Rattle.merge_store.specs.Now.{nodes_now};
ghost use Rattle.merge_store.specs.Stores.{opening_of, entries_of};
ghost use Rattle.export_json.specs.Export.{cover_members, members_at, instance_value, instances_value, type_value, types_value};

use crate::items::{write_items, write_millionths};
use cov_ground::Memory;
use json_text::JsonWriter;
use merge_store::Store;
use store_views::children;
use ucis_model::{CoverRow, Node};

/// What is said of a type or an instance before what it contains.
fn write_members(
    out: &mut JsonWriter,
    path: &[u8],
    row: CoverRow,
    node: &Node,
) -> Result<(), Memory>
    ensures { OnOk result (out.new ≡ out.old ++ all_member_tokens (cover_members path.now row node.now [])) }
{
    out.text_member("path", path)?;
    write_millionths(out, row.millionths)?;
    out.number_member("goal", node.goal as u128)?;
    out.truth_member("met", row.met)?;
    out.number_member("weight", node.weight as u128)?;
    out.truth_member("excluded", row.excluded)
}

fn write_members_at(out: &mut JsonWriter, store: &Store, node: u32) -> Result<(), Memory>
    requires { node < length (nodes_now store.now) }
    ensures { OnOk result (out.new ≡ out.old ++ all_member_tokens
        (members_at (opening_of store.now) (entries_of store.now) node [])) }
{
    let row = store.cover_row(node)?;
    let path = store.path_text(node)?;
    write_members(out, path.as_slice(), row, &store.nodes()[node as usize])?;
    Ok(())
}

/// An instance with its items.
fn write_instance(out: &mut JsonWriter, store: &Store, node: u32) -> Result<(), Memory>
    requires { node < length (nodes_now store.now) }
    ensures { OnOk result (out.new ≡ out.old ++ json_tokens
        (instance_value (opening_of store.now) (entries_of store.now) node)) }
{
    out.begin_object()?;
    write_members_at(out, store, node)?;
    out.key("items")?;
    write_items(out, store, node)?;
    out.end_object()?;
    Ok(())
}

/// All instances of a type, in order.
fn write_instances(out: &mut JsonWriter, store: &Store, node: u32) -> Result<(), Memory>
    ensures { OnOk result (out.new ≡ out.old ++ json_tokens
        (instances_value (opening_of store.now) (entries_of store.now) node)) }
{
    out.begin_array()?;
    for instance in children(store, node) {
        write_instance(out, store, *instance)?;
    }
    out.end_array()?;
    Ok(())
}

/// A type with its instances.
fn write_type(out: &mut JsonWriter, store: &Store, node: u32) -> Result<(), Memory>
    requires { node < length (nodes_now store.now) }
    ensures { OnOk result (out.new ≡ out.old ++ json_tokens
        (type_value (opening_of store.now) (entries_of store.now) node)) }
{
    out.begin_object()?;
    write_members_at(out, store, node)?;
    out.key("instances")?;
    write_instances(out, store, node)?;
    out.end_object()?;
    Ok(())
}

/// All types that have an instance, in order.
pub(crate) fn write_types(out: &mut JsonWriter, store: &Store) -> Result<(), Memory>
    ensures { OnOk result (out.new ≡ out.old ++ json_tokens
        (types_value (opening_of store.now) (entries_of store.now))) }
{
    out.begin_array()?;
    for group in children(store, 0) {
        write_type(out, store, *group)?;
    }
    out.end_array()?;
    Ok(())
}
