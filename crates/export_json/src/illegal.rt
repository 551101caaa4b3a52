//! The illegal bins that were hit.
ghost use Rattle.std.specs.Prelude.{◌≡◌, ◌<◌, ◌++◌, [], length, OnOk, if◌then◌else◌};
ghost use Rattle.json_text.specs.Tree.{json_tokens};
ghost use Rattle.merge_store.specs.Now.{nodes_now, count_now};
ghost use Rattle.merge_store.specs.Stores.{opening_of, entries_of};
ghost use Rattle.store_views.specs.Views.{is_illegal_hit as hit_meant};
ghost use Rattle.export_json.specs.Export.{illegal_value, all_illegal_value};

use cov_ground::Memory;
use json_text::JsonWriter;
use merge_store::Store;
use store_views::{bins_under, is_illegal_hit};

#[tactic(auto, unfolding(crate::specs::Export::illegal_value, json_text::specs::Values::object_of, json_text::specs::Values::member_tokens))]
fn write_illegal(out: &mut JsonWriter, store: &Store, node: u32) -> Result<(), Memory>
    requires { node < length (nodes_now store.now) }
    ensures { OnOk result (out.new ≡ out.old ++ json_tokens
        (illegal_value (opening_of store.now) (entries_of store.now) node)) }
{
    let path = store.path_text(node)?;
    out.begin_object()?;
    out.text_member("path", path.as_slice())?;
    out.number_member("count", store.count(node) as u128)?;
    out.end_object()?;
    Ok(())
}

/// A bin, where it is an illegal one that was hit.
fn write_if_hit(out: &mut JsonWriter, store: &Store, node: u32) -> Result<(), Memory>
    requires { node < length (nodes_now store.now) }
    ensures { OnOk result (out.new ≡ out.old ++ (if hit_meant (nodes_now store.now) (count_now store.now) node
        then json_tokens (illegal_value (opening_of store.now) (entries_of store.now) node) else [])) }
{
    if !is_illegal_hit(store, node) {
        return Ok(());
    }
    write_illegal(out, store, node)
}

/// All illegal bins that were hit, in order.
pub(crate) fn write_all_illegal(out: &mut JsonWriter, store: &Store) -> Result<(), Memory>
    ensures { OnOk result (out.new ≡ out.old ++ json_tokens
        (all_illegal_value (opening_of store.now) (entries_of store.now))) }
{
    out.begin_array()?;
    for bin in bins_under(store, 0) {
        write_if_hit(out, store, *bin)?;
    }
    out.end_array()?;
    Ok(())
}
