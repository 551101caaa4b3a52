//! The bins of an item.
ghost use Rattle.std.specs.Prelude.{◌≡◌, ◌<◌, ◌++◌, length, OnOk};
ghost use Rattle.json_text.specs.Tree.{json_tokens};
ghost use Rattle.json_text.specs.Values.{all_member_tokens};
ghost use Rattle.merge_store.specs.Now.{nodes_now, count_now, excluded_now};
ghost use Rattle.merge_store.specs.Stores.{opening_of, entries_of};
ghost use Rattle.export_json.specs.Export.{bin_members, bin_members_at, bin_value, bins_value};

use bin_words::kind_word;
use cov_ground::Memory;
use design_data::BinKind;
use json_text::JsonWriter;
use merge_store::Store;
use store_views::{BinState, bins_under, kind_of, state_of, state_word};

fn write_members(
    out: &mut JsonWriter,
    name: &[u8],
    kind: BinKind,
    count: u64,
    state: BinState,
) -> Result<(), Memory>
    ensures { OnOk result (out.new ≡ out.old ++ all_member_tokens (bin_members name.now kind count state)) }
{
    out.text_member("name", name)?;
    out.text_member("kind", kind_word(kind).as_bytes())?;
    out.number_member("count", count as u128)?;
    out.text_member("state", state_word(state).as_bytes())
}

fn write_members_at(out: &mut JsonWriter, store: &Store, node: u32) -> Result<(), Memory>
    requires { node < length (nodes_now store.now) }
    ensures { OnOk result (out.new ≡ out.old ++ all_member_tokens (bin_members_at (nodes_now store.now)
        (count_now store.now) (excluded_now store.now) node)) }
{
    let state = state_of(store, node)?;
    let kind = kind_of(store, node);
    let count = store.count(node);
    let name = store.nodes()[node as usize].name.as_slice();
    write_members(out, name, kind, count, state)?;
    Ok(())
}

fn write_bin(out: &mut JsonWriter, store: &Store, node: u32) -> Result<(), Memory>
    requires { node < length (nodes_now store.now) }
    ensures { OnOk result (out.new ≡ out.old ++ json_tokens
        (bin_value (opening_of store.now) (entries_of store.now) node)) }
{
    out.begin_object()?;
    write_members_at(out, store, node)?;
    out.end_object()?;
    Ok(())
}

/// All bins under a node, in order.
pub(crate) fn write_bins(out: &mut JsonWriter, store: &Store, node: u32) -> Result<(), Memory>
    ensures { OnOk result (out.new ≡ out.old ++ json_tokens
        (bins_value (opening_of store.now) (entries_of store.now) node)) }
{
    out.begin_array()?;
    for bin in bins_under(store, node) {
        write_bin(out, store, *bin)?;
    }
    out.end_array()?;
    Ok(())
}
