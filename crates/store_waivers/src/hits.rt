//! Bins that are out and were hit all the same.
ghost use Rattle.std.specs.Prelude.{◌≡◌, ◌<◌, ◌++◌, length, IfOk, OnOk};
ghost use Rattle.merge_store.specs.Stores.{opening_of, entries_of};
ghost use Rattle.merge_store.specs.Now.{nodes_now, count_now, excluded_now};
ghost use Rattle.store_waivers.specs.Lines.{is_hit_out as hit_meant, hit_line, line_of_hit, hit_lines};

use appending::{append, append_number};
use cov_base::Memory;
use merge_store::Store;
use store_views::{BinState, bins_under, state_of};

/// Whether a bin is out and was hit all the same.
fn is_hit_out(store: &Store, node: u32) -> Result<bool, Memory>
    requires { node < length (nodes_now store.now) }
    ensures { IfOk result (λ is. is
        ≡ hit_meant (nodes_now store.now) (count_now store.now) (excluded_now store.now) node) }
{
    match state_of(store, node)? {
        BinState::Out => Ok(store.count(node) > 0),
        _ => Ok(false),
    }
}

fn append_hit(text: &mut Vec<u8>, count: u64, path: &[u8]) -> Result<(), Memory>
    ensures { OnOk result (text.new.items ≡ text.old.items ++ hit_line count path.now) }
{
    append(text, b"hit ")?;
    append_number(text, count)?;
    append(text, b" ")?;
    append(text, path)?;
    append(text, b"\n")
}

/// The line of a bin, where it is out and was hit all the same.
fn append_bin(text: &mut Vec<u8>, store: &Store, node: u32) -> Result<(), Memory>
    requires { node < length (nodes_now store.now) }
    ensures { OnOk result (text.new.items
        ≡ text.old.items ++ line_of_hit (nodes_now store.now) (count_now store.now) (excluded_now store.now) node) }
{
    if !is_hit_out(store, node)? {
        return Ok(());
    }
    let path = store.path_text(node)?;
    append_hit(text, store.count(node), path.as_slice())?;
    Ok(())
}

/// Adds a line `hit COUNT PATH` for each bin that counts for coverage, is out, or below a node that is, and was hit all
/// the same. Bins come in order. The only error is want of memory; the text may then have some of the lines.
pub fn append_hits(text: &mut Vec<u8>, store: &Store) -> Result<(), Memory>
    ensures { OnOk result (text.new.items
        ≡ text.old.items ++ hit_lines (opening_of store.now) (entries_of store.now)) }
{
    for bin in bins_under(store, 0) {
        append_bin(text, store, *bin)?;
    }
    Ok(())
}
