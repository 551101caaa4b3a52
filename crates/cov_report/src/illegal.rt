//! The lines of illegal bins that were hit.
ghost use Rattle.std.specs.Prelude.{◌≡◌, ◌<◌, ◌++◌, length, OnOk};
ghost use Rattle.ucis_model.specs.Paths.{path_of};
ghost use Rattle.merge_store.specs.Now.{nodes_now, count_now};
ghost use Rattle.cov_report.specs.Lines.{illegal_line};
ghost use Rattle.cov_report.specs.Report.{line_of_illegal, illegal_text};

use appending::{append, append_number};
use cov_base::Memory;
use merge_store::Store;
use store_views::{bins_under, is_illegal_hit};

fn append_illegal(text: &mut Vec<u8>, count: u64, path: &[u8]) -> Result<(), Memory>
    ensures { OnOk result (text.new.items ≡ text.old.items ++ illegal_line count path.now) }
{
    append(text, b"illegal ")?;
    append_number(text, count)?;
    append(text, b" ")?;
    append(text, path)?;
    append(text, b"\n")
}

/// The line of a bin, where it is an illegal one that was hit.
fn append_bin(text: &mut Vec<u8>, store: &Store, node: u32) -> Result<(), Memory>
    requires { node < length (nodes_now store.now) }
    ensures { OnOk result (text.new.items ≡ text.old.items ++ line_of_illegal (nodes_now store.now) (count_now store.now) node) }
{
    if !is_illegal_hit(store, node) {
        return Ok(());
    }
    let path = store.path_text(node)?;
    append_illegal(text, store.count(node), path.as_slice())?;
    Ok(())
}

/// A line for each illegal bin that was hit.
pub(crate) fn append_all_illegal(text: &mut Vec<u8>, store: &Store) -> Result<(), Memory>
    ensures { OnOk result (text.new.items ≡ text.old.items ++ illegal_text (nodes_now store.now) (count_now store.now)) }
{
    for bin in bins_under(store, 0) {
        append_bin(text, store, *bin)?;
    }
    Ok(())
}
