//! How bins stand.
ghost use Rattle.std.specs.Prelude.{◌≡◌, ◌<◌, length, IfOk};
ghost use Rattle.cov_history.specs.Coverage.{is_covered as covered_meant};
ghost use Rattle.merge_store.specs.Now.{nodes_now, count_now, excluded_now};
ghost use Rattle.store_views.specs.Views.{state_at, counted_state, is_illegal_hit as hit_meant};
ghost use Rattle.cov_history.specs.Nodes.{kind_of_bin};

use cov_base::Memory;
use design_data::BinKind;
use merge_store::Store;
use ucis_model::NodeKind;

/// How a bin stands.
#[derive(Clone, Copy, PartialEq, Eq)]
pub enum BinState {
    /// It was hit at least as often as it has to be (`option.at_least`, IEEE 1800-2017, 19.7).
    Covered,
    /// It was hit less often.
    Hole,
    /// It, or a node above it, is excluded.
    Out,
    /// It is no bin for coverage: an illegal one (19.5.6), an ignored one (19.5.5) or a default one (19.5.1).
    Uncounted,
}

/// How a bin that counts for coverage stands.
fn counted(excluded: bool, covered: bool) -> BinState
    ensures { result ≡ counted_state excluded covered }
{
    match (excluded, covered) {
        (true, _) => BinState::Out,
        (false, true) => BinState::Covered,
        (false, false) => BinState::Hole,
    }
}

/// Whether the bin that a node is was hit as often as it has to be.
fn is_covered(store: &Store, node: u32) -> bool
    requires { node < length (nodes_now store.now) }
    ensures { result ≡ covered_meant (nodes_now store.now) (count_now store.now) node }
{
    store.nodes()[node as usize].at_least as u64 <= store.count(node)
}

/// Whether a node, or one above it, is excluded.
fn is_out(store: &Store, node: u32) -> Result<bool, Memory>
    ensures { IfOk result (λ out. out ≡ excluded_now store.now node) }
{
    let row = store.cover_row(node)?;
    Ok(row.excluded)
}

/// The kind of the bin that a node is; that of a default bin, of a node that is none.
pub fn kind_of(store: &Store, node: u32) -> BinKind
    requires { node < length (nodes_now store.now) }
    ensures { result ≡ kind_of_bin (nodes_now store.now) node }
{
    match store.nodes()[node as usize].kind {
        NodeKind::Bin(kind) => kind,
        _ => BinKind::DefaultBin,
    }
}

/// Whether a node is an illegal bin that was hit.
pub fn is_illegal_hit(store: &Store, node: u32) -> bool
    requires { node < length (nodes_now store.now) }
    ensures { result ≡ hit_meant (nodes_now store.now) (count_now store.now) node }
{
    match kind_of(store, node) {
        BinKind::IllegalBin => store.count(node) > 0,
        _ => false,
    }
}

/// How the bin that a node is stands. No memory is taken for a bin.
///
/// # Errors
/// Want of memory, of a node that is no bin.
pub fn state_of(store: &Store, node: u32) -> Result<BinState, Memory>
    requires { node < length (nodes_now store.now) }
    ensures { IfOk result (λ state. state
        ≡ state_at (nodes_now store.now) (count_now store.now) (excluded_now store.now) node) }
{
    if !kind_of(store, node).is_coverage() {
        return Ok(BinState::Uncounted);
    }
    let out = is_out(store, node)?;
    Ok(counted(out, is_covered(store, node)))
}
