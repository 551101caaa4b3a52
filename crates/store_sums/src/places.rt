//! The paths at the nodes that are out.
ghost use Rattle.std.specs.Prelude.{◌≡◌, Some, None, IfNone, IfOk, slice_index_or, slice_set, is_some, replicate};

use cov_base::Memory;
use cov_tree::Name;
use std::alloc::Global;
use std::sync::Arc;

/// Nothing is out of so many nodes.
pub fn nothing_out(alloc: Global, nodes: u32) -> Result<Vec<Option<Arc<Name>>>, Memory>
    ensures { IfOk result (λ out. out.items ≡ replicate nodes None) }
{
    let mut out = Vec::new(alloc);
    for _ in 0..nodes {
        out.push(None)?;
    }
    Ok(out)
}

/// Takes what stands at a place.
pub(crate) fn take_at(out: &mut Vec<Option<Arc<Name>>>, at: usize) -> Option<Arc<Name>>
    ensures items { out.new.items ≡ slice_set out.old.items at None }
    ensures none { IfNone result (out.new.items ≡ out.old.items) }
    ensures value { result ≡ slice_index_or out.old.items at None }
{
    if at >= out.len() {
        return None;
    }
    out[at].take()
}

/// Puts a path to a place, if it is one.
pub fn put_at(out: &mut Vec<Option<Arc<Name>>>, at: usize, path: Arc<Name>)
    ensures { out.new.items ≡ slice_set out.old.items at (Some path) }
{
    if at < out.len() {
        out[at] = Some(path);
    }
}

/// Whether a path stands at a place.
pub(crate) fn is_some_at(out: &[Option<Arc<Name>>], at: usize) -> bool
    ensures { result ≡ is_some (slice_index_or out.now at None) }
{
    if at >= out.len() {
        return false;
    }
    out[at].is_some()
}
