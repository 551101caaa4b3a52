//! Sequences whose lists an earlier sequence of the declaration has.
ghost use Rattle.std.specs.Prelude.{◌≡◌, ◌<◌, IsTrue, IfOk, length};
ghost use Rattle.trans_found.specs.Found.{IsHeldBefore};

use cov_base::Memory;
use std::alloc::Global;
use std::collections::HashMap;
use trans_found::marks::with_items;
use trans_seq::Seq;

/// By the mark of its items, the place of the first such sequence.
#[derive(Drop)]
pub(crate) struct Met {
    places: HashMap<i128, usize>,
}

/// Whether the first of the two places is the earlier one, and the same sequence stands there.
fn is_repeated(seqs: &[Seq], first: usize, place: usize) -> bool
    requires { place < length seqs.now }
    ensures { IsTrue result → IsHeldBefore seqs.now place }
{
    if first >= place {
        return false;
    }
    seqs[place].is_same(&seqs[first])
}

/// No sequence. It takes no memory.
pub(crate) fn none_met(alloc: Global) -> Met {
    Met {
        places: HashMap::new(alloc),
    }
}

/// Whether an earlier sequence is known to have all lists of the one at this place.
pub(crate) fn is_held(
    alloc: Global,
    seqs: &[Seq],
    place: usize,
    met: &mut Met,
) -> Result<bool, Memory>
    requires { place < length seqs.now }
    ensures { IfOk result (λ held. IsTrue held → IsHeldBefore seqs.now place) }
{
    let mark = with_items(0, seqs[place].items.as_slice());
    if let Some(first) = met.places.get(&mark) {
        return Ok(is_repeated(seqs, *first, place));
    }
    met.places.insert(mark, place)?;
    Ok(false)
}
