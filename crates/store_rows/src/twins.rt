//! What a store is handed for an ask, with what has to be worked out for it beforehand.
ghost use Rattle.std.specs.Prelude.{◌≡◌, IfSome, true};
ghost use Rattle.cov_history.specs.Tables.{same_tables as same_tables_meant};
ghost use Rattle.store_core.specs.Asks.{Meets, IsReadied};
ghost use Rattle.merge_store.specs.Stores.{opening_of, entries_of};

use ask_rows::compiled_of;
use cov_base::OpenGate;
use cov_compile::Compiled;
use cov_history::Ask;
use history_answers::{fits, same_tables};
use merge_store::Store;
use record_codec::Record;
use sampler::prepare;
use std::alloc::Global;
use std::thread::Threads;
use store_core::{Ask as Twin, Core, Rebinned, rebin};

/// To admit a record, which is prepared under the design of now.
#[tactic(auto, using(crate::proofs::Meeting::prepared_now))]
fn admission(alloc: Global, store: &Store, content: Record) -> Option<Twin>
    ensures { IfSome result (λ twin. Meets (opening_of store.now) (entries_of store.now) twin) }
{
    let design = store.design();
    if !fits(design, &content) {
        return None;
    }
    let since = store.point();
    match prepare(alloc, design, content, &OpenGate) {
        Ok(prepared) => Some(Twin::Admit { since, prepared }),
        Err(_) => None,
    }
}

/// A compiled text for which the tests of now are counted.
#[tactic(auto, using(crate::proofs::Meeting::readied_now))]
fn rebinned<R: Threads + Sync>(
    rt: &R,
    alloc: Global,
    store: &Store,
    compiled: Compiled,
) -> Option<Rebinned>
    requires { same_tables_meant compiled.design (opening_of store.now) ≡ true }
    ensures { IfSome result (λ rebinned. IsReadied (opening_of store.now) (entries_of store.now)
        rebinned) }
{
    let Ok(basis) = store.basis() else {
        return None;
    };
    match rebin(rt, alloc, compiled, &basis, &OpenGate) {
        Ok(rebinned) => Some(rebinned),
        Err(_) => None,
    }
}

/// To take the design of a text.
fn revised<R: Threads + Sync>(rt: &R, alloc: Global, store: &Store, text: &[u8]) -> Option<Twin>
    ensures { IfSome result (λ twin. Meets (opening_of store.now) (entries_of store.now) twin) }
{
    let compiled = compiled_of(alloc, text)?;
    if !same_tables(compiled.design(), store.opening()) {
        return None;
    }
    let rebinned = rebinned(rt, alloc, store, compiled)?;
    Some(Twin::Revise(rebinned))
}

/// What the store is handed for an ask that was made for the history of now; None where it wasn't.
pub fn twin_of<R: Threads + Sync>(rt: &R, alloc: Global, store: &Store, ask: Ask) -> Option<Twin>
    ensures { IfSome result (λ twin. Meets (opening_of store.now) (entries_of store.now) twin) }
{
    match ask {
        Ask::Hello { point } => Some(Twin::Hello { point }),
        Ask::Counts { first, path } => Some(Twin::Counts { first, path }),
        Ask::Coverage { path } => Some(Twin::Coverage { path }),
        Ask::Illegal { first } => Some(Twin::Illegal { first }),
        Ask::Tests { first } => Some(Twin::Tests { first }),
        Ask::TestCounts { first, id, path } => Some(Twin::TestCounts { first, id, path }),
        Ask::Rank => Some(Twin::Rank),
        Ask::NameOf { bin } => Some(Twin::NameOf { bin }),
        Ask::Exclude { path } => Some(Twin::Exclude { path }),
        Ask::Include { path } => Some(Twin::Include { path }),
        Ask::Fetch { place, offset } => Some(Twin::Fetch { place, offset }),
        Ask::Admit { content, .. } => admission(alloc, store, content),
        Ask::Revise { revision, .. } => revised(rt, alloc, store, revision.text.as_slice()),
    }
}
