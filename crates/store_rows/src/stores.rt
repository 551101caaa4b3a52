//! A store with a plain one beside it.
use ask_rows::design_of;
use design_data::Design;
use history_answers::PlainStore;
use merge_store::Store;
use std::alloc::Global;
use std::sync::Arc;

fn shared_design(alloc: Global, text: &str) -> Option<Arc<Design>> {
    match design_of(alloc, text) {
        Some(design) => Arc::new(alloc, design).ok(),
        None => None,
    }
}

/// A store without entries over the design of a text.
fn store_of(alloc: Global, text: &str) -> Option<Store> {
    match shared_design(alloc, text) {
        Some(design) => Store::new(alloc, design).ok(),
        None => None,
    }
}

/// A plain store without entries over the design of a text.
fn plain_of(alloc: Global, text: &str) -> Option<PlainStore> {
    match design_of(alloc, text) {
        Some(design) => Some(PlainStore::new(alloc, design)),
        None => None,
    }
}

/// A store, and a plain one over the same history; that one has no entries where the store stands alone.
#[derive(Drop)]
pub struct Stores {
    pub store: Store,
    pub plain: PlainStore,
    pub alone: bool,
}

impl Stores {
    /// Those without entries over the design of a text.
    pub fn of(alloc: Global, text: &str, alone: bool) -> Option<Stores> {
        let Some(plain) = plain_of(alloc, text) else {
            return None;
        };
        let Some(store) = store_of(alloc, text) else {
            return None;
        };
        Some(Stores {
            store,
            plain,
            alone,
        })
    }
}
