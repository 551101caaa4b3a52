//! The port of one caller.
use crate::Port;
use cov_base::{Book, Memory};
use cov_history::Entry;
use cov_tree::List;
use std::thread::Threads;
use store_core::{Ask, Basis, Core};
use ucis_model::Answered;

/// A store with one caller, whose number is 0.
#[derive(Drop)]
pub struct Alone<C> {
    pub store: C,
}

impl<C: Core> Port for Alone<C> {
    ghost use Rattle.session_table.specs.Alone.{own_from, others};

    type Rest = List<Entry>;

    ghost rest = { λ a. others 0 (C.entries a.store) };

    ghost opening = { λ a. C.base a.store };

    ghost caller = { λ a. 0 };

    ghost seen = { λ a. C.entries a.store };

    ghost own = { λ a. own_from 0 0 (C.entries a.store) };

    ghost lawful = { λ a. C.lawful (C.base a.store) (C.entries a.store) (C.is_sound a.store) };

    fn turn<R: Threads + Sync>(&mut self, rt: &R, ask: Ask) -> Answered {
        self.store.serve(rt, 0, ask)
    }

    fn basis(&mut self) -> Result<Basis, Memory> {
        self.store.basis()
    }

    fn point(&self) -> u64 {
        self.store.len()
    }
}
