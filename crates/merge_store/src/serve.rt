//! All asks.
ghost use Rattle.std.specs.Prelude.{◌≡◌, length, IfOk};
ghost use Rattle.cov_history.specs.Answers.{Serves};
ghost use Rattle.store_core.specs.Asks.{asked, Meets};
ghost use Rattle.merge_store.specs.Stores.{opening_of, entries_of};

use crate::Store;
use cov_base::Memory;
use design_data::Design;
use std::sync::Arc;
use std::thread::Threads;
use store_core::{Ask, Basis, Core};
use store_parts::{
    of_admit, of_chunk, of_coverage, of_exclude, of_illegal, of_include, of_name, of_rank,
    of_revise, of_rows, of_tests,
};
use ucis_model::{Answer, Answered};

impl Store {
    fn answer<R: Threads + Sync>(&mut self, rt: &R, caller: u32, ask: Ask) -> Answer
        requires { Meets (opening_of self.old) (entries_of self.old) ask }
        ensures opening { opening_of self.new ≡ opening_of self.old }
        ensures served { Serves (opening_of self.old) caller (entries_of self.old) (asked ask) result (entries_of self.new) }
    {
        match ask {
            Ask::Hello { point } => self.hello(point),
            Ask::Counts { first, path } => of_rows(self.counts(first, path.as_slice())),
            Ask::Coverage { path } => of_coverage(self.coverage(path.as_slice())),
            Ask::Illegal { first } => of_illegal(self.illegal(first)),
            Ask::Tests { first } => of_tests(self.tests(first)),
            Ask::TestCounts { first, id, path } => {
                of_rows(self.test_counts(first, id.as_slice(), path.as_slice()))
            }
            Ask::Rank => of_rank(self.rank(rt)),
            Ask::NameOf { bin } => of_name(self.name_of(bin)),
            Ask::Admit { since, prepared } => of_admit(self.admit(caller, since, prepared)),
            Ask::Exclude { path } => of_exclude(self.exclude(caller, path.as_slice())),
            Ask::Include { path } => of_include(self.include(caller, path.as_slice())),
            Ask::Revise(rebinned) => of_revise(self.revise(caller, rebinned)),
            Ask::Fetch { place, offset } => of_chunk(self.fetch(place, offset)),
        }
    }

    /// Answers one ask at its entries, and adds the entry of a change that is made. The point is that after it. Hello and
    /// Include take no memory.
    pub fn serve<R: Threads + Sync>(&mut self, rt: &R, caller: u32, ask: Ask) -> Answered
        requires { Meets (opening_of self.old) (entries_of self.old) ask }
        ensures opening { opening_of self.new ≡ opening_of self.old }
        ensures served { Serves (opening_of self.old) caller (entries_of self.old)
            (asked ask) result.answer (entries_of self.new) }
        ensures point { result.point ≡ length (entries_of self.new) }
    {
        let answer = self.answer(rt, caller, ask);
        let point = self.point();
        Answered { point, answer }
    }
}

impl Core for Store {
    ghost use Rattle.std.specs.Prelude.{refl};

    ghost faults = { λ s. 0 };

    ghost numbered = { λ e. refl };

    ghost lawful = { λ opening h s. s.history };

    fn opening(&self) -> &Arc<Design> {
        &self.opening
    }

    fn basis(&self) -> Result<Basis, Memory> {
        Store::basis(self)
    }

    fn serve<R: Threads + Sync>(&mut self, rt: &R, caller: u32, ask: Ask) -> Answered {
        Store::serve(self, rt, caller, ask)
    }
}
