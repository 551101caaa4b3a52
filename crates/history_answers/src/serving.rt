//! What a plain store answers.
ghost use Rattle.std.specs.Prelude.{◌≡◌, ◌↔◌, ℕ, ◌++◌, [], length, true, IfOk, OnOk, OnErr};
ghost use Rattle.cov_history.specs.History.{design_of};
ghost use Rattle.cov_history.specs.Answers.{answer_at, made, Suits};
ghost use Rattle.history_answers.specs.Plain.{opening_of, entries_of};

use crate::PlainStore;
use crate::answering::{answer_by_definition, entry_of, is_made};
use crate::suiting::suits;
use cov_ground::Memory;
use cov_history::{Ask, Entry, design_at};
use design_data::Design;
use std::alloc::Global;
use std::thread::Threads;
use ucis_model::Answer;

impl PlainStore {
    /// No entries over this design.
    pub fn new(alloc: Global, opening: Design) -> PlainStore
        ensures opening { opening_of result ≡ opening }
        ensures entries { entries_of result ≡ [] }
    {
        PlainStore {
            opening,
            entries: Vec::new(alloc),
            amounts: None,
        }
    }

    /// The design at its entries.
    pub fn design(&self) -> &Design
        ensures { result.now ≡ design_of (opening_of self.now) (entries_of self.now) }
    {
        design_at(&self.opening, self.entries.as_slice())
    }

    /// How many entries there are.
    pub fn point(&self) -> u64
        ensures { result ≡ length (entries_of self.now) }
    {
        self.entries.len() as u64
    }

    /// Whether an ask was made for this history: a record fits the design at its point, a text has the opening design's
    /// tables.
    pub fn suits(&self, ask: &Ask) -> bool
        ensures { (result ≡ true) ↔ Suits (opening_of self.now) (entries_of self.now) ask.now }
    {
        suits(&self.opening, self.entries.as_slice(), ask)
    }

    /// The answer to an ask at its entries, whoever asks.
    pub fn answer<R: Threads + Sync>(
        &self,
        rt: &R,
        alloc: Global,
        ask: &Ask,
    ) -> Result<Answer, Memory>
        ensures { IfOk result (λ answer. (caller : ℕ)
            → answer ≡ answer_at (opening_of self.now) (entries_of self.now) caller ask.now) }
    {
        answer_by_definition(rt, alloc, &self.opening, self.entries.as_slice(), ask)
    }

    /// Answers an ask at its entries, and adds the entry that the answer makes. Where memory is wanted, nothing is added.
    pub fn serve<R: Threads + Sync>(
        &mut self,
        rt: &R,
        alloc: Global,
        caller: u32,
        ask: Ask,
    ) -> Result<Answer, Memory>
        requires { Suits (opening_of self.old) (entries_of self.old) ask }
        ensures opening { opening_of self.new ≡ opening_of self.old }
        ensures answer { IfOk result (λ answer. answer
            ≡ answer_at (opening_of self.old) (entries_of self.old) caller ask) }
        ensures entries { IfOk result (λ answer. entries_of self.new
            ≡ entries_of self.old ++ made caller ask answer) }
        ensures err { OnErr result (entries_of self.new ≡ entries_of self.old) }
    {
        let answer = self.answer(rt, alloc, &ask)?;
        if !is_made(&answer) {
            return Ok(answer);
        }
        let Some(entry) = entry_of(caller, ask) else {
            return Ok(answer);
        };
        self.amounts = None;
        self.entries.push(entry)?;
        Ok(answer)
    }
}
