//! What serves asks over one history.
ghost use Rattle.std.specs.Prelude.{◌≡◌, ◌≤◌, ℕ, List, length, IfOk};
ghost use Rattle.std.specs.Arc.{arc_value};
ghost use Rattle.std.specs.Thread.{IsSync};
ghost use Rattle.design_data.specs.declared.design.Design.{Design};
ghost use Rattle.cov_history.specs.declared.entry.Entry.{Entry};
ghost use Rattle.cov_history.specs.Turns.{ServesOrStops};
ghost use Rattle.store_core.specs.Histories.{IsHistory};
ghost use Rattle.store_core.specs.Bases.{IsBasis};
ghost use Rattle.store_core.specs.Asks.{asked, Meets};

use crate::{Ask, Basis};
use cov_base::{Book, Memory};
use cov_history::Entry;
use design_data::Design;
use std::sync::Arc;
use std::thread::Threads;
use ucis_model::Answered;

/// A history over an opening design, which is its base.
pub trait Core: Book<Base = Design, Entry = Entry> {
    /// How often what keeps the history has failed: 0 where nothing can.
    ghost faults: { Self → ℕ };

    /// The design that it was made with. It takes no memory.
    fn opening(&self) -> &Arc<Design>
        ensures { arc_value result.now ≡ Self.base self.now };

    /// The basis at its entries.
    fn basis(&self) -> Result<Basis, Memory>
        ensures { IfOk result (λ b. IsBasis (Self.base self.now) (Self.entries self.now) b) };

    /// Answers one ask at its entries, and adds the entry of a change that is made. Where that change can't be kept, it
    /// is answered Stopped, and the history ends with a Stop. Memory is never answered to Hello nor to Include. The point
    /// is that after the ask.
    fn serve<R: Threads + Sync>(&mut self, rt: &R, caller: u32, ask: Ask) -> Answered
        requires meets { Meets (Self.base self.old) (Self.entries self.old) ask }
        requires sync { IsSync R.row }
        ensures base { Self.base self.new ≡ Self.base self.old }
        ensures served { ServesOrStops (Self.base self.old) caller (Self.entries self.old)
            (asked ask) result.answer (Self.entries self.new)
            (faults self.old) (faults self.new) }
        ensures later { faults self.old ≤ faults self.new }
        ensures point { result.point ≡ length (Self.entries self.new) };

    /// An entry's number is that of its caller.
    ghost numbered: { (e : Entry) → Self.Book.number e ≡ e.caller };

    /// What is sound is legal, and each revision in it is of a text that declares its design.
    ghost lawful: { (opening : Design) (h : List Entry)
        → Self.Book.sound opening h → IsHistory opening h };
}
