//! Where the turns of a session go.
ghost use Rattle.std.specs.Prelude.{◌≡◌, ℕ, List, length, IfOk};
ghost use Rattle.std.specs.Thread.{IsSync};
ghost use Rattle.design_data.specs.declared.design.Design.{Design};
ghost use Rattle.cov_history.specs.declared.entry.Entry.{Entry};
ghost use Rattle.cov_history.specs.Turns.{PortTurn, Grown};
ghost use Rattle.store_core.specs.Histories.{IsHistory};
ghost use Rattle.store_core.specs.Asks.{asked, Meets};
ghost use Rattle.store_core.specs.Bases.{IsBasis};

use cov_base::Memory;
use std::thread::Threads;
use store_core::{Ask, Basis};
use ucis_model::Answered;

/// A caller of a history that others may make longer too.
pub trait Port {
    /// What each call leaves as it was.
    type Rest;

    ghost rest: { Self → Self.Rest };

    /// The design over which the history began.
    ghost opening: { Self → Design };

    /// The caller's number.
    ghost caller: { Self → ℕ };

    /// The history as the caller has seen it.
    ghost seen: { Self → List Entry };

    /// The caller's own entries, each with its place.
    ghost own: { Self → List (ℕ × Entry) };

    /// Takes a turn. The ask is answered at a place of the history that isn't before what was seen.
    fn turn<R: Threads + Sync>(&mut self, rt: &R, ask: Ask) -> Answered
        requires meets { Meets (opening self.old) (seen self.old) ask }
        requires sync { IsSync R.row }
        ensures rest { rest self.new ≡ rest self.old }
        ensures opening { opening self.new ≡ opening self.old }
        ensures caller { caller self.new ≡ caller self.old }
        ensures grown { Grown (seen self.old) (seen self.new) }
        ensures turn { PortTurn (opening self.old) (seen self.old) (own self.old) (seen self.new)
            (own self.new) (caller self.old) (asked ask) result.answer result.point };

    /// Takes a turn that changes nothing, for a basis.
    fn basis(&mut self) -> Result<Basis, Memory>
        ensures rest { rest self.new ≡ rest self.old }
        ensures opening { opening self.new ≡ opening self.old }
        ensures caller { caller self.new ≡ caller self.old }
        ensures grown { Grown (seen self.old) (seen self.new) }
        ensures own { own self.new ≡ own self.old }
        ensures basis { IfOk result (λ b. IsBasis (opening self.old) (seen self.new) b) };

    /// The length of what was seen. It takes no turn.
    fn point(&self) -> u64
        ensures { result ≡ length (seen self.now) };

    /// What was seen is legal, and each revision in it is of a text that declares its design.
    ghost lawful: { (port : Self) → IsHistory (opening port) (seen port) };
}
