//! Sinks in memory.
ghost use Rattle.std.specs.Prelude.{◌≡◌, ◌<◌, [], length, Some, option_map};
ghost use Rattle.cov_spec.specs.Causes.{HasCause};
ghost use Rattle.cov_spec.specs.Told.{Writes};
ghost use Rattle.cov_base.specs.Amounts.{WritesSome};
ghost use Rattle.cov_base.specs.Memory.{Takes, TakesByPlan};
ghost use Rattle.cov_base.specs.Plan.{planned};

use crate::memory::plan::Failing;
use crate::{Failed, Sink};
use std::alloc::Global;
use std::marker::Model;

/// Takes all bytes in pieces. Where memory runs out for them it goes on, and no longer tells what was written.
#[derive(Drop)]
pub struct SureSink {
    contents: Vec<u8>,
    piece: usize,
    is_lost: bool,
}

impl Model for SureSink {
    ghost use Rattle.std.specs.Prelude.{◌<◌, None, Some, if◌then◌else◌};
    ghost use Rattle.cov_base.specs.Memory.{Store};

    ghost Value = { Store };

    ghost view = { λ s. record { written = if s.is_lost then None else Some s.contents.items; piece = s.piece } };

    ghost invariant = { λ s. 0 < s.piece };
}

impl SureSink {
    /// An empty sink that takes at most `piece` bytes a call.
    pub fn new(alloc: Global, piece: usize) -> Self
        requires { 0 < piece }
        ensures { result ≡ record { written = Some []; piece = piece } }
    {
        SureSink {
            contents: Vec::new(alloc),
            piece,
            is_lost: false,
        }
    }

    /// What was written, unless memory ran out.
    pub fn contents(&self) -> Option<&[u8]>
        ensures { option_map (λ bytes. bytes.now) result ≡ self.now.written }
    {
        if self.is_lost {
            None
        } else {
            Some(self.contents.as_slice())
        }
    }
}

impl Sink for SureSink {
    ghost written = { λ s. s.written };

    ghost faults = { λ s. 0 };

    ghost write_gives = { λ old bytes result new. Takes old (length bytes) result new };

    fn write(&mut self, bytes: &[u8]) -> Result<usize, Failed>
        requires { 0 < length bytes.now }
        ensures bound { WritesSome result bytes.now }
        ensures bytes { Writes self.old.written self.new.written result bytes.now }
        ensures cause { HasCause 0 0 result }
        ensures gives { Takes self.old (length bytes.now) result self.new }
    {
        let count = self.piece.min(bytes.len());
        if self.contents.extend_from_slice(&bytes[..count]).is_err() {
            self.is_lost = true;
        }
        Ok(count)
    }
}

/// Takes bytes in pieces, where some calls fail. A call fails too where memory runs out.
#[derive(Drop)]
pub struct MemSink {
    contents: Vec<u8>,
    piece: usize,
    plan: Failing,
}

impl Model for MemSink {
    ghost use Rattle.std.specs.Prelude.{◌<◌};
    ghost use Rattle.cov_base.specs.Memory.{PlannedStore};

    ghost Value = { PlannedStore };

    ghost view = { λ s. record { written = s.contents.items; piece = s.piece; plan = s.plan } };

    ghost invariant = { λ s. 0 < s.piece };
}

impl MemSink {
    /// An empty sink that takes at most `piece` bytes a call and fails at the calls of these numbers, the first call
    /// being 0.
    pub fn new(alloc: Global, piece: usize, failing: Vec<u64>) -> Self
        requires { 0 < piece }
        ensures { result ≡ record { written = []; piece = piece; plan = planned failing.items } }
    {
        MemSink {
            contents: Vec::new(alloc),
            piece,
            plan: Failing::new(failing),
        }
    }

    /// What was written.
    pub fn contents(&self) -> &[u8]
        ensures { result.now ≡ self.now.written }
    {
        self.contents.as_slice()
    }
}

impl Sink for MemSink {
    ghost written = { λ s. Some s.written };

    ghost faults = { λ s. s.plan.faults };

    ghost write_gives = { λ old bytes result new. TakesByPlan old (length bytes) result new };

    fn write(&mut self, bytes: &[u8]) -> Result<usize, Failed>
        requires { 0 < length bytes.now }
        ensures bound { WritesSome result bytes.now }
        ensures bytes { Writes (Some self.old.written) (Some self.new.written) result bytes.now }
        ensures cause { HasCause self.old.plan.faults self.new.plan.faults result }
        ensures gives { TakesByPlan self.old (length bytes.now) result self.new }
    {
        self.plan.call()?;
        let count = self.piece.min(bytes.len());
        match self.contents.extend_from_slice(&bytes[..count]) {
            Ok(()) => Ok(count),
            Err(_) => Err(self.plan.fail()),
        }
    }
}
