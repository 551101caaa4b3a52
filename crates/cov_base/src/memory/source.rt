//! Sources in memory.
ghost use Rattle.std.specs.Prelude.{◌≡◌, ◌<◌, length, min, take, Some};
ghost use Rattle.std.specs.Io.{ReadsAtMost};
ghost use Rattle.cov_spec.specs.Causes.{HasCause};
ghost use Rattle.cov_spec.specs.Told.{Reads};
ghost use Rattle.cov_base.specs.Memory.{Feeds, FeedsByPlan};
ghost use Rattle.cov_base.specs.Plan.{planned};

use crate::memory::plan::Failing;
use crate::{Failed, Source};
use std::marker::Model;

// Copies the first bytes, at most a piece of them.
fn hand_over(left: &[u8], piece: usize, into: &mut [u8]) -> usize
    ensures count { result ≡ min (min (length left.now) piece) (length into.old) }
    ensures bytes { take result into.new ≡ take result left.now }
{
    let count = left.len().min(piece).min(into.len());
    into[..count].copy_from_slice(&left[..count]);
    count
}

/// Bytes at hand, handed out in pieces.
#[derive(Drop)]
pub struct SureSource {
    contents: Vec<u8>,
    piece: usize,
    at: usize,
}

impl Model for SureSource {
    ghost use Rattle.std.specs.Prelude.{◌<◌, ◌≤◌, length, drop};
    ghost use Rattle.cov_base.specs.Memory.{Feed};

    ghost Value = { Feed };

    ghost view = { λ s. record { left = drop s.at s.contents.items; piece = s.piece } };

    ghost invariant = { λ s. (0 < s.piece) × (s.at ≤ length s.contents.items) };
}

impl SureSource {
    /// A source of the contents that hands over at most `piece` bytes a call.
    pub fn new(contents: Vec<u8>, piece: usize) -> Self
        requires { 0 < piece }
        ensures { result ≡ record { left = contents.items; piece = piece } }
    {
        SureSource {
            contents,
            piece,
            at: 0,
        }
    }
}

impl Source for SureSource {
    ghost left = { λ s. Some s.left };

    ghost faults = { λ s. 0 };

    ghost read_gives = { λ old room result new _. Feeds old (length room) result new };

    fn read(&mut self, into: &mut [u8]) -> Result<usize, Failed>
        requires { 0 < length into.old }
        ensures bound { ReadsAtMost result into.new }
        ensures bytes { Reads (Some self.old.left) (Some self.new.left) result into.new }
        ensures cause { HasCause 0 0 result }
        ensures gives { Feeds self.old (length into.old) result self.new }
    {
        let count = hand_over(&self.contents[self.at..], self.piece, into);
        self.at += count;
        Ok(count)
    }
}

/// Bytes at hand, handed out in pieces, where some calls fail.
#[derive(Drop)]
pub struct MemSource {
    inner: SureSource,
    plan: Failing,
}

impl Model for MemSource {
    ghost use Rattle.cov_base.specs.Memory.{PlannedFeed};

    ghost Value = { PlannedFeed };

    ghost view = { λ s. record { left = s.inner.left; piece = s.inner.piece; plan = s.plan } };
}

impl MemSource {
    /// A source of the contents that hands over at most `piece` bytes a call and fails at the calls of these numbers,
    /// the first call being 0.
    pub fn new(contents: Vec<u8>, piece: usize, failing: Vec<u64>) -> Self
        requires { 0 < piece }
        ensures { result ≡
            record { left = contents.items; piece = piece; plan = planned failing.items } }
    {
        MemSource {
            inner: SureSource::new(contents, piece),
            plan: Failing::new(failing),
        }
    }
}

impl Source for MemSource {
    ghost left = { λ s. Some s.left };

    ghost faults = { λ s. s.plan.faults };

    ghost read_gives = { λ old room result new _. FeedsByPlan old (length room) result new };

    fn read(&mut self, into: &mut [u8]) -> Result<usize, Failed>
        requires { 0 < length into.old }
        ensures bound { ReadsAtMost result into.new }
        ensures bytes { Reads (Some self.old.left) (Some self.new.left) result into.new }
        ensures cause { HasCause self.old.plan.faults self.new.plan.faults result }
        ensures gives { FeedsByPlan self.old (length into.old) result self.new }
    {
        self.plan.call()?;
        self.inner.read(into)
    }
}
