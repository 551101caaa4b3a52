//! Bytes taken and not yet answered.
ghost use Rattle.std.specs.Prelude.{◌≡◌, ◌+◌, ◌-◌, ◌<◌, ◌≤◌, [], length, take, drop, IfOk};
ghost use Rattle.cov_spec.specs.Causes.{HasCause};
ghost use Rattle.cov_spec.specs.Told.{Reads};
ghost use Rattle.cov_session.specs.Fills.{longest_frame, Fills};

use cov_base::{Failed, Link, Memory};
use cov_proto::LONGEST_BODY;
use std::alloc::Global;
use std::marker::Model;

/// The bytes of the longest frame: the four of a length, and the longest body.
pub(crate) const LONGEST_FRAME: usize = 4 + LONGEST_BODY as usize;

/// A buffer of one whole frame. Contracts see the bytes between its two ends.
#[derive(Drop)]
pub(crate) struct Inbox {
    bytes: Vec<u8>,
    start: usize,
    end: usize,
}

impl Model for Inbox {
    ghost use Rattle.std.specs.Prelude.{◌≡◌, ℕ, ◌≤◌, List, length, take, drop};
    ghost use Rattle.cov_session.specs.Fills.{longest_frame};

    ghost Value = { List ℕ };

    ghost view = { λ b. drop b.start (take b.end b.bytes.items) };

    ghost invariant = { λ b. (b.start ≤ b.end) × (b.end ≤ longest_frame) × (length b.bytes.items ≡ longest_frame) };
}

// Moves a part of the bytes to the front.
fn to_front(bytes: &mut [u8], start: usize, end: usize)
    requires order { start ≤ end }
    requires within { end ≤ length bytes.old }
    ensures { take (end - start) bytes.new ≡ drop start (take end bytes.old) }
{
    bytes.copy_within(start..end, 0);
}

// Reads behind the place `end`, at most so many bytes.
fn read_at<L: Link>(
    link: &mut L,
    bytes: &mut [u8],
    end: usize,
    most: usize,
) -> Result<usize, Failed>
    requires room { 0 < most }
    requires within { end + most ≤ length bytes.old }
    ensures bound { IfOk result (λ n. n ≤ most) }
    ensures front { take end bytes.new ≡ take end bytes.old }
    ensures reads { Reads (L.left link.old) (L.left link.new) result (drop end bytes.new) }
    ensures written { L.written link.new ≡ L.written link.old }
    ensures cause { HasCause (L.read_faults link.old) (L.read_faults link.new) result }
    ensures same_faults { L.write_faults link.new ≡ L.write_faults link.old }
{
    link.read(&mut bytes[end..end + most])
}

impl Inbox {
    pub(crate) fn new(alloc: Global) -> Result<Inbox, Memory>
        ensures { IfOk result (λ b. b ≡ []) }
    {
        Ok(Inbox {
            bytes: vec![in alloc; 0u8; LONGEST_FRAME]?,
            start: 0,
            end: 0,
        })
    }

    pub(crate) fn as_slice(&self) -> &[u8]
        ensures { result.now ≡ self.now }
    {
        &self.bytes[self.start..self.end]
    }

    pub(crate) fn len(&self) -> usize
        ensures { result ≡ length self.now }
    {
        self.as_slice().len()
    }

    /// Lets the first bytes go.
    pub(crate) fn advance(&mut self, count: usize)
        requires { count ≤ length self.old }
        ensures { self.new ≡ drop count self.old }
    {
        self.start += count;
    }

    /// Reads more bytes, at most so many. Bytes are moved only where the end of the buffer is reached.
    pub(crate) fn fill<L: Link>(&mut self, link: &mut L, most: u64) -> Result<usize, Failed>
        requires room { length self.old < longest_frame }
        requires some { 0 < most }
        ensures bound { IfOk result (λ n. n ≤ most) }
        ensures fills { Fills (L.left link.old) (L.left link.new) self.old self.new result }
        ensures written { L.written link.new ≡ L.written link.old }
        ensures cause { HasCause (L.read_faults link.old) (L.read_faults link.new) result }
        ensures same_faults { L.write_faults link.new ≡ L.write_faults link.old }
    {
        if self.end == LONGEST_FRAME {
            to_front(self.bytes.as_mut_slice(), self.start, self.end);
            self.end -= self.start;
            self.start = 0;
        }
        let room = (LONGEST_FRAME - self.end).min(most as usize);
        let count = read_at(link, self.bytes.as_mut_slice(), self.end, room)?;
        self.end += count;
        Ok(count)
    }
}
