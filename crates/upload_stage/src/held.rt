//! The bytes of one upload, with a mark for each that was received.
ghost use Rattle.std.specs.Prelude.{◌≡◌, ℕ, ◌*◌, ◌<◌, ◌≤◌, ◌+◌, ◌-◌, ◌^◌, max, Option, None, length, take, drop, replicate, slice_index, vec_capacity, IfOk, ◌++◌};
ghost use Rattle.cov_ground.specs.Limits.{longest_record};
ghost use Rattle.upload_stage.specs.Places.{differs, byte_at, first_differing, first_missing, with_bytes, bytes_in, places_of, mark_of};

use crate::marks::{first_unmarked, is_marked, mark};
use cov_ground::Memory;
use std::alloc::Global;
use std::marker::Model;

/// The places of an open upload. Contracts see for each the byte received there, if any was.
#[derive(Drop)]
pub(crate) struct Held {
    /// The bytes up to the last that was received; there is room for all.
    bytes: Vec<u8>,
    marks: Vec<u64>,
    len: usize,
    /// All places before this one were received.
    whole: usize,
}

impl Model for Held {
    ghost use Rattle.std.specs.Prelude.{ℕ, List, Option};
    ghost use Rattle.upload_stage.specs.Places.{places_of, IsHeld};

    ghost Value = { List (Option ℕ) };

    ghost view = { λ held. places_of held.marks.items held.bytes.items held.len };

    ghost invariant = { λ held. IsHeld held.marks.items held.bytes held.len held.whole };
}

/// Whether another byte was received at the place.
fn differs_at(marks: &[u64], held: &[u8], place: usize, byte: u8) -> bool
    requires wide { place < 64 * length marks.now }
    requires there { mark_of marks.now place ≡ 1 → place < length held.now }
    ensures { result ≡ differs (byte_at marks.now held.now place) byte }
{
    is_marked(marks, place) && held[place] != byte
}

/// The least place that was received with another byte.
fn differing(marks: &[u64], held: &[u8], len: usize, offset: usize, bytes: &[u8]) -> Option<usize>
    requires wide { len ≤ 64 * length marks.now }
    requires there { (place : ℕ) → mark_of marks.now place ≡ 1 → place < length held.now }
    requires long { offset + length bytes.now ≤ len }
    ensures { result ≡ first_differing offset (drop offset (places_of marks.now held.now len)) bytes.now }
{
    for i in 0..bytes.len() {
        if differs_at(marks, held, offset + i, bytes[i]) {
            return Some(offset + i);
        }
    }
    None
}

/// Writes the bytes from `offset` on.
fn overwrite(held: &mut [u8], offset: usize, bytes: &[u8])
    requires { offset + length bytes.now ≤ length held.old }
    ensures { held.new ≡ take offset held.old ++ (bytes.now ++ drop (offset + length bytes.now) held.old) }
{
    let end = offset + bytes.len();
    held[offset..end].copy_from_slice(bytes);
}

/// Makes the bytes as many as `end` at least, for which there is room.
fn grow(held: &mut Vec<u8>, end: usize)
    requires { end ≤ vec_capacity held.old }
    ensures len { length held.new.items ≡ max (length held.old.items) end }
    ensures same { (k : ℕ) → k < length held.old.items
        → slice_index held.new.items k ≡ slice_index held.old.items k }
    ensures room { vec_capacity held.old ≤ vec_capacity held.new }
{
    if end > held.len() {
        let Ok(()) = held.resize(end, 0) else {
            unreachable!()
        };
    }
}

/// Writes the bytes from `offset` on; there is room for them.
fn write(held: &mut Vec<u8>, offset: usize, bytes: &[u8])
    requires room { offset + length bytes.now ≤ vec_capacity held.old }
    requires fits { offset + length bytes.now < 2 ^ 64 }
    ensures len { length held.new.items ≡ max (length held.old.items) (offset + length bytes.now) }
    ensures before { (k : ℕ) → k < offset → k < length held.old.items
        → slice_index held.new.items k ≡ slice_index held.old.items k }
    ensures inside { (k : ℕ) → offset ≤ k → k < offset + length bytes.now
        → slice_index held.new.items k ≡ slice_index bytes.now (k - offset) }
    ensures after { (k : ℕ) → offset + length bytes.now ≤ k → k < length held.old.items
        → slice_index held.new.items k ≡ slice_index held.old.items k }
    ensures room { vec_capacity held.old ≤ vec_capacity held.new }
{
    grow(held, offset + bytes.len());
    overwrite(held.as_mut_slice(), offset, bytes);
}

impl Held {
    /// No byte yet, and room for all. The room isn't written.
    pub(crate) fn new(alloc: Global, len: usize) -> Result<Held, Memory>
        requires { len ≤ longest_record }
        ensures { IfOk result (λ held. held ≡ replicate len None) }
    {
        let bytes = Vec::with_capacity(alloc, len)?;
        let marks = vec![in alloc; 0u64; (len + 63) / 64]?;
        Ok(Held {
            bytes,
            marks,
            len,
            whole: 0,
        })
    }

    /// The stated length in bytes.
    pub(crate) fn len(&self) -> usize
        ensures { result ≡ length self.now }
    {
        self.len
    }

    /// The least place that was received before with another byte than the one that is to come there.
    pub(crate) fn first_differing(&self, offset: usize, bytes: &[u8]) -> Option<usize>
        requires { offset + length bytes.now ≤ length self.now }
        ensures { result ≡ first_differing offset (drop offset self.now) bytes.now }
    {
        differing(
            self.marks.as_slice(),
            self.bytes.as_slice(),
            self.len,
            offset,
            bytes,
        )
    }

    /// Puts the bytes at their places. It takes no memory.
    pub(crate) fn add(&mut self, offset: usize, bytes: &[u8])
        requires { offset + length bytes.now ≤ length self.old }
        ensures { self.new ≡ with_bytes self.old offset bytes.now }
    {
        write(&mut self.bytes, offset, bytes);
        mark(&mut self.marks, offset, offset + bytes.len());
    }

    /// The least place with no byte. All calls together go once over the places.
    pub(crate) fn first_missing(&mut self) -> Option<usize>
        ensures missing { result ≡ first_missing 0 self.old }
        ensures same { self.new ≡ self.old }
    {
        self.whole = first_unmarked(self.marks.as_slice(), self.whole, self.len);
        if self.whole == self.len {
            return None;
        }
        Some(self.whole)
    }

    /// The bytes of all places.
    pub(crate) fn into_bytes(self) -> Vec<u8>
        requires { first_missing 0 self ≡ None }
        ensures items { result.items ≡ bytes_in self }
        ensures short { length result.items ≤ longest_record }
    {
        self.bytes
    }
}
