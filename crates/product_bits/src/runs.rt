//! The bits of one axis: runs of products, as often as the axis comes again.
ghost use Rattle.std.specs.Prelude.{◌≡◌, ℕ, ◌+◌, ◌*◌, ◌<◌, ◌≤◌, ◌^◌, length, nat_lt, nat_le, ◌&&◌, ◌||◌, Bool, true, false, IfOk, slice_index_or};
ghost use Rattle.product_bits.specs.Marks.{has_bit, is_marked as marked_in, in_run};

use crate::words::{BITS, mark, window};
use cov_ground::Memory;
use std::alloc::Global;

/// Marks the bits from `from` up to `to`, if they are chosen.
fn mark_if(words: &mut [u64], from: usize, to: usize, chosen: bool)
    requires order { from ≤ to }
    requires wide { to ≤ 64 * length words.old }
    ensures { (n : ℕ) → marked_in words.new n ≡ (marked_in words.old n || (chosen && (nat_le from n && nat_lt n to))) }
{
    if chosen {
        mark(words, from, to);
    }
}

/// Whether the bin is chosen.
fn is_chosen(chosen: &[bool], bin: usize) -> bool
    ensures { result ≡ slice_index_or chosen.now bin false }
{
    match chosen.get(bin) {
        Some(is_chosen) => *is_chosen,
        None => false,
    }
}

/// Marks the runs of the chosen bins up to `end`.
fn mark_runs(words: &mut [u64], stride: usize, size: usize, chosen: &[bool], end: usize)
    requires stride { (1 ≤ stride) × (stride ≤ 2 ^ 20) }
    requires size { 1 ≤ size }
    requires wide { (end ≤ 64 * length words.old) × (end ≤ 2 ^ 21) }
    requires empty { (n : ℕ) → marked_in words.old n ≡ false }
    ensures { (n : ℕ) → marked_in words.new n ≡ (nat_lt n end && in_run stride size chosen.now n) }
{
    for run in 0..(end + stride - 1) / stride {
        let from = run * stride;
        let to = (from + stride).min(end);
        mark_if(words, from, to, is_chosen(chosen, run % size));
    }
}

/// Fills the words from `first` on with the bits that stand a period before them.
fn repeat(words: &mut [u64], period: usize, first: usize)
    requires period { (64 ≤ period) × (period ≤ 64 * first) }
    requires small { length words.old ≤ 2 ^ 32 }
    ensures { (f : ℕ → Bool) → ((n : ℕ) → f (n + period) ≡ f n)
        → ((n : ℕ) → n < 64 * first → marked_in words.old n ≡ f n)
        → (n : ℕ) → n < 64 * length words.old → marked_in words.new n ≡ f n }
{
    for i in first..words.len() {
        words[i] = window(words, i * BITS - period);
    }
}

/// The bits of an axis of which some bins are chosen: `stride` products stand one after the other for each bin.
pub(crate) fn axis_bits(
    alloc: Global,
    count: usize,
    stride: usize,
    size: usize,
    chosen: &[bool],
) -> Result<Vec<u64>, Memory>
    requires some { (1 ≤ stride) × (1 ≤ size) }
    requires few { (stride * size ≤ 2 ^ 20) × (count ≤ 2 ^ 14) }
    ensures len { IfOk result (λ words. length words.items ≡ count) }
    ensures each { IfOk result
        (λ words. (n : ℕ) → n < 64 * count → marked_in words.items n ≡ in_run stride size chosen.now n) }
{
    let period = stride * size;
    // whole periods, of a word at least
    let front = period * ((63 + period) / period);
    let first = (front + 63) / BITS;
    let mut words = vec![in alloc; 0u64; count.max(first)]?;
    fill(words.as_mut_slice(), stride, size, chosen, front, first);
    words.truncate(count);
    Ok(words)
}

/// Marks the runs of the first words, and repeats them.
fn fill(words: &mut [u64], stride: usize, size: usize, chosen: &[bool], front: usize, first: usize)
    requires some { (1 ≤ stride) × (1 ≤ size) × (stride ≤ 2 ^ 20) }
    requires front { (64 ≤ front) × (front ≤ 64 * first) × (64 * first ≤ 2 ^ 21) }
    requires wide { (first ≤ length words.old) × (length words.old ≤ 2 ^ 32) }
    requires empty { (n : ℕ) → marked_in words.old n ≡ false }
    requires periods { (n : ℕ) → in_run stride size chosen.now (n + front) ≡ in_run stride size chosen.now n }
    ensures { (n : ℕ) → n < 64 * length words.old → marked_in words.new n ≡ in_run stride size chosen.now n }
{
    mark_runs(words, stride, size, chosen, first * BITS);
    repeat(words, front, first);
}
