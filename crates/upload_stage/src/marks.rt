//! Marks of places, as the bits of words.
ghost use Rattle.std.specs.Prelude.{◌≡◌, ◌==◌, ℕ, ◌*◌, ◌<◌, ◌≤◌, length};
ghost use Rattle.std.specs.Int.{bit_at};
ghost use Rattle.upload_stage.specs.Places.{mark_of};

/// The marks of a word.
const BITS: usize = 64;

/// The bits of a word from `low` up to `high`, of which there is one at least.
fn bits_between(low: usize, high: usize) -> u64
    requires range { (low < high) × (high ≤ 64) }
    ensures below { (bit : ℕ) → bit < low → bit_at result bit ≡ 0 }
    ensures inside { (bit : ℕ) → low ≤ bit → bit < high → bit_at result bit ≡ 1 }
    ensures above { (bit : ℕ) → high ≤ bit → bit_at result bit ≡ 0 }
{
    (u64::MAX << low) & (u64::MAX >> (BITS - high))
}

/// Marks the places from `from` up to `to`.
pub(crate) fn mark(marks: &mut Vec<u64>, from: usize, to: usize)
    requires order { from ≤ to }
    requires wide { to ≤ 64 * length marks.old.items }
    ensures len { length marks.new.items ≡ length marks.old.items }
    ensures below { (place : ℕ) → place < from
        → mark_of marks.new.items place ≡ mark_of marks.old.items place }
    ensures inside { (place : ℕ) → from ≤ place → place < to → mark_of marks.new.items place ≡ 1 }
    ensures above { (place : ℕ) → to ≤ place
        → mark_of marks.new.items place ≡ mark_of marks.old.items place }
{
    mark_words(marks.as_mut_slice(), from, to);
}

fn mark_words(marks: &mut [u64], from: usize, to: usize)
    requires order { from ≤ to }
    requires wide { to ≤ 64 * length marks.old }
    ensures below { (place : ℕ) → place < from → mark_of marks.new place ≡ mark_of marks.old place }
    ensures inside { (place : ℕ) → from ≤ place → place < to → mark_of marks.new place ≡ 1 }
    ensures above { (place : ℕ) → to ≤ place → mark_of marks.new place ≡ mark_of marks.old place }
{
    let mut at = from;
    while at < to {
        let word = at / BITS;
        let end = at + (to - at).min(BITS - at % BITS);
        marks[word] |= bits_between(at % BITS, end - word * BITS);
        at = end;
    }
}

/// Whether the place is marked.
pub(crate) fn is_marked(marks: &[u64], place: usize) -> bool
    requires { place < 64 * length marks.now }
    ensures { result ≡ (mark_of marks.now place == 1) }
{
    (marks[place / BITS] >> (place % BITS)) & 1 == 1
}

/// The first place from `from` up to `to` that isn't marked; `to` where all are.
pub(crate) fn first_unmarked(marks: &[u64], from: usize, to: usize) -> usize
    requires order { from ≤ to }
    requires wide { to ≤ 64 * length marks.now }
    ensures range { (from ≤ result) × (result ≤ to) }
    ensures before { (place : ℕ) → from ≤ place → place < result → mark_of marks.now place ≡ 1 }
    ensures at { result < to → mark_of marks.now result ≡ 0 }
{
    let mut at = from;
    while at < to {
        if at % BITS == 0 && to - at >= BITS && marks[at / BITS] == u64::MAX {
            at += BITS;
        } else if is_marked(marks, at) {
            at += 1;
        } else {
            return at;
        }
    }
    at
}
