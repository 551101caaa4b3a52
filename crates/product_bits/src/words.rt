//! Bits of words.
ghost use Rattle.std.specs.Prelude.{◌≡◌, ℕ, ◌+◌, ◌*◌, ◌<◌, ◌≤◌, ◌^◌, length, nat_lt, nat_le, ◌&&◌, ◌||◌, not, Bool, true, false};
ghost use Rattle.std.specs.Int.{bit_at};
ghost use Rattle.product_bits.specs.Marks.{has_bit, is_marked as marked_in};

/// The bits of a word.
pub(crate) const BITS: usize = 64;

/// The bits of a word from `low` up to `high`, of which there is one at least.
fn bits_between(low: usize, high: usize) -> u64
    requires range { (low < high) × (high ≤ 64) }
    ensures { (bit : ℕ) → has_bit result bit ≡ (nat_le low bit && nat_lt bit high) }
{
    (u64::MAX << low) & (u64::MAX >> (BITS - high))
}

/// Marks all bits of the words from `first` up to `last`.
fn mark_words(words: &mut [u64], first: usize, last: usize)
    requires order { first ≤ last }
    requires wide { last ≤ length words.old }
    ensures { (n : ℕ) → marked_in words.new n ≡ (marked_in words.old n || (nat_le (64 * first) n && nat_lt n (64 * last))) }
{
    for i in first..last {
        words[i] = bits_between(0, BITS);
    }
}

/// Marks the bits from `from` up to `to`.
pub(crate) fn mark(words: &mut [u64], from: usize, to: usize)
    requires order { from ≤ to }
    requires wide { to ≤ 64 * length words.old }
    ensures { (n : ℕ) → marked_in words.new n ≡ (marked_in words.old n || (nat_le from n && nat_lt n to)) }
{
    let mut at = from;
    while at < to {
        let word = at / BITS;
        if at % BITS == 0 && to - at >= BITS {
            let last = to / BITS;
            mark_words(words, word, last);
            at = last * BITS;
        } else {
            let end = at + (to - at).min(BITS - at % BITS);
            words[word] |= bits_between(at % BITS, end - word * BITS);
            at = end;
        }
    }
}

/// Whether the bit is marked.
fn is_marked(words: &[u64], at: usize) -> bool
    requires { at < 64 * length words.now }
    ensures { result ≡ marked_in words.now at }
{
    (words[at / BITS] >> (at % BITS)) & 1 == 1
}

/// Whether both have the bit marked.
fn is_shared(words: &[u64], others: &[u64], at: usize) -> bool
    requires words { at < 64 * length words.now }
    requires others { at < 64 * length others.now }
    ensures { result ≡ (marked_in words.now at && marked_in others.now at) }
{
    is_marked(words, at) && is_marked(others, at)
}

/// The first bit from `from` up to `to` that both words have marked; `to` where none is.
pub(crate) fn first_shared(words: &[u64], others: &[u64], from: usize, to: usize) -> usize
    requires order { from ≤ to }
    requires wide { to ≤ 64 * length words.now }
    requires other_wide { to ≤ 64 * length others.now }
    ensures range { (from ≤ result) × (result ≤ to) }
    ensures before { (n : ℕ) → from ≤ n → n < result
        → (marked_in words.now n && marked_in others.now n) ≡ false }
    ensures at { result < to → (marked_in words.now result && marked_in others.now result) ≡ true }
{
    let mut at = from;
    while at < to {
        if at % BITS == 0 && to - at >= BITS && words[at / BITS] & others[at / BITS] == 0 {
            at += BITS;
        } else if !is_shared(words, others, at) {
            at += 1;
        } else {
            return at;
        }
    }
    at
}

/// The first bit from `from` up to `to` that is marked; `to` where none is.
pub(crate) fn first_marked(words: &[u64], from: usize, to: usize) -> usize
    requires order { from ≤ to }
    requires wide { to ≤ 64 * length words.now }
    ensures range { (from ≤ result) × (result ≤ to) }
    ensures before { (n : ℕ) → from ≤ n → n < result → marked_in words.now n ≡ false }
    ensures at { result < to → marked_in words.now result ≡ true }
{
    first_shared(words, words, from, to)
}

/// The 64 bits from `from` on, as a word.
pub(crate) fn window(words: &[u64], from: usize) -> u64
    requires { from + 64 ≤ 64 * length words.now }
    ensures { (bit : ℕ) → bit < 64 → has_bit result bit ≡ marked_in words.now (from + bit) }
{
    let word = from / BITS;
    let skip = from % BITS;
    if skip == 0 {
        return words[word];
    }
    (words[word] >> skip) | (words[word + 1] << (BITS - skip))
}

/// Adds the marks of other words.
pub(crate) fn unite(words: &mut [u64], others: &[u64])
    requires { length others.now ≡ length words.old }
    ensures { (n : ℕ) → marked_in words.new n ≡ (marked_in words.old n || marked_in others.now n) }
{
    for i in 0..words.len() {
        words[i] |= others[i];
    }
}

/// Keeps the marks that others have too.
pub(crate) fn meet(words: &mut [u64], others: &[u64])
    requires { length others.now ≡ length words.old }
    ensures { (n : ℕ) → marked_in words.new n ≡ (marked_in words.old n && marked_in others.now n) }
{
    for i in 0..words.len() {
        words[i] &= others[i];
    }
}

/// Marks what isn't marked, and nothing else.
pub(crate) fn flip(words: &mut [u64])
    ensures { (n : ℕ) → n < 64 * length words.old → marked_in words.new n ≡ not (marked_in words.old n) }
{
    for i in 0..words.len() {
        words[i] = !words[i];
    }
}
