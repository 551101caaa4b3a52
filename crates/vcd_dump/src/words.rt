//! The words of a dump.
ghost use Rattle.std.specs.Prelude.{◌≡◌, ◌+◌, ◌<◌, ◌≤◌, [], ◌∷◌, length, MatchOption, IfSome};
ghost use Rattle.std.specs.List.{position_or_len};
ghost use Rattle.vcd_dump.specs.Words.{is_blank, Word, words};

/// Whether a byte separates words: a space, a tab, a newline or a carriage return.
fn is_blank(byte: u8) -> bool
    ensures { result ≡ is_blank byte }
{
    byte == b' ' || byte == b'\t' || byte == b'\n' || byte == b'\r'
}

/// How many bytes stand before the first blank.
fn word_end(bytes: &[u8]) -> usize
    ensures { result ≡ position_or_len is_blank bytes.now }
{
    let mut end = 0;
    for byte in bytes {
        if is_blank(*byte) {
            return end;
        }
        end += 1;
    }
    end
}

/// The first word, and the bytes behind it.
#[tactic(auto, using(crate::proofs::Found::begins_word, crate::proofs::Found::skips))]
pub(crate) fn next_word(bytes: &[u8]) -> Option<(&[u8], &[u8])>
    ensures word { MatchOption result (words bytes.now ≡ []) (λ x. words bytes.now
        ≡ record { left = length x.0.now + length x.1.now; text = x.0.now } ∷ words x.1.now) }
    ensures shorter { IfSome result (λ x. length x.1.now < length bytes.now) }
{
    let mut rest = bytes;
    while let Some((byte, later)) = rest.split_first() {
        if !is_blank(*byte) {
            return Some(rest.split_at(word_end(rest)));
        }
        rest = later;
    }
    None
}
