//! Words of a line, and what they may be.
ghost use Rattle.std.specs.Prelude.{◌≡◌, drop, length, slice_index, nat_lt};
ghost use Rattle.std.specs.List.{list_all, position_or_len};
ghost use Rattle.waivers.specs.Pieces.{is_star};
ghost use Rattle.waivers.specs.Lines.{is_blank, is_word_byte, is_quote, skip, word, behind, is_printable, is_pattern, matches_root, is_reason_byte, are_reason_bytes, is_reason, reason_in, behind_reason, begins_reason, is_parted, is_name_byte, is_name, is_idle};

fn is_blank(byte: u8) -> bool
    ensures { result ≡ is_blank byte }
{
    byte == b' ' || byte == b'\t'
}

fn is_printable(byte: u8) -> bool
    ensures { result ≡ is_printable byte }
{
    32 < byte && byte < 127
}

fn is_reason_byte(byte: u8) -> bool
    ensures { result ≡ is_reason_byte byte }
{
    32 <= byte && byte != 127 && byte != b'"'
}

fn is_name_byte(byte: u8) -> bool
    ensures { result ≡ is_name_byte byte }
{
    32 < byte && byte != 127
}

/// How many bytes stand before the first blank.
fn word_end(bytes: &[u8]) -> usize
    ensures { result ≡ position_or_len is_blank bytes.now }
{
    let mut end = 0;
    for byte in bytes {
        if is_blank(*byte) {
            return end;
        }
        end += 1;
    }
    end
}

/// How many blanks stand first.
fn blanks_end(bytes: &[u8]) -> usize
    ensures { result ≡ position_or_len is_word_byte bytes.now }
{
    let mut end = 0;
    for byte in bytes {
        if !is_blank(*byte) {
            return end;
        }
        end += 1;
    }
    end
}

/// How many bytes stand before the first quote.
fn quote_end(bytes: &[u8]) -> usize
    ensures { result ≡ position_or_len is_quote bytes.now }
{
    let mut end = 0;
    for byte in bytes {
        if *byte == b'"' {
            return end;
        }
        end += 1;
    }
    end
}

/// The bytes from the first on that is no blank.
#[tactic(auto, using(crate::proofs::Found::ends_within), unfolding(crate::specs::Lines::skip))]
pub(crate) fn skip(bytes: &[u8]) -> &[u8]
    ensures { result.now ≡ skip bytes.now }
{
    bytes.split_at(blanks_end(bytes)).1
}

/// The bytes before the first blank.
#[tactic(auto, using(crate::proofs::Found::ends_within), unfolding(crate::specs::Lines::word))]
pub(crate) fn word(bytes: &[u8]) -> &[u8]
    ensures { result.now ≡ word bytes.now }
{
    bytes.split_at(word_end(bytes)).0
}

/// What stands behind the first word and the blanks behind it.
#[tactic(auto, using(crate::proofs::Found::ends_within), unfolding(crate::specs::Lines::behind))]
pub(crate) fn behind(bytes: &[u8]) -> &[u8]
    ensures { result.now ≡ behind bytes.now }
{
    skip(bytes.split_at(word_end(bytes)).1)
}

/// Whether all bytes are printable ASCII.
fn are_printable(bytes: &[u8]) -> bool
    ensures { result ≡ list_all is_printable bytes.now }
{
    bytes.iter().all(|byte| is_printable(*byte))
}

/// Whether bytes may be a pattern.
#[tactic(auto, unfolding(crate::specs::Lines::is_pattern))]
pub(crate) fn is_pattern(bytes: &[u8]) -> bool
    ensures { result ≡ is_pattern bytes.now }
{
    !bytes.is_empty() && are_printable(bytes)
}

fn are_stars(bytes: &[u8]) -> bool
    ensures { result ≡ list_all is_star bytes.now }
{
    bytes.iter().all(|byte| *byte == b'*')
}

/// Whether a pattern matches the root's path, as stars alone do.
#[tactic(auto, using(crate::proofs::Splits::root_is))]
pub(crate) fn matches_root(pattern: &[u8]) -> bool
    ensures { result ≡ matches_root pattern.now }
{
    are_stars(pattern)
}

/// The bytes behind a byte that comes first.
fn later(bytes: &[u8]) -> &[u8]
    ensures { result.now ≡ drop 1 bytes.now }
{
    match bytes.split_first() {
        Some((_, later)) => later,
        None => bytes,
    }
}

/// The bytes between the quote that comes first and the next one.
#[tactic(auto, using(crate::proofs::Found::ends_within), unfolding(crate::specs::Lines::reason_in))]
pub(crate) fn reason_in(bytes: &[u8]) -> &[u8]
    ensures { result.now ≡ reason_in bytes.now }
{
    let body = later(bytes);
    body.split_at(quote_end(body)).0
}

/// The bytes behind the second quote.
#[tactic(auto, using(crate::proofs::Found::ends_within), unfolding(crate::specs::Lines::behind_reason))]
pub(crate) fn behind_reason(bytes: &[u8]) -> &[u8]
    ensures { result.now ≡ behind_reason bytes.now }
{
    let body = later(bytes);
    let end = quote_end(body);
    if end == body.len() {
        return &body[end..];
    }
    &body[end + 1..]
}

/// Whether all bytes are of a reason.
fn are_reason_bytes(bytes: &[u8]) -> bool
    ensures { result ≡ are_reason_bytes bytes.now }
{
    bytes.iter().all(|byte| is_reason_byte(*byte))
}

/// Whether bytes may be a reason.
#[tactic(auto, unfolding(crate::specs::Lines::is_reason))]
fn is_reason(bytes: &[u8]) -> bool
    ensures { result ≡ is_reason bytes.now }
{
    !bytes.is_empty() && are_reason_bytes(bytes)
}

fn begins_quote(bytes: &[u8]) -> bool
    ensures { result ≡ is_quote (slice_index bytes.now 0) }
{
    match bytes.split_first() {
        Some((first, _)) => *first == b'"',
        None => false,
    }
}

/// Whether a quote stands behind the first byte.
fn has_second_quote(bytes: &[u8]) -> bool
    ensures { result ≡ nat_lt (position_or_len is_quote (drop 1 bytes.now)) (length (drop 1 bytes.now)) }
{
    let body = later(bytes);
    quote_end(body) < body.len()
}

/// Whether a quote, some bytes of a reason and a quote stand first.
#[tactic(auto, unfolding(crate::specs::Lines::begins_reason))]
pub(crate) fn begins_reason(bytes: &[u8]) -> bool
    ensures { result ≡ begins_reason bytes.now }
{
    begins_quote(bytes) && has_second_quote(bytes) && is_reason(reason_in(bytes))
}

/// Whether a blank or the line's end stands next.
#[tactic(auto, unfolding(crate::specs::Lines::is_parted))]
pub(crate) fn is_parted(bytes: &[u8]) -> bool
    ensures { result ≡ is_parted bytes.now }
{
    if bytes.is_empty() {
        return true;
    }
    is_blank(bytes[0])
}

/// Whether all bytes are of a name.
fn are_name_bytes(bytes: &[u8]) -> bool
    ensures { result ≡ list_all is_name_byte bytes.now }
{
    bytes.iter().all(|byte| is_name_byte(*byte))
}

/// Whether bytes may be a name.
#[tactic(auto, unfolding(crate::specs::Lines::is_name))]
pub(crate) fn is_name(bytes: &[u8]) -> bool
    ensures { result ≡ is_name bytes.now }
{
    !bytes.is_empty() && are_name_bytes(bytes)
}

/// Whether nothing stands there, or a comment.
#[tactic(auto, unfolding(crate::specs::Lines::is_idle))]
pub(crate) fn is_idle(bytes: &[u8]) -> bool
    ensures { result ≡ is_idle bytes.now }
{
    if bytes.is_empty() {
        return true;
    }
    bytes[0] == b'#'
}
