//! The words, and which of them is what.
ghost use Rattle.std.specs.Prelude.{◌≡◌, ◌≤◌, length, map, option_map, string_bytes, IfSome};
ghost use Rattle.cov_serve.specs.Seats.{most_callers};
ghost use Rattle.cov_serve.specs.Words.{behind, readers_of, journal_of, flags_of, served_by, IsWithin};

use crate::seats::seats;

/// The places of the words that name something, from 0, and the number of seats.
#[derive(Clone, Copy, PartialEq, Eq)]
pub struct ServeWords {
    /// Where the name of the design text stands.
    pub design: u32,
    /// Where the address to listen on stands.
    pub listen: u32,
    /// How many callers are served at a time, 1 to 256.
    pub seats: u32,
    /// Where the name of the journal stands.
    pub journal: Option<u32>,
    /// Where the address for readers stands.
    pub readers: Option<u32>,
}

/// The value behind a flag and the words behind that, where the words begin with the flag.
fn flagged<'a>(flag: &str, words: &'a [String]) -> Option<(&'a [u8], &'a [String])>
    ensures { option_map (λ p. (p.0.now, map string_bytes p.1.now)) result
        ≡ behind flag.now (map string_bytes words.now) }
{
    let (first, rest) = words.split_first()?;
    let (value, rest) = rest.split_first()?;
    if first.as_str() == flag {
        Some((value.as_bytes(), rest))
    } else {
        None
    }
}

/// The place of the readers' address in the words from a place on, where they name one.
fn readers(at: u32, words: &[String]) -> Option<Option<u32>>
    requires { at ≤ 8 }
    ensures { result ≡ readers_of at (map string_bytes words.now) }
{
    if words.is_empty() {
        return Some(None);
    }
    let (_, rest) = flagged("--readers", words)?;
    if rest.is_empty() {
        Some(Some(at + 1))
    } else {
        None
    }
}

/// The places of the journal's name and of the readers' address in the words from a place on.
fn journal(at: u32, words: &[String]) -> Option<(Option<u32>, Option<u32>)>
    requires { at ≤ 6 }
    ensures { result ≡ journal_of at (map string_bytes words.now) }
{
    match flagged("--journal", words) {
        Some((_, rest)) => {
            let readers = readers(at + 2, rest)?;
            Some((Some(at + 1), readers))
        }
        None => {
            let readers = readers(at, words)?;
            Some((None, readers))
        }
    }
}

/// What the words behind the address say.
fn flags(words: &[String]) -> Option<ServeWords>
    ensures words { result ≡ flags_of (map string_bytes words.now) }
    ensures some { IfSome result (λ w. 1 ≤ w.seats) }
    ensures most { IfSome result (λ w. w.seats ≤ most_callers) }
{
    let (seats, at, rest) = match flagged("--seats", words) {
        Some((value, rest)) => (seats(value)?, 6, rest),
        None => (16, 4, words),
    };
    let (journal, readers) = journal(at, rest)?;
    Some(ServeWords {
        design: 1,
        listen: 3,
        seats,
        journal,
        readers,
    })
}

// What the words say.
fn said(words: &[String]) -> Option<ServeWords>
    ensures words { result ≡ served_by (map string_bytes words.now) }
    ensures some { IfSome result (λ w. 1 ≤ w.seats) }
    ensures most { IfSome result (λ w. w.seats ≤ most_callers) }
{
    let (_, rest) = flagged("serve", words)?;
    let (_, rest) = flagged("--listen", rest)?;
    flags(rest)
}

/// What the words say. They are `serve DESIGN --listen ADDR`, then `--seats N` or nothing, then `--journal FILE` or
/// nothing, then `--readers ADDR` or nothing; N is 1 to 256 by one to three digits, and 16 where it isn't given. None
/// where the words are of none of these forms. It takes no memory.
pub fn serve_words(words: &[String]) -> Option<ServeWords>
    ensures words { result ≡ served_by (map string_bytes words.now) }
    ensures within { IfSome result (IsWithin (length words.now)) }
    ensures some { IfSome result (λ w. 1 ≤ w.seats) }
    ensures most { IfSome result (λ w. w.seats ≤ most_callers) }
{
    said(words)
}
