//! The piece of a text that begins at a place: a token, or what stands between tokens.
ghost use Rattle.std.specs.Prelude.{◌≡◌, ◌≢◌, ◌≤◌, ◌<◌, ◌^◌, length, ◌⊎◌, slice_index, true, false, Some, None};
ghost use Rattle.cov_lexer.specs.Bytes.{is_letter, is_digit};
ghost use Rattle.cov_lexer.specs.declared.token.TokenKind.TheVariants.{Decimal, Based};
ghost use Rattle.cov_lexer.specs.Forms.{based, base_and_digits, IsPiece, Item};
ghost use Rattle.cov_lexer.specs.Lexes.{opens_comment};
ghost use Rattle.cov_lexer.specs.Reading.{Finds, EndsOf, ClosesAt, OnlyOperators};

use crate::bytes::{Base, Class, is_blank, is_digit, is_letter, is_sign};
use crate::kind::Kind;
use crate::literals::literal;
use crate::operators::{operator_at, sort_of};
use crate::runs::{byte_at, run_end, stands};
use crate::spellings::keyword;
use crate::token::{LexFault, TokenKind};
use cov_ground::limits::LONGEST_NAME;

/// The greatest number of bytes of a name.
const NAME_LIMIT: usize = LONGEST_NAME as usize;

/// What a token is, and what it spells.
#[derive(Clone, Copy)]
pub(crate) struct Sort {
    pub(crate) kind: TokenKind,
    pub(crate) spelled: Kind,
}

/// A piece of a text.
#[derive(Clone, Copy)]
pub(crate) struct Found {
    /// What the token is; none for a blank or a comment.
    pub(crate) sort: Option<Sort>,
    /// Where it ends.
    pub(crate) end: usize,
}

impl Found {
    fn separator(end: usize) -> Found
        ensures { result ≡ record { sort = None; «end» = end } }
    {
        Found { sort: None, end }
    }

    fn token(kind: TokenKind, spelled: Kind, end: usize) -> Found
        ensures { result ≡ record { sort = Some (record { kind = kind; spelled = spelled }); «end» = end } }
    {
        Found {
            sort: Some(Sort { kind, spelled }),
            end,
        }
    }
}

/// The piece that begins at this place, or the fault there.
pub(crate) fn piece_at(text: &[u8], at: usize) -> Result<Found, LexFault>
    requires inside { at < length text.now }
    requires short { length text.now < 2 ^ 32 }
    ensures { Finds text.now at result }
{
    let byte = text[at];
    if is_blank(byte) {
        return Ok(Found::separator(at + 1));
    }
    if is_letter(byte) {
        return name_at(text, at);
    }
    if is_digit(byte) {
        return number_at(text, at);
    }
    match byte {
        b'"' => string_at(text, at),
        b'$' => system_at(text, at),
        b'\'' => apostrophe_at(text, at),
        b'/' => slash_at(text, at),
        _ => operator_only(text, at),
    }
}

/// A name or a keyword.
fn name_at(text: &[u8], at: usize) -> Result<Found, LexFault>
    requires inside { at < length text.now }
    requires short { length text.now < 2 ^ 32 }
    requires letter { is_letter (slice_index text.now at) ≡ true }
    ensures { Finds text.now at result }
{
    let end = run_end(text, at + 1, Class::Word);
    if let Some(spelled) = keyword(&text[at..end]) {
        return Ok(Found::token(TokenKind::Keyword, spelled, end));
    }
    if end - at > NAME_LIMIT {
        return Err(LexFault::NameTooLong { at: at as u32 });
    }
    Ok(Found::token(TokenKind::Ident, Kind::Ident, end))
}

/// A number that begins with a digit.
fn number_at(text: &[u8], at: usize) -> Result<Found, LexFault>
    requires inside { at < length text.now }
    requires short { length text.now < 2 ^ 32 }
    requires digit { is_digit (slice_index text.now at) ≡ true }
    ensures { Finds text.now at result }
{
    let end = run_end(text, at + 1, Class::Number);
    let apostrophe = run_end(text, end, Class::Space);
    match based_end(text, apostrophe) {
        Some(last) => literal_token(text, at, last, TokenKind::Based),
        None => literal_token(text, at, end, TokenKind::Decimal),
    }
}

/// The literal that ends there, unless it is too wide.
fn literal_token(text: &[u8], at: usize, end: usize, kind: TokenKind) -> Result<Found, LexFault>
    requires piece { IsPiece text.now at (Item kind) end }
    requires literal { (kind ≡ Decimal) ⊎ (kind ≡ Based) }
    requires no_comment { opens_comment text.now at ≡ false }
    requires more { at < end }
    requires inside { end ≤ length text.now }
    requires short { length text.now < 2 ^ 32 }
    ensures { Finds text.now at result }
{
    match literal(&text[at..end]) {
        Some(_) => Ok(Found::token(kind, Kind::Numeral, end)),
        None => Err(LexFault::LiteralTooWide { at: at as u32 }),
    }
}

/// Where the based literal ends whose apostrophe stands at this place.
fn based_end(text: &[u8], at: usize) -> Option<usize>
    requires { at ≤ length text.now }
    ensures { EndsOf based text.now at result }
{
    if byte_at(text, at) != b'\'' {
        return None;
    }
    if is_sign(byte_at(text, at + 1)) {
        marked_end(text, at + 2)
    } else {
        marked_end(text, at + 1)
    }
}

/// Where the based literal ends whose base letter stands at this place.
fn marked_end(text: &[u8], at: usize) -> Option<usize>
    requires { at ≤ length text.now }
    ensures { EndsOf base_and_digits text.now at result }
{
    let Some(base) = Base::of(byte_at(text, at)) else {
        return None;
    };
    let first = run_end(text, at + 1, Class::Space);
    if !base.is_digit(byte_at(text, first)) {
        return None;
    }
    Some(run_end(text, first + 1, Class::Digits(base)))
}

/// A string.
fn string_at(text: &[u8], at: usize) -> Result<Found, LexFault>
    requires inside { at < length text.now }
    requires short { length text.now < 2 ^ 32 }
    requires quote { slice_index text.now at ≡ 34 }
    ensures { Finds text.now at result }
{
    let end = run_end(text, at + 1, Class::Inside);
    if byte_at(text, end) != b'"' {
        return Err(LexFault::OpenString { at: at as u32 });
    }
    Ok(Found::token(TokenKind::Text, Kind::Quoted, end + 1))
}

/// A system name, or a dollar sign alone.
fn system_at(text: &[u8], at: usize) -> Result<Found, LexFault>
    requires inside { at < length text.now }
    requires short { length text.now < 2 ^ 32 }
    requires dollar { slice_index text.now at ≡ 36 }
    ensures { Finds text.now at result }
{
    let end = run_end(text, at + 1, Class::Word);
    if end == at + 1 {
        return operator_only(text, at);
    }
    Ok(Found::token(TokenKind::System, Kind::System, end))
}

/// A based literal with no size, or an apostrophe alone.
fn apostrophe_at(text: &[u8], at: usize) -> Result<Found, LexFault>
    requires inside { at < length text.now }
    requires short { length text.now < 2 ^ 32 }
    requires apostrophe { slice_index text.now at ≡ 39 }
    ensures { Finds text.now at result }
{
    let Some(last) = based_end(text, at) else {
        return operator_only(text, at);
    };
    literal_token(text, at, last, TokenKind::Based)
}

/// A comment, or a slash alone.
fn slash_at(text: &[u8], at: usize) -> Result<Found, LexFault>
    requires inside { at < length text.now }
    requires short { length text.now < 2 ^ 32 }
    requires slash { slice_index text.now at ≡ 47 }
    ensures { Finds text.now at result }
{
    if stands(text, at, b"//") {
        return Ok(Found::separator(run_end(text, at + 2, Class::Line)));
    }
    if stands(text, at, b"/*") {
        return match comment_close(text, at + 2) {
            Some(close) => Ok(Found::separator(close + 2)),
            None => Err(LexFault::OpenComment { at: at as u32 }),
        };
    }
    operator_only(text, at)
}

/// Where the first `*/` begins, from this place on.
fn comment_close(text: &[u8], at: usize) -> Option<usize>
    requires { at ≤ length text.now }
    ensures { ClosesAt text.now at result }
{
    let mut close = at;
    while close < text.len() {
        if stands(text, close, b"*/") {
            return Some(close);
        }
        close += 1;
    }
    None
}

/// An operator where nothing else can begin, or a byte that begins no token.
fn operator_only(text: &[u8], at: usize) -> Result<Found, LexFault>
    requires inside { at < length text.now }
    requires short { length text.now < 2 ^ 32 }
    requires alone { OnlyOperators text.now at }
    requires no_quote { slice_index text.now at ≢ 34 }
    ensures { Finds text.now at result }
{
    match operator_at(text, at) {
        Some((spelled, end)) => Ok(Found::token(sort_of(spelled), spelled, end)),
        None => Err(LexFault::BadByte { at: at as u32 }),
    }
}
