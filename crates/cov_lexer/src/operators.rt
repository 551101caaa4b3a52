//! Operators.
ghost use Rattle.std.specs.Prelude.{◌≡◌, ◌<◌, ◌≤◌, map, length, option_map};
ghost use Rattle.cov_lexer.specs.Operators.{sort_of, stands, first_standing};
ghost use Rattle.cov_lexer.specs.Reading.{seen, OperatorAt};

use crate::kind::Kind;
use crate::runs::stands;
use crate::spellings::{Spelling, operators_from};
use crate::token::TokenKind;

/// What an operator of this kind is as a token.
pub(crate) fn sort_of(kind: Kind) -> TokenKind
    ensures { result ≡ sort_of kind }
{
    match kind {
        Kind::NotSupported => TokenKind::NotSupported,
        _ => TokenKind::Operator,
    }
}

/// Whether these bytes stand at this place; one byte alone is compared in place.
fn stands_here(text: &[u8], at: usize, bytes: &[u8]) -> bool
    requires { at < length text.now }
    ensures { result ≡ stands text.now at bytes.now }
{
    if bytes.len() == 1 {
        return text[at] == bytes[0];
    }
    stands(text, at, bytes)
}

/// The first of these operators that stands at this place.
fn first_standing(text: &[u8], at: usize, table: &[Spelling]) -> Option<Spelling>
    requires { at < length text.now }
    ensures { option_map seen result ≡ first_standing text.now at (map seen table.now) }
{
    for spelling in table {
        if stands_here(text, at, spelling.0) {
            return Some(*spelling);
        }
    }
    None
}

/// The longest operator at this place: its kind, and where it ends.
pub(crate) fn operator_at(text: &[u8], at: usize) -> Option<(Kind, usize)>
    requires { at < length text.now }
    ensures { OperatorAt text.now at result }
{
    let Some((spelled, kind)) = first_standing(text, at, operators_from(text[at])) else {
        return None;
    };
    Some((kind, at + spelled.len()))
}
