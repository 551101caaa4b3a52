//! The tokens of a text with their kinds.
ghost use Rattle.std.specs.Prelude.{◌≡◌, ℕ, List, IfOk};
ghost use Rattle.cov_lexer.specs.Lexes.{AllSpelled};
ghost use Rattle.cov_grammar.specs.Marking.{next_begins, with_neighbours, marked};

use cov_grammar::{Kind, Marked, Stop};
use cov_lexer::Token;
use std::alloc::Global;

/// The tokens with their kinds, or Memory. It takes the time of one pass.
pub(crate) fn marks(alloc: Global, tokens: &[Token]) -> Result<Vec<Marked>, Stop>
    ensures { (text : List ℕ) → AllSpelled text tokens.now →
        IfOk result (λ found. found.items ≡ marked text tokens.now) }
{
    let mut found = Vec::with_capacity(alloc, tokens.len())?;
    let mut named = false;
    let mut rest = tokens;
    while let Some((token, later)) = rest.split_first() {
        let kind = token.spelled;
        found.push(Marked {
            kind: with_neighbours(named, kind, later),
            at: token.at,
            len: token.len,
        })?;
        named = kind.is_one_of(&[Kind::Ident]);
        rest = later;
    }
    Ok(found)
}

/// The kind of a token before these and behind a name or not.
fn with_neighbours(named: bool, kind: Kind, later: &[Token]) -> Kind
    ensures { (text : List ℕ) → AllSpelled text later.now →
        result ≡ with_neighbours named kind (next_begins text later.now) }
{
    match kind {
        Kind::OpenSquare => {
            if named && next_begins(later) {
                Kind::OpenIndex
            } else {
                Kind::OpenSquare
            }
        }
        kind => kind,
    }
}

/// Whether an expression can begin with the first of these tokens.
fn next_begins(tokens: &[Token]) -> bool
    ensures { (text : List ℕ) → AllSpelled text tokens.now → result ≡ next_begins text tokens.now }
{
    match tokens.first() {
        Some(token) => token.spelled.is_one_of(&[
            Kind::PlusSign,
            Kind::Minus,
            Kind::Bang,
            Kind::Tilde,
            Kind::Ampersand,
            Kind::Bar,
            Kind::Caret,
            Kind::TildeAnd,
            Kind::TildeOr,
            Kind::TildeCaret,
            Kind::Numeral,
            Kind::Ident,
            Kind::OpenParen,
            Kind::OpenBrace,
        ]),
        None => false,
    }
}
