//! Single tokens, and what they spell.
ghost use Rattle.std.specs.Prelude.{◌≡◌, ◌<◌, ◌+◌, slice_range, length, IfSome, IfNone, IfOk, IfErr};
ghost use Rattle.cov_grammar.specs.declared.place.Stop.TheVariants.{TooDeep};
ghost use Rattle.cov_grammar.specs.Rule.{In, one, word, offset};
ghost use Rattle.cov_grammar.specs.Parses.{Reads, Fails};
ghost use Rattle.cov_grammar.specs.Expressions.{spelled, literal_or};
ghost use Rattle.cov_grammar.specs.Bins.{ident};
ghost use Rattle.cov_lexer.specs.Literals.{literal_of};
ghost use Rattle.token_reader.specs.Reading.{ParsesAlways, ReadsAlways, over};
ghost use Rattle.token_reader.specs.Parts.{operators};

use cov_grammar::{Kind, Marked, Place, Room, Stop};
use cov_lexer::literal;
use cov_tree::{Literal, Memory, Name};
use std::alloc::Global;

/// What never changes while a text is read. A reader of a part is passed the place where it stands, and the room where levels
/// or operators count. It answers the part and the place behind it, or why reading stops: Syntax at the first token with
/// which nothing goes on, TooDeep at the token that takes more room than there is, or Memory.
#[derive(Clone, Copy)]
pub struct Reader<'a> {
    /// What the tree's memory is taken from.
    pub alloc: Global,
    /// The bytes of the text.
    pub text: &'a [u8],
    /// The tokens of the text, with their kinds.
    pub tokens: &'a [Marked],
}

impl<'a> Reader<'a> {
    /// The token at this place and the place behind it, where it is of one of these kinds.
    pub fn take(self, place: Place, kinds: &[Kind]) -> Option<(Marked, Place)>
        ensures some { IfSome result (ReadsAlways (one self.entry.tokens.now kinds.now) place) }
        ensures here { IfSome result (λ x. In self.entry.tokens.now place.at kinds.now) }
        ensures none { IfNone result (In self.entry.tokens.now place.at kinds.now → ⊥) }
    {
        if place.at >= self.tokens.len() {
            return None;
        }
        let token = self.tokens[place.at];
        if !token.kind.is_one_of(kinds) {
            return None;
        }
        Some((
            token,
            Place {
                at: place.at + 1,
                used: place.used,
            },
        ))
    }

    /// The token at this place, which is of this kind, and the place behind it; Syntax there where it is of another kind.
    pub fn word(self, place: Place, kind: Kind) -> Result<(Marked, Place), Stop>
        ensures { ParsesAlways (word self.entry.tokens.now kind) place result }
    {
        match self.take(place, &[kind]) {
            Some(found) => Ok(found),
            None => Err(Stop::Syntax(place.at)),
        }
    }

    /// The operator between two operands at this place, where it is of one of these kinds. It may be one too many.
    pub fn operator(
        self,
        place: Place,
        room: Room,
        kinds: &[Kind],
    ) -> Result<Option<(Marked, Place)>, Stop>
        ensures some { IfOk result (λ o. IfSome o (λ x.
            Reads (over self.entry operators kinds.now) room place x.0 x.1)) }
        ensures behind { IfOk result (λ o. IfSome o (λ x. x.1.at ≡ place.at + 1)) }
        ensures inside { IfOk result (λ o.
            IfSome o (λ _. place.at < length self.entry.tokens.now)) }
        ensures none { IfOk result (λ o.
            IfNone o (In self.entry.tokens.now place.at kinds.now → ⊥)) }
        ensures full { IfErr result (Fails (over self.entry operators kinds.now) room place) }
        ensures too_many { IfErr result (λ s. s ≡ TooDeep place.at) }
    {
        let Some((token, after)) = self.take(place, kinds) else {
            return Ok(None);
        };
        if place.used >= room.operators {
            return Err(Stop::TooDeep(place.at));
        }
        let behind = Place {
            at: after.at,
            used: place.used + 1,
        };
        Ok(Some((token, behind)))
    }

    /// What the token spells, as far as the text has its bytes.
    pub fn spelled(self, token: Marked) -> &'a [u8]
        ensures { result.now ≡ spelled self.entry.text.now token }
    {
        piece(self.text, token.at, token.len)
    }

    /// The name at this place (5.6), or Syntax there.
    pub fn ident(self, place: Place) -> Result<(Name, Place), Stop>
        ensures { ParsesAlways (over self.entry ident) place result }
    {
        let (token, after) = self.word(place, Kind::Ident)?;
        Ok((self.name_of(token)?, after))
    }

    /// The name that the token spells.
    pub fn name_of(self, token: Marked) -> Result<Name, Memory>
        ensures { IfOk result (λ name. name ≡ spelled self.entry.text.now token) }
    {
        Name::of(self.alloc, self.spelled(token))
    }

    /// The meaning of a number.
    pub fn number_of(self, token: Marked) -> Literal
        ensures { result ≡ literal_or (literal_of (spelled self.entry.text.now token)) }
    {
        match literal(self.spelled(token)) {
            Some(literal) => literal,
            None => Literal {
                width: 0,
                sized: false,
                signed: false,
                bits: 0,
                free: 0,
            },
        }
    }

    /// The first byte of the token at this place; 0 behind the last one.
    pub fn start_at(self, at: usize) -> u32
        ensures { result ≡ offset self.entry.tokens.now at }
    {
        match self.tokens.get(at) {
            Some(token) => token.at,
            None => 0,
        }
    }
}

/// The bytes of the text from a place up to another, as far as it has them.
pub fn between(text: &[u8], start: usize, end: usize) -> &[u8]
    ensures { result.now ≡ slice_range text.now start end }
{
    let end = end.min(text.len());
    let start = start.min(end);
    &text[start..end]
}

/// So many bytes of the text from a place on, as far as it has them.
fn piece(text: &[u8], at: u32, len: u32) -> &[u8]
    ensures { result.now ≡ slice_range text.now at (at + len) }
{
    let start = at as usize;
    between(text, start, start + len as usize)
}
