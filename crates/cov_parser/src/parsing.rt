//! A whole design text.
ghost use Rattle.std.specs.Prelude.{◌≡◌, ◌≢◌, ◌≤◌, length, IfOk, IfErr};
ghost use Rattle.cov_ground.specs.Limits.{longest_design};
ghost use Rattle.cov_lexer.specs.Lexes.{Lexes};
ghost use Rattle.cov_grammar.specs.Marking.{marked};
ghost use Rattle.cov_grammar.specs.Parses.{Parses};
ghost use Rattle.cov_grammar.specs.Designs.{decl};
ghost use Rattle.cov_grammar.specs.Fault.{DerivesWithin, Derives, IsCause, is_foreign, limits};
ghost use Rattle.cov_parser.specs.Parse.{place_of, IsParseFault};
ghost use Rattle.cov_parser.specs.Told.{told};
ghost use Rattle.cov_parser.specs.declared.fault.ParseFault.TheVariants.{Memory};
ghost use Rattle.token_reader.specs.Reading.{over};

use crate::fault::ParseFault;
use crate::groups::group;
use crate::marks::marks;
use cov_grammar::{Kind, Place, Room, Stop};
use cov_lexer::Token;
use cov_tree::{Decl, DesignText, List};
use item_parser::{enumeration, named, variables};
use std::alloc::Global;
use token_reader::Reader;

/// What a text may use up.
const LIMITS: Room = Room {
    levels: 64,
    operators: 1024,
};

/// The syntax tree of a text of these tokens, or its first fault. The text has 1 MiB at most. At most 64 levels of an
/// expression or a selection may be open at once, and each has 1,024 operators at most.
pub fn parse(alloc: Global, text: &[u8], tokens: &[Token]) -> Result<DesignText, ParseFault>
    requires short { length text.now ≤ longest_design }
    requires tokens { Lexes text.now tokens.now }
    ensures read { IfOk result (λ design.
        DerivesWithin limits text.now (marked text.now tokens.now) design.decls) }
    ensures only { IfOk result (λ design. (decls : _) →
        Derives text.now (marked text.now tokens.now) decls → decls ≡ design.decls) }
    ensures sound { IfOk result (λ _. (fault : _) → IsParseFault text.now tokens.now fault → ⊥) }
    ensures cause { IfErr result (λ fault. fault ≢ Memory →
        IsParseFault text.now tokens.now fault) }
    ensures only_cause { IfErr result (λ fault. fault ≢ Memory →
        (other : _) → IsParseFault text.now tokens.now other → other ≡ fault) }
    ensures none { IfErr result (λ fault. fault ≢ Memory →
        (decls : _) → DerivesWithin limits text.now (marked text.now tokens.now) decls → ⊥) }
{
    let Ok(found) = marks(alloc, tokens) else {
        return Err(ParseFault::Memory);
    };
    let marked = found.as_slice();
    let reader = Reader {
        alloc,
        text,
        tokens: marked,
    };
    match design(reader) {
        Ok(decls) => Ok(DesignText { decls }),
        Err(stop) => Err(fault(reader, stop)),
    }
}

/// The declarations of the tokens, or where they have their fault.
fn design(reader: Reader<'_>) -> Result<List<Decl>, Stop>
    ensures read { IfOk result (λ decls.
        DerivesWithin limits reader.entry.text.now reader.entry.tokens.now decls) }
    ensures cause { IfErr result (λ stop.
        IsCause limits reader.entry.text.now reader.entry.tokens.now stop) }
{
    let mut decls = List::new(reader.alloc);
    let mut place = Place { at: 0, used: 0 };
    while place.at < reader.tokens.len() {
        let (more, after) = declaration(reader, place, LIMITS)?;
        decls.append(more)?;
        place = after;
    }
    Ok(decls)
}

/// A declaration.
fn declaration(reader: Reader<'_>, place: Place, room: Room) -> Result<(List<Decl>, Place), Stop>
    ensures { Parses (over reader.entry decl) room place result }
{
    if let Some(_) = reader.take(place, &[Kind::TypedefWord]) {
        return enumeration(reader, place, room);
    }
    if let Some(_) = reader.take(place, &[Kind::CovergroupWord]) {
        return group(reader, place, room);
    }
    if let Some(_) = reader.take(place, &[Kind::Ident]) {
        return named(reader, place, room);
    }
    variables(reader, place, room)
}

/// The fault of the text, by what stopped its reading.
fn fault(reader: Reader<'_>, stop: Stop) -> ParseFault
    requires { length reader.text.now ≤ longest_design }
    ensures { result ≡ told reader.entry.text.now reader.entry.tokens.now stop }
{
    match stop {
        Stop::Memory => ParseFault::Memory,
        Stop::TooDeep(k) => ParseFault::TooDeep {
            at: byte_at(reader, k),
        },
        Stop::Syntax(k) => {
            let at = byte_at(reader, k);
            if is_foreign(reader, k) {
                ParseFault::NotSupported { at }
            } else {
                ParseFault::Syntax { at }
            }
        }
    }
}

/// The byte at which token k begins, or the text's length where there is none.
fn byte_at(reader: Reader<'_>, k: usize) -> u32
    requires { length reader.text.now ≤ longest_design }
    ensures { result ≡ place_of reader.entry.text.now reader.entry.tokens.now k }
{
    match reader.tokens.get(k) {
        Some(token) => token.at,
        None => reader.text.len() as u32,
    }
}

/// Whether the token is one that SystemVerilog has and a design text hasn't.
fn is_foreign(reader: Reader<'_>, k: usize) -> bool
    ensures { result ≡ is_foreign reader.entry.tokens.now k }
{
    match reader.tokens.get(k) {
        Some(token) => token.kind.is_one_of(&[
            Kind::System,
            Kind::NotSupported,
            Kind::OtherWord,
            Kind::WithWord,
        ]),
        None => false,
    }
}
