//! Types (IEEE 1800-2017, 6.11).
ghost use Rattle.std.specs.Prelude.{◌≡◌};
ghost use Rattle.cov_grammar.specs.Parses.{Parses};
ghost use Rattle.cov_grammar.specs.Designs.{sign, signed_or, vector, built_in, type_text, width_of};
ghost use Rattle.token_reader.specs.Reading.{Took, over};
ghost use Rattle.item_parser.specs.Parts.{maybe_span};

use cov_grammar::{Kind, Place, Room, Standing, Stop};
use cov_tree::{Expr, FixedWidth, TypeText};
use range_parser::whole_expr;
use token_reader::{Held, Reader};

/// A type.
pub fn type_text(
    reader: Reader<'_>,
    place: Place,
    room: Room,
) -> Result<(Held<TypeText>, Place), Stop>
    ensures { Parses (over reader.entry type_text) room place result }
{
    let Some((token, after)) = reader.take(place, &[Kind::Ident]) else {
        return built_in(reader, place, room);
    };
    let name = reader.name_of(token)?;
    let at = token.at;
    Ok((Held::of(TypeText::Named { name, at }), after))
}

/// A type that has a word of its own.
pub(crate) fn built_in(
    reader: Reader<'_>,
    place: Place,
    room: Room,
) -> Result<(Held<TypeText>, Place), Stop>
    ensures { Parses (over reader.entry built_in) room place result }
{
    let Some((token, next)) = reader.take(
        place,
        &[
            Kind::ByteWord,
            Kind::ShortintWord,
            Kind::IntWord,
            Kind::LongintWord,
            Kind::IntegerWord,
        ],
    ) else {
        return vector(reader, place, room);
    };
    let (signed, after) = sign(reader, next, true);
    let width = width_of(token.kind);
    Ok((Held::of(TypeText::Fixed { width, signed }), after))
}

/// A vector.
pub(crate) fn vector(
    reader: Reader<'_>,
    place: Place,
    room: Room,
) -> Result<(Held<TypeText>, Place), Stop>
    ensures { Parses (over reader.entry vector) room place result }
{
    let Some((token, next)) = reader.take(place, &[Kind::BitWord, Kind::LogicWord, Kind::RegWord])
    else {
        return Err(Stop::Syntax(place.at));
    };
    let (signed, at) = sign(reader, next, false);
    let (span, after) = span(reader, at, room)?;
    let at = token.at;
    let span = span.put();
    Ok((Held::of(TypeText::Vector { signed, span, at }), after))
}

/// `[high:low]`, or nothing.
fn span(
    reader: Reader<'_>,
    place: Place,
    room: Room,
) -> Result<(Held<Option<(Expr, Expr)>>, Place), Stop>
    ensures { Parses (over reader.entry maybe_span) room place result }
{
    let Some((_, next)) = reader.take(place, &[Kind::OpenIndex, Kind::OpenSquare]) else {
        return Ok((Held::of(None), place));
    };
    let (high, at) = whole_expr(reader, next, room, Standing::Plain)?;
    let (_, at) = reader.word(at, Kind::Colon)?;
    let (low, at) = whole_expr(reader, at, room, Standing::Plain)?;
    let (_, after) = reader.word(at, Kind::CloseSquare)?;
    Ok((Held::of(Some((high.put(), low.put()))), after))
}

/// Whether a type is signed, by its sign, and without one.
fn sign(reader: Reader<'_>, place: Place, without: bool) -> (bool, Place)
    ensures { Took (over reader.entry sign) (λ s. result.0 ≡ signed_or without s) place result.1 }
{
    match reader.take(place, &[Kind::SignedWord, Kind::UnsignedWord]) {
        Some((token, after)) => (token.kind.is_one_of(&[Kind::SignedWord]), after),
        None => (without, place),
    }
}

fn width_of(kind: Kind) -> FixedWidth
    ensures { result ≡ width_of kind }
{
    match kind {
        Kind::ByteWord => FixedWidth::Bits8,
        Kind::ShortintWord => FixedWidth::Bits16,
        Kind::LongintWord => FixedWidth::Bits64,
        _ => FixedWidth::Bits32,
    }
}
