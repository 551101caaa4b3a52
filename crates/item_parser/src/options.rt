//! Options and guards (IEEE 1800-2017, 19.7 and 19.5).
ghost use Rattle.std.specs.Prelude.{◌≡◌, ◌+◌, ◌-◌, slice_range, IfOk};
ghost use Rattle.cov_grammar.specs.Parses.{Parses};
ghost use Rattle.cov_grammar.specs.Bins.{option_value, optset};
ghost use Rattle.token_reader.specs.Reading.{over};
ghost use Rattle.item_parser.specs.Parts.{maybe_guard};

use cov_grammar::{Kind, Marked, Place, Room, Standing, Stop};
use cov_tree::{Expr, Memory, Name, OptDecl, OptText};
use range_parser::{in_parens, whole_expr};
use token_reader::{Held, Reader, between};

/// An option.
pub(crate) fn option(
    reader: Reader<'_>,
    place: Place,
    room: Room,
) -> Result<(Held<OptDecl>, Place), Stop>
    ensures { Parses (over reader.entry optset) room place result }
{
    let Some((token, next)) = reader.take(place, &[Kind::OptionWord, Kind::TypeOptionWord]) else {
        return Err(Stop::Syntax(place.at));
    };
    let (_, at) = reader.word(next, Kind::Dot)?;
    let (name, at) = reader.ident(at)?;
    let (_, at) = reader.word(at, Kind::Assign)?;
    let (value, at) = option_value(reader, at, room)?;
    let (_, after) = reader.word(at, Kind::Semi)?;
    let option = OptDecl {
        on_type: token.kind.is_one_of(&[Kind::TypeOptionWord]),
        name,
        value: value.put(),
        at: token.at,
    };
    Ok((Held::of(option), after))
}

/// A string or a number.
fn option_value(
    reader: Reader<'_>,
    place: Place,
    room: Room,
) -> Result<(Held<OptText>, Place), Stop>
    ensures { Parses (over reader.entry option_value) room place result }
{
    if let Some((token, after)) = reader.take(place, &[Kind::Quoted]) {
        let inside = inside_quotes(reader, token)?;
        return Ok((Held::of(OptText::Text(inside)), after));
    }
    let (number, after) = whole_expr(reader, place, room, Standing::Plain)?;
    Ok((Held::of(OptText::Number(number.put())), after))
}

/// What stands between the quotes of a string.
fn inside_quotes(reader: Reader<'_>, token: Marked) -> Result<Name, Memory>
    ensures { IfOk result (λ name. name ≡
        slice_range reader.entry.text.now (token.at + 1) (token.at + token.len - 1)) }
{
    let end = (token.at as usize + token.len as usize).saturating_sub(1);
    Name::of(
        reader.alloc,
        between(reader.text, token.at as usize + 1, end),
    )
}

/// `iff (condition)`, or nothing.
pub(crate) fn guard(
    reader: Reader<'_>,
    place: Place,
    room: Room,
) -> Result<(Held<Option<Expr>>, Place), Stop>
    ensures { Parses (over reader.entry maybe_guard) room place result }
{
    let Some((_, next)) = reader.take(place, &[Kind::IffWord]) else {
        return Ok((Held::of(None), place));
    };
    let (condition, after) = in_parens(reader, next, room)?;
    Ok((Held::of(Some(condition.put())), after))
}
