//! Coverpoints (IEEE 1800-2017, 19.5).
ghost use Rattle.cov_grammar.specs.Parses.{Parses};
ghost use Rattle.cov_grammar.specs.Groups.{point};
ghost use Rattle.token_reader.specs.Reading.{over};

use crate::bodies::body;
use crate::options::guard;
use cov_grammar::{Kind, Place, Room, Standing, Stop};
use cov_tree::{Member, Name, PointDecl};
use range_parser::whole_expr;
use token_reader::{Held, Reader};

/// A coverpoint, with its label and the place of its first token.
pub(crate) fn point(
    reader: Reader<'_>,
    place: Place,
    room: Room,
    start: u32,
    label: Held<Option<Name>>,
) -> Result<(Held<Member>, Place), Stop>
    ensures { Parses (over reader.entry point start label) room place result }
{
    let (_, at) = reader.word(place, Kind::CoverpointWord)?;
    let (expr, at) = whole_expr(reader, at, room, Standing::Plain)?;
    let (guard, at) = guard(reader, at, room)?;
    let ((options, bins), after) = body(reader, at, room)?;
    let point = PointDecl {
        label: label.put(),
        expr: expr.put(),
        guard: guard.put(),
        options,
        bins,
        at: start,
    };
    Ok((Held::of(Member::Point(point)), after))
}
