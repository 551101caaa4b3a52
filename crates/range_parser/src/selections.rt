//! Selections of products of a cross (IEEE 1800-2017, 19.6.1).
ghost use Rattle.std.specs.Prelude.{◌≡◌, IfOk};
ghost use Rattle.cov_grammar.specs.Parses.{Parses};
ghost use Rattle.cov_grammar.specs.Groups.{bins_of_token, binsof_in, part_sel, sel};
ghost use Rattle.cov_tree.specs.Exprs.{none_of, both_of, either_of};
ghost use Rattle.token_reader.specs.Reading.{over};
ghost use Rattle.range_parser.specs.Parts.{conjunction, maybe_bin, maybe_meets, simple};

use crate::ranges::elems;
use cov_grammar::{Kind, Marked, Place, Room, Standing, Stop};
use cov_tree::{Boxed, Elem, List, Memory, Name, Sel};
use std::alloc::Global;
use token_reader::{Held, Reader};

/// A selection that stands in no other: its operators are counted by themselves.
pub fn selection(reader: Reader<'_>, place: Place, room: Room) -> Result<(Held<Sel>, Place), Stop>
    ensures { Parses (over reader.entry sel) room place result }
{
    let start = Place {
        at: place.at,
        used: 0,
    };
    let (sel, end) = part_selection(reader, start, room)?;
    let after = Place {
        at: end.at,
        used: place.used,
    };
    Ok((sel, after))
}

/// Conjunctions with `||` between them, grouped to the left.
#[cycle(selection)]
fn part_selection(reader: Reader<'_>, place: Place, room: Room) -> Result<(Held<Sel>, Place), Stop>
    ensures { Parses (over reader.entry part_sel) room place result }
{
    let (mut left, mut at) = conjunction(reader, place, room)?;
    while let Some((_, next)) = reader.operator(at, room, &[Kind::OrOr])? {
        let (right, after) = conjunction(reader, next, room)?;
        left = either_of(reader.alloc, left, right)?;
        at = after;
    }
    Ok((left, at))
}

/// Simple selections with `&&` between them, grouped to the left.
#[cycle(selection)]
fn conjunction(reader: Reader<'_>, place: Place, room: Room) -> Result<(Held<Sel>, Place), Stop>
    ensures { Parses (over reader.entry conjunction) room place result }
{
    let (mut left, mut at) = simple(reader, place, room)?;
    while let Some((_, next)) = reader.operator(at, room, &[Kind::AndAnd])? {
        let (right, after) = simple(reader, next, room)?;
        left = both_of(reader.alloc, left, right)?;
        at = after;
    }
    Ok((left, at))
}

/// `!`, a selection in parentheses, or the products of a point's bins.
#[cycle(selection)]
fn simple(reader: Reader<'_>, place: Place, room: Room) -> Result<(Held<Sel>, Place), Stop>
    ensures { Parses (over reader.entry simple) room place result }
{
    if let Some((_, next)) = reader.take(place, &[Kind::Bang]) {
        let inner = room.deeper(place.at)?;
        let (operand, after) = simple(reader, next, inner)?;
        return Ok((none_of(reader.alloc, operand)?, after));
    }
    let Some((_, next)) = reader.take(place, &[Kind::OpenParen]) else {
        return bins_of(reader, place, room);
    };
    let inner = room.deeper(place.at)?;
    let (inside, at) = part_selection(reader, next, inner)?;
    let (_, after) = reader.word(at, Kind::CloseParen)?;
    Ok((inside, after))
}

/// The products of some bins of a point.
fn bins_of(reader: Reader<'_>, place: Place, room: Room) -> Result<(Held<Sel>, Place), Stop>
    ensures { Parses (over reader.entry binsof_in) room place result }
{
    let (binsof, at) = reader.word(place, Kind::BinsofWord)?;
    let (_, at) = reader.word(at, Kind::OpenParen)?;
    let (point, at) = reader.ident(at)?;
    let (bin, at) = maybe_bin(reader, at, room)?;
    let (_, at) = reader.word(at, Kind::CloseParen)?;
    let (meets, after) = maybe_meets(reader, at, room)?;
    Ok((bins_of_token(binsof, point, bin, meets), after))
}

/// `.name`, or nothing.
fn maybe_bin(reader: Reader<'_>, place: Place, room: Room) -> Result<(Option<Name>, Place), Stop>
    ensures { Parses (over reader.entry maybe_bin) room place result }
{
    let Some((_, next)) = reader.take(place, &[Kind::Dot]) else {
        return Ok((None, place));
    };
    let (bin, after) = reader.ident(next)?;
    Ok((Some(bin), after))
}

/// `intersect {values}`, or nothing.
fn maybe_meets(
    reader: Reader<'_>,
    place: Place,
    room: Room,
) -> Result<(Option<List<Elem>>, Place), Stop>
    ensures { Parses (over reader.entry maybe_meets) room place result }
{
    let Some((_, next)) = reader.take(place, &[Kind::IntersectWord]) else {
        return Ok((None, place));
    };
    let (_, at) = reader.word(next, Kind::OpenBrace)?;
    let (meets, at) = elems(reader, at, room, Standing::Plain)?;
    let (_, after) = reader.word(at, Kind::CloseBrace)?;
    Ok((Some(meets), after))
}

fn bins_of_token(
    binsof: Marked,
    point: Name,
    bin: Option<Name>,
    meets: Option<List<Elem>>,
) -> Held<Sel>
    ensures { result ≡ bins_of_token binsof ((point, bin), meets) }
{
    let at = binsof.at;
    Held::of(Sel::BinsOf {
        point,
        bin,
        meets,
        at,
    })
}

fn none_of(alloc: Global, sel: Held<Sel>) -> Result<Held<Sel>, Memory>
    ensures { IfOk result (λ made. made ≡ none_of sel) }
{
    let sel = Boxed::of(alloc, sel.put())?;
    Ok(Held::of(Sel::Not(sel)))
}

fn either_of(alloc: Global, left: Held<Sel>, right: Held<Sel>) -> Result<Held<Sel>, Memory>
    ensures { IfOk result (λ sel. sel ≡ either_of left right) }
{
    let left = Boxed::of(alloc, left.put())?;
    let right = Boxed::of(alloc, right.put())?;
    Ok(Held::of(Sel::Or(left, right)))
}

fn both_of(alloc: Global, left: Held<Sel>, right: Held<Sel>) -> Result<Held<Sel>, Memory>
    ensures { IfOk result (λ sel. sel ≡ both_of left right) }
{
    let left = Boxed::of(alloc, left.put())?;
    let right = Boxed::of(alloc, right.put())?;
    Ok(Held::of(Sel::And(left, right)))
}
