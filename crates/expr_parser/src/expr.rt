//! Expressions (IEEE 1800-2017, clause 11). A contract says of each reader which rule of the grammar it reads.
ghost use Rattle.std.specs.Prelude.{◌≡◌, IfOk};
ghost use Rattle.cov_grammar.specs.declared.place.Place.{Place};
ghost use Rattle.cov_grammar.specs.Parses.{Reads, Parses};
ghost use Rattle.cov_grammar.specs.Operators.{unary_of};
ghost use Rattle.cov_grammar.specs.Expressions.{part_expr, whole_expr, index_kinds, spelled, literal_or, selected, joined};
ghost use Rattle.cov_tree.specs.Exprs.{number, concatenation, choice, unary};
ghost use Rattle.cov_lexer.specs.Literals.{literal_of};
ghost use Rattle.token_reader.specs.Reading.{over};
ghost use Rattle.expr_parser.specs.Parts.{binary_at, expr_behind, low_end, maybe_index, parts, primary_at, unary_at};

use crate::operators::{LEVELS, UNARY, binary_op, next_level, operator_at, operators, unary_op};
use cov_grammar::{Kind, Marked, Place, Room, Standing, Stop};
use cov_tree::{Boxed, Expr, List, Memory};
use std::alloc::Global;
use token_reader::{Held, Reader, add, alone};

/// An expression that stands in no other: its operators are counted by themselves.
pub fn whole_expr(
    reader: Reader<'_>,
    place: Place,
    room: Room,
    standing: Standing,
) -> Result<(Held<Expr>, Place), Stop>
    ensures { Parses (over reader.entry whole_expr standing) room place result }
{
    let start = Place {
        at: place.at,
        used: 0,
    };
    let (expr, end) = part_expr(reader, start, room, standing)?;
    let after = Place {
        at: end.at,
        used: place.used,
    };
    Ok((expr, after))
}

/// An expression behind a token of this kind, or nothing.
pub fn expr_behind(
    reader: Reader<'_>,
    kind: Kind,
    place: Place,
    room: Room,
) -> Result<(Held<Option<Expr>>, Place), Stop>
    ensures { Parses (over reader.entry expr_behind kind) room place result }
{
    let Some((_, next)) = reader.take(place, &[kind]) else {
        return Ok((Held::of(None), place));
    };
    let (expr, after) = whole_expr(reader, next, room, Standing::Plain)?;
    Ok((Held::of(Some(expr.put())), after))
}

/// An expression, some of whose operators may stand before it.
#[cycle(expr)]
fn part_expr(
    reader: Reader<'_>,
    place: Place,
    room: Room,
    standing: Standing,
) -> Result<(Held<Expr>, Place), Stop>
    ensures { Parses (over reader.entry part_expr standing) room place result }
{
    let start = reader.start_at(place.at);
    let (test, at) = binary(reader, place, room, standing, LEVELS)?;
    let Some((_, next)) = reader.take(at, &[Kind::Question]) else {
        return Ok((test, at));
    };
    let inner = room.deeper(at.at)?;
    let (yes, at) = part_expr(reader, next, inner, Standing::Plain)?;
    let (_, at) = reader.word(at, Kind::Colon)?;
    let (no, at) = part_expr(reader, at, inner, standing)?;
    Ok((choice(reader.alloc, test, yes, no, start)?, at))
}

/// Operands joined by the operators of so many levels, the strongest first.
#[cycle(expr)]
#[inline(always)]
fn binary(
    reader: Reader<'_>,
    place: Place,
    room: Room,
    standing: Standing,
    level: usize,
) -> Result<(Held<Expr>, Place), Stop>
    ensures { Parses (over reader.entry binary_at standing level) room place result }
{
    let (first, at) = operand(reader, place, room, standing)?;
    let Some(_) = next_level(reader.tokens, at.at, 0, level) else {
        return Ok((first, at));
    };
    climbed(reader, first, at, room, standing, level)
}

/// The operators of so many levels at this place, with their operands, behind a first one that has been read.
#[cycle(expr)]
fn climbed(
    reader: Reader<'_>,
    first: Held<Expr>,
    place: Place,
    room: Room,
    standing: Standing,
    level: usize,
) -> Result<(Held<Expr>, Place), Stop>
    ensures { (start : Place) →
        Reads (over reader.entry unary_at standing) room start first place →
        Parses (over reader.entry binary_at standing level) room start result }
{
    let mut left = first;
    let mut at = place;
    let mut done = 0;
    while let Some(below) = next_level(reader.tokens, at.at, done, level) {
        let kinds = operators(below);
        while let Some((op, next)) = reader.operator(at, room, kinds)? {
            let (right, after) = binary(reader, next, room, standing, below)?;
            left = joined(reader.alloc, op, left, right)?;
            at = after;
        }
        done = below + 1;
    }
    Ok((left, at))
}

/// An operand with the operators before it. A number is looked for first, as it needs no further call.
#[cycle(expr)]
#[inline(always)]
fn operand(
    reader: Reader<'_>,
    place: Place,
    room: Room,
    standing: Standing,
) -> Result<(Held<Expr>, Place), Stop>
    ensures { Parses (over reader.entry unary_at standing) room place result }
{
    if let Some((token, after)) = reader.take(place, &[Kind::Numeral]) {
        return Ok((Held::of(number(reader, token)), after));
    }
    unary(reader, place, room, standing)
}

/// Operators before an operand, and the operand.
#[cycle(expr)]
fn unary(
    reader: Reader<'_>,
    place: Place,
    room: Room,
    standing: Standing,
) -> Result<(Held<Expr>, Place), Stop>
    ensures { Parses (over reader.entry unary_at standing) room place result }
{
    let Some(_) = operator_at(reader.tokens, place.at) else {
        return primary(reader, place, room, standing);
    };
    let Some((op, next)) = reader.take(place, &UNARY) else {
        return primary(reader, place, room, standing);
    };
    let inner = room.deeper(place.at)?;
    let (arg, after) = unary(reader, next, inner, standing)?;
    Ok((before_one(reader.alloc, op, arg)?, after))
}

#[cycle(expr)]
#[inline(always)]
fn primary(
    reader: Reader<'_>,
    place: Place,
    room: Room,
    standing: Standing,
) -> Result<(Held<Expr>, Place), Stop>
    ensures { Parses (over reader.entry primary_at standing) room place result }
{
    if let Some((token, after)) = reader.take(place, &[Kind::Numeral]) {
        return Ok((Held::of(number(reader, token)), after));
    }
    if let Some((name, after)) = reader.take(place, &[Kind::Ident]) {
        let (index, after) = index(reader, after, room, standing)?;
        return Ok((selected(reader, name, index)?, after));
    }
    if let Some((_, next)) = reader.take(place, &[Kind::OpenParen]) {
        let inner = room.deeper(place.at)?;
        let (inside, at) = part_expr(reader, next, inner, Standing::Plain)?;
        let (_, after) = reader.word(at, Kind::CloseParen)?;
        return Ok((inside, after));
    }
    let Some((open, next)) = reader.take(place, &[Kind::OpenBrace]) else {
        return Err(Stop::Syntax(place.at));
    };
    let inner = room.deeper(place.at)?;
    let (parts, at) = parts(reader, next, inner)?;
    let (_, after) = reader.word(at, Kind::CloseBrace)?;
    Ok((Held::of(concatenation(parts, open.at)), after))
}

/// What stands behind a name: an index, the two ends of a part, or nothing.
#[cycle(expr)]
fn index(
    reader: Reader<'_>,
    place: Place,
    room: Room,
    standing: Standing,
) -> Result<(Held<Option<(Expr, Option<Expr>)>>, Place), Stop>
    ensures { Parses (over reader.entry maybe_index standing) room place result }
{
    let Some((_, next)) = reader.take(place, index_kinds(standing)) else {
        return Ok((Held::of(None), place));
    };
    let inner = room.deeper(place.at)?;
    let (high, at) = part_expr(reader, next, inner, Standing::Plain)?;
    let (low, at) = low_end(reader, at, inner)?;
    let (_, after) = reader.word(at, Kind::CloseSquare)?;
    Ok((Held::of(Some((high.put(), low.put()))), after))
}

/// `: expression`, or nothing, in an index.
#[cycle(expr)]
fn low_end(
    reader: Reader<'_>,
    place: Place,
    room: Room,
) -> Result<(Held<Option<Expr>>, Place), Stop>
    ensures { Parses (over reader.entry low_end) room place result }
{
    let Some((_, next)) = reader.take(place, &[Kind::Colon]) else {
        return Ok((Held::of(None), place));
    };
    let (low, after) = part_expr(reader, next, room, Standing::Plain)?;
    Ok((Held::of(Some(low.put())), after))
}

/// The parts of a concatenation.
#[cycle(expr)]
fn parts(reader: Reader<'_>, place: Place, room: Room) -> Result<(List<Expr>, Place), Stop>
    ensures { Parses (over reader.entry parts) room place result }
{
    let (first, mut at) = part_expr(reader, place, room, Standing::Plain)?;
    let mut parts = alone(reader.alloc, first)?;
    while let Some((_, next)) = reader.take(at, &[Kind::Comma]) {
        let (part, after) = part_expr(reader, next, room, Standing::Plain)?;
        add(&mut parts, part)?;
        at = after;
    }
    Ok((parts, at))
}

/// The kinds that open an index.
fn index_kinds(standing: Standing) -> &'static [Kind]
    ensures { result.now ≡ index_kinds standing }
{
    match standing {
        Standing::Plain => &[Kind::OpenIndex, Kind::OpenSquare],
        Standing::StepEnd => &[Kind::OpenIndex],
    }
}

fn number(reader: Reader<'_>, token: Marked) -> Expr
    ensures { result ≡
        number (literal_or (literal_of (spelled reader.entry.text.now token))) token.at }
{
    let lit = reader.number_of(token);
    Expr::Num { lit, at: token.at }
}

fn concatenation(parts: List<Expr>, at: u32) -> Expr
    ensures { result ≡ concatenation parts at }
{
    Expr::Concat { parts, at }
}

/// A name, or a select of it.
fn selected(
    reader: Reader<'_>,
    token: Marked,
    index: Held<Option<(Expr, Option<Expr>)>>,
) -> Result<Held<Expr>, Memory>
    ensures { IfOk result (λ e. e ≡ selected reader.entry.text.now token index) }
{
    let name = reader.name_of(token)?;
    let at = token.at;
    let Some(ends) = index.put() else {
        return Ok(Held::of(Expr::Name { name, at }));
    };
    let (high, low) = ends;
    let low = Held::of(low);
    let index = Boxed::of(reader.alloc, high)?;
    match low.put() {
        None => Ok(Held::of(Expr::Bit { name, index, at })),
        Some(low) => {
            let low = Boxed::of(reader.alloc, low)?;
            let high = index;
            Ok(Held::of(Expr::Part {
                name,
                high,
                low,
                at,
            }))
        }
    }
}

fn choice(
    alloc: Global,
    test: Held<Expr>,
    yes: Held<Expr>,
    no: Held<Expr>,
    at: u32,
) -> Result<Held<Expr>, Memory>
    ensures { IfOk result (λ e. e ≡ choice test yes no at) }
{
    let test = Boxed::of(alloc, test.put())?;
    let yes = Boxed::of(alloc, yes.put())?;
    let no = Boxed::of(alloc, no.put())?;
    Ok(Held::of(Expr::Cond { test, yes, no, at }))
}

/// An operator before an operand.
fn before_one(alloc: Global, op: Marked, arg: Held<Expr>) -> Result<Held<Expr>, Memory>
    ensures { IfOk result (λ e. e ≡ unary (unary_of op.kind) arg op.at) }
{
    let arg = Boxed::of(alloc, arg.put())?;
    Ok(Held::of(Expr::Unary {
        op: unary_op(op.kind),
        arg,
        at: op.at,
    }))
}

/// Two operands joined by an operator.
fn joined(
    alloc: Global,
    op: Marked,
    left: Held<Expr>,
    right: Held<Expr>,
) -> Result<Held<Expr>, Memory>
    ensures { IfOk result (λ e. e ≡ joined left (op, right)) }
{
    let left = Boxed::of(alloc, left.put())?;
    let right = Boxed::of(alloc, right.put())?;
    Ok(Held::of(Expr::Binary {
        op: binary_op(op.kind),
        left,
        right,
        at: op.at,
    }))
}
