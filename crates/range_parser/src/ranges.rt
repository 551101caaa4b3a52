//! Lists of values and ranges (IEEE 1800-2017, 19.5.1).
ghost use Rattle.std.specs.Prelude.{[], ◌∷◌};
ghost use Rattle.cov_lexer.specs.declared.kind.Kind.TheVariants.{Comma};
ghost use Rattle.cov_grammar.specs.Parses.{Parses};
ghost use Rattle.cov_grammar.specs.Expressions.{snoc};
ghost use Rattle.cov_tree.specs.declared.bins.Elem.{Elem};
ghost use Rattle.cov_grammar.specs.Bins.{range_end, elem, elems, values};
ghost use Rattle.cov_grammar.proofs.BinsLaws.{elem_lawful, no_comma};
ghost use Rattle.token_reader.specs.Reading.{over};
ghost use Rattle.range_parser.specs.Parts.{in_parens, maybe_keep};

use cov_grammar::{Kind, Place, Room, Standing, Stop};
use cov_tree::{Elem, End, Expr, List, Right};
use expr_parser::whole_expr;
use token_reader::{Held, Item, Reader, put_last};

/// Numbers and ranges with commas between them.
#[derive(Drop)]
struct ElemList(Standing);

impl Item for ElemList {
    type Tree = Elem;

    ghost Written = { Elem };

    ghost rule = { λ item text ts. elem text ts item.0 };

    ghost put = { snoc };

    ghost separators = { Comma ∷ [] };

    fn separators(&self) -> &'static [Kind] {
        &[Kind::Comma]
    }

    #[tactic(auto, using(token_reader::proofs::Chains::put_parses))]
    fn read(
        &self,
        reader: Reader<'_>,
        place: Place,
        room: Room,
        list: &mut List<Elem>,
    ) -> Result<Place, Stop> {
        put_last(list, elem(reader, place, room, self.0))
    }

    ghost separable = { λ item text ts.
        record { lawful = elem_lawful text ts item.0; apart = no_comma item.0 } };
}

/// Elements with commas between them.
#[tactic(auto, unfolding(cov_grammar::specs::Bins::elems))]
pub fn elems(
    reader: Reader<'_>,
    place: Place,
    room: Room,
    standing: Standing,
) -> Result<(List<Elem>, Place), Stop>
    ensures { Parses (over reader.entry elems standing) room place result }
{
    reader.list(place, room, &ElemList(standing))
}

/// A number or a range.
fn elem(
    reader: Reader<'_>,
    place: Place,
    room: Room,
    standing: Standing,
) -> Result<(Held<Elem>, Place), Stop>
    ensures { Parses (over reader.entry elem standing) room place result }
{
    let Some((open, next)) = reader.take(place, &[Kind::OpenIndex, Kind::OpenSquare]) else {
        let (one, after) = whole_expr(reader, place, room, standing)?;
        return Ok((Held::of(Elem::One(one.put())), after));
    };
    let (low, at) = range_end(reader, next, room)?;
    let (_, at) = reader.word(at, Kind::Colon)?;
    let (high, at) = range_end(reader, at, room)?;
    let (_, after) = reader.word(at, Kind::CloseSquare)?;
    let (low, high) = (low.put(), high.put());
    let at = open.at;
    Ok((Held::of(Elem::Span { low, high, at }), after))
}

/// An end of a range: a number or `$`.
fn range_end(reader: Reader<'_>, place: Place, room: Room) -> Result<(Held<End>, Place), Stop>
    ensures { Parses (over reader.entry range_end) room place result }
{
    if let Some((dollar, after)) = reader.take(place, &[Kind::DollarSign]) {
        return Ok((Held::of(End::Dollar { at: dollar.at }), after));
    }
    let (value, after) = whole_expr(reader, place, room, Standing::Plain)?;
    Ok((Held::of(End::Value(value.put())), after))
}

/// The values of bins: a list in braces that `with` may filter, or a name that it filters (19.5.1.1).
pub fn values(reader: Reader<'_>, place: Place, room: Room) -> Result<(Held<Right>, Place), Stop>
    ensures { Parses (over reader.entry values) room place result }
{
    let Some((_, next)) = reader.take(place, &[Kind::OpenBrace]) else {
        let (name, at) = reader.ident(place)?;
        let (_, at) = reader.word(at, Kind::WithWord)?;
        let (keep, after) = in_parens(reader, at, room)?;
        let keep = keep.put();
        return Ok((Held::of(Right::Whole { name, keep }), after));
    };
    let (elems, at) = elems(reader, next, room, Standing::Plain)?;
    let (_, at) = reader.word(at, Kind::CloseBrace)?;
    let (keep, after) = maybe_keep(reader, at, room)?;
    let keep = keep.put();
    Ok((Held::of(Right::Ranges { elems, keep }), after))
}

/// `with (condition)`, or nothing.
fn maybe_keep(
    reader: Reader<'_>,
    place: Place,
    room: Room,
) -> Result<(Held<Option<Expr>>, Place), Stop>
    ensures { Parses (over reader.entry maybe_keep) room place result }
{
    let Some((_, next)) = reader.take(place, &[Kind::WithWord]) else {
        return Ok((Held::of(None), place));
    };
    let (keep, after) = in_parens(reader, next, room)?;
    Ok((Held::of(Some(keep.put())), after))
}

/// An expression in the parentheses of a construct around it.
pub fn in_parens(reader: Reader<'_>, place: Place, room: Room) -> Result<(Held<Expr>, Place), Stop>
    ensures { Parses (over reader.entry in_parens) room place result }
{
    let (_, next) = reader.word(place, Kind::OpenParen)?;
    let (inside, at) = whole_expr(reader, next, room, Standing::Plain)?;
    let (_, after) = reader.word(at, Kind::CloseParen)?;
    Ok((inside, after))
}
