//! Events of covergroups (IEEE 1800-2017, 19.3).
ghost use Rattle.std.specs.Prelude.{◌≡◌, [], ◌∷◌, refl};
ghost use Rattle.cov_lexer.specs.declared.kind.Kind.TheVariants.{Comma, OrWord};
ghost use Rattle.cov_grammar.specs.Parses.{Parses};
ghost use Rattle.cov_grammar.specs.Expressions.{snoc};
ghost use Rattle.cov_tree.specs.declared.groups.EdgeText.{EdgeText};
ghost use Rattle.cov_grammar.specs.Designs.{edge, edge_kind, edge_or_any};
ghost use Rattle.cov_grammar.proofs.DesignLaws.{edge_lawful};
ghost use Rattle.token_reader.specs.Reading.{Took, over};
ghost use Rattle.item_parser.specs.Parts.{edge_parens, edge_word, edges};

use cov_grammar::{Kind, Place, Room, Stop};
use cov_tree::{EdgeKind, EdgeText, List};
use range_parser::expr_behind;
use token_reader::{Held, Item, Reader, put_last};

/// Parts of an event, with `or` or commas between them.
#[derive(Drop)]
struct EdgeList;

impl Item for EdgeList {
    type Tree = EdgeText;

    ghost Written = { EdgeText };

    ghost rule = { λ _. edge };

    ghost put = { snoc };

    ghost separators = { OrWord ∷ Comma ∷ [] };

    fn separators(&self) -> &'static [Kind] {
        &[Kind::OrWord, Kind::Comma]
    }

    #[tactic(auto, using(token_reader::proofs::Chains::put_parses))]
    fn read(
        &self,
        reader: Reader<'_>,
        place: Place,
        room: Room,
        list: &mut List<EdgeText>,
    ) -> Result<Place, Stop> {
        put_last(list, edge(reader, place, room))
    }

    ghost separable = { λ _ text ts. record { lawful = edge_lawful text ts; apart = refl } };
}

/// The parts of a coverage event in parentheses, behind its `@`.
pub fn event(reader: Reader<'_>, place: Place, room: Room) -> Result<(List<EdgeText>, Place), Stop>
    ensures { Parses (over reader.entry edge_parens) room place result }
{
    let (_, at) = reader.word(place, Kind::OpenParen)?;
    let (edges, at) = edges(reader, at, room)?;
    let (_, after) = reader.word(at, Kind::CloseParen)?;
    Ok((edges, after))
}

/// The parts of an event, with `or` or commas between them.
fn edges(reader: Reader<'_>, place: Place, room: Room) -> Result<(List<EdgeText>, Place), Stop>
    ensures { Parses (over reader.entry edges) room place result }
{
    reader.list(place, room, &EdgeList)
}

/// A part of an event.
fn edge(reader: Reader<'_>, place: Place, room: Room) -> Result<(Held<EdgeText>, Place), Stop>
    ensures { Parses (over reader.entry edge) room place result }
{
    let (kind, at) = edge_word(reader, place);
    let (name, at) = reader.ident(at)?;
    let (guard, after) = expr_behind(reader, Kind::IffWord, at, room)?;
    let guard = guard.put();
    Ok((Held::of(EdgeText { kind, name, guard }), after))
}

/// Which changes a part of an event tells.
fn edge_word(reader: Reader<'_>, place: Place) -> (EdgeKind, Place)
    ensures { Took (over reader.entry edge_word) (λ t. result.0 ≡ edge_or_any t) place result.1 }
{
    match reader.take(
        place,
        &[Kind::PosedgeWord, Kind::NegedgeWord, Kind::EdgeWord],
    ) {
        Some((token, next)) => (edge_kind(token.kind), next),
        None => (EdgeKind::Any, place),
    }
}

fn edge_kind(kind: Kind) -> EdgeKind
    ensures { result ≡ edge_kind kind }
{
    match kind {
        Kind::PosedgeWord => EdgeKind::Pos,
        Kind::NegedgeWord => EdgeKind::Negative,
        _ => EdgeKind::Both,
    }
}
