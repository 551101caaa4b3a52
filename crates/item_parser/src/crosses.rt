//! Crosses of coverpoints (IEEE 1800-2017, 19.6).
ghost use Rattle.std.specs.Prelude.{ℕ, List, [], ◌∷◌, refl};
ghost use Rattle.cov_lexer.specs.declared.kind.Kind.TheVariants.{Comma};
ghost use Rattle.cov_grammar.specs.Parses.{Parses};
ghost use Rattle.cov_grammar.specs.Expressions.{snoc};
ghost use Rattle.cov_grammar.specs.Bins.{ident};
ghost use Rattle.cov_grammar.specs.Groups.{cross, crossed};
ghost use Rattle.cov_grammar.proofs.BinsLaws.{ident_lawful};
ghost use Rattle.token_reader.specs.Reading.{ParsesAlways, over};

use crate::bodies::body;
use crate::options::guard;
use cov_grammar::{Kind, Place, Room, Stop};
use cov_tree::{CrossDecl, List, Member, Name};
use token_reader::{Held, Item, NO_ROOM, Reader};

/// Names of coverpoints, with commas between them.
#[derive(Drop)]
struct PointNameList;

impl Item for PointNameList {
    type Tree = Name;

    ghost Written = { List ℕ };

    ghost rule = { λ _ text ts _. ident text ts };

    ghost put = { snoc };

    ghost separators = { Comma ∷ [] };

    fn separators(&self) -> &'static [Kind] {
        &[Kind::Comma]
    }

    fn read(
        &self,
        reader: Reader<'_>,
        place: Place,
        _: Room,
        list: &mut List<Name>,
    ) -> Result<Place, Stop> {
        let (name, after) = reader.ident(place)?;
        list.push(name)?;
        Ok(after)
    }

    ghost separable = { λ _ text ts. record { lawful = ident_lawful text ts; apart = refl } };
}

/// A cross, with its label and the place of its first token.
pub(crate) fn cross(
    reader: Reader<'_>,
    place: Place,
    room: Room,
    start: u32,
    label: Held<Option<Name>>,
) -> Result<(Held<Member>, Place), Stop>
    ensures { Parses (over reader.entry cross start label) room place result }
{
    let (_, at) = reader.word(place, Kind::CrossWord)?;
    let (points, at) = crossed(reader, at)?;
    let (guard, at) = guard(reader, at, room)?;
    let ((options, bins), after) = body(reader, at, room)?;
    let cross = CrossDecl {
        label: label.put(),
        points,
        guard: guard.put(),
        options,
        bins,
        at: start,
    };
    Ok((Held::of(Member::Cross(cross)), after))
}

/// Two names or more with commas between them.
fn crossed(reader: Reader<'_>, place: Place) -> Result<(List<Name>, Place), Stop>
    ensures { ParsesAlways (over reader.entry crossed) place result }
{
    let (first, at) = reader.ident(place)?;
    let (_, at) = reader.word(at, Kind::Comma)?;
    let (second, at) = reader.ident(at)?;
    let mut names = List::new(reader.alloc);
    names.push(first)?;
    names.push(second)?;
    reader.more(at, NO_ROOM, &PointNameList, names)
}
