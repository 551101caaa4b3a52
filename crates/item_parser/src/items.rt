//! Members of covergroups (IEEE 1800-2017, 19.3).
ghost use Rattle.std.specs.Prelude.{[], ◌∷◌, IfOk, IfErr};
ghost use Rattle.cov_lexer.specs.declared.kind.Kind.TheVariants.{Ident, CoverpointWord, CrossWord, OptionWord, TypeOptionWord};
ghost use Rattle.cov_grammar.specs.Rule.{In};
ghost use Rattle.cov_grammar.specs.Parses.{Reads, Fails, Parses};
ghost use Rattle.cov_grammar.specs.Groups.{item, member};
ghost use Rattle.cov_grammar.specs.Designs.{members};
ghost use Rattle.token_reader.specs.Reading.{ParsesAlways, over};
ghost use Rattle.item_parser.specs.Parts.{maybe_label};

use crate::crosses::cross;
use crate::options::option;
use crate::points::point;
use cov_grammar::{Kind, Place, Room, Stop};
use cov_tree::{List, Member, Name};
use token_reader::{Held, Reader, add};

/// What a member begins with.
const MEMBER_KINDS: [Kind; 6] = [
    Kind::Semi,
    Kind::OptionWord,
    Kind::TypeOptionWord,
    Kind::Ident,
    Kind::CoverpointWord,
    Kind::CrossWord,
];

/// Members, up to a token that begins none.
pub fn members(reader: Reader<'_>, place: Place, room: Room) -> Result<(List<Member>, Place), Stop>
    ensures { Parses (over reader.entry members) room place result }
{
    let mut members = List::new(reader.alloc);
    let mut at = place;
    while let Some((token, next)) = reader.take(at, &MEMBER_KINDS) {
        if token.kind.is_one_of(&[Kind::Semi]) {
            at = next;
        } else {
            let (member, after) = member(reader, at, room)?;
            add(&mut members, member)?;
            at = after;
        }
    }
    Ok((members, at))
}

/// A member that isn't a lone `;`.
fn member(reader: Reader<'_>, place: Place, room: Room) -> Result<(Held<Member>, Place), Stop>
    requires { In reader.tokens.now place.at
        (OptionWord ∷ TypeOptionWord ∷ Ident ∷ CoverpointWord ∷ CrossWord ∷ []) }
    ensures read { IfOk result (λ x. Reads (over reader.entry member) room place (x.0 ∷ []) x.1) }
    ensures fault { IfErr result (Fails (over reader.entry member) room place) }
{
    if let Some((_, _)) = reader.take(place, &[Kind::OptionWord, Kind::TypeOptionWord]) {
        let (option, after) = option(reader, place, room)?;
        return Ok((Held::of(Member::Opt(option.put())), after));
    }
    item(reader, place, room)
}

/// A coverpoint or a cross, with its label.
fn item(reader: Reader<'_>, place: Place, room: Room) -> Result<(Held<Member>, Place), Stop>
    ensures { Parses (over reader.entry item) room place result }
{
    let start = reader.start_at(place.at);
    let (label, at) = maybe_label(reader, place)?;
    if let Some((_, _)) = reader.take(at, &[Kind::CrossWord]) {
        return cross(reader, at, room, start, label);
    }
    point(reader, at, room, start, label)
}

/// `name:`, or nothing.
fn maybe_label(reader: Reader<'_>, place: Place) -> Result<(Held<Option<Name>>, Place), Stop>
    ensures { ParsesAlways (over reader.entry maybe_label) place result }
{
    let Some((token, next)) = reader.take(place, &[Kind::Ident]) else {
        return Ok((Held::of(None), place));
    };
    let (_, after) = reader.word(next, Kind::Colon)?;
    let name = reader.name_of(token)?;
    Ok((Held::of(Some(name)), after))
}
