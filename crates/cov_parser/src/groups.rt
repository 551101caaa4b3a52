//! Covergroups (IEEE 1800-2017, 19.3 and 19.8.1).
ghost use Rattle.std.specs.Prelude.{◌≡◌, List, [], ◌∷◌, ◌++◌, refl, IfOk, IfErr};
ghost use Rattle.cov_lexer.specs.declared.kind.Kind.TheVariants.{Comma, OrWord, Ident, CoverpointWord, CrossWord, OptionWord, TypeOptionWord};
ghost use Rattle.cov_grammar.specs.Rule.{In, same_word};
ghost use Rattle.cov_grammar.specs.Parses.{Reads, Fails, Parses};
ghost use Rattle.cov_grammar.specs.Expressions.{snoc, spelled};
ghost use Rattle.cov_tree.specs.declared.groups.Formal.{Formal};
ghost use Rattle.cov_tree.specs.declared.groups.EdgeText.{EdgeText};
ghost use Rattle.cov_grammar.specs.Groups.{item, member};
ghost use Rattle.cov_grammar.specs.Designs.{Written, with_formal, last_is_ref, is_ref_or, formal, formal_list, formals, edge, edge_kind, edge_or_any, argument, argument_list, argument_parens, sampling, members, group_end, group};
ghost use Rattle.cov_grammar.proofs.DesignLaws.{argument_lawful, edge_lawful, formal_lawful};
ghost use Rattle.token_reader.specs.Reading.{ParsesAlways, Took, over};
ghost use Rattle.cov_parser.specs.Parts.{direction, maybe_input, sample_function};

use cov_grammar::{Kind, Marked, Place, Room, Stop};
use cov_tree::{Decl, EdgeKind, EdgeText, Formal, List, Member, Name};
use item_parser::{event, expr_behind, members, type_text};
use token_reader::{Held, Item, Reader, add, alone, put_last};

/// Formals of a group, with commas between them. Each is told the direction of the one before it.
#[derive(Drop)]
struct FormalList;

impl Item for FormalList {
    type Tree = Formal;

    ghost Written = { Written };

    ghost rule = { λ _. formal };

    ghost put = { with_formal };

    ghost separators = { Comma ∷ [] };

    fn separators(&self) -> &'static [Kind] {
        &[Kind::Comma]
    }

    fn read(
        &self,
        reader: Reader<'_>,
        place: Place,
        room: Room,
        list: &mut List<Formal>,
    ) -> Result<Place, Stop> {
        let by_ref = last_is_ref(list.as_slice());
        let (formal, after) = formal(reader, place, room, by_ref)?;
        add(list, formal)?;
        Ok(after)
    }

    ghost separable = { λ _ text ts. record { lawful = formal_lawful text ts; apart = refl } };
}

/// Whether the last of these formals is `ref`.
fn last_is_ref(formals: &[Formal]) -> bool
    ensures { result ≡ last_is_ref formals.now }
{
    match formals.last() {
        Some(formal) => formal.by_ref,
        None => false,
    }
}

/// Arguments of a sample function, with commas between them.
#[derive(Drop)]
struct SampleArgumentList;

impl Item for SampleArgumentList {
    type Tree = Formal;

    ghost Written = { Formal };

    ghost rule = { λ _. argument };

    ghost put = { snoc };

    ghost separators = { Comma ∷ [] };

    fn separators(&self) -> &'static [Kind] {
        &[Kind::Comma]
    }

    #[tactic(auto, using(token_reader::proofs::Chains::put_parses))]
    fn read(
        &self,
        reader: Reader<'_>,
        place: Place,
        room: Room,
        list: &mut List<Formal>,
    ) -> Result<Place, Stop> {
        put_last(list, argument(reader, place, room))
    }

    ghost separable = { λ _ text ts. record { lawful = argument_lawful text ts; apart = refl } };
}

/// A covergroup.
pub(crate) fn group(
    reader: Reader<'_>,
    place: Place,
    room: Room,
) -> Result<(List<Decl>, Place), Stop>
    ensures { Parses (over reader.entry group) room place result }
{
    let (covergroup, at) = reader.word(place, Kind::CovergroupWord)?;
    let (token, at) = reader.word(at, Kind::Ident)?;
    let (formals, at) = formals(reader, at, room)?;
    let ((event, args), at) = sampling(reader, at, room)?;
    let (_, at) = reader.word(at, Kind::Semi)?;
    let (members, at) = members(reader, at, room)?;
    let (_, after) = group_end(reader, token, at)?;
    let name = reader.name_of(token)?;
    let group = Held::of(Decl::Group {
        name,
        formals,
        event,
        args,
        members,
        at: covergroup.at,
    });
    Ok((alone(reader.alloc, group)?, after))
}

/// `endgroup`, with `: name` behind it or nothing, where `name` is that of the group.
fn group_end(
    reader: Reader<'_>,
    name: Marked,
    place: Place,
) -> Result<(Option<Marked>, Place), Stop>
    ensures { ParsesAlways (over reader.entry group_end (spelled reader.entry.text.now name)) place
        result }
{
    let (_, at) = reader.word(place, Kind::EndgroupWord)?;
    let Some((_, next)) = reader.take(at, &[Kind::Colon]) else {
        return Ok((None, at));
    };
    let (label, after) = same_word(reader, next, Kind::Ident, reader.spelled(name))?;
    Ok((Some(label), after))
}

/// The token of this kind at this place, which has this text.
fn same_word(
    reader: Reader<'_>,
    place: Place,
    kind: Kind,
    spelling: &[u8],
) -> Result<(Marked, Place), Stop>
    ensures { ParsesAlways (over reader.entry same_word kind spelling.now) place result }
{
    let Some((token, after)) = reader.take(place, &[kind]) else {
        return Err(Stop::Syntax(place.at));
    };
    if reader.spelled(token) != spelling {
        return Err(Stop::Syntax(place.at));
    }
    Ok((token, after))
}

/// Formals in parentheses, or nothing.
fn formals(reader: Reader<'_>, place: Place, room: Room) -> Result<(List<Formal>, Place), Stop>
    ensures { Parses (over reader.entry formals) room place result }
{
    let Some((_, next)) = reader.take(place, &[Kind::OpenParen]) else {
        return Ok((List::new(reader.alloc), place));
    };
    if let Some((_, after)) = reader.take(next, &[Kind::CloseParen]) {
        return Ok((List::new(reader.alloc), after));
    }
    let (formals, at) = formal_list(reader, next, room)?;
    let (_, after) = reader.word(at, Kind::CloseParen)?;
    Ok((formals, after))
}

/// Formals with commas between them.
#[tactic(auto, unfolding(cov_grammar::specs::Designs::formal_list))]
fn formal_list(reader: Reader<'_>, place: Place, room: Room) -> Result<(List<Formal>, Place), Stop>
    ensures { Parses (over reader.entry formal_list) room place result }
{
    reader.list(place, room, &FormalList)
}

/// A formal. `by_ref` is the direction of the formal before it, which it has where it gives none (13.3).
fn formal(
    reader: Reader<'_>,
    place: Place,
    room: Room,
    by_ref: bool,
) -> Result<(Held<Formal>, Place), Stop>
    ensures read { IfOk result (λ x. (w : Written) ×
        Reads (over reader.entry formal) room place w x.1 ×
        ((before : List Formal) → last_is_ref before ≡ by_ref →
        before ++ x.0 ∷ [] ≡ with_formal before w)) }
    ensures fault { IfErr result (Fails (over reader.entry formal) room place) }
{
    let start = reader.start_at(place.at);
    let (by_ref, at) = direction(reader, place, by_ref);
    let (typ, at) = type_text(reader, at, room)?;
    let (name, at) = reader.ident(at)?;
    let (default, after) = expr_behind(reader, Kind::Assign, at, room)?;
    let formal = Formal {
        by_ref,
        typ: typ.put(),
        name,
        default: default.put(),
        at: start,
    };
    Ok((Held::of(formal), after))
}

/// Whether a formal is `ref`, as the formal before it where it gives no direction.
fn direction(reader: Reader<'_>, place: Place, by_ref: bool) -> (bool, Place)
    ensures { Took (over reader.entry direction)
        (λ t. result.0 ≡ is_ref_or by_ref t) place result.1 }
{
    match reader.take(place, &[Kind::InputWord, Kind::RefWord]) {
        Some((token, next)) => (token.kind.is_one_of(&[Kind::RefWord]), next),
        None => (by_ref, place),
    }
}

/// The parts of a coverage event, or the arguments of a sample function (19.8.1), or nothing.
fn sampling(
    reader: Reader<'_>,
    place: Place,
    room: Room,
) -> Result<((List<EdgeText>, List<Formal>), Place), Stop>
    ensures { Parses (over reader.entry sampling) room place result }
{
    if let Some((_, next)) = reader.take(place, &[Kind::AtSign]) {
        let (edges, after) = event(reader, next, room)?;
        return Ok(((edges, List::new(reader.alloc)), after));
    }
    if let Some((_, next)) = reader.take(place, &[Kind::WithWord]) {
        let (args, after) = sample_function(reader, next, room)?;
        return Ok(((List::new(reader.alloc), args), after));
    }
    let nothing = (List::new(reader.alloc), List::new(reader.alloc));
    Ok((nothing, place))
}

/// The arguments of a sample function, behind its `with`.
fn sample_function(
    reader: Reader<'_>,
    place: Place,
    room: Room,
) -> Result<(List<Formal>, Place), Stop>
    ensures { Parses (over reader.entry sample_function) room place result }
{
    let (_, named) = same_word(reader, place, Kind::OtherWord, b"function")?;
    let (_, opened) = same_word(reader, named, Kind::Ident, b"sample")?;
    argument_parens(reader, opened, room)
}

/// Arguments of a sample function in parentheses.
fn argument_parens(
    reader: Reader<'_>,
    place: Place,
    room: Room,
) -> Result<(List<Formal>, Place), Stop>
    ensures { Parses (over reader.entry argument_parens) room place result }
{
    let (_, next) = reader.word(place, Kind::OpenParen)?;
    if let Some((_, after)) = reader.take(next, &[Kind::CloseParen]) {
        return Ok((List::new(reader.alloc), after));
    }
    let (args, at) = arguments(reader, next, room)?;
    let (_, after) = reader.word(at, Kind::CloseParen)?;
    Ok((args, after))
}

/// Arguments of a sample function with commas between them.
#[tactic(auto, unfolding(cov_grammar::specs::Designs::argument_list))]
fn arguments(reader: Reader<'_>, place: Place, room: Room) -> Result<(List<Formal>, Place), Stop>
    ensures { Parses (over reader.entry argument_list) room place result }
{
    reader.list(place, room, &SampleArgumentList)
}

/// An argument of a sample function. It is `input`, whether it says so or not.
fn argument(reader: Reader<'_>, place: Place, room: Room) -> Result<(Held<Formal>, Place), Stop>
    ensures { Parses (over reader.entry argument) room place result }
{
    let start = reader.start_at(place.at);
    let (typ, at) = type_text(reader, behind_input(reader, place), room)?;
    let (name, after) = reader.ident(at)?;
    let arg = Formal {
        by_ref: false,
        typ: typ.put(),
        name,
        default: None,
        at: start,
    };
    Ok((Held::of(arg), after))
}

/// The place behind `input`, where it stands.
fn behind_input(reader: Reader<'_>, place: Place) -> Place
    ensures { (r : Room) → (t : _) × Reads (λ _. over reader.entry maybe_input) r place t result }
{
    match reader.take(place, &[Kind::InputWord]) {
        Some((_, next)) => next,
        None => place,
    }
}
