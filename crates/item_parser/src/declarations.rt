//! Enumerations, variables and instances (IEEE 1800-2017, 6.19, 6.8 and 19.3).
ghost use Rattle.std.specs.Prelude.{◌≡◌, ℕ, List, Option, ◌∷◌, [], refl, IfOk, IfErr};
ghost use Rattle.cov_lexer.specs.declared.kind.Kind.TheVariants.{Comma, Ident};
ghost use Rattle.cov_grammar.specs.Rule.{word};
ghost use Rattle.cov_grammar.specs.Parses.{Reads, Fails, Parses};
ghost use Rattle.cov_grammar.specs.Expressions.{expr, snoc};
ghost use Rattle.cov_grammar.specs.declared.marked.Marked.{Marked};
ghost use Rattle.cov_tree.specs.declared.expr.Expr.{Expr};
ghost use Rattle.cov_grammar.specs.Designs.{enum_name, enum_names, enum_decl, built_in_decl, named_decl, named_type, variables, instance_of, arguments_or};
ghost use Rattle.cov_grammar.proofs.Lawful.{lawful_word};
ghost use Rattle.cov_grammar.proofs.ExprLaws.{expr_lawful};
ghost use Rattle.cov_grammar.proofs.DesignLaws.{enum_name_lawful};
ghost use Rattle.token_reader.specs.Reading.{ParsesAlways, over};
ghost use Rattle.item_parser.specs.Parts.{exprs, maybe_arguments, maybe_vector, more_names, name_list};

use crate::types::{built_in, vector};
use cov_grammar::{Kind, Marked, Place, Room, Standing, Stop};
use cov_tree::{Decl, Expr, List, Memory, Name, Shared, TypeText};
use range_parser::{expr_behind, whole_expr};
use token_reader::{Held, Item, NO_ROOM, Reader, add, alone, put_last};

/// Arguments of an instance, with commas between them.
#[derive(Drop)]
struct ArgumentList;

impl Item for ArgumentList {
    type Tree = Expr;

    ghost Written = { Expr };

    ghost rule = { λ _. expr };

    ghost put = { snoc };

    ghost separators = { Comma ∷ [] };

    fn separators(&self) -> &'static [Kind] {
        &[Kind::Comma]
    }

    #[tactic(auto, using(token_reader::proofs::Chains::put_parses))]
    fn read(
        &self,
        reader: Reader<'_>,
        place: Place,
        room: Room,
        list: &mut List<Expr>,
    ) -> Result<Place, Stop> {
        put_last(list, whole_expr(reader, place, room, Standing::Plain))
    }

    ghost separable = { λ _ text ts. record { lawful = expr_lawful text ts; apart = refl } };
}

/// Constants of an enumeration, with commas between them.
#[derive(Drop)]
struct ConstantList;

impl Item for ConstantList {
    type Tree = (Name, Option<Expr>);

    ghost Written = { List ℕ × Option Expr };

    ghost rule = { λ _. enum_name };

    ghost put = { snoc };

    ghost separators = { Comma ∷ [] };

    fn separators(&self) -> &'static [Kind] {
        &[Kind::Comma]
    }

    #[tactic(auto, using(token_reader::proofs::Chains::put_parses))]
    fn read(
        &self,
        reader: Reader<'_>,
        place: Place,
        room: Room,
        list: &mut List<(Name, Option<Expr>)>,
    ) -> Result<Place, Stop> {
        put_last(list, constant(reader, place, room))
    }

    ghost separable = { λ _ text ts. record { lawful = enum_name_lawful text ts; apart = refl } };
}

/// Names of variables, with commas between them.
#[derive(Drop)]
struct NameList;

impl Item for NameList {
    type Tree = Marked;

    ghost Written = { Marked };

    ghost rule = { λ _ _ ts _. word ts Ident };

    ghost put = { snoc };

    ghost separators = { Comma ∷ [] };

    fn separators(&self) -> &'static [Kind] {
        &[Kind::Comma]
    }

    fn read(
        &self,
        reader: Reader<'_>,
        place: Place,
        _: Room,
        list: &mut List<Marked>,
    ) -> Result<Place, Stop> {
        let (name, after) = reader.word(place, Kind::Ident)?;
        list.push(name)?;
        Ok(after)
    }

    ghost separable = { λ _ text ts. record { lawful = lawful_word ts Ident; apart = refl } };
}

/// Variables whose type has a word of its own.
pub fn variables(reader: Reader<'_>, place: Place, room: Room) -> Result<(List<Decl>, Place), Stop>
    ensures { Parses (over reader.entry built_in_decl) room place result }
{
    let (typ, at) = built_in(reader, place, room)?;
    let (names, after) = names(reader, at)?;
    let decls = typed(reader, typ, names.as_slice())?;
    Ok((decls, after))
}

/// Names with commas between them, and a semicolon.
fn names(reader: Reader<'_>, place: Place) -> Result<(List<Marked>, Place), Stop>
    ensures { ParsesAlways (over reader.entry name_list) place result }
{
    let (first, at) = reader.word(place, Kind::Ident)?;
    let (names, at) = more_names(reader, at, first)?;
    let (_, after) = reader.word(at, Kind::Semi)?;
    Ok((names, after))
}

/// Further names with commas before them, put to the first.
fn more_names(
    reader: Reader<'_>,
    place: Place,
    first: Marked,
) -> Result<(List<Marked>, Place), Stop>
    ensures { ParsesAlways (over reader.entry more_names first) place result }
{
    let names = alone(reader.alloc, Held::of(first))?;
    reader.more(place, NO_ROOM, &NameList, names)
}

/// A variable of this type for each name.
fn typed(reader: Reader<'_>, typ: Held<TypeText>, names: &[Marked]) -> Result<List<Decl>, Memory>
    ensures { IfOk result (λ decls. decls ≡ variables reader.entry.text.now typ names.now) }
{
    let shared = Shared::of(reader.alloc, typ.put())?;
    let mut decls = List::new(reader.alloc);
    for token in names {
        let decl = variable(reader, &shared, *token)?;
        add(&mut decls, decl)?;
    }
    Ok(decls)
}

fn variable(
    reader: Reader<'_>,
    shared: &Shared<TypeText>,
    token: Marked,
) -> Result<Held<Decl>, Memory>
    ensures { IfOk result (λ decl.
        decl ∷ [] ≡ variables reader.entry.text.now shared.now (token ∷ [])) }
{
    let name = reader.name_of(token)?;
    let typ = shared.share()?;
    let at = token.at;
    Ok(Held::of(Decl::Var { typ, name, at }))
}

/// A variable for each name, of the type that this token names.
fn of_named_type(reader: Reader<'_>, token: Marked, names: &[Marked]) -> Result<List<Decl>, Memory>
    ensures { IfOk result (λ decls.
        decls ≡
        variables reader.entry.text.now (named_type reader.entry.text.now token) names.now) }
{
    let name = reader.name_of(token)?;
    let at = token.at;
    typed(reader, Held::of(TypeText::Named { name, at }), names)
}

/// An instance, or variables whose type is a name.
pub fn named(reader: Reader<'_>, place: Place, room: Room) -> Result<(List<Decl>, Place), Stop>
    ensures { Parses (over reader.entry named_decl) room place result }
{
    let (first, at) = reader.word(place, Kind::Ident)?;
    let (second, at) = reader.word(at, Kind::Ident)?;
    let Some((_, next)) = reader.take(at, &[Kind::Assign]) else {
        let (names, at) = more_names(reader, at, second)?;
        let (_, after) = reader.word(at, Kind::Semi)?;
        let decls = of_named_type(reader, first, names.as_slice())?;
        return Ok((decls, after));
    };
    let (_, made) = reader.word(next, Kind::NewWord)?;
    let (args, at) = maybe_arguments(reader, made, room)?;
    let (_, end) = reader.word(at, Kind::Semi)?;
    let instance = instance(reader, first, second, args)?;
    Ok((instance, end))
}

/// An instance of the group `first` with the name `second`.
fn instance(
    reader: Reader<'_>,
    first: Marked,
    second: Marked,
    args: List<Expr>,
) -> Result<List<Decl>, Memory>
    ensures { IfOk result (λ decls.
        decls ≡ instance_of reader.entry.text.now (first, second) args) }
{
    let group = reader.name_of(first)?;
    let name = reader.name_of(second)?;
    let at = first.at;
    let instance = Held::of(Decl::Instance {
        group,
        name,
        args,
        at,
    });
    alone(reader.alloc, instance)
}

/// Arguments in parentheses, or nothing; both none and empty parentheses give the empty list.
fn maybe_arguments(
    reader: Reader<'_>,
    place: Place,
    room: Room,
) -> Result<(List<Expr>, Place), Stop>
    ensures read { IfOk result (λ x. (a : _) ×
        Reads (over reader.entry maybe_arguments) room place a x.1 × (x.0 ≡ arguments_or a)) }
    ensures fails { IfErr result (Fails (over reader.entry maybe_arguments) room place) }
{
    let Some((_, next)) = reader.take(place, &[Kind::OpenParen]) else {
        return Ok((List::new(reader.alloc), place));
    };
    if let Some((_, after)) = reader.take(next, &[Kind::CloseParen]) {
        return Ok((List::new(reader.alloc), after));
    }
    let (args, at) = exprs(reader, next, room)?;
    let (_, end) = reader.word(at, Kind::CloseParen)?;
    Ok((args, end))
}

/// Arguments with commas between them.
#[tactic(auto, unfolding(cov_grammar::specs::Expressions::list_in))]
fn exprs(reader: Reader<'_>, place: Place, room: Room) -> Result<(List<Expr>, Place), Stop>
    ensures { Parses (over reader.entry exprs) room place result }
{
    reader.list(place, room, &ArgumentList)
}

/// An enumeration.
pub fn enumeration(
    reader: Reader<'_>,
    place: Place,
    room: Room,
) -> Result<(List<Decl>, Place), Stop>
    ensures { Parses (over reader.entry enum_decl) room place result }
{
    let (typedef, at) = reader.word(place, Kind::TypedefWord)?;
    let (_, typed) = reader.word(at, Kind::EnumWord)?;
    let (base, at) = maybe_vector(reader, typed, room)?;
    let (_, opened) = reader.word(at, Kind::OpenBrace)?;
    let (names, at) = constants(reader, opened, room)?;
    let (_, closed) = reader.word(at, Kind::CloseBrace)?;
    let (name, at) = reader.ident(closed)?;
    let (_, after) = reader.word(at, Kind::Semi)?;
    let enumeration = Held::of(Decl::Enum {
        name,
        base: base.put(),
        names,
        at: typedef.at,
    });
    Ok((alone(reader.alloc, enumeration)?, after))
}

fn maybe_vector(
    reader: Reader<'_>,
    place: Place,
    room: Room,
) -> Result<(Held<Option<TypeText>>, Place), Stop>
    ensures { Parses (over reader.entry maybe_vector) room place result }
{
    let Some(_) = reader.take(place, &[Kind::BitWord, Kind::LogicWord, Kind::RegWord]) else {
        return Ok((Held::of(None), place));
    };
    let (base, after) = vector(reader, place, room)?;
    Ok((Held::of(Some(base.put())), after))
}

/// Constants with commas between them.
#[tactic(auto, unfolding(cov_grammar::specs::Designs::enum_names))]
fn constants(
    reader: Reader<'_>,
    place: Place,
    room: Room,
) -> Result<(List<(Name, Option<Expr>)>, Place), Stop>
    ensures { Parses (over reader.entry enum_names) room place result }
{
    reader.list(place, room, &ConstantList)
}

fn constant(
    reader: Reader<'_>,
    place: Place,
    room: Room,
) -> Result<(Held<(Name, Option<Expr>)>, Place), Stop>
    ensures { Parses (over reader.entry enum_name) room place result }
{
    let (name, at) = reader.ident(place)?;
    let (value, after) = expr_behind(reader, Kind::Assign, at, room)?;
    Ok((Held::of((name, value.put())), after))
}
