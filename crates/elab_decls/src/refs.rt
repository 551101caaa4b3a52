//! Arguments of `ref` formals.
ghost use Rattle.std.specs.Prelude.{◌≡◌};
ghost use Rattle.name_map.specs.Names.{meaning_of};
ghost use Rattle.elab_base.specs.Gives.{Gives};
ghost use Rattle.elab_decls.specs.Formals.{enumeration_of as enumeration_meant, is_same_sign, is_same_enumeration, is_alike as is_alike_meant, variable_meant, ref_meant};

use crate::{Outside, Shape};
use const_eval::{Meaning, Typ, place};
use cov_tree::{Expr, Name};
use elab_base::{ElabFault, ElabKind, What};

/// The enumeration that is the type of a variable, a formal or a sample argument.
pub fn enumeration_of(what: Option<What>) -> Option<u32>
    ensures { result ≡ enumeration_meant what }
{
    match what {
        Some(What::Variable { enumeration }) => enumeration,
        Some(What::Formal { enumeration, .. }) => enumeration,
        _ => None,
    }
}

fn is_signed_alike(signed: bool, other: bool) -> bool
    ensures { result ≡ is_same_sign signed other }
{
    if signed { other } else { !other }
}

fn is_enumerated_alike(enumeration: Option<u32>, other: Option<u32>) -> bool
    ensures { result ≡ is_same_enumeration enumeration other }
{
    match (enumeration, other) {
        (None, None) => true,
        (Some(place), Some(other)) => place == other,
        _ => false,
    }
}

fn is_alike(shape: &Shape, typ: Typ, enumeration: Option<u32>) -> bool
    ensures { result ≡ is_alike_meant shape.now typ enumeration }
{
    typ.width() == shape.typ.width()
        && is_signed_alike(typ.is_signed(), shape.typ.is_signed())
        && is_enumerated_alike(enumeration, shape.enumeration)
}

#[tactic(auto, unfolding(elab_base::specs::Gives::needs))]
fn variable(
    shape: &Shape,
    meaning: Option<Meaning>,
    named: Option<What>,
    at: u32,
) -> Result<Meaning, ElabFault>
    ensures { Gives result (variable_meant shape.now meaning named at) }
{
    match &meaning {
        Some(Meaning::Signal { index, typ, .. }) => {
            if !is_alike(shape, *typ, enumeration_of(named)) {
                return Err(ElabKind::RefNotVariable.at(at));
            }
            Ok(Meaning::Signal {
                index: *index,
                typ: shape.typ,
                low: shape.low,
            })
        }
        _ => Err(ElabKind::RefNotVariable.at(at)),
    }
}

/// What the name stands for.
fn what_is(outside: &Outside, name: &Name) -> Option<What>
    ensures { result ≡ meaning_of outside.now.names name.now }
{
    outside.names.get(name.as_slice()).copied()
}

/// The variable that a bound expression is the name of, seen with the span of a `ref` formal: it has the formal's width,
/// sign and enumeration. Another expression is RefNotVariable.
pub(crate) fn ref_meaning(
    outside: &Outside,
    shape: &Shape,
    expr: &Expr,
) -> Result<Meaning, ElabFault>
    ensures { Gives result (ref_meant outside.now shape.now expr.now) }
{
    match expr {
        Expr::Name { name, at } => variable(
            shape,
            outside.scope.meaning(name.as_slice()),
            what_is(outside, name),
            *at,
        ),
        _ => Err(ElabKind::RefNotVariable.at(place(expr))),
    }
}
