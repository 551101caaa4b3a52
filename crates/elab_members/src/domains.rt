//! The numbers of points.
ghost use Rattle.std.specs.Prelude.{◌≡◌, map, slice_get, option_copied, IfOk};
ghost use Rattle.name_map.specs.Names.{meaning_of};
ghost use Rattle.elab_members.specs.Domains.{first_what, what_named, constants_in, domain_of_enumeration, domain_by, domain_of_point};

use const_eval::Typ;
use cov_ground::Memory;
use cov_tree::{Expr, Name};
use elab_base::What;
use elab_decls::{Enumeration, Outside, enumeration_of};
use elab_values::{Constant, Domain, domain_of, domain_of_constants};
use name_map::NameMap;
use std::alloc::Global;

/// The first of the two that is there.
fn first(what: Option<What>, later: Option<What>) -> Option<What>
    ensures { result ≡ first_what what later }
{
    match what {
        Some(what) => Some(what),
        None => later,
    }
}

/// What a name stands for among these.
fn found(names: &NameMap<What>, name: &Name) -> Option<What>
    ensures { result ≡ meaning_of names.now name.now }
{
    names.get(name.as_slice()).copied()
}

/// What a name stands for in a group with these formals and sample arguments.
fn what_is(outside: &Outside, formals: &NameMap<What>, name: &Name) -> Option<What>
    ensures { result ≡ what_named outside.now formals.now name.now }
{
    first(found(formals, name), found(&outside.names, name))
}

/// The constants of an enumeration.
fn constants_of(alloc: Global, enumeration: &Enumeration) -> Result<Vec<Constant>, Memory>
    ensures { IfOk result (λ constants. constants.items ≡ constants_in enumeration.now) }
{
    let mut constants = Vec::new(alloc);
    for constant in enumeration.constants.as_slice() {
        constants.push(Constant {
            name: constant.0.share()?,
            value: constant.1,
        })?;
    }
    Ok(constants)
}

fn enumerated(alloc: Global, typ: Typ, enumeration: Option<&Enumeration>) -> Result<Domain, Memory>
    ensures { IfOk result (λ domain. domain ≡ domain_of_enumeration typ (option_copied enumeration.entry)) }
{
    match enumeration {
        None => domain_of(alloc, typ),
        Some(enumeration) => {
            let constants = constants_of(alloc, enumeration)?;
            domain_of_constants(alloc, typ, constants.as_slice())
        }
    }
}

fn domain_at(
    alloc: Global,
    outside: &Outside,
    typ: Typ,
    place: Option<u32>,
) -> Result<Domain, Memory>
    ensures { IfOk result (λ domain. domain ≡ domain_by outside.now typ place) }
{
    match place {
        None => domain_of(alloc, typ),
        Some(place) => {
            let enumeration = outside.enumerations.as_slice().get(place as usize);
            enumerated(alloc, typ, enumeration)
        }
    }
}

/// The numbers of a point of this type: the constants where its expression is the name of an enumerated variable, formal
/// or sample argument.
#[tactic(auto, unfolding(crate::specs::Domains::domain_of_point))]
pub(crate) fn point_domain(
    alloc: Global,
    outside: &Outside,
    formals: &NameMap<What>,
    expr: &Expr,
    typ: Typ,
) -> Result<Domain, Memory>
    ensures { IfOk result (λ domain. domain ≡ domain_of_point outside.now formals.now expr.now typ) }
{
    match expr {
        Expr::Name { name, .. } => {
            let place = enumeration_of(what_is(outside, formals, name));
            domain_at(alloc, outside, typ, place)
        }
        _ => domain_at(alloc, outside, typ, None),
    }
}
