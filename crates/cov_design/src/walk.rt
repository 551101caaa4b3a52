//! The walk through the declarations.
ghost use Rattle.std.specs.Prelude.{◌≡◌};
ghost use Rattle.elab_base.specs.Gives.{Gives, Makes, each_at};
ghost use Rattle.cov_design.specs.Walk.{declared, nothing as nothing_known, walked};

use crate::groups::add_group;
use crate::instances::add_instance;
use crate::known::Known;
use const_eval::Scope;
use cov_tree::{Decl, List};
use elab_base::ElabFault;
use elab_decls::{Outside, add_enumeration, add_variable};
use elab_members::{Counts, DefaultNames};
use name_map::NameMap;
use std::alloc::Global;

fn declare(
    alloc: Global,
    text: &[Decl],
    place: usize,
    decl: &Decl,
    known: &mut Known,
    defaults: &mut DefaultNames,
) -> Result<(), ElabFault>
    ensures { Makes result known.new (declared text.now place decl.now known.old) }
{
    match decl {
        Decl::Enum {
            name,
            base,
            names,
            at,
        } => add_enumeration(alloc, name, base, names.as_slice(), *at, &mut known.outside),
        Decl::Var { typ, name, at } => {
            add_variable(alloc, typ.get(), name, *at, &mut known.outside)
        }
        Decl::Group { name, at, .. } => add_group(alloc, place, name, *at, known),
        Decl::Instance {
            group,
            name,
            args,
            at,
        } => add_instance(
            alloc,
            text,
            group,
            name,
            args.as_slice(),
            *at,
            known,
            defaults,
        ),
    }
}

fn walk(
    alloc: Global,
    text: &[Decl],
    known: &mut Known,
    defaults: &mut DefaultNames,
) -> Result<(), ElabFault>
    ensures { Makes result known.new (each_at (declared text.now) 0 text.now known.old) }
{
    for (place, decl) in text.iter().enumerate() {
        declare(alloc, text, place, decl, known, defaults)?;
    }
    Ok(())
}

/// Nothing declared so far.
pub(crate) fn nothing(alloc: Global) -> Known
    ensures { result ≡ nothing_known }
{
    Known {
        outside: Outside {
            names: NameMap::new(alloc),
            scope: Scope::new(alloc),
            enumerations: List::new(alloc),
            signals: List::new(alloc),
        },
        groups: List::new(alloc),
        instances: List::new(alloc),
        counts: Counts {
            items: 0,
            bins: 0,
            ranges: 0,
        },
    }
}

/// What a text declares, its bins not numbered yet.
#[tactic(auto, unfolding(crate::specs::Walk::walked))]
pub(crate) fn walk_all(alloc: Global, text: &[Decl]) -> Result<Known, ElabFault>
    ensures { Gives result (walked text.now) }
{
    let mut known = nothing(alloc);
    let mut defaults = DefaultNames::new(alloc);
    walk(alloc, text, &mut known, &mut defaults)?;
    Ok(known)
}
