//! What the names of a design, of an instance and of a point stand for.
ghost use Rattle.std.specs.Prelude.{◌≡◌, OnOk};
ghost use Rattle.name_map.specs.Names.{meaning_of, with_name};
ghost use Rattle.elab_base.specs.Gives.{Gives};
ghost use Rattle.elab_base.specs.Steps.{unused};

use crate::{ElabFault, ElabKind};
use cov_ground::Memory;
use cov_tree::Name;
use name_map::NameMap;
use std::alloc::Global;

/// What a name stands for.
#[derive(Clone, Copy, PartialEq, Eq)]
pub enum What {
    /// An enumeration, by its place among the enumerations.
    Type {
        enumeration: u32,
    },
    /// A constant of an enumeration.
    Constant,
    /// A variable, and the enumeration that is its type.
    Variable {
        enumeration: Option<u32>,
    },
    /// A group, by its place among the declarations and among the groups.
    Group {
        text: usize,
        group: u32,
    },
    /// An instance of a group.
    Instance,
    /// A formal of a group or an argument of `sample`, and the enumeration that is its type.
    Formal {
        by_ref: bool,
        enumeration: Option<u32>,
    },
    /// An item of a group, by its place among those of the instance.
    Item {
        index: u32,
    },
    /// A bin of an item.
    Bin,
}

/// Refuses a name that its scope has already.
#[tactic(auto, unfolding(crate::specs::Steps::unused, crate::specs::Gives::needs))]
pub fn check_unused(names: &NameMap<What>, name: &Name, at: u32) -> Result<(), ElabFault>
    ensures { Gives result (unused names.now name.now at) }
{
    if names.get(name.as_slice()).is_some() {
        return Err(ElabKind::DuplicateName.at(at));
    }
    Ok(())
}

/// Adds a copy of a name, unless it is there.
pub fn add_name(
    alloc: Global,
    names: &mut NameMap<What>,
    name: &Name,
    what: What,
) -> Result<(), Memory>
    ensures { OnOk result (names.new ≡ with_name names.old name.now what) }
{
    names.declare(name.share()?, what)?;
    Ok(())
}
