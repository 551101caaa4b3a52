//! The names that items without a label have by default.
ghost use Rattle.std.specs.Prelude.{◌≡◌, ◌<◌, ◌++◌, codes, decimal, length, IfOk, OnOk};
ghost use Rattle.elab_members.specs.Defaults.{AreNumbered};

use cov_ground::Memory;
use cov_tree::Name;
use std::alloc::Global;
use std::marker::Model;

/// The names that points and crosses without a label have by default, by the number of items before them. Each is made
/// when it is first asked for, once for a design, and shared by all instances. Contracts see nothing of it.
#[derive(Drop)]
pub struct DefaultNames {
    points: Vec<Option<Name>>,
    crosses: Vec<Option<Name>>,
}

impl Model for DefaultNames {
    ghost use Rattle.std.specs.Prelude.{codes};
    ghost use Rattle.elab_members.specs.Defaults.{AreNumbered};

    ghost Value = { Unit {0} };

    ghost view = { λ _. tt };

    ghost invariant = { λ names. AreNumbered (codes "point_") names.points.items × AreNumbered (codes "cross_") names.crosses.items };
}

fn numbered_name(alloc: Global, prefix: &[u8], k: usize) -> Result<Name, Memory>
    ensures { IfOk result (λ name. name ≡ prefix.now ++ decimal k) }
{
    let mut text = Vec::from_slice(alloc, prefix)?;
    text.extend_from_slice(k.to_string(alloc)?.as_bytes())?;
    Name::from_vec(text)
}

/// Makes room for the name of this number.
fn make_room(prefix: &[u8], k: usize, names: &mut Vec<Option<Name>>) -> Result<(), Memory>
    requires { AreNumbered prefix.now names.old.items }
    ensures are { AreNumbered prefix.now names.new.items }
    ensures room { OnOk result (k < length names.new.items) }
{
    while names.len() <= k {
        names.push(None)?;
    }
    Ok(())
}

/// The name with this prefix and number, which is made where it isn't kept yet.
fn kept_name(
    alloc: Global,
    prefix: &[u8],
    k: usize,
    names: &mut Vec<Option<Name>>,
) -> Result<Name, Memory>
    requires { AreNumbered prefix.now names.old.items }
    ensures is { IfOk result (λ name. name ≡ prefix.now ++ decimal k) }
    ensures are { AreNumbered prefix.now names.new.items }
{
    make_room(prefix, k, names)?;
    if let Some(name) = &names[k] {
        return name.share();
    }
    let name = numbered_name(alloc, prefix, k)?;
    names[k] = Some(name.share()?);
    Ok(name)
}

impl DefaultNames {
    /// The names of a design, of which none was made so far.
    pub fn new(alloc: Global) -> DefaultNames {
        DefaultNames {
            points: Vec::new(alloc),
            crosses: Vec::new(alloc),
        }
    }

    /// That of a point with so many items before it.
    pub(crate) fn point(&mut self, alloc: Global, k: usize) -> Result<Name, Memory>
        ensures { IfOk result (λ name. name ≡ codes "point_" ++ decimal k) }
    {
        kept_name(alloc, b"point_".as_slice(), k, &mut self.points)
    }

    /// That of a cross with so many items before it.
    pub(crate) fn cross(&mut self, alloc: Global, k: usize) -> Result<Name, Memory>
        ensures { IfOk result (λ name. name ≡ codes "cross_" ++ decimal k) }
    {
        kept_name(alloc, b"cross_".as_slice(), k, &mut self.crosses)
    }
}
