//! The bins of a point on the way.
ghost use Rattle.std.specs.Prelude.{◌≡◌, ◌++◌, ◌∷◌, [], map, OnOk, IfOk};
ghost use Rattle.name_map.specs.Names.{with_name};
ghost use Rattle.elab_base.specs.declared.names.What.TheVariants as what;
ghost use Rattle.elab_bins.specs.declared.walked.Entry.TheVariants.{Bin};

use crate::plans::Head;
use cov_base::{Int, Memory};
use cov_tree::{List, Name};
use elab_base::{What, add_name};
use elab_values::Made;
use name_map::NameMap;
use std::alloc::Global;
use trans_seq::Seq;

/// What a declaration of a point adds to its bins.
#[derive(Drop)]
pub enum Entry {
    /// A bin.
    Bin(Made),
    /// A bin for each number that is listed nowhere: an array of `default`.
    Rest(Head),
}

/// The bins of a point on the way, before removal. Sets stand one behind the other, one for each declaration.
#[derive(Drop)]
pub struct Walked {
    /// The names of the declarations, to find one.
    pub known: NameMap<What>,
    /// The same names in order.
    pub names: List<Name>,
    /// The bins in order.
    pub entries: List<Entry>,
    /// How many bins there are, without those of arrays of `default`.
    pub count: usize,
    /// The sets of all listed numbers.
    pub listed: List<(Int, Int)>,
    /// The sets of the ignore bins.
    pub ignored: List<(Int, Int)>,
    /// The sets of the illegal bins.
    pub illegal: List<(Int, Int)>,
    /// The sequences of the ignore bins.
    pub ignored_seqs: List<Seq>,
    /// The sequences of the illegal bins.
    pub illegal_seqs: List<Seq>,
    /// How many cells the ignored and illegal sequences have.
    pub removing: u64,
}

/// The number as one of 32 bits. So many declarations as it doesn't hold don't fit into memory.
pub fn place_of(place: usize) -> Result<u32, Memory>
    ensures { IfOk result (λ same. same ≡ place) }
{
    match u32::try_from(place) {
        Ok(place) => Ok(place),
        Err(_) => Err(Memory),
    }
}

/// Adds the name of a declaration.
pub fn keep_name(alloc: Global, name: &Name, walked: &mut Walked) -> Result<(), Memory>
    ensures { OnOk result (walked.new ≡ record walked.old { known = with_name walked.old.known name.now what.Bin; names = walked.old.names ++ name.now ∷ [] }) }
{
    add_name(alloc, &mut walked.known, name, What::Bin)?;
    walked.names.push(name.share()?)?;
    Ok(())
}

/// Adds bins.
pub fn keep_bins(bins: Vec<Made>, entries: &mut List<Entry>) -> Result<(), Memory>
    ensures { OnOk result (entries.new ≡ entries.old ++ map Bin bins.items) }
{
    for made in bins {
        entries.push(Entry::Bin(made))?;
    }
    Ok(())
}
