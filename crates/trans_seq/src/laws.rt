//! Laws of the definitions.
ghost use Rattle.trans_seq.specs.Cells.{CellsAdd};
ghost use Rattle.trans_seq.specs.Words.{WordIsOnlyList, KeptAtItsWord};

/// Lists of sequences that stand one behind the other have the sum of their cells.
pub fn cells_of_joined_lists()
    ensures { CellsAdd }
{}

/// A sequence of single values has one list.
pub fn one_list()
    ensures { WordIsOnlyList }
{}

/// A sequence of single values counts where the trace ends with its list, unless that list is removed.
pub fn counts_at_its_list()
    ensures { KeptAtItsWord }
{}
