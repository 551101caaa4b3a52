//! What holds of journals. Each function does nothing: it stands for the law that it ensures.
ghost use Rattle.journal_bytes.specs.Laws.{HaveOneJournal, SumsTell, FirstSumsTell};

/// A file is a journal of one list of items at most.
pub fn a_file_has_one_journal()
    ensures { HaveOneJournal }
{}

/// A last sum tells all items before it, for as many items, unless SHA-256 has a known collision.
pub fn sums_tell_items()
    ensures { SumsTell }
{}

/// The first sums tell the first items, as many, unless SHA-256 has a known collision.
pub fn first_sums_tell_first_items()
    ensures { FirstSumsTell }
{}
