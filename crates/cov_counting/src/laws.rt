//! Laws of counting. These functions do nothing: each is called for what its contract says.
ghost use Rattle.cov_counting.specs.Laws.{TallyIsOne, AreNumbers, RisesAtMostOnce, StaysOutsideTrace, OthersStay, AtMostSamples, AtMostMembers, RemovedNeverCount};

use design_data::Design;

/// A design and a record have one tally.
pub fn tally_is_one()
    ensures { TallyIsOne }
{}

/// The numbers below the number of bins are those of the bins.
pub fn numbers_are_of_bins(design: &Design)
    ensures { AreNumbers design.now }
{
    let _ = &design.bin_count;
}

/// A bin rises at most once a sample.
pub fn rises_at_most_once()
    ensures { RisesAtMostOnce }
{}

/// A sample outside the trace of a point raises no bin of it.
pub fn stays_outside_trace()
    ensures { StaysOutsideTrace }
{}

/// What other instances sample changes nothing.
pub fn others_stay()
    ensures { OthersStay }
{}

/// A bin's count is at most the number of samples of its instance.
pub fn at_most_samples()
    ensures { AtMostSamples }
{}

/// The count of an automatic cross bin is at most that of each of its members.
pub fn at_most_members()
    ensures { AtMostMembers }
{}

/// A window that is one of the removing sequences never counts.
pub fn removed_never_count()
    ensures { RemovedNeverCount }
{}
