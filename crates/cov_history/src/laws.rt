//! Laws of histories and answers. These functions do nothing: each is called for what its contract says.
ghost use Rattle.cov_history.specs.Laws.{TallyIs, RankingIs, LegalIsOne, FitsStay, MadeWhereItMayFollow, StaysLegal, CoverageIsWithin, AdmissionsNeverLower, ExclusionsChangeNoCount, IncludeUndoes, RepeatsAreHere, CallersDontMatter, NothingAfterStop};
ghost use Rattle.cov_history.specs.Steps.{OneMoreEntry};

/// The counts that answers use are the tally of the design and the record, and no other list is.
pub fn counts_are_the_tally()
    ensures { TallyIs }
{}

/// The ranking that answers give is the greedy one, and no other list is.
pub fn the_ranking_is_greedy()
    ensures { RankingIs }
{}

/// What one more entry does to each word of a history.
pub fn one_more_entry()
    ensures { OneMoreEntry }
{}

/// A history is legal in one way.
pub fn legality_is_one()
    ensures { LegalIsOne }
{}

/// An answer is New or Changed exactly where the entry may follow.
pub fn made_where_it_may_follow()
    ensures { MadeWhereItMayFollow }
{}

/// Along a legal history the same records fit.
pub fn fits_stay()
    ensures { FitsStay }
{}

/// A legal history stays legal with what an answer adds.
pub fn stays_legal()
    ensures { StaysLegal }
{}

/// Coverage is from 0 to 1,000,000.
pub fn coverage_is_within()
    ensures { CoverageIsWithin }
{}

/// A test that is admitted uncovers no bin and lowers no node's coverage.
pub fn admissions_never_lower()
    ensures { AdmissionsNeverLower }
{}

/// Exclusions change no count.
pub fn exclusions_change_no_count()
    ensures { ExclusionsChangeNoCount }
{}

/// An Include undoes the Exclude of its path, whatever came between that spares the path.
pub fn include_undoes()
    ensures { IncludeUndoes }
{}

/// A record that is kept is answered Here, and adds nothing.
pub fn repeats_are_here()
    ensures { RepeatsAreHere }
{}

/// Who made the entries changes no answer.
pub fn callers_dont_matter()
    ensures { CallersDontMatter }
{}

/// After a Stop nothing is added.
pub fn nothing_after_a_stop()
    ensures { NothingAfterStop }
{}
