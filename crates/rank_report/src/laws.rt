//! What holds of a ranking itself. The functions do nothing: they stand for the laws that they ensure.
ghost use Rattle.rank_report.specs.Laws.{GainsNeverGrow, OneRanking};

/// What a test adds never grows as tests are taken.
pub fn gains_never_grow()
    ensures { GainsNeverGrow }
{}

/// There is one ranking at most of given tests and wanted hits.
#[tactic(auto, using(crate::proofs::OneRanking::rankings_equal))]
pub fn one_ranking()
    ensures { OneRanking }
{}
