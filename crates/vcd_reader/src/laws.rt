//! What holds of records of dumps. Each function does nothing: it stands for the law that it ensures.
ghost use Rattle.std.specs.Prelude.{◌≡◌, ℕ, List, [], slice_index_or};
ghost use Rattle.record_codec.specs.declared.record.SignalRow.{SignalRow};
ghost use Rattle.record_codec.specs.declared.record.ArgRow.{ArgRow};
ghost use Rattle.record_codec.specs.Samples.{envs_after};
ghost use Rattle.vcd_dump.specs.declared.dump.DumpStep.{DumpStep};
ghost use Rattle.vcd_reader.specs.declared.watching.Watch.{Watch};
ghost use Rattle.vcd_reader.specs.Moments.{events_of};
ghost use Rattle.vcd_reader.specs.Laws.{moments_of};

/// The samples of each instance are its moments, in order, each with the values before the moment's step.
#[tactic(auto, using(crate::proofs::Sampled::samples_are_moments))]
pub fn samples_are_moments()
    ensures { (rows : List SignalRow) (args : List ArgRow) (codes : List ℕ)
        (events : List (List Watch)) (steps : List DumpStep) (instance : ℕ)
        → envs_after rows args instance [] (events_of rows codes events steps)
        ≡ moments_of rows args codes (slice_index_or events instance []) steps }
{}
