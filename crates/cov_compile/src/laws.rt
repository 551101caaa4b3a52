//! What holds of the definitions.
ghost use Rattle.std.specs.Prelude.{List, ℕ};
ghost use Rattle.cov_compile.specs.Compiling.{HasOneOutcome};

/// A text has at most one design or one fault, and not both.
pub fn one_outcome()
    ensures { (text : List ℕ) → HasOneOutcome text }
{}
