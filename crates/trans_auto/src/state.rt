//! Where a trace stands.
use std::marker::Model;

/// Where a trace stands: for each start of a window that may still count, the masks of the own and of the removing
/// cells that the samples from there reach, equal pairs once.
pub struct TransState {
    /// The pairs of masks, in no order of meaning.
    pub runs: Vec<(u128, u128)>,
}

impl Drop for TransState {
    fn drop(self) {
        let TransState { runs: _ } = self;
    }
}

impl Model for TransState {
    ghost use Rattle.std.specs.Prelude.{List, ℕ};

    ghost Value = { List (ℕ × ℕ) };

    ghost view = { λ s. s.runs.items };
}
