//! A history that is kept as it is.
ghost use Rattle.std.specs.Prelude.{◌≡◌, true};
ghost use Rattle.std.specs.Option.{ForSome};
ghost use Rattle.cov_history.specs.History.{is_legal};
ghost use Rattle.cov_history.specs.Amounts.{AreAmounts};

use cov_history::{Amounts, Entry};
use design_data::Design;

/// An opening design with a legal history, whose answers are worked out anew at each ask. Contracts see the design and the
/// list of entries.
#[derive(Drop)]
pub struct PlainStore {
    pub(crate) opening: Design,
    pub(crate) entries: Vec<Entry>,
    /// What the history amounts to, where that is known.
    pub(crate) amounts: Option<Amounts>,
    pub(crate) ghost legal: { is_legal opening entries.items ≡ true },
    pub(crate) ghost known: { ForSome amounts (λ known. AreAmounts opening entries.items known) },
}
