//! Amounts that have limits.
ghost use Rattle.std.specs.Prelude.{◌≡◌};
ghost use Rattle.history_limits.specs.Amounts.{amount_in, first_passed};

use cov_ground::limits::{MOST_BYTES, MOST_ENTRIES, MOST_HISTORY, MOST_TESTS};
use ucis_model::Which;

/// What a history amounts to.
#[derive(Clone, Copy)]
pub struct Amounts {
    /// Its tests.
    pub tests: u64,
    /// The bytes of its records and of its revisions' texts.
    pub bytes: u64,
    /// The bins that its records hit, each record for itself.
    pub entries: u64,
    /// Its changes, and the paths that are out.
    pub history: u64,
}

/// The first limit that is passed.
pub fn passed(amounts: &Amounts) -> Option<Which>
    ensures { result ≡ first_passed amounts.now }
{
    let amounts = *amounts;
    if amounts.tests > MOST_TESTS {
        return Some(Which::Tests);
    }
    if amounts.bytes > MOST_BYTES {
        return Some(Which::Bytes);
    }
    if amounts.entries > MOST_ENTRIES {
        return Some(Which::Entries);
    }
    if amounts.history > MOST_HISTORY {
        return Some(Which::History);
    }
    None
}

/// The amount that has this limit.
pub fn amount(amounts: &Amounts, which: Which) -> u64
    ensures { result ≡ amount_in amounts.now which }
{
    let amounts = *amounts;
    match which {
        Which::Tests => amounts.tests,
        Which::Bytes => amounts.bytes,
        Which::Entries => amounts.entries,
        Which::History => amounts.history,
    }
}
