//! What a store is asked.
use crate::Revision;
use cov_tree::Name;
use record_codec::Record;

/// A question to a store, or a change that is wanted of it.
#[derive(Drop)]
pub enum Ask {
    /// How many bins there are, where the history has come to this point.
    Hello { point: u64 },
    /// The counts of the bins under a node, from the first-th on.
    Counts { first: u32, path: Name },
    /// The coverage of a node.
    Coverage { path: Name },
    /// The illegal bins that were hit, from the first-th on.
    Illegal { first: u32 },
    /// The tests in order of admission, from the first-th on.
    Tests { first: u32 },
    /// What one test counts under a node, from the first-th bin on.
    TestCounts { first: u32, id: Name, path: Name },
    /// The tests by what each adds to the ones before.
    Rank,
    /// The path of a bin.
    NameOf { bin: u32 },
    /// To admit a record that fits the design at the point `since`.
    Admit { since: u64, content: Record },
    /// To take a node out of coverage.
    Exclude { path: Name },
    /// To put it back.
    Include { path: Name },
    /// To take the design of another text, for which all tests at the point `since` were counted.
    Revise { since: u64, revision: Revision },
    /// The bytes of the record that was admitted at this place, from 0, from an offset on.
    Fetch { place: u32, offset: u64 },
}
