//! What has happened since a point of a history.
ghost use Rattle.std.specs.Prelude.{◌≡◌, drop};
ghost use Rattle.cov_history.specs.History.{is_revise as is_revise_meant, is_test_or_revise as is_change_meant, has_stop as has_stop_meant};
ghost use Rattle.cov_history.specs.Answers.{stands_since};

use cov_history::{Entry, Event};

/// The entries from a point on.
fn from(entries: &[Entry], since: u64) -> &[Entry]
    ensures { result.now ≡ drop since entries.now }
{
    &entries[(since as usize).min(entries.len())..]
}

fn is_revise(event: &Event) -> bool
    ensures { result ≡ is_revise_meant event.now }
{
    matches!(event, Event::Revise(_))
}

/// Whether the design was revised since the point.
pub(crate) fn revised_since(entries: &[Entry], since: u64) -> bool
    ensures { result ≡ stands_since is_revise_meant entries.now since }
{
    let mut rest = from(entries, since);
    while let Some((entry, later)) = rest.split_first() {
        if is_revise(&entry.event) {
            return true;
        }
        rest = later;
    }
    false
}

fn is_test_or_revise(event: &Event) -> bool
    ensures { result ≡ is_change_meant event.now }
{
    matches!(event, Event::Admit(_) | Event::Revise(_))
}

/// Whether a test was admitted, or the design revised, since the point.
pub(crate) fn changed_since(entries: &[Entry], since: u64) -> bool
    ensures { result ≡ stands_since is_change_meant entries.now since }
{
    let mut rest = from(entries, since);
    while let Some((entry, later)) = rest.split_first() {
        if is_test_or_revise(&entry.event) {
            return true;
        }
        rest = later;
    }
    false
}

/// Whether a history has ended.
pub(crate) fn has_stop(entries: &[Entry]) -> bool
    ensures { result ≡ has_stop_meant entries.now }
{
    let mut rest = entries;
    while let Some((entry, later)) = rest.split_first() {
        if matches!(&entry.event, Event::Stop) {
            return true;
        }
        rest = later;
    }
    false
}
