//! How a point makes bins of values.
ghost use Rattle.std.specs.Prelude.{◌≡◌};
ghost use Rattle.std.specs.List.{list_any};
ghost use Rattle.elab_bins.specs.Wildcards.{wants_sets as wants_all_sets, keeps_patterns as keeps_all_patterns, manner_of as manner_meant};

use cov_tree::{BinsDecl, Right};
use elab_bins::{Manner, is_coverage};
use elab_values::{Domain, Settings, is_array};

/// Whether the other bins of a point have to be sets of numbers beside this declaration: it has ignored or illegal
/// values, or is an array of `default`.
fn wants_sets(decl: &BinsDecl) -> bool
    ensures { result ≡ wants_all_sets decl.now decl.now.right }
{
    match &decl.right {
        Right::Ranges { .. } => !is_coverage(&decl.word),
        Right::Whole { .. } => !is_coverage(&decl.word),
        Right::Trans(_) => false,
        Right::Default => is_array(&decl.size),
        Right::DefaultSequence => false,
    }
}

fn want_sets(decls: &[BinsDecl]) -> bool
    ensures { result ≡ list_any (λ b. wants_all_sets b b.right) decls.now }
{
    decls.iter().any(|decl| wants_sets(decl))
}

/// Whether the scalar wildcard bins of a point keep their patterns.
fn keeps_patterns(domain: &Domain, settings: Settings, decls: &[BinsDecl]) -> bool
    ensures { result ≡ keeps_all_patterns domain.now settings decls.now }
{
    if domain.constants.is_some() {
        return false;
    }
    if settings.intersected {
        return false;
    }
    !want_sets(decls)
}

/// How a point with these declarations makes bins of values.
pub(crate) fn manner_of(domain: &Domain, settings: Settings, decls: &[BinsDecl]) -> Manner
    ensures { result ≡ manner_meant domain.now settings decls.now }
{
    Manner {
        distribute: settings.distribute_first,
        patterns: keeps_patterns(domain, settings, decls),
    }
}
