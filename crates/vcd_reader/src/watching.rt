//! The events of instances, bound to the signals that they watch.
ghost use Rattle.std.specs.Prelude.{◌≡◌, ◌<◌, ◌^◌, [], length, nat_eq, IfOk};
ghost use Rattle.std.specs.List.{list_any};
ghost use Rattle.const_eval.specs.Scopes.{names_of, meaning_of};
ghost use Rattle.const_eval.specs.Binding.{bound_of};
ghost use Rattle.vcd_reader.specs.Watching.{signal_named, bound_guard, guard_in, watched, all_watched, is_group, own_event, place_of, group_event, first_of};

use const_eval::{BindFault, Bound, Meaning, Scope, bind};
use cov_ground::Memory;
use cov_tree::{Decl, EdgeKind, EdgeText, Expr, List};
use std::alloc::Global;

/// An edge that is watched.
#[derive(Drop)]
pub(crate) struct Watch {
    /// Which changes make the edge.
    pub(crate) kind: EdgeKind,
    /// The number of the signal.
    pub(crate) signal: u16,
    /// The condition.
    pub(crate) guard: Option<Bound>,
}

/// The edges of each instance, and the groups, by their numbers, that have an instance whose event can't be watched.
#[derive(Drop)]
pub(crate) struct Watches {
    pub(crate) events: List<List<Watch>>,
    pub(crate) bad: List<u32>,
}

/// The number of the signal that a name stands for.
fn signal_named(meaning: Option<Meaning>) -> Option<u16>
    ensures { result ≡ signal_named meaning }
{
    match meaning {
        Some(Meaning::Signal { index, .. }) => Some(index),
        _ => None,
    }
}

/// A condition, where its names can be bound.
fn bound_guard(alloc: Global, guard: &Expr, scope: &Scope) -> Result<Option<Option<Bound>>, Memory>
    ensures { IfOk result (λ bound. bound ≡ bound_guard (bound_of (names_of scope.now) guard.now)) }
{
    match bind(alloc, guard, scope) {
        Ok(bound) => Ok(Some(Some(bound))),
        Err(BindFault::UnknownName { .. }) => Ok(None),
        Err(BindFault::TooWide { .. }) => Ok(None),
        Err(BindFault::BadSelect { .. }) => Ok(None),
        Err(BindFault::BadConcat { .. }) => Ok(None),
        Err(BindFault::UnknownLiteral { .. }) => Ok(None),
        Err(BindFault::NotConstant { .. }) => Ok(None),
        Err(BindFault::Memory) => Err(Memory),
    }
}

/// A condition, where one is written.
fn guard_in(
    alloc: Global,
    guard: &Option<Expr>,
    scope: &Scope,
) -> Result<Option<Option<Bound>>, Memory>
    ensures { IfOk result (λ bound. bound ≡ guard_in (names_of scope.now) guard.now) }
{
    match guard {
        None => Ok(Some(None)),
        Some(guard) => bound_guard(alloc, guard, scope),
    }
}

/// An edge with what its names stand for; None where it can't be watched.
#[tactic(auto, unfolding(crate::specs::Watching::watched))]
fn watched(alloc: Global, edge: &EdgeText, scope: &Scope) -> Result<Option<Watch>, Memory>
    ensures { IfOk result (λ watch. watch ≡ watched (names_of scope.now) edge.now) }
{
    let Some(signal) = signal_named(scope.meaning(edge.name.as_slice())) else {
        return Ok(None);
    };
    let Some(guard) = guard_in(alloc, &edge.guard, scope)? else {
        return Ok(None);
    };
    Ok(Some(Watch {
        kind: edge.kind,
        signal,
        guard,
    }))
}

/// All edges of an event; None where one of them can't be watched.
pub(crate) fn all_watched(
    alloc: Global,
    edges: &[EdgeText],
    scope: &Scope,
) -> Result<Option<List<Watch>>, Memory>
    ensures { IfOk result (λ watches. watches ≡ all_watched (names_of scope.now) edges.now []) }
{
    let mut found = List::new(alloc);
    let mut rest = edges;
    while let Some((edge, later)) = rest.split_first() {
        let Some(watch) = watched(alloc, edge, scope)? else {
            return Ok(None);
        };
        found.push(watch)?;
        rest = later;
    }
    Ok(Some(found))
}

fn is_group(decl: &Decl) -> bool
    ensures { result ≡ is_group decl.now }
{
    match decl {
        Decl::Group { .. } => true,
        _ => false,
    }
}

fn own_event(decl: &Decl) -> &[EdgeText]
    ensures { result.now ≡ own_event decl.now }
{
    match decl {
        Decl::Group { event, .. } => event.as_slice(),
        _ => &[],
    }
}

/// Where a declaration begins.
fn place_of(decl: &Decl) -> u32
    ensures { result ≡ place_of decl.now }
{
    match decl {
        Decl::Enum { at, .. } => *at,
        Decl::Var { at, .. } => *at,
        Decl::Group { at, .. } => *at,
        Decl::Instance { at, .. } => *at,
    }
}

/// The event of a group, by its number in the text.
pub(crate) fn group_event(text: &[Decl], group: u32) -> &[EdgeText]
    ensures { result.now ≡ group_event text.now group }
{
    let mut left = group;
    let mut rest = text;
    while let Some((decl, later)) = rest.split_first() {
        if is_group(decl) {
            if left == 0 {
                return own_event(decl);
            }
            left -= 1;
        }
        rest = later;
    }
    &[]
}

/// Whether a number is one of these.
fn is_one_of(group: usize, bad: &[u32]) -> bool
    ensures { result ≡ list_any (nat_eq group) bad.now }
{
    bad.iter().any(|other| group == *other as usize)
}

/// Where the first group begins that is one of these.
pub(crate) fn first_of(bad: &[u32], text: &[Decl]) -> Option<u32>
    ensures { result ≡ first_of bad.now text.now 0 }
{
    let mut group: usize = 0;
    let mut rest = text;
    while let Some((decl, later)) = rest.split_first() {
        if is_group(decl) {
            if is_one_of(group, bad) {
                return Some(place_of(decl));
            }
            group += 1;
        }
        rest = later;
    }
    None
}
