//! What a declaration of bins asks for, and a bin of it.
ghost use Rattle.std.specs.Prelude.{◌≡◌, ◌≤◌, ◌+◌, nat_le, IfOk, OnOk};
ghost use Rattle.cov_ground.specs.Limits.{most_bins};
ghost use Rattle.elab_base.specs.declared.fault.ElabKind.TheVariants as kinds;
ghost use Rattle.elab_base.specs.Gives.{Gives, needs};
ghost use Rattle.elab_bins.specs.Made.{plan_bins, indexed, named_bin};

use const_eval::Bound;
use cov_base::{Int, Memory};
use cov_ground::limits::MOST_BINS;
use cov_tree::{List, Name, Shared};
use design_data::{BinInfo, BinKind, BinRule};
use elab_base::{ElabFault, ElabKind, share_guard};
use elab_values::Made;
use std::alloc::Global;

/// What the bins of a declaration have in common, or the automatic ones.
#[derive(Drop)]
pub struct Head {
    /// The name of the declaration.
    pub name: Name,
    /// The kind of its bins.
    pub kind: BinKind,
    /// The condition behind `iff`.
    pub guard: Option<Shared<Bound>>,
    /// Where the declaration stands, or the point of automatic bins.
    pub at: u32,
    /// The place of the declaration among those of the point; None for automatic bins.
    pub declared: Option<u32>,
}

/// How a point makes bins of values, besides what their declarations say.
#[derive(Clone, Copy, PartialEq, Eq)]
pub struct Manner {
    /// Whether a filter is applied to each part of `b[n]`, after the numbers are spread.
    pub distribute: bool,
    /// Whether scalar wildcard bins keep their patterns.
    pub patterns: bool,
}

/// How many bins a declaration asks for: `b`, `b[]`, or `b[n]`.
#[derive(Clone, Copy, PartialEq, Eq)]
pub enum Wanted {
    /// One of all numbers.
    One,
    /// One of each number.
    Each,
    /// So many, over which the numbers are spread.
    Spread { bins: u64 },
}

/// The bins that a declaration makes.
#[derive(Drop)]
pub enum Plan {
    /// One of all numbers.
    One,
    /// One of each of these numbers.
    Each { numbers: List<Int> },
    /// So many, over which the numbers are spread.
    Spread { bins: u32 },
}

impl Plan {
    ghost use Rattle.std.specs.Prelude.{◌≡◌};
    ghost use Rattle.elab_bins.specs.Made.{plan_bins};

    /// How many bins that is.
    pub fn count(&self) -> usize
        ensures { result ≡ plan_bins self.now }
    {
        match self {
            Plan::One => 1,
            Plan::Each { numbers } => numbers.as_slice().len(),
            Plan::Spread { bins } => *bins as usize,
        }
    }
}

/// Whether an item that has so many bins may have so many more.
#[tactic(auto, unfolding(elab_base::specs::Gives::needs))]
pub fn check_room(have: usize, more: u64, at: u32) -> Result<(), ElabFault>
    ensures gives { Gives result (needs (nat_le (have + more) most_bins) kinds.TooManyBins at) }
    ensures few { OnOk result (more ≤ most_bins) }
    ensures room { OnOk result (have + more ≤ most_bins) }
{
    if have > MOST_BINS || more > (MOST_BINS - have) as u64 {
        return Err(ElabKind::TooManyBins.at(at));
    }
    Ok(())
}

/// `name[index]`
#[tactic(auto, unfolding(crate::specs::Made::indexed))]
pub fn indexed_name(alloc: Global, name: &[u8], index: &[u8]) -> Result<Name, Memory>
    ensures { IfOk result (λ text. text ≡ indexed name.now index.now) }
{
    let mut text = Vec::from_slice(alloc, name)?;
    text.push(b'[')?;
    text.extend_from_slice(index)?;
    text.push(b']')?;
    Name::from_vec(text)
}

/// A bin of a declaration, or an automatic one.
pub fn bin_of(head: &Head, name: Name, rule: BinRule) -> Result<Made, Memory>
    ensures { IfOk result (λ made. made ≡ named_bin head.now name rule) }
{
    let guard = share_guard(&head.guard)?;
    Ok(Made {
        bin: BinInfo {
            name,
            kind: head.kind,
            rule,
            guard,
        },
        at: head.at,
        declared: head.declared,
    })
}
