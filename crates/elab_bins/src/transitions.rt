//! Transition bins and `default sequence` among the declarations of a point.
ghost use Rattle.std.specs.Prelude.{◌≡◌, ◌++◌, ◌+◌, ◌≤◌, length, OnOk, IfOk};
ghost use Rattle.cov_ground.specs.Limits.{most_bins};
ghost use Rattle.elab_base.specs.Gives.{Gives, Makes};
ghost use Rattle.elab_transitions.specs.Bins.{trans_bins_of, default_bin_of};
ghost use Rattle.elab_bins.specs.Transitions.{before as before_meant, seqs_kept, trans_added, trans_declared, made_added, default_sequence_declared, in_array, trans_left_of as left_of, transitions_left as transitions_meant};

use crate::walked::{Entry, Walked, keep_bins, keep_name, place_of};
use const_eval::Scope;
use cov_base::Memory;
use cov_tree::{BinsDecl, List, Name, Step, Word};
use elab_base::ElabFault;
use elab_transitions::{Before, Removers, TransBins, default_bin, trans_bins};
use elab_values::{Domain, Made, is_array};
use std::alloc::Global;
use trans_seq::Seq;

/// What stands before a declaration.
fn before(walked: &Walked) -> Result<Before, Memory>
    ensures { IfOk result (λ before. before ≡ before_meant walked.now) }
{
    Ok(Before {
        declared: place_of(walked.names.as_slice().len())?,
        bins: walked.count,
        removing: walked.removing,
    })
}

/// Keeps sequences that take windows away.
fn keep_seqs(word: Word, seqs: List<Seq>, walked: &mut Walked) -> Result<(), Memory>
    ensures { OnOk result (walked.new ≡ seqs_kept word seqs walked.old) }
{
    match word {
        Word::Bins => {}
        Word::Illegal => walked.illegal_seqs.append(seqs)?,
        Word::Ignore => walked.ignored_seqs.append(seqs)?,
    }
    Ok(())
}

#[tactic(auto, unfolding(crate::specs::Transitions::trans_added))]
fn add_trans(
    alloc: Global,
    decl: &BinsDecl,
    made: TransBins,
    walked: &mut Walked,
) -> Result<(), Memory>
    requires { walked.old.count + length made.bins ≤ most_bins }
    ensures { OnOk result (walked.new ≡ trans_added decl.now made walked.old) }
{
    let TransBins {
        bins,
        removed,
        removing,
    } = made;
    keep_name(alloc, &decl.name, walked)?;
    walked.count += bins.as_slice().len();
    keep_bins(bins.into_vec(), &mut walked.entries)?;
    walked.removing = removing;
    keep_seqs(decl.word, removed, walked)
}

/// The bins of a declaration of transitions, for which there is room.
#[tactic(auto, using(crate::proofs::Rooms::trans_room))]
fn made_of(
    alloc: Global,
    scope: &Scope,
    domain: &Domain,
    decl: &BinsDecl,
    sequences: &[List<Step>],
    before: Before,
) -> Result<TransBins, ElabFault>
    ensures gives { Gives result (trans_bins_of scope.now domain.now decl.now sequences.now before) }
    ensures room { IfOk result (λ made. before.bins + length made.bins ≤ most_bins) }
{
    trans_bins(alloc, scope, domain, decl, sequences, before)
}

/// Adds the bins of a declaration of transitions.
#[tactic(auto, unfolding(crate::specs::Transitions::trans_declared))]
pub fn declare_trans(
    alloc: Global,
    scope: &Scope,
    domain: &Domain,
    decl: &BinsDecl,
    sequences: &[List<Step>],
    walked: &mut Walked,
) -> Result<(), ElabFault>
    ensures { Makes result walked.new (trans_declared scope.now domain.now decl.now sequences.now walked.old) }
{
    let before = before(walked)?;
    let made = made_of(alloc, scope, domain, decl, sequences, before)?;
    add_trans(alloc, decl, made, walked)?;
    Ok(())
}

/// Adds the one bin of a declaration.
pub fn add_made(alloc: Global, name: &Name, made: Made, walked: &mut Walked) -> Result<(), Memory>
    requires { walked.old.count + 1 ≤ most_bins }
    ensures { OnOk result (walked.new ≡ made_added name.now made walked.old) }
{
    keep_name(alloc, name, walked)?;
    walked.entries.push(Entry::Bin(made))?;
    walked.count += 1;
    Ok(())
}

/// The bin of `default sequence`, for which there is room.
#[tactic(auto, using(crate::proofs::Rooms::default_room))]
fn default_of(
    alloc: Global,
    scope: &Scope,
    decl: &BinsDecl,
    before: Before,
) -> Result<Made, ElabFault>
    ensures gives { Gives result (default_bin_of scope.now decl.now before) }
    ensures room { IfOk result (λ made. before.bins + 1 ≤ most_bins) }
{
    default_bin(alloc, scope, decl, before)
}

/// Adds the bin of `default sequence`.
#[tactic(auto, unfolding(crate::specs::Transitions::default_sequence_declared))]
pub fn declare_default_sequence(
    alloc: Global,
    scope: &Scope,
    decl: &BinsDecl,
    walked: &mut Walked,
) -> Result<(), ElabFault>
    ensures { Makes result walked.new (default_sequence_declared scope.now decl.now walked.old) }
{
    let before = before(walked)?;
    let made = default_of(alloc, scope, decl, before)?;
    add_made(alloc, &decl.name, made, walked)?;
    Ok(())
}

// ---- removal

/// Whether `[]` stands at the declaration of a bin.
fn is_in_array(decls: &[BinsDecl], declared: Option<u32>) -> bool
    ensures { result ≡ in_array decls.now declared }
{
    match declared {
        None => false,
        Some(place) => match decls.get(place as usize) {
            None => false,
            Some(decl) => is_array(&decl.size),
        },
    }
}

/// Keeps a bin that has a transition left, or is none of transitions.
fn keep_left(
    alloc: Global,
    decls: &[BinsDecl],
    removers: &Removers,
    made: Made,
    left: &mut List<Made>,
) -> Result<(), Memory>
    ensures { OnOk result (left.new ≡ left.old ++ left_of decls.now removers.now.0 removers.now.1 made) }
{
    let array = is_in_array(decls, made.declared);
    if removers.leaves(alloc, array, &made.bin)? {
        left.push(made)?;
    }
    Ok(())
}

/// What removal leaves of bins: those that have a transition left, and all that aren't bins of transitions.
pub fn transitions_left(
    alloc: Global,
    decls: &[BinsDecl],
    removers: &Removers,
    bins: Vec<Made>,
) -> Result<List<Made>, Memory>
    ensures { IfOk result (λ left. left ≡ transitions_meant decls.now removers.now.0 removers.now.1 bins.items) }
{
    let mut left = List::new(alloc);
    for made in bins {
        keep_left(alloc, decls, removers, made, &mut left)?;
    }
    Ok(left)
}
