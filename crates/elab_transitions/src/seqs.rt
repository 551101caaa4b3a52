//! Sequences of a declaration.
ghost use Rattle.std.specs.Prelude.{◌≡◌};
ghost use Rattle.elab_base.specs.Gives.{Gives, Makes};
ghost use Rattle.elab_transitions.specs.Steps.{item_of, with_item, items_of, with_seq, seqs_of};

use crate::steps::ListedStep;
use cov_base::ValueSet;
use cov_tree::List;
use elab_base::ElabFault;
use elab_values::{Domain, numbers_listed};
use std::alloc::Global;
use trans_seq::{Item, Seq};

#[tactic(auto, unfolding(crate::specs::Steps::item_of))]
fn item(alloc: Global, domain: &Domain, step: &ListedStep, at: u32) -> Result<Item, ElabFault>
    ensures { Gives result (item_of domain.now step.now at) }
{
    let elems = numbers_listed(alloc, domain, step.elements.as_slice(), at)?;
    let set = ValueSet::from_ranges(alloc, elems.as_slice())?;
    Ok(Item {
        set,
        repeat: step.repeat,
    })
}

#[tactic(auto, unfolding(crate::specs::Steps::with_item))]
fn add_item(
    alloc: Global,
    domain: &Domain,
    at: u32,
    step: &ListedStep,
    items: &mut List<Item>,
) -> Result<(), ElabFault>
    ensures { Makes result items.new (with_item domain.now at step.now items.old) }
{
    let item = item(alloc, domain, step, at)?;
    items.push(item)?;
    Ok(())
}

#[tactic(auto, unfolding(crate::specs::Steps::items_of))]
fn items(
    alloc: Global,
    domain: &Domain,
    at: u32,
    steps: &[ListedStep],
) -> Result<List<Item>, ElabFault>
    ensures { Gives result (items_of domain.now at steps.now) }
{
    let mut items = List::new(alloc);
    for step in steps {
        add_item(alloc, domain, at, step, &mut items)?;
    }
    Ok(items)
}

#[tactic(auto, unfolding(crate::specs::Steps::with_seq))]
fn add_seq(
    alloc: Global,
    domain: &Domain,
    at: u32,
    steps: &List<ListedStep>,
    seqs: &mut List<Seq>,
) -> Result<(), ElabFault>
    ensures { Makes result seqs.new (with_seq domain.now at steps.now seqs.old) }
{
    let items = items(alloc, domain, at, steps.as_slice())?;
    seqs.push(Seq { items })?;
    Ok(())
}

/// The sequences of a declaration at a place. Where the set of a literal with digits x, z or `?` has more than 65,536
/// intervals, the refusal is `TooManyRanges` there.
#[tactic(auto, unfolding(crate::specs::Steps::seqs_of))]
pub(crate) fn seqs_in(
    alloc: Global,
    domain: &Domain,
    sequences: &[List<ListedStep>],
    at: u32,
) -> Result<List<Seq>, ElabFault>
    ensures { Gives result (seqs_of domain.now sequences.now at) }
{
    let mut seqs = List::new(alloc);
    for steps in sequences {
        add_seq(alloc, domain, at, steps, &mut seqs)?;
    }
    Ok(seqs)
}
