//! Which items belong to a part of the work.
ghost use Rattle.std.specs.Prelude.{◌≡◌, ◌==◌, ◌<◌, ◌^◌, ◌%◌, ◌++◌, ◌∷◌, [], ℕ, Some, length, slice_get, slice_index, OnOk, IfOk, if◌then◌else◌};
ghost use Rattle.design_data.specs.declared.infos.InstInfo.{InstInfo as Inst};
ghost use Rattle.sampler_plans.specs.Shares.{labels_at as labels_of, chosen_items, IsShareOf};

use crate::sameness::same_numbers;
use cov_base::Memory;
use cov_tree::{List, Shared};
use design_data::InstInfo;
use std::alloc::Global;

/// The label of an item, 0 where there is none.
pub fn label(labels: &[u32], index: usize) -> u32
    ensures { result ≡ slice_index labels.now index }
{
    match labels.get(index) {
        Some(label) => *label,
        None => 0,
    }
}

/// The labels of an instance's items.
pub fn labels_at(labels: &[List<u32>], instance: usize) -> &[u32]
    ensures { result.now ≡ labels_of labels.now instance }
{
    match labels.get(instance) {
        Some(labels) => labels.as_slice(),
        None => &[],
    }
}

/// Whether the item belongs to this part.
fn is_own(labels: &[u32], parts: u32, part: u32, index: usize) -> bool
    requires { 0 < parts }
    ensures { result ≡ (slice_index labels.now index % parts == part) }
{
    label(labels, index) % parts == part
}

/// Appends the number where the test is true.
fn push_if(test: bool, number: u32, out: &mut Vec<u32>) -> Result<(), Memory>
    ensures { OnOk result (out.new.items ≡ out.old.items ++ (if test then number ∷ [] else [])) }
{
    if test {
        out.push(number)?;
    }
    Ok(())
}

/// The indexes of those of so many items that belong to this part.
fn chosen_of(
    alloc: Global,
    labels: &[u32],
    parts: u32,
    part: u32,
    count: usize,
) -> Result<List<u32>, Memory>
    requires parts { 0 < parts }
    requires few { count < 2 ^ 32 }
    ensures { IfOk result (λ chosen. chosen ≡ chosen_items labels.now parts part count) }
{
    let mut chosen = Vec::new(alloc);
    for index in 0..count {
        push_if(
            is_own(labels, parts, part, index),
            index as u32,
            &mut chosen,
        )?;
    }
    Ok(List::of(chosen))
}

/// The same, where those that were chosen by known labels among so many items are known.
fn chosen_again(
    alloc: Global,
    known: &Shared<List<u32>>,
    known_labels: &[u32],
    known_count: usize,
    labels: &[u32],
    parts: u32,
    part: u32,
    count: usize,
) -> Result<Shared<List<u32>>, Memory>
    requires parts { 0 < parts }
    requires few { count < 2 ^ 32 }
    requires known { known.now ≡ chosen_items known_labels.now parts part known_count }
    ensures { IfOk result (λ chosen. chosen ≡ chosen_items labels.now parts part count) }
{
    if known_count == count {
        if same_numbers(known_labels, labels) {
            return Ok(known.share()?);
        }
    }
    let chosen = chosen_of(alloc, labels, parts, part, count)?;
    Ok(Shared::of(alloc, chosen)?)
}

/// The items of the instances that belong to this part, out of `parts` (1 and more): for each instance the indexes, from 0 and
/// rising, of those items whose label leaves `part` when divided by `parts`; none where `part` isn't below `parts`. An instance
/// has fewer than 2^32 items. Instances of as many items with the same labels share theirs. It fails where memory ends.
pub fn share_of(
    alloc: Global,
    instances: &[InstInfo],
    labels: &[List<u32>],
    parts: u32,
    part: u32,
) -> Result<Vec<Shared<List<u32>>>, Memory>
    requires parts { 0 < parts }
    requires few { (j : ℕ) (inst : Inst) → slice_get instances.now j ≡ Some inst → length inst.items < 2 ^ 32 }
    ensures { IfOk result (λ share. IsShareOf instances.now labels.now parts part share.items) }
{
    let mut share = Vec::new(alloc);
    let mut known = Shared::of(alloc, List::new(alloc))?;
    let mut known_labels: &[u32] = &[];
    let mut known_count = 0;
    for j in 0..instances.len() {
        let items = instances[j].items.as_slice();
        let count = items.len();
        let own = labels_at(labels, j);
        let chosen = chosen_again(
            alloc,
            &known,
            known_labels,
            known_count,
            own,
            parts,
            part,
            count,
        )?;
        known = chosen.share()?;
        known_labels = own;
        known_count = count;
        share.push(chosen)?;
    }
    Ok(share)
}
