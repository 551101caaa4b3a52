//! How the items of a design are shared among parts of about the same work: a cross stands with its points.
ghost use Rattle.std.specs.Prelude.{◌≡◌, IsTrue, ◌↔◌, length, slice_index};
ghost use Rattle.std.specs.List.{AllByRecursion};
ghost use Rattle.sampler.specs.Shares.{IsTogether, AreItemsTogether, AreTogether};

use cov_base::Memory;
use cov_tree::List;
use design_data::{Design, InstInfo, ItemInfo, ItemShape};
use record_codec::{Event, Record};
use sampler::{label, labels_at};
use std::alloc::Global;

/// How often the crosses of an instance are gone through at most until each stands with its points.
const MOST_PASSES: u32 = 16;

/// Whether the items at these indexes have this label.
fn have_label(labels: &[u32], own: u32, axes: &[u32]) -> bool
    ensures { IsTrue result → AllByRecursion (λ axis. slice_index labels.now axis ≡ own) axes.now }
{
    let mut rest = axes;
    while let Some((axis, later)) = rest.split_first() {
        if label(labels, *axis as usize) != own {
            return false;
        }
        rest = later;
    }
    true
}

/// Whether an item has the label of each of its points, if it is a cross.
fn is_together(labels: &[u32], index: usize, item: &ItemInfo) -> bool
    ensures { IsTrue result → IsTogether labels.now index item.now.shape }
{
    match &item.shape {
        ItemShape::Point(_) => true,
        ItemShape::Cross(axes) => have_label(labels, label(labels, index), axes.as_slice()),
    }
}

/// Whether each cross of an instance has the label of each of its points.
fn are_items_together(items: &[ItemInfo], labels: &[u32]) -> bool
    ensures { IsTrue result → AreItemsTogether items.now labels.now }
{
    for index in 0..items.len() {
        if !is_together(labels, index, &items[index]) {
            return false;
        }
    }
    true
}

/// Whether each cross has the label of each of its points.
pub(crate) fn are_together(instances: &[InstInfo], labels: &[List<u32>]) -> bool
    ensures { IsTrue result → AreTogether instances.now labels.now }
{
    for index in 0..instances.len() {
        let items = instances[index].items.as_slice();
        let own = labels_at(labels, index);
        if !are_items_together(items, own) {
            return false;
        }
    }
    true
}

/// Adds one to the number at this index, if there is one.
fn note_sample(event: &Event, samples: &mut Vec<u64>) {
    let Event::Sample { instance, .. } = event else {
        return;
    };
    let index = *instance as usize;
    if index < samples.len() {
        samples[index] = samples[index].saturating_add(1);
    }
}

/// How many samples each of so many instances has.
fn samples_of(alloc: Global, rec: &Record, instances: usize) -> Result<Vec<u64>, Memory> {
    let mut samples = Vec::from_elem(alloc, 0, instances)?;
    for event in rec.events.as_slice() {
        note_sample(event, &mut samples);
    }
    Ok(samples)
}

/// The number at this index, 0 where there is none.
fn at(numbers: &[u64], index: usize) -> u64 {
    match numbers.get(index) {
        Some(number) => *number,
        None => 0,
    }
}

/// How often an item takes a sample in the record, all items together.
pub(crate) fn work_of(design: &Design, rec: &Record) -> u64 {
    let instances = design.instances();
    let mut work = 0u64;
    for event in rec.events.as_slice() {
        work = work.saturating_add(work_at(instances, event));
    }
    work
}

/// How many items take an event.
fn work_at(instances: &[InstInfo], event: &Event) -> u64 {
    let Event::Sample { instance, .. } = event else {
        return 0;
    };
    match instances.get(*instance as usize) {
        Some(inst) => inst.items.as_slice().len() as u64,
        None => 0,
    }
}

/// The least of the roots of a cross and its points.
fn least_root(roots: &[u32], index: usize, axes: &[u32]) -> u32 {
    let mut least = label(roots, index);
    for axis in axes {
        least = least.min(label(roots, *axis as usize));
    }
    least
}

/// Gives an item this root, and answers whether it had another.
fn set_root(roots: &mut Vec<u32>, index: usize, root: u32) -> bool {
    if index >= roots.len() {
        return false;
    }
    let changes = roots[index] != root;
    roots[index] = root;
    changes
}

/// Gives a cross and its points one root, and answers whether one of them had another.
fn join_cross(roots: &mut Vec<u32>, index: usize, axes: &[u32]) -> bool {
    let root = least_root(roots.as_slice(), index, axes);
    let mut changes = set_root(roots, index, root);
    for axis in axes {
        let changed = set_root(roots, *axis as usize, root);
        changes = changes || changed;
    }
    changes
}

/// The same of an item, if it is a cross.
fn join_item(roots: &mut Vec<u32>, index: usize, item: &ItemInfo) -> bool {
    match &item.shape {
        ItemShape::Point(_) => false,
        ItemShape::Cross(axes) => join_cross(roots, index, axes.as_slice()),
    }
}

/// The same of each cross of an instance.
fn join_items(roots: &mut Vec<u32>, items: &[ItemInfo]) -> bool {
    let mut changes = false;
    for (index, item) in items.iter().enumerate() {
        let changed = join_item(roots, index, item);
        changes = changes || changed;
    }
    changes
}

/// So many numbers from 0 on.
fn numbers_below(alloc: Global, count: u32) -> Result<Vec<u32>, Memory> {
    let mut numbers = Vec::new(alloc);
    for number in 0..count {
        numbers.push(number)?;
    }
    Ok(numbers)
}

/// For each item the least index of an item that is joined with it by crosses.
fn roots_of(alloc: Global, items: &[ItemInfo]) -> Result<Vec<u32>, Memory> {
    let count = items.len().min(u32::MAX as usize) as u32;
    let mut roots = numbers_below(alloc, count)?;
    for pass in 0..MOST_PASSES {
        let _ = pass;
        if !join_items(&mut roots, items) {
            return Ok(roots);
        }
    }
    Ok(roots)
}

/// The part with the least work, the first of such parts.
fn lightest(loads: &[u64], parts: u32) -> u32 {
    let mut best = 0;
    for part in 0..parts {
        if at(loads, part as usize) < at(loads, best as usize) {
            best = part;
        }
    }
    best
}

/// Adds to the work of a part.
fn add_load(loads: &mut Vec<u64>, part: u32, weight: u64) {
    let index = part as usize;
    if index < loads.len() {
        loads[index] = loads[index].saturating_add(weight);
    }
}

/// Labels of an instance's items: each goes with its root, and a root to the part with the least work.
fn item_labels(
    alloc: Global,
    roots: &[u32],
    parts: u32,
    weight: u64,
    loads: &mut Vec<u64>,
) -> Result<List<u32>, Memory> {
    let mut labels: Vec<u32> = Vec::new(alloc);
    for root in roots {
        let index = *root as usize;
        let part = if index < labels.len() {
            labels[index]
        } else {
            lightest(loads.as_slice(), parts)
        };
        add_load(loads, part, weight);
        labels.push(part)?;
    }
    Ok(List::of(labels))
}

/// Labels of the items of a design, so that parts have about the same work at the record.
pub(crate) fn labels_of(
    alloc: Global,
    design: &Design,
    rec: &Record,
    parts: u32,
) -> Result<List<List<u32>>, Memory> {
    let instances = design.instances();
    let samples = samples_of(alloc, rec, instances.len())?;
    let mut loads = Vec::from_elem(alloc, 0, parts as usize)?;
    let mut labels = List::new(alloc);
    for (index, inst) in instances.iter().enumerate() {
        let weight = at(samples.as_slice(), index);
        labels.push(inst_labels(alloc, inst, parts, weight, &mut loads)?)?;
    }
    Ok(labels)
}

/// The labels of an instance's items.
fn inst_labels(
    alloc: Global,
    inst: &InstInfo,
    parts: u32,
    weight: u64,
    loads: &mut Vec<u64>,
) -> Result<List<u32>, Memory> {
    let roots = roots_of(alloc, inst.items.as_slice())?;
    item_labels(alloc, roots.as_slice(), parts, weight, loads)
}
