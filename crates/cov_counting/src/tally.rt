//! The tally of a design and a record, by definition: each bin is tried at each sample of its instance.
ghost use Rattle.std.specs.Prelude.{◌≡◌, ◌<◌, ◌↔◌, IsTrue, IfOk, OnOk, length};
ghost use Rattle.design_data.specs.Bins.{bins_in, items_of_group, IsNumberedFrom};
ghost use Rattle.record_codec.specs.Samples.{samples_of};
ghost use Rattle.cov_counting.specs.Tallies.{Hit, IsCount, IsTally};
ghost use Rattle.cov_counting.specs.Steps.{AreItems, AreInstances, Extends, ItemDone, ItemsDone, GroupDone};

use crate::crosses::is_cross_hit;
use crate::points::is_hit;
use crate::values::samples;
use cov_base::Int;
use cov_ground::Memory;
use cov_tree::List;
use design_data::{BinInfo, Design, InstInfo, ItemInfo, ItemShape};
use record_codec::Record;
use std::alloc::Global;

/// Whether the bin of an item is hit at the k-th sample.
fn is_bin_hit(
    alloc: Global,
    items: &[ItemInfo],
    item: &ItemInfo,
    bin: &BinInfo,
    samples: &[List<Option<Int>>],
    k: usize,
) -> Result<bool, Memory>
    requires items { AreItems items.now }
    requires sample { k < length samples.now }
    ensures { IfOk result (λ hit. IsTrue hit ↔ Hit items.now item.now bin.now samples.now k) }
{
    match &item.shape {
        ItemShape::Point(expr) => is_hit(alloc, item, expr, bin, samples, k),
        ItemShape::Cross(axes) => is_cross_hit(
            alloc,
            items,
            item,
            axes.as_slice(),
            bin,
            samples,
            k,
        ),
    }
}

/// At how many samples the bin is hit.
fn count_of(
    alloc: Global,
    items: &[ItemInfo],
    item: &ItemInfo,
    bin: &BinInfo,
    samples: &[List<Option<Int>>],
) -> Result<u64, Memory>
    requires { AreItems items.now }
    ensures { IfOk result (λ count. IsCount items.now item.now bin.now samples.now count) }
{
    let mut count = 0u64;
    for k in 0..samples.len() {
        if is_bin_hit(alloc, items, item, bin, samples, k)? {
            count += 1;
        }
    }
    Ok(count)
}

/// Puts the counts of an item's bins behind those of the bins before.
fn add_item(
    alloc: Global,
    items: &[ItemInfo],
    item: &ItemInfo,
    samples: &[List<Option<Int>>],
    counts: &mut List<u64>,
) -> Result<(), Memory>
    requires items { AreItems items.now }
    requires next { item.now.first_bin ≡ length counts.old }
    ensures extends { OnOk result (Extends counts.old counts.new (length item.now.bins)) }
    ensures done { OnOk result (ItemDone items.now item.now samples.now counts.new) }
{
    for bin in item.bins.as_slice() {
        counts.push(count_of(alloc, items, item, bin, samples)?)?;
    }
    Ok(())
}

/// Puts the counts of the bins of an instance's items behind those of the bins before.
fn add_items(
    alloc: Global,
    items: &[ItemInfo],
    samples: &[List<Option<Int>>],
    counts: &mut List<u64>,
) -> Result<(), Memory>
    requires items { AreItems items.now }
    requires next { IsNumberedFrom (length counts.old) items.now }
    ensures extends { OnOk result (Extends counts.old counts.new (bins_in items.now)) }
    ensures done { OnOk result (ItemsDone items.now samples.now counts.new) }
{
    for item in items {
        add_item(alloc, items, item, samples, counts)?;
    }
    Ok(())
}

/// Puts the counts of an instance's bins behind those of the bins before.
fn add_instance(
    alloc: Global,
    record: &Record,
    index: usize,
    inst: &InstInfo,
    counts: &mut List<u64>,
) -> Result<(), Memory>
    requires items { AreItems inst.now.items }
    requires next { IsNumberedFrom (length counts.old) inst.now.items }
    ensures extends { OnOk result (Extends counts.old counts.new (bins_in inst.now.items)) }
    ensures done { OnOk result (ItemsDone inst.now.items (samples_of record.now index) counts.new) }
{
    let samples = samples(alloc, record, index)?;
    add_items(alloc, inst.items.as_slice(), samples.as_slice(), counts)?;
    Ok(())
}

/// Puts the counts of the bins of a group's instances behind those of the bins before.
fn add_group(
    alloc: Global,
    record: &Record,
    instances: &[InstInfo],
    group: usize,
    counts: &mut List<u64>,
) -> Result<(), Memory>
    requires each { AreInstances instances.now }
    requires next { IsNumberedFrom (length counts.old) (items_of_group instances.now group) }
    ensures extends { OnOk result (Extends counts.old counts.new (bins_in (items_of_group instances.now group))) }
    ensures done { OnOk result (GroupDone record.now instances.now group counts.new) }
{
    for (index, inst) in instances.iter().enumerate() {
        if inst.group as usize == group {
            add_instance(alloc, record, index, inst, counts)?;
        }
    }
    Ok(())
}

/// The tally of the design and the record: the count of each bin at its number. Each bin is tried at each sample of its
/// instance, windows and products one by one, so it serves small designs and short records alone.
pub fn tally_by_definition(
    alloc: Global,
    design: &Design,
    record: &Record,
) -> Result<List<u64>, Memory>
    ensures { IfOk result (λ counts. IsTally design.now record.now counts) }
{
    let mut counts = List::new(alloc);
    for group in 0..design.groups().len() {
        add_group(alloc, record, design.instances(), group, &mut counts)?;
    }
    Ok(counts)
}
