//! The lines of designs and counts.
ghost use Rattle.std.specs.Prelude.{◌≡◌, ◌++◌, ◌+◌, ◌<◌, length, IfOk, OnOk, decimal, slice_get};
ghost use Rattle.std.specs.List.{flat_map};
ghost use Rattle.ucis_model.specs.Paths.{below};
ghost use Rattle.covd_commands.specs.Columns.{counts_of};
ghost use Rattle.covd_commands.specs.Lines.{count_at, count_column, bin_line, design_lines, count_text, check_text, number_line};
ghost use Rattle.covd_commands.specs.Walks.{bin_lines, item_lines, instance_lines, lines_of_instance, group_lines, lines_from};

use crate::texts::append_count;
use appending::{append, append_number};
use bin_words::kind_word;
use cov_base::Memory;
use cov_tree::Name;
use design_data::{BinInfo, Design, GroupInfo, InstInfo, ItemInfo};
use std::alloc::Global;

/// Whether a line has a count, and the counts of all bins.
#[derive(Drop)]
pub(crate) enum Column<'a> {
    Bare,
    Counted(&'a [u64]),
}

/// A path with a name below it.
fn append_below(text: &mut Vec<u8>, path: &[u8], name: &Name) -> Result<(), Memory>
    ensures { OnOk result (text.new.items ≡ text.old.items ++ below path.now name.now) }
{
    if path.is_empty() {
        return append(text, name.as_slice());
    }
    append(text, path)?;
    append(text, b"/")?;
    append(text, name.as_slice())
}

/// The path of what has this name below a path.
fn path_below(alloc: Global, path: &[u8], name: &Name) -> Result<Vec<u8>, Memory>
    ensures { IfOk result (λ whole. whole.items ≡ below path.now name.now) }
{
    let mut whole = Vec::new(alloc);
    append_below(&mut whole, path, name)?;
    Ok(whole)
}

// The count of the bin of this number.
fn count_of(counts: &[u64], number: u64) -> u64
    ensures { result ≡ count_at (slice_get counts.now number) }
{
    match counts.get(number as usize) {
        Some(count) => *count,
        None => 0,
    }
}

fn append_column(text: &mut Vec<u8>, column: &Column<'_>, number: u64) -> Result<(), Memory>
    ensures { OnOk result (text.new.items ≡ text.old.items ++ count_column (counts_of column.now) number) }
{
    match column {
        Column::Bare => Ok(()),
        Column::Counted(counts) => {
            append(text, b" ")?;
            append_number(text, count_of(counts, number))
        }
    }
}

fn append_bin(
    text: &mut Vec<u8>,
    column: &Column<'_>,
    number: u64,
    path: &[u8],
    bin: &BinInfo,
) -> Result<(), Memory>
    ensures { OnOk result (text.new.items ≡ text.old.items ++ bin_line (counts_of column.now) number bin.now.kind (below path.now bin.now.name)) }
{
    append(text, b"bin ")?;
    append_number(text, number)?;
    append(text, b" ")?;
    append(text, kind_word(bin.kind).as_bytes())?;
    append_column(text, column, number)?;
    append(text, b" ")?;
    append_below(text, path, &bin.name)?;
    append(text, b"\n")
}

// The lines of bins below the path of their item.
fn append_bins(
    text: &mut Vec<u8>,
    column: &Column<'_>,
    first: u32,
    path: &[u8],
    bins: &[BinInfo],
) -> Result<(), Memory>
    ensures { OnOk result (text.new.items ≡ text.old.items ++ bin_lines (counts_of column.now) first path.now bins.now) }
{
    for (place, bin) in bins.iter().enumerate() {
        append_bin(text, column, first as u64 + place as u64, path, bin)?;
    }
    Ok(())
}

// The lines of an item below the path of its instance.
fn append_item(
    alloc: Global,
    text: &mut Vec<u8>,
    column: &Column<'_>,
    above: &[u8],
    item: &ItemInfo,
) -> Result<(), Memory>
    ensures { OnOk result (text.new.items ≡ text.old.items ++ item_lines (counts_of column.now) above.now item.now) }
{
    let path = path_below(alloc, above, &item.name)?;
    append_bins(text, column, item.first_bin, &path, item.bins.as_slice())
}

fn append_items(
    alloc: Global,
    text: &mut Vec<u8>,
    column: &Column<'_>,
    above: &[u8],
    items: &[ItemInfo],
) -> Result<(), Memory>
    ensures { OnOk result (text.new.items ≡ text.old.items ++ flat_map (item_lines (counts_of column.now) above.now) items.now) }
{
    for item in items {
        append_item(alloc, text, column, above, item)?;
    }
    Ok(())
}

fn append_instance(
    alloc: Global,
    text: &mut Vec<u8>,
    column: &Column<'_>,
    group: &Name,
    instance: &InstInfo,
) -> Result<(), Memory>
    ensures { OnOk result (text.new.items ≡ text.old.items ++ instance_lines (counts_of column.now) group.now instance.now) }
{
    let path = path_below(alloc, group.as_slice(), &instance.name)?;
    append_items(alloc, text, column, &path, instance.items.as_slice())
}

// The lines of an instance, where it is one of the group at this place.
fn append_instance_of(
    alloc: Global,
    text: &mut Vec<u8>,
    column: &Column<'_>,
    group: &Name,
    place: usize,
    instance: &InstInfo,
) -> Result<(), Memory>
    ensures { OnOk result (text.new.items ≡ text.old.items ++ lines_of_instance (counts_of column.now) group.now place instance.now) }
{
    if instance.group as usize == place {
        append_instance(alloc, text, column, group, instance)
    } else {
        Ok(())
    }
}

fn append_group(
    alloc: Global,
    text: &mut Vec<u8>,
    column: &Column<'_>,
    instances: &[InstInfo],
    place: usize,
    group: &GroupInfo,
) -> Result<(), Memory>
    ensures { OnOk result (text.new.items ≡ text.old.items ++ group_lines (counts_of column.now) instances.now place group.now) }
{
    for instance in instances {
        append_instance_of(alloc, text, column, &group.name, place, instance)?;
    }
    Ok(())
}

fn append_groups(
    alloc: Global,
    text: &mut Vec<u8>,
    column: &Column<'_>,
    instances: &[InstInfo],
    groups: &[GroupInfo],
) -> Result<(), Memory>
    ensures { OnOk result (text.new.items ≡ text.old.items ++ lines_from (counts_of column.now) instances.now 0 groups.now) }
{
    for (place, group) in groups.iter().enumerate() {
        append_group(alloc, text, column, instances, place, group)?;
    }
    Ok(())
}

// A line for each bin.
fn append_design(
    alloc: Global,
    text: &mut Vec<u8>,
    column: &Column<'_>,
    design: &Design,
) -> Result<(), Memory>
    ensures { OnOk result (text.new.items ≡ text.old.items ++ design_lines (counts_of column.now) design.now) }
{
    append_groups(alloc, text, column, design.instances(), design.groups())?;
    Ok(())
}

/// The counts of the record of this id, one for each bin of the design.
pub(crate) fn count_lines(
    alloc: Global,
    design: &Design,
    id: &[u8],
    counts: &[u64],
) -> Result<Vec<u8>, Memory>
    ensures { IfOk result (λ text. text.items ≡ count_text design.now id.now counts.now) }
{
    let mut text = Vec::new(alloc);
    append(&mut text, b"test ")?;
    append(&mut text, id)?;
    append(&mut text, b"\n")?;
    append_design(alloc, &mut text, &Column::Counted(counts), design)?;
    Ok(text)
}

/// How many signals, instances and bins the design has, and its bins.
pub(crate) fn check_lines(alloc: Global, design: &Design) -> Result<Vec<u8>, Memory>
    ensures { IfOk result (λ text. text.items ≡ check_text design.now) }
{
    let mut text = Vec::new(alloc);
    append_count(&mut text, "signals", design.signals().len())?;
    append_count(&mut text, "instances", design.instances().len())?;
    append_count(&mut text, "bins", design.bin_count() as usize)?;
    append_design(alloc, &mut text, &Column::Bare, design)?;
    Ok(text)
}
