//! Sequences with few choices of their items' lengths: for each choice, their lists are taken number by number.
ghost use Rattle.std.specs.Prelude.{◌≡◌, ◌+◌, ◌≤◌, map, OnOk, IfErr};
ghost use Rattle.cov_base.specs.Sets.{written};
ghost use Rattle.cov_ground.specs.Limits.{most_cells};
ghost use Rattle.trans_found.specs.Alone.{groups_ahead};
ghost use Rattle.trans_seq.specs.Cells.{cells_of_items};
ghost use Rattle.trans_found.specs.Found.{lists_of, Holds, Takes, FailsAfter, AllHaveList, in_front};
ghost use Rattle.trans_found.specs.Held.{words, AreHeld};
ghost use Rattle.trans_found.specs.Lists.{all_of, by_lengths, choices, joined, listed};

use crate::listing::{ends, run_of};
use crate::spread::{add_once, take_items};
use std::alloc::Global;
use trans_found::ExpandFault;
use trans_found::found::Found;
use trans_found::held::Known;
use trans_seq::Item;

/// Choices of lengths that are gone through one by one.
const FEW_CHOICES: u32 = 4096;

/// How many choices of lengths the items have, those of one set that stand one after the other being taken together; the
/// greatest `u32` where there are more.
fn count_choices(items: &[Item]) -> u32
    requires lists { AllHaveList items.now }
    requires short { cells_of_items items.now ≤ most_cells }
{
    match items {
        [] => 1,
        [item, rest @ ..] => {
            let (least, most) = ends(item.repeat);
            let (low, high, behind) = run_of(&item.set, least, most, rest);
            (high - low)
                .saturating_add(1)
                .saturating_mul(count_choices(behind))
        }
    }
}

/// Whether the items have few choices of lengths.
pub(crate) fn has_few_choices(items: &[Item]) -> bool
    requires lists { AllHaveList items.now }
    requires short { cells_of_items items.now ≤ most_cells }
{
    count_choices(items) <= FEW_CHOICES
}

/// Takes the lists of the items.
pub(crate) fn take_each(
    alloc: Global,
    items: &[Item],
    known: &mut Known,
    found: &mut Found,
) -> Result<(), ExpandFault>
    requires lists { AllHaveList items.now }
    requires short { cells_of_items items.now ≤ most_cells }
    requires holds { Holds found.old }
    requires held { AreHeld known.old (lists_of found.old) }
    ensures ok { OnOk result (Takes found.old found.new (listed items.now)) }
    ensures held { OnOk result (AreHeld known.new (lists_of found.new)) }
    ensures err { IfErr result (FailsAfter (lists_of found.old) (listed items.now)) }
{
    let mut front = Vec::new(alloc);
    take_choices(alloc, items, &mut front, known, found)?;
    Ok(())
}

/// Takes the lists that begin with one number of each set of the front and go on with a list of the items.
#[cycle(take_choices)]
fn take_choices(
    alloc: Global,
    items: &[Item],
    front: &mut Vec<Item>,
    known: &mut Known,
    found: &mut Found,
) -> Result<(), ExpandFault>
    requires lists { AllHaveList items.now }
    requires short { cells_of_items items.now ≤ most_cells }
    requires holds { Holds found.old }
    requires held { AreHeld known.old (lists_of found.old) }
    ensures front { OnOk result (front.new.items ≡ front.old.items) }
    ensures ok { OnOk result (Takes found.old found.new
        (all_of (groups_ahead front.old.items (by_lengths items.now)))) }
    ensures held { OnOk result (AreHeld known.new (lists_of found.new)) }
    ensures err { IfErr result (FailsAfter (lists_of found.old)
        (all_of (groups_ahead front.old.items (by_lengths items.now)))) }
{
    match items {
        [] => take_front(alloc, front.as_slice(), known, found),
        [item, rest @ ..] => {
            let (least, most) = ends(item.repeat);
            let (low, high, behind) = run_of(&item.set, least, most, rest);
            take_sizes(alloc, item, low, high, behind, front, known, found)
        }
    }
}

/// Takes the lists with one number of each set.
fn take_front(
    alloc: Global,
    front: &[Item],
    known: &mut Known,
    found: &mut Found,
) -> Result<(), ExpandFault>
    requires holds { Holds found.old }
    requires held { AreHeld known.old (lists_of found.old) }
    ensures ok { OnOk result (Takes found.old found.new (words front.now)) }
    ensures held { OnOk result (AreHeld known.new (lists_of found.new)) }
    ensures err { IfErr result (FailsAfter (lists_of found.old) (words front.now)) }
{
    let mut first = Vec::new(alloc);
    take_items(alloc, front, &mut first, known, found)?;
    Ok(())
}

/// Takes the lists that begin with one number of each set of the front, go on with `low` to `high` numbers of the item's,
/// and end with a list of those behind.
#[cycle(take_choices)]
fn take_sizes(
    alloc: Global,
    item: &Item,
    low: u32,
    high: u32,
    behind: &[Item],
    front: &mut Vec<Item>,
    known: &mut Known,
    found: &mut Found,
) -> Result<(), ExpandFault>
    requires order { low ≤ high }
    requires most { high ≤ most_cells }
    requires lists { AllHaveList behind.now }
    requires short { cells_of_items behind.now ≤ most_cells }
    requires holds { Holds found.old }
    requires held { AreHeld known.old (lists_of found.old) }
    ensures front { OnOk result (front.new.items ≡ front.old.items) }
    ensures ok { OnOk result (Takes found.old found.new
        (all_of (groups_ahead front.old.items (in_front item.now.set low high (by_lengths behind.now))))) }
    ensures held { OnOk result (AreHeld known.new (lists_of found.new)) }
    ensures err { IfErr result (FailsAfter (lists_of found.old)
        (all_of (groups_ahead front.old.items (in_front item.now.set low high (by_lengths behind.now))))) }
{
    for k in 0..high + 1 - low {
        take_size(alloc, item, low + k, behind, front, known, found)?;
    }
    Ok(())
}

/// Takes the lists that begin with one number of each set of the front, go on with so many numbers of the item's, and end
/// with a list of those behind.
#[cycle(take_choices)]
fn take_size(
    alloc: Global,
    item: &Item,
    size: u32,
    behind: &[Item],
    front: &mut Vec<Item>,
    known: &mut Known,
    found: &mut Found,
) -> Result<(), ExpandFault>
    requires lists { AllHaveList behind.now }
    requires short { cells_of_items behind.now ≤ most_cells }
    requires holds { Holds found.old }
    requires held { AreHeld known.old (lists_of found.old) }
    ensures front { OnOk result (front.new.items ≡ front.old.items) }
    ensures ok { OnOk result (Takes found.old found.new (all_of (groups_ahead front.old.items
        (map (λ group. joined (choices (written item.now.set) size) group) (by_lengths behind.now))))) }
    ensures held { OnOk result (AreHeld known.new (lists_of found.new)) }
    ensures err { IfErr result (FailsAfter (lists_of found.old) (all_of (groups_ahead front.old.items
        (map (λ group. joined (choices (written item.now.set) size) group) (by_lengths behind.now))))) }
{
    let before = front.len();
    add_once(alloc, item, size, front)?;
    take_choices(alloc, behind, front, known, found)?;
    front.truncate(before);
    Ok(())
}
