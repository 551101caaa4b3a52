//! What is kept of the lists that were found: of those that begin with the same numbers, as many as one set for each place
//! has.
ghost use Rattle.std.specs.Prelude.{◌≡◌, ◌∷◌, ◌++◌, ℤ, List, [], IfOk, OnOk};
ghost use Rattle.cov_base.specs.Sets.{written};
ghost use Rattle.trans_found.specs.Held.{begun_by, HasAll, AreHeld, Keeps};

use cov_base::{Int, Memory, ValueSet};
use std::alloc::Global;
use trans_found::alone::count_ahead;
use trans_found::held::{
    Held, Known, are_parts, has_few, has_mark_by_sets, held_behind, is_full, joined_set,
    mark_by_sets, mark_by_size, remember,
};
use trans_seq::{Item, Repeat};

/// Numbers that are looked up for each number that was gone through, to learn whether more is found than was known.
const TRIES: u128 = 4;

/// The numbers of the set that aren't in the other.
fn numbers_without(alloc: Global, set: &ValueSet, other: &ValueSet) -> Result<ValueSet, Memory> {
    if other.intervals().is_empty() {
        return set.copy(alloc);
    }
    set.minus(alloc, other)
}

/// The items, each with the numbers of the other one at its place too.
fn joined(alloc: Global, items: &[Item], others: &[Item]) -> Result<Vec<Item>, Memory> {
    let mut wide = Vec::with_capacity(alloc, items.len())?;
    for (item, other) in items.iter().zip(others.iter()) {
        let set = joined_set(alloc, &item.set, &other.set)?;
        wide.push(Item {
            set,
            repeat: Repeat::Once,
        })?;
    }
    Ok(wide)
}

/// The numbers, where each list with one of each wide set is one of the rest too; else none.
fn numbers_for(
    alloc: Global,
    numbers: &ValueSet,
    rest: &[Item],
    wide: &[Item],
) -> Result<ValueSet, Memory>
    ensures { IfOk result
        (λ some. (first : List ℤ) (lists : List (List ℤ))
        → HasAll lists (begun_by first (written numbers.now) rest.now)
        → HasAll lists (begun_by first (written some) wide.now)) }
{
    if are_parts(alloc, wide, rest)? {
        return numbers.copy(alloc);
    }
    Ok(ValueSet::new(alloc))
}

/// Adds the number, where all lists are known to be found that begin with the first ones, of which it is the last.
fn push_full(
    alloc: Global,
    first: &mut Vec<Int>,
    last: Int,
    items: &[Item],
    known: &Known,
    full: &mut Vec<(Int, Int)>,
) -> Result<(), Memory>
    ensures first { OnOk result (first.new.items ≡ first.old.items) }
    ensures full { OnOk result
        ((lists : List (List ℤ)) (before : List ℤ) → AreHeld known.now lists → first.old.items ≡ before ++ last ∷ []
        → HasAll lists (begun_by before (written full.old.items) items.now)
        → HasAll lists (begun_by before (written full.new.items) items.now)) }
{
    if !is_full(alloc, first, items, known)? {
        return Ok(());
    }
    full.push((last, last))?;
    Ok(())
}

/// Adds the number at place k of the set, where all lists are known to be found that have it behind the first numbers.
fn add_full(
    alloc: Global,
    first: &mut Vec<Int>,
    set: &ValueSet,
    k: u128,
    items: &[Item],
    known: &Known,
    full: &mut Vec<(Int, Int)>,
) -> Result<(), Memory>
    ensures first { OnOk result (first.new.items ≡ first.old.items) }
    ensures full { OnOk result
        ((lists : List (List ℤ)) → AreHeld known.now lists
        → HasAll lists (begun_by first.old.items (written full.old.items) items.now)
        → HasAll lists (begun_by first.old.items (written full.new.items) items.now)) }
{
    let Some(value) = set.nth(k) else {
        return Ok(());
    };
    first.push(value)?;
    push_full(alloc, first, value, items, known, full)?;
    first.pop();
    Ok(())
}

/// The numbers of the set behind which all lists are known to be found.
fn full_numbers(
    alloc: Global,
    first: &mut Vec<Int>,
    set: &ValueSet,
    items: &[Item],
    known: &Known,
) -> Result<ValueSet, Memory>
    ensures first { OnOk result (first.new.items ≡ first.old.items) }
    ensures full { IfOk result
        (λ full. (lists : List (List ℤ)) → AreHeld known.now lists
        → HasAll lists (begun_by first.old.items (written full) items.now)) }
{
    let mut full = Vec::new(alloc);
    for k in 0..set.count() {
        add_full(alloc, first, set, k, items, known, &mut full)?;
    }
    ValueSet::from_ranges(alloc, full.as_slice())
}

/// Lists that are found: with one number of either set, and one of each set of the rest.
#[derive(Drop)]
struct Wider {
    sure: ValueSet,
    full: ValueSet,
    rest: Vec<Item>,
}

/// What is known to be found of the lists with one set for each place that has what was taken and what was held there.
fn widened(
    alloc: Global,
    first: &mut Vec<Int>,
    set: &ValueSet,
    left: u128,
    rest: &[Item],
    held: &Held,
    known: &Known,
) -> Result<Wider, Memory>
    ensures first { OnOk result (first.new.items ≡ first.old.items) }
    ensures sure { IfOk result
        (λ wider. (lists : List (List ℤ))
        → HasAll lists (begun_by first.old.items (written set.now) rest.now)
        → HasAll lists (begun_by first.old.items (written held.now.numbers) held.now.rest)
        → HasAll lists (begun_by first.old.items (written wider.sure) wider.rest.items)) }
    ensures full { IfOk result
        (λ wider. (lists : List (List ℤ)) → AreHeld known.now lists
        → HasAll lists (begun_by first.old.items (written wider.full) wider.rest.items)) }
{
    let wide = joined(alloc, rest, held.rest.as_slice())?;
    let ours = numbers_for(alloc, set, rest, wide.as_slice())?;
    let theirs = numbers_for(alloc, &held.numbers, held.rest.as_slice(), wide.as_slice())?;
    let sure = joined_set(alloc, &ours, &theirs)?;
    let all = joined_set(alloc, set, &held.numbers)?;
    let others = numbers_without(alloc, &all, &sure)?;
    let few = if others.count() <= left.saturating_mul(TRIES) {
        others
    } else {
        ValueSet::new(alloc)
    };
    let full = full_numbers(alloc, first, &few, wide.as_slice(), known)?;
    Ok(Wider {
        sure,
        full,
        rest: wide,
    })
}

/// Keeps that the lists with a number of the set, or of those before, and one of each set of the rest are found.
fn keep_taken(
    alloc: Global,
    first: &[Int],
    set: &ValueSet,
    before: &ValueSet,
    rest: &[Item],
    known: &mut Known,
) -> Result<(), Memory>
    ensures { OnOk result
        (Keeps known.old known.new first.now (written set.now) (written before.now) rest.now) }
{
    let mark = mark_by_size(first, set, rest);
    remember(alloc, mark, first, set, before, rest, known)
}

/// How many lists have a number of the set, or of those before, and one of each set of the rest.
fn count_taken(set: &ValueSet, before: &ValueSet, rest: &[Item]) -> u128 {
    count_ahead(rest, set.count().saturating_add(before.count()))
}

/// The same where they are more than are kept so far.
fn keep_more(
    alloc: Global,
    first: &[Int],
    set: &ValueSet,
    before: &ValueSet,
    rest: &[Item],
    kept: u128,
    known: &mut Known,
) -> Result<(), Memory>
    ensures { OnOk result
        (Keeps known.old known.new first.now (written set.now) (written before.now) rest.now) }
{
    if count_taken(set, before, rest) <= kept {
        return Ok(());
    }
    keep_taken(alloc, first, set, before, rest, known)
}

/// The same, or that the wider ones are found where they are no fewer; and notes whether they are more.
fn keep_wider(
    alloc: Global,
    first: &[Int],
    set: &ValueSet,
    before: &ValueSet,
    rest: &[Item],
    kept: u128,
    wider: &Wider,
    known: &mut Known,
) -> Result<(), Memory>
    ensures { OnOk result
        ((lists : List (List ℤ)) → AreHeld known.old lists
        → HasAll lists (begun_by first.now (written set.now) rest.now)
        → HasAll lists (begun_by first.now (written before.now) rest.now)
        → HasAll lists (begun_by first.now (written wider.now.sure) wider.now.rest.items)
        → HasAll lists (begun_by first.now (written wider.now.full) wider.now.rest.items)
        → AreHeld known.new lists) }
{
    let most = kept.max(count_taken(set, before, rest));
    let numbers = wider.sure.count().saturating_add(wider.full.count());
    let many = count_ahead(wider.rest.as_slice(), numbers);
    known.tries.note(many > most);
    if many < most {
        return keep_more(alloc, first, set, before, rest, kept, known);
    }
    let mark = mark_by_size(first, set, rest);
    let wide = wider.rest.as_slice();
    remember(alloc, mark, first, &wider.sure, &wider.full, wide, known)
}

/// Keeps the same by the sets of the rest, where lists are kept by these.
pub(crate) fn keep_by_sets(
    alloc: Global,
    first: &[Int],
    set: &ValueSet,
    before: &ValueSet,
    rest: &[Item],
    known: &mut Known,
) -> Result<(), Memory>
    ensures { OnOk result
        (Keeps known.old known.new first.now (written set.now) (written before.now) rest.now) }
{
    if !has_mark_by_sets(set, rest) {
        return Ok(());
    }
    let mark = mark_by_sets(first, rest);
    remember(alloc, mark, first, set, before, rest, known)
}

/// Whether it is tried to learn of more lists with numbers in front of the rest.
fn is_tried(rest: &[Item], known: &mut Known) -> bool
    ensures { known.new.kept ≡ known.old.kept }
{
    !rest.is_empty() && known.tries.is_due()
}

/// Keeps that the lists with a number of the set, or of those before, and one of each set of the rest are found, where
/// that is more than what is kept of lists that begin so; `left` numbers of the set were gone through, and maybe gave new
/// lists alone. A set of a few numbers with sets behind it isn't kept where all its lists were new.
pub(crate) fn keep(
    alloc: Global,
    first: &mut Vec<Int>,
    set: &ValueSet,
    before: &ValueSet,
    left: u128,
    rest: &[Item],
    is_new: bool,
    known: &mut Known,
) -> Result<(), Memory>
    ensures first { OnOk result (first.new.items ≡ first.old.items) }
    ensures held { OnOk result
        (Keeps known.old known.new first.old.items (written set.now) (written before.now) rest.now) }
{
    if is_new && has_few(set) && !rest.is_empty() {
        return Ok(());
    }
    let is_tried = is_tried(rest, known);
    let Some(held) = held_behind(first.as_slice(), set, rest, known) else {
        return keep_taken(alloc, first.as_slice(), set, before, rest, known);
    };
    let kept = count_ahead(held.rest.as_slice(), held.numbers.count());
    if !is_tried {
        return keep_more(alloc, first.as_slice(), set, before, rest, kept, known);
    }
    let wider = widened(alloc, first, set, left, rest, held, known)?;
    keep_wider(
        alloc,
        first.as_slice(),
        set,
        before,
        rest,
        kept,
        &wider,
        known,
    )
}
