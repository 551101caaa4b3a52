//! Which lists are known to be found, by the numbers that they begin with, and by how many sets or which ones follow.
ghost use Rattle.std.specs.Prelude.{◌≡◌, [], ◌∷◌, ◌++◌, ◌||◌, ℤ, List, IsTrue, IfOk, IfSome, OnOk};
ghost use Rattle.cov_base.specs.Sets.{written, is_in};
ghost use Rattle.trans_found.specs.Held.{words, begun, begun_by, HasAll, IsPart, AreHeld, Keeps};

use crate::alone::only_number;
use crate::found::list_of;
use crate::marks::{with_items, with_numbers, with_only_numbers};
use crate::tries::Tries;
use cov_base::{Int, Memory, ValueSet};
use cov_tree::List;
use std::alloc::Global;
use std::collections::HashMap;
use trans_seq::{Item, copied_items};

/// Of the lists that begin with the first numbers, some that are found: those that go on with one of the numbers and one of
/// each set of the rest.
#[derive(Drop)]
pub struct Held {
    pub first: List<Int>,
    pub numbers: ValueSet,
    pub rest: List<Item>,
}

/// By a mark of what they have in common, lists that are found; and how often it is tried to learn of more.
#[derive(Drop)]
pub struct Known {
    pub kept: HashMap<i128, Held>,
    pub tries: Tries,
}

/// Nothing. It takes no memory.
pub fn none_known(alloc: Global) -> Known
    ensures { (lists : List (List ℤ)) → AreHeld result lists }
{
    Known {
        kept: HashMap::new(alloc),
        tries: Tries::none(),
    }
}

/// To go through so few numbers once more costs less than to keep much of them.
const FEW_NUMBERS: u128 = 3;

/// Whether the set has a few numbers at most.
pub fn has_few(set: &ValueSet) -> bool {
    set.count() <= FEW_NUMBERS
}

/// The mark of lists that begin with these numbers and have as many behind the next one as there are sets; where the next
/// one is of many, they also have the same number wherever a set has one alone.
pub fn mark_by_size(first: &[Int], set: &ValueSet, rest: &[Item]) -> i128 {
    let size = (rest.len() as i128).wrapping_add(1);
    if has_few(set) {
        return with_numbers(size, first);
    }
    with_numbers(with_only_numbers(size, rest), first)
}

/// The mark of lists that begin with these numbers and end with one of each of these sets.
pub fn mark_by_sets(first: &[Int], rest: &[Item]) -> i128 {
    with_numbers(with_items(-1, rest), first)
}

/// Whether lists with numbers of the set are kept by the sets that follow too.
pub fn has_mark_by_sets(set: &ValueSet, rest: &[Item]) -> bool {
    !rest.is_empty() && !has_few(set)
}

fn are_same(first: &[Int], second: &[Int]) -> bool
    ensures { IsTrue result → first.now ≡ second.now }
{
    first == second
}

/// What is kept at the mark, if its lists begin with the first numbers.
fn kept_at<'a>(first: &[Int], mark: i128, known: &'a Known) -> Option<&'a Held>
    ensures { IfSome result (λ held. (lists : List (List ℤ)) → AreHeld known.now lists
        → HasAll lists (begun_by first.now (written held.now.numbers) held.now.rest)) }
{
    match known.kept.get(&mark) {
        Some(held) => {
            if are_same(held.first.as_slice(), first) {
                Some(held)
            } else {
                None
            }
        }
        None => None,
    }
}

/// Whether a set has no number.
#[tactic(auto, using(crate::proofs::HeldLemmas::no_ranges))]
pub fn is_none(set: &ValueSet) -> bool
    ensures { IsTrue result → set.now ≡ [] }
{
    set.intervals().is_empty()
}

/// The interval of a set that has one alone.
fn only_range(set: &ValueSet) -> Option<(Int, Int)>
    ensures { IfSome result (λ range. set.now ≡ range ∷ []) }
{
    match set.intervals() {
        [range] => Some(*range),
        _ => None,
    }
}

/// Whether each number of the first range is in the second one.
fn is_within(range: (Int, Int), other: (Int, Int)) -> bool
    ensures { IsTrue result → IsPart (written (range ∷ [])) (written (other ∷ [])) }
{
    if range.0.get() < other.0.get() {
        return false;
    }
    range.1.get() <= other.1.get()
}

/// Whether each number of the set is in the other. It takes no memory where that is so, nor where each is one interval.
pub fn is_part(alloc: Global, set: &ValueSet, other: &ValueSet) -> Result<bool, Memory>
    ensures { IfOk result
        (λ part. IsTrue part → IsPart (written set.now) (written other.now)) }
{
    if is_none(other) {
        return Ok(is_none(set));
    }
    if let Some(range) = only_range(set) {
        if let Some(wide) = only_range(other) {
            return Ok(is_within(range, wide));
        }
    }
    let left = set.minus(alloc, other)?;
    Ok(left.intervals().is_empty())
}

/// The numbers of both sets. Where one of them has the other it is copied.
pub fn joined_set(alloc: Global, set: &ValueSet, other: &ValueSet) -> Result<ValueSet, Memory>
    ensures { IfOk result
        (λ both. (v : ℤ) → is_in (written both) v ≡
        (is_in (written set.now) v || is_in (written other.now) v)) }
{
    if is_part(alloc, set, other)? {
        return other.copy(alloc);
    }
    if is_part(alloc, other, set)? {
        return set.copy(alloc);
    }
    set.union(alloc, other)
}

/// Whether the items are as many as the others, and each set is in the one at its place.
pub fn are_parts(alloc: Global, items: &[Item], others: &[Item]) -> Result<bool, Memory>
    ensures { IfOk result (λ parts. IsTrue parts → HasAll (words others.now) (words items.now)) }
{
    match items {
        [] => Ok(others.is_empty()),
        [item, rest @ ..] => match others {
            [] => Ok(false),
            [other, more @ ..] => {
                if !is_part(alloc, &item.set, &other.set)? {
                    return Ok(false);
                }
                are_parts(alloc, rest, more)
            }
        },
    }
}

/// Numbers that are kept at the mark, of which it is known that all lists are found that begin with the first numbers, go on
/// with one of them, and end with one of each set of the rest.
fn numbers_at(
    alloc: Global,
    mark: i128,
    first: &[Int],
    rest: &[Item],
    known: &Known,
) -> Result<ValueSet, Memory>
    ensures { IfOk result
        (λ numbers. (lists : List (List ℤ)) → AreHeld known.now lists
        → HasAll lists (begun_by first.now (written numbers) rest.now)) }
{
    if let Some(held) = kept_at(first, mark, known) {
        if are_parts(alloc, rest, held.rest.as_slice())? {
            return held.numbers.copy(alloc);
        }
    }
    Ok(ValueSet::new(alloc))
}

/// Numbers of which it is known that all lists are found that begin with the first numbers, go on with one of them, and
/// end with one of each set of the rest. The set is the one whose numbers are asked for.
pub fn known_numbers(
    alloc: Global,
    first: &[Int],
    set: &ValueSet,
    rest: &[Item],
    known: &Known,
) -> Result<ValueSet, Memory>
    ensures { IfOk result
        (λ numbers. (lists : List (List ℤ)) → AreHeld known.now lists
        → HasAll lists (begun_by first.now (written numbers) rest.now)) }
{
    let numbers = numbers_at(alloc, mark_by_size(first, set, rest), first, rest, known)?;
    if !has_mark_by_sets(set, rest) {
        return Ok(numbers);
    }
    let others = numbers_at(alloc, mark_by_sets(first, rest), first, rest, known)?;
    joined_set(alloc, &numbers, &others)
}

/// Whether what is kept at the mark has all lists that begin with the first numbers, go on with one of the set, and end
/// with one of each set of the rest.
fn has_all_at(
    alloc: Global,
    mark: i128,
    first: &[Int],
    set: &ValueSet,
    rest: &[Item],
    known: &Known,
) -> Result<bool, Memory>
    ensures { IfOk result
        (λ full. IsTrue full → (lists : List (List ℤ)) → AreHeld known.now lists
        → HasAll lists (begun_by first.now (written set.now) rest.now)) }
{
    let Some(held) = kept_at(first, mark, known) else {
        return Ok(false);
    };
    if !is_part(alloc, set, &held.numbers)? {
        return Ok(false);
    }
    are_parts(alloc, rest, held.rest.as_slice())
}

/// Whether all lists are known to be found that begin with the first numbers, go on with one of the set, and end with one
/// of each set of the rest.
pub fn has_all(
    alloc: Global,
    first: &[Int],
    set: &ValueSet,
    rest: &[Item],
    known: &Known,
) -> Result<bool, Memory>
    ensures { IfOk result
        (λ full. IsTrue full → (lists : List (List ℤ)) → AreHeld known.now lists
        → HasAll lists (begun_by first.now (written set.now) rest.now)) }
{
    if has_all_at(
        alloc,
        mark_by_size(first, set, rest),
        first,
        set,
        rest,
        known,
    )? {
        return Ok(true);
    }
    if !has_mark_by_sets(set, rest) {
        return Ok(false);
    }
    has_all_at(alloc, mark_by_sets(first, rest), first, set, rest, known)
}

/// The number of a set that has one alone, where sets follow.
fn number_before(set: &ValueSet, rest: &[Item]) -> Option<Int>
    ensures { IfSome result (λ number. written set.now ≡ number ∷ []) }
{
    if rest.is_empty() {
        None
    } else {
        only_number(set)
    }
}

/// Whether all lists are known to be found that begin with the first numbers and go on with one of each item's set. A set
/// of one number with sets behind it is passed over, since nothing is kept before it.
#[cycle(is_full)]
pub fn is_full(
    alloc: Global,
    first: &mut Vec<Int>,
    items: &[Item],
    known: &Known,
) -> Result<bool, Memory>
    ensures first { OnOk result (first.new.items ≡ first.old.items) }
    ensures full { IfOk result
        (λ full. IsTrue full → (lists : List (List ℤ)) → AreHeld known.now lists
        → HasAll lists (begun first.old.items items.now)) }
{
    match items {
        [] => Ok(false),
        [item, rest @ ..] => match number_before(&item.set, rest) {
            Some(number) => is_full_behind(alloc, first, number, rest, known),
            None => has_all(alloc, first.as_slice(), &item.set, rest, known),
        },
    }
}

/// The same with one more number behind the first ones.
#[cycle(is_full)]
fn is_full_behind(
    alloc: Global,
    first: &mut Vec<Int>,
    number: Int,
    items: &[Item],
    known: &Known,
) -> Result<bool, Memory>
    ensures first { OnOk result (first.new.items ≡ first.old.items) }
    ensures full { IfOk result
        (λ full. IsTrue full → (lists : List (List ℤ)) → AreHeld known.now lists
        → HasAll lists (begun (first.old.items ++ number ∷ []) items.now)) }
{
    first.push(number)?;
    let full = is_full(alloc, first, items, known)?;
    first.pop();
    Ok(full)
}

/// What is kept of the lists that begin with the first numbers and go on with numbers of sets like these.
pub fn held_behind<'a>(
    first: &[Int],
    set: &ValueSet,
    rest: &[Item],
    known: &'a Known,
) -> Option<&'a Held>
    ensures { IfSome result (λ held. (lists : List (List ℤ)) → AreHeld known.now lists
        → HasAll lists (begun_by first.now (written held.now.numbers) held.now.rest)) }
{
    kept_at(first, mark_by_size(first, set, rest), known)
}

/// Keeps at the mark that the lists with these numbers are found, and those with the others.
pub fn remember(
    alloc: Global,
    mark: i128,
    first: &[Int],
    numbers: &ValueSet,
    others: &ValueSet,
    rest: &[Item],
    known: &mut Known,
) -> Result<(), Memory>
    ensures { OnOk result
        (Keeps known.old known.new first.now (written numbers.now) (written others.now) rest.now) }
{
    let held = Held {
        first: list_of(alloc, first, &[])?,
        numbers: joined_set(alloc, numbers, others)?,
        rest: List::of(copied_items(alloc, rest)?),
    };
    known.kept.insert(mark, held)?;
    Ok(())
}
