//! The numbers of a coverpoint.
ghost use Rattle.std.specs.Prelude.{◌≡◌, IfOk, slice_get, map};
ghost use Rattle.elab_values.specs.Domains.{domain_of_typ, by_value, value_or, constant_range, domain_of_sorted as domain_sorted, domain_of_constants as domain_meant};

use const_eval::Typ;
use cov_base::{Int, Memory, ValueSet, highest_of, lowest_of};
use cov_tree::{List, Name};
use std::alloc::Global;

/// A constant of an enumeration (IEEE 1800-2017, 6.19).
#[derive(Drop)]
pub struct Constant {
    pub name: Name,
    pub value: Int,
}

/// The numbers of a coverpoint, with the least and the greatest of them: all numbers of its expression's type, or the
/// constants of an enumeration, where the expression is the name of something enumerated.
#[derive(Drop)]
pub struct Domain {
    /// The type of the expression.
    pub typ: Typ,
    /// The least number.
    pub low: Int,
    /// The greatest number.
    pub high: Int,
    /// All numbers.
    pub numbers: ValueSet,
    /// The constants in order of their values, where the point is enumerated.
    pub constants: Option<List<Constant>>,
}

/// The numbers of a type: those of a coverpoint whose expression isn't the name of something enumerated.
pub fn domain_of(alloc: Global, typ: Typ) -> Result<Domain, Memory>
    ensures { IfOk result (λ domain. domain ≡ domain_of_typ typ) }
{
    let low = lowest_of(typ.width(), typ.is_signed());
    let high = highest_of(typ.width(), typ.is_signed());
    let numbers = ValueSet::from_ranges(alloc, &[(low, high)])?;
    Ok(Domain {
        typ,
        low,
        high,
        numbers,
        constants: None,
    })
}

/// The value of the constant at a place, and 0 where there is none.
fn value_at(constants: &[Constant], place: usize) -> Int
    ensures { result ≡ value_or (slice_get constants.now place) }
{
    match constants.get(place) {
        Some(constant) => constant.value,
        None => Int::of(0),
    }
}

/// The same constant once more.
fn copy(alloc: Global, constant: &Constant) -> Result<Constant, Memory>
    ensures { IfOk result (λ copy. copy ≡ constant.now) }
{
    Ok(Constant {
        name: constant.name.share()?,
        value: constant.value,
    })
}

fn copies(alloc: Global, constants: &[Constant]) -> Result<Vec<Constant>, Memory>
    ensures { IfOk result (λ copies. copies.items ≡ constants.now) }
{
    let mut copies = Vec::new(alloc);
    for constant in constants {
        copies.push(copy(alloc, constant)?)?;
    }
    Ok(copies)
}

/// The constants in order of their values.
fn sorted(alloc: Global, constants: &[Constant]) -> Result<Vec<Constant>, Memory>
    ensures { IfOk result (λ sorted. sorted.items ≡ by_value constants.now) }
{
    let mut copies = copies(alloc, constants)?;
    copies.sort_by_key(|constant: &Constant| constant.value)?;
    Ok(copies)
}

fn ranges(alloc: Global, constants: &[Constant]) -> Result<Vec<(Int, Int)>, Memory>
    ensures { IfOk result (λ ranges. ranges.items ≡ map constant_range constants.now) }
{
    let mut ranges = Vec::new(alloc);
    for constant in constants {
        ranges.push((constant.value, constant.value))?;
    }
    Ok(ranges)
}

/// The numbers of constants that stand in order of their values.
fn domain_of_sorted(alloc: Global, typ: Typ, constants: List<Constant>) -> Result<Domain, Memory>
    ensures { IfOk result (λ domain. domain ≡ domain_sorted typ constants) }
{
    let ranges = ranges(alloc, constants.as_slice())?;
    let numbers = ValueSet::from_ranges(alloc, ranges.as_slice())?;
    let last = constants.as_slice().len().saturating_sub(1);
    Ok(Domain {
        typ,
        low: value_at(constants.as_slice(), 0),
        high: value_at(constants.as_slice(), last),
        numbers,
        constants: Some(constants),
    })
}

/// The numbers of a point whose expression is the name of something enumerated: the constants of the enumeration, in any
/// order, of which no two have the same value, with the type of its base.
#[tactic(auto, unfolding(crate::specs::Domains::domain_of_constants))]
pub fn domain_of_constants(
    alloc: Global,
    typ: Typ,
    constants: &[Constant],
) -> Result<Domain, Memory>
    ensures { IfOk result (λ domain. domain ≡ domain_meant typ constants.now) }
{
    let constants = sorted(alloc, constants)?;
    domain_of_sorted(alloc, typ, List::of(constants))
}
