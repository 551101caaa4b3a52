//! Binding of names in expressions.
ghost use Rattle.cov_base.specs.Sets.{IsInt};
ghost use Rattle.std.specs.Prelude.{◌≡◌, ◌<◌, ◌≤ℤ◌, ◌<ℤ◌, ◌+ℤ◌, ◌-ℤ◌, pos, unsigned_abs, IfOk, Option, Some, None, map};
ghost use Rattle.std.specs.List.{list_any};
ghost use Rattle.cov_ground.specs.Limits.{most_bits};
ghost use Rattle.const_eval.specs.Scopes.{names_of, names_with};
ghost use Rattle.const_eval.specs.Terms.{Term};
ghost use Rattle.const_eval.specs.Fronts.{IsFront, GivesFront};
ghost use Rattle.const_eval.specs.Binding.{Gives, literal, found as found_of, constant_of, index_number, is_outside as tests_outside, selected, with_part, parts_behind, any_unsized, concatenated, concatenation, seen, bound_of, place_of, unsized_of};

use crate::{BindFault, Bound, Meaning, Scope, Typ, eval, first_signal, typ};
use bit_width::Width;
use cov_base::{Int, Memory};
use cov_ground::limits::MOST_BITS;
use cov_tree::{Expr, Literal, Name};
use std::alloc::Global;

/// The expression with each name replaced by what it stands for, or its first fault: of a select that of its name, then
/// of its indexes from left to right, each of which is bound, looked at for signals and computed before the next, then
/// BadSelect; of a concatenation that of its parts, then TooWide, then BadConcat.
pub fn bind(alloc: Global, expr: &Expr, scope: &Scope) -> Result<Bound, BindFault>
    ensures { Gives result (bound_of (names_of scope.now) expr.now) }
{
    let item = scope.item();
    bind_within(alloc, expr, scope, &item)
}

/// The same where `item` is a name too, a number of this type, as in a `with` (IEEE 1800-2017, 19.5.1.1).
pub fn bind_item(alloc: Global, expr: &Expr, scope: &Scope, typ: Typ) -> Result<Bound, BindFault>
    ensures { Gives result (bound_of (names_with (Some typ) scope.now) expr.now) }
{
    let item = Some(typ);
    bind_within(alloc, expr, scope, &item)
}

/// The same where `item` has this type, or is no name of its own.
#[cycle(expressions)]
fn bind_within(
    alloc: Global,
    expr: &Expr,
    scope: &Scope,
    item: &Option<Typ>,
) -> Result<Bound, BindFault>
    ensures { Gives result (bound_of (names_with item.now scope.now) expr.now) }
{
    match expr {
        Expr::Num { lit, at } => bind_literal(alloc, lit, *at),
        Expr::Name { name, at } => {
            let meaning = find(scope, item, name, *at)?;
            Ok(Bound::name(alloc, meaning, *at)?)
        }
        Expr::Bit { name, index, at } => {
            let meaning = find(scope, item, name, *at)?;
            let place = number_of_index(alloc, index.get(), scope, item)?;
            select(alloc, meaning, place, place, *at)
        }
        Expr::Part {
            name,
            high,
            low,
            at,
        } => {
            let meaning = find(scope, item, name, *at)?;
            let last = number_of_index(alloc, high.get(), scope, item)?;
            let first = number_of_index(alloc, low.get(), scope, item)?;
            select(alloc, meaning, last, first, *at)
        }
        Expr::Concat { parts, at } => bind_concat(alloc, parts.as_slice(), scope, item, *at),
        Expr::Unary { op, arg, .. } => {
            let inner = bind_within(alloc, arg.get(), scope, item)?;
            Ok(Bound::unary(alloc, *op, inner)?)
        }
        Expr::Binary {
            op,
            left,
            right,
            ..
        } => {
            let first = bind_within(alloc, left.get(), scope, item)?;
            let second = bind_within(alloc, right.get(), scope, item)?;
            Ok(Bound::binary(alloc, *op, first, second)?)
        }
        Expr::Cond { test, yes, no, .. } => {
            let condition = bind_within(alloc, test.get(), scope, item)?;
            let first = bind_within(alloc, yes.get(), scope, item)?;
            let second = bind_within(alloc, no.get(), scope, item)?;
            Ok(Bound::choice(alloc, condition, first, second)?)
        }
    }
}

/// Where an expression begins.
pub fn place(expr: &Expr) -> u32
    ensures { result ≡ place_of expr.now }
{
    match expr {
        Expr::Num { at, .. } => *at,
        Expr::Name { at, .. } => *at,
        Expr::Bit { at, .. } => *at,
        Expr::Part { at, .. } => *at,
        Expr::Concat { at, .. } => *at,
        Expr::Unary { at, .. } => *at,
        Expr::Binary { at, .. } => *at,
        Expr::Cond { at, .. } => *at,
    }
}

/// The number of an expression that stands at `at`, where a constant is needed. The refusal is NotConstant, at the first
/// signal that it names, or at `at` where its value is unknown. It takes no memory.
pub fn constant(bound: &Bound, at: u32) -> Result<Int, BindFault>
    ensures { result ≡ constant_of bound.now at }
{
    if let Some(signal) = first_signal(bound, true) {
        return Err(BindFault::NotConstant { at: signal });
    }
    match eval(bound, &[], None) {
        Some(number) => Ok(number),
        None => Err(BindFault::NotConstant { at }),
    }
}

/// A literal without free bits.
fn bind_literal(alloc: Global, lit: &Literal, at: u32) -> Result<Bound, BindFault>
    ensures { Gives result (literal lit.now at) }
{
    let Some(width) = Width::new(lit.width) else {
        return Err(BindFault::TooWide { at });
    };
    if lit.free != 0 {
        return Err(BindFault::UnknownLiteral { at });
    }
    Ok(Bound::number(alloc, lit.bits, Typ::of(width, lit.signed))?)
}

/// What a name stands for.
fn find(scope: &Scope, item: &Option<Typ>, name: &Name, at: u32) -> Result<Meaning, BindFault>
    ensures { result ≡ found_of (names_with item.now scope.now) name.now at }
{
    match scope.meaning_with(*item, name.as_slice()) {
        None => Err(BindFault::UnknownName { at }),
        Some(meaning) => Ok(meaning),
    }
}

/// The number of an index: a constant (IEEE 1800-2017, 11.5.1).
#[cycle(expressions)]
fn number_of_index(
    alloc: Global,
    index: &Expr,
    scope: &Scope,
    item: &Option<Typ>,
) -> Result<Int, BindFault>
    ensures { Gives result (index_number (seen (names_with item.now scope.now) index.now)) }
{
    let bound = bind_within(alloc, index, scope, item)?;
    constant(&bound, place(index))
}

/// Whether an index is no place of a span of so many bits from `low` on.
fn is_outside(low: u8, width: u8, index: Int) -> bool
    ensures { result ≡ tests_outside low width index }
{
    let index = index.get();
    index < i128::from(low) || !(index < i128::from(low) + i128::from(width))
}

/// How far the second number is above the first.
fn distance(from: i128, to: i128) -> u8
    requires ordered { from ≤ℤ to }
    requires near { to <ℤ (from +ℤ pos most_bits) }
    requires range { IsInt from }
    ensures value { result ≡ unsigned_abs (to -ℤ from) }
    ensures near { result < most_bits }
{
    (to - from) as u8
}

/// Bits of the value of a name, from one place of its span to another.
fn select(alloc: Global, meaning: Meaning, high: Int, low: Int, at: u32) -> Result<Bound, BindFault>
    ensures { Gives result (selected meaning high low at) }
{
    let Some(base) = meaning.low() else {
        return Err(BindFault::BadSelect { at });
    };
    let width = meaning.typ().width().get();
    let (last, first) = (high.get(), low.get());
    if is_outside(base, width, high) || is_outside(base, width, low) || last < first {
        return Err(BindFault::BadSelect { at });
    }
    let skip = distance(i128::from(base), first);
    let count = Width::of(distance(first, last) + 1);
    Ok(Bound::part(alloc, meaning, skip, count, at)?)
}

/// The parts of a concatenation so far.
#[derive(Drop)]
enum Front {
    /// None.
    Empty,
    /// Parts of as many bits as a type may have.
    Fits(Bound),
    /// Parts of more bits, of which none is kept.
    Wide,
}

/// The front with one part more.
fn extended(alloc: Global, front: Front, part: Bound) -> Result<Front, Memory>
    ensures { (terms : Option Term) → IsFront front terms → IfOk result (λ next. IsFront next (Some (with_part terms part))) }
{
    match front {
        Front::Empty => Ok(Front::Fits(Bound::alone(alloc, part)?)),
        Front::Wide => Ok(Front::Wide),
        Front::Fits(bound) => {
            if MOST_BITS - typ(&bound).width().get() < typ(&part).width().get() {
                return Ok(Front::Wide);
            }
            Ok(Front::Fits(Bound::joined(alloc, bound, part)?))
        }
    }
}

/// The parts of a concatenation, or the first fault of one.
#[cycle(expressions)]
fn bind_parts(
    alloc: Global,
    parts: &[Expr],
    scope: &Scope,
    item: &Option<Typ>,
) -> Result<Front, BindFault>
    ensures { GivesFront result (parts_behind None (map (seen (names_with item.now scope.now)) parts.now)) }
{
    let mut front = Front::Empty;
    for part in parts {
        let bound = bind_within(alloc, part, scope, item)?;
        front = extended(alloc, front, bound)?;
    }
    Ok(front)
}

/// A concatenation: the fault of a part, or TooWide, or BadConcat.
#[cycle(expressions)]
fn bind_concat(
    alloc: Global,
    parts: &[Expr],
    scope: &Scope,
    item: &Option<Typ>,
    at: u32,
) -> Result<Bound, BindFault>
    ensures { let all = map (seen (names_with item.now scope.now)) parts.now in Gives result (concatenation (parts_behind None all) (any_unsized all) at) }
{
    let front = bind_parts(alloc, parts, scope, item)?;
    concatenate(front, has_unsized(parts), at)
}

/// Whether an expression is a literal without a size.
fn is_unsized(expr: &Expr) -> bool
    ensures { result ≡ unsized_of expr.now }
{
    match expr {
        Expr::Num { lit, .. } => !lit.sized,
        _ => false,
    }
}

/// A concatenation of its parts.
fn concatenate(front: Front, has_unsized: bool, at: u32) -> Result<Bound, BindFault>
    ensures { (terms : Option Term) → IsFront front terms → Gives result (concatenated terms has_unsized at) }
{
    match front {
        Front::Empty => Err(BindFault::TooWide { at }),
        Front::Wide => Err(BindFault::TooWide { at }),
        Front::Fits(bound) => {
            if has_unsized {
                Err(BindFault::BadConcat { at })
            } else {
                Ok(bound)
            }
        }
    }
}

/// Whether one of the expressions is a literal without a size.
fn has_unsized(parts: &[Expr]) -> bool
    ensures { result ≡ list_any unsized_of parts.now }
{
    parts.iter().any(is_unsized)
}
