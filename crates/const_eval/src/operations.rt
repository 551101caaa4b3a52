//! Operations on known values (IEEE 1800-2017, 11.4).
ghost use Rattle.std.specs.Prelude.{◌≡◌, ◌≤◌, ℤ, ℕ, Option, Some, true, false};
ghost use Rattle.cov_base.specs.Sets.{IsInt};
ghost use Rattle.const_eval.specs.Typs.{Typ as Whole};
ghost use Rattle.const_eval.specs.Values.{combined, both_true as both_true_of, either_true as either_true_of, is_decided, is_false, is_true, single, given, truth as truth_of, is_zero as tests_zero};

use crate::Typ;
use crate::bits::{cut, low_bits};
use crate::shifts::{bits_shifted_right, product, shifted_left, shifted_right};
use bit_width::Width;
use cov_base::ones;
use cov_tree::{BinOp, UnOp};

/// 1 for true, 0 for false.
#[inline(always)]
pub(crate) fn truth(is_so: bool) -> i128
    ensures value { result ≡ truth_of is_so }
    ensures range { IsInt result }
{
    if is_so { 1 } else { 0 }
}

/// Whether the number is 0.
#[inline(always)]
pub(crate) fn is_zero(x: i128) -> bool
    ensures { result ≡ tests_zero x }
{
    x == 0
}

/// Answers that there is a value, and puts it there.
#[inline(always)]
pub(crate) fn put(out: &mut i128, value: i128) -> bool
    requires { IsInt value }
    ensures is { given result out.new ≡ given true value }
    ensures range { IsInt out.new }
{
    *out = value;
    true
}

/// Puts the value of `&&` on two values that may be missing into `out`, which holds the first. The first isn't 0.
#[inline(always)]
fn both_true(first: bool, second: bool, right: i128, out: &mut i128) -> bool
    requires before { IsInt out.old }
    requires undecided { is_false (given first out.old) ≡ false }
    ensures value { given result out.new ≡ both_true_of (given first out.old) (given second right) }
    ensures range { IsInt out.new }
{
    if second && is_zero(right) {
        return put(out, 0);
    }
    first && second && put(out, 1)
}

/// Puts the value of `||` on two values that may be missing into `out`, which holds the first. The first is 0, or missing.
#[inline(always)]
fn either_true(first: bool, second: bool, right: i128, out: &mut i128) -> bool
    requires before { IsInt out.old }
    requires undecided { is_true (given first out.old) ≡ false }
    ensures value { given result out.new ≡ either_true_of (given first out.old) (given second right) }
    ensures range { IsInt out.new }
{
    if second && !is_zero(right) {
        return put(out, 1);
    }
    first && second && put(out, 0)
}

/// Where the left operand of `&&` or `||`, which is in `out`, decides by itself, puts the value there and answers so
/// (IEEE 1800-2017, 11.4.7).
#[inline(always)]
pub(crate) fn decide(op: BinOp, left: bool, out: &mut i128) -> bool
    requires { IsInt out.old }
    ensures decided { result ≡ true → (whole : Whole) (amount : ℕ) (y : Option ℤ)
        → Some out.new ≡ combined op whole amount (given left out.old) y }
    ensures undecided { result ≡ false → is_decided op (given left out.new) ≡ false }
    ensures kept { result ≡ false → out.new ≡ out.old }
    ensures range { IsInt out.new }
{
    if !left {
        return false;
    }
    match op {
        BinOp::LogAnd => is_zero(*out),
        BinOp::LogOr => !is_zero(*out) && put(out, 1),
        BinOp::Add | BinOp::Sub | BinOp::Mul | BinOp::Div => false,
        BinOp::Rem | BinOp::And | BinOp::Or | BinOp::Xor => false,
        BinOp::Shl | BinOp::Shr | BinOp::Sshl | BinOp::Sshr => false,
        BinOp::Lt | BinOp::Le | BinOp::Gt | BinOp::Ge | BinOp::Eq | BinOp::Ne => false,
    }
}

/// Puts the value of an operation on two values that may be missing into `out`, which holds the first, where that doesn't
/// decide by itself. The right operand has the type `right_typ`.
#[inline(always)]
pub(crate) fn combine(
    op: BinOp,
    whole: Typ,
    right_typ: Typ,
    left: bool,
    right: bool,
    y: i128,
    out: &mut i128,
) -> bool
    requires operand { IsInt y }
    requires before { IsInt out.old }
    requires undecided { is_decided op (given left out.old) ≡ false }
    ensures value { given result out.new ≡ combined op whole right_typ.width (given left out.old) (given right y) }
    ensures range { IsInt out.new }
{
    if left && right {
        return operate(op, whole, right_typ.width(), y, out);
    }
    match op {
        BinOp::LogAnd => both_true(left, right, y, out),
        BinOp::LogOr => either_true(left, right, y, out),
        BinOp::Add | BinOp::Sub | BinOp::Mul | BinOp::Div => false,
        BinOp::Rem | BinOp::And | BinOp::Or | BinOp::Xor => false,
        BinOp::Shl | BinOp::Shr | BinOp::Sshl | BinOp::Sshr => false,
        BinOp::Lt | BinOp::Le | BinOp::Gt | BinOp::Ge | BinOp::Eq | BinOp::Ne => false,
    }
}

/// Puts the value of an operation on two known values into `out`, which holds the first, where that doesn't decide by
/// itself; the whole has the type `whole`, and the right operand of a shift has `amount` bits. Answers whether there is
/// one.
#[inline(always)]
fn operate(op: BinOp, whole: Typ, amount: Width, y: i128, out: &mut i128) -> bool
    requires right { IsInt y }
    requires before { IsInt out.old }
    requires undecided { is_decided op (Some out.old) ≡ false }
    ensures value { given result out.new ≡ combined op whole amount (Some out.old) (Some y) }
    ensures range { IsInt out.new }
{
    let x = *out;
    let width = whole.width();
    let signed = whole.is_signed();
    match op {
        BinOp::Add => put(out, cut(width, signed, x + y)),
        BinOp::Sub => put(out, cut(width, signed, x - y)),
        BinOp::Mul => put(out, product(width, signed, x, y)),
        BinOp::Div => !is_zero(y) && put(out, cut(width, signed, x / y)),
        BinOp::Rem => !is_zero(y) && put(out, cut(width, signed, x % y)),
        BinOp::And => put(
            out,
            cut(
                width,
                signed,
                i128::from(low_bits(width, x) & low_bits(width, y)),
            ),
        ),
        BinOp::Or => put(
            out,
            cut(
                width,
                signed,
                i128::from(low_bits(width, x) | low_bits(width, y)),
            ),
        ),
        BinOp::Xor => put(
            out,
            cut(
                width,
                signed,
                i128::from(low_bits(width, x) ^ low_bits(width, y)),
            ),
        ),
        BinOp::Shl => put(out, shifted_left(width, signed, x, low_bits(amount, y))),
        BinOp::Shr => put(
            out,
            cut(
                width,
                signed,
                i128::from(bits_shifted_right(low_bits(width, x), low_bits(amount, y))),
            ),
        ),
        BinOp::Sshl => put(out, shifted_left(width, signed, x, low_bits(amount, y))),
        BinOp::Sshr => put(
            out,
            cut(width, signed, shifted_right(x, low_bits(amount, y))),
        ),
        BinOp::Lt => put(out, truth(x < y)),
        BinOp::Le => put(out, truth(x <= y)),
        BinOp::Gt => put(out, truth(y < x)),
        BinOp::Ge => put(out, truth(y <= x)),
        BinOp::Eq => put(out, truth(is_zero(x - y))),
        BinOp::Ne => put(out, truth(!is_zero(x - y))),
        BinOp::LogAnd => both_true(true, true, y, out),
        BinOp::LogOr => either_true(true, true, y, out),
    }
}

/// The value of an operator before one operand, which has `own` bits.
#[inline(always)]
pub(crate) fn operate_alone(op: UnOp, whole: Typ, own: Width, x: i128) -> i128
    requires operand { IsInt x }
    ensures value { result ≡ single op whole own x }
    ensures range { IsInt result }
{
    match op {
        UnOp::Plus => x,
        UnOp::Neg => cut(whole.width(), whole.is_signed(), -x),
        UnOp::Not => cut(whole.width(), whole.is_signed(), -x - 1),
        UnOp::LogNot => truth(is_zero(x)),
        UnOp::And => truth(low_bits(own, x) == ones(own)),
        UnOp::Or => truth(low_bits(own, x) != 0),
        UnOp::Xor => truth(low_bits(own, x).count_ones() % 2 == 1),
        UnOp::Nand => truth(low_bits(own, x) != ones(own)),
        UnOp::Nor => truth(low_bits(own, x) == 0),
        UnOp::Xnor => truth(low_bits(own, x).count_ones() % 2 != 1),
    }
}
