//! Widths and signs (IEEE 1800-2017, 11.6.1 and 11.8.1).
ghost use Rattle.std.specs.Prelude.{◌≡◌};
ghost use Rattle.bit_width.specs.Widths.{HasWidth};
ghost use Rattle.const_eval.specs.Typs.{common as common_of, one_bit as one_bit_typ, kind_of, typ_by, left_by, right_by, unary_by};

use bit_width::Width;
use cov_tree::{BinOp, UnOp};
use std::marker::Model;

/// The type of an expression: how many bits it has, and whether they are read in two's complement.
#[derive(Clone, Copy, PartialEq, Eq)]
pub struct Typ {
    width: u8,
    signed: bool,
}

impl Model for Typ {
    ghost use Rattle.bit_width.specs.Widths.{HasWidth};
    ghost use Rattle.const_eval.specs.Typs.{Typ as TypMeant};

    ghost Value = { TypMeant };

    ghost view = { λ typ. record { width = typ.width; signed = typ.signed } };

    ghost invariant = { λ typ. HasWidth typ.width };

    ghost inverse = { λ typ. record { width = typ.width; signed = typ.signed } };
}

impl Typ {
    /// The type of so many bits.
    #[inline(always)]
    pub fn of(width: Width, signed: bool) -> Typ
        ensures { result ≡ record { width = width; signed = signed } }
    {
        Typ {
            width: width.get(),
            signed,
        }
    }

    /// How many bits it has.
    #[inline(always)]
    pub fn width(self) -> Width
        ensures value { result ≡ self.width }
        ensures range { HasWidth self.width }
    {
        Width::of(self.width)
    }

    /// Whether its bits are read in two's complement.
    #[inline(always)]
    pub fn is_signed(self) -> bool
        ensures { result ≡ self.signed }
    {
        self.signed
    }

    /// The type of a truth value.
    #[inline(always)]
    pub(crate) fn truth() -> Typ
        ensures { result ≡ one_bit_typ }
    {
        Typ::of(Width::of(1), false)
    }
}

/// The greater width, and a sign where both have one.
#[inline(always)]
pub(crate) fn common(left: Typ, right: Typ) -> Typ
    ensures { result ≡ common_of left right }
{
    let width = if left.width().get() < right.width().get() {
        right.width()
    } else {
        left.width()
    };
    Typ::of(width, left.is_signed() && right.is_signed())
}

/// The type of an operation on operands of these types.
pub(crate) fn typ_of_binary(op: BinOp, left: Typ, right: Typ) -> Typ
    ensures { result ≡ typ_by (kind_of op) left right }
{
    match op {
        BinOp::Add | BinOp::Sub | BinOp::Mul | BinOp::Div => common(left, right),
        BinOp::Rem | BinOp::And | BinOp::Or | BinOp::Xor => common(left, right),
        BinOp::Shl | BinOp::Shr | BinOp::Sshl | BinOp::Sshr => left,
        BinOp::Lt | BinOp::Le | BinOp::Gt | BinOp::Ge => Typ::truth(),
        BinOp::Eq | BinOp::Ne | BinOp::LogAnd | BinOp::LogOr => Typ::truth(),
    }
}

/// The types that are handed down to the two operands, where the whole has the type `whole`.
#[inline(always)]
pub(crate) fn operand_typs(op: BinOp, whole: Typ, left: Typ, right: Typ) -> (Typ, Typ)
    ensures first { result.0 ≡ left_by (kind_of op) whole left right }
    ensures second { result.1 ≡ right_by (kind_of op) whole left right }
{
    match op {
        BinOp::Add | BinOp::Sub | BinOp::Mul | BinOp::Div => (whole, whole),
        BinOp::Rem | BinOp::And | BinOp::Or | BinOp::Xor => (whole, whole),
        BinOp::Shl | BinOp::Shr | BinOp::Sshl | BinOp::Sshr => (whole, right),
        BinOp::LogAnd | BinOp::LogOr => (left, right),
        BinOp::Lt | BinOp::Le | BinOp::Gt | BinOp::Ge | BinOp::Eq | BinOp::Ne => {
            let both = common(left, right);
            (both, both)
        }
    }
}

/// The type of the whole, where an operator before one operand takes it, or else the operand's own.
#[inline(always)]
pub(crate) fn either_typ(op: UnOp, whole: Typ, own: Typ) -> Typ
    ensures { result ≡ unary_by op whole own }
{
    match op {
        UnOp::Plus | UnOp::Neg | UnOp::Not => whole,
        UnOp::LogNot | UnOp::And | UnOp::Or | UnOp::Xor => own,
        UnOp::Nand | UnOp::Nor | UnOp::Xnor => own,
    }
}
