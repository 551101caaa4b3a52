//! How operators are spelled (IEEE 1800-2017, 11.3).
ghost use Rattle.std.specs.Prelude.{◌≡◌};
ghost use Rattle.expr_text.specs.Operators.{unary_text as unary_text_of, binary_text as binary_text_of};

use cov_tree::{BinOp, UnOp};

/// An operator before one operand.
pub(crate) fn unary_text(op: UnOp) -> &'static str
    ensures { result.now ≡ unary_text_of op }
{
    match op {
        UnOp::Plus => "+",
        UnOp::Neg => "-",
        UnOp::Not => "~",
        UnOp::LogNot => "!",
        UnOp::And => "&",
        UnOp::Or => "|",
        UnOp::Xor => "^",
        UnOp::Nand => "~&",
        UnOp::Nor => "~|",
        UnOp::Xnor => "~^",
    }
}

/// An operator between two operands.
pub(crate) fn binary_text(op: BinOp) -> &'static str
    ensures { result.now ≡ binary_text_of op }
{
    match op {
        BinOp::Add => "+",
        BinOp::Sub => "-",
        BinOp::Mul => "*",
        BinOp::Div => "/",
        BinOp::Rem => "%",
        BinOp::And => "&",
        BinOp::Or => "|",
        BinOp::Xor => "^",
        BinOp::Shl => "<<",
        BinOp::Shr => ">>",
        BinOp::Sshl => "<<<",
        BinOp::Sshr => ">>>",
        BinOp::Lt => "<",
        BinOp::Le => "<=",
        BinOp::Gt => ">",
        BinOp::Ge => ">=",
        BinOp::Eq => "==",
        BinOp::Ne => "!=",
        BinOp::LogAnd => "&&",
        BinOp::LogOr => "||",
    }
}
