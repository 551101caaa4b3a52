//! Expressions (IEEE 1800-2017, clause 11).
use crate::{Boxed, List, Literal, Name};

/// An operator before one operand (IEEE 1800-2017, 11.4).
#[derive(Clone, Copy, Debug, PartialEq, Eq)]
pub enum UnOp {
    /// `+`
    Plus,
    /// `-`
    Neg,
    /// `~`
    Not,
    /// `!`
    LogNot,
    /// `&`, whether all bits are 1.
    And,
    /// `|`, whether any bit is 1.
    Or,
    /// `^`, whether an odd number of bits is 1.
    Xor,
    /// `~&`
    Nand,
    /// `~|`
    Nor,
    /// `~^` or `^~`
    Xnor,
}

/// An operator between two operands (IEEE 1800-2017, 11.4).
#[derive(Clone, Copy, Debug, PartialEq, Eq)]
pub enum BinOp {
    /// `+`
    Add,
    /// `-`
    Sub,
    /// `*`
    Mul,
    /// `/`
    Div,
    /// `%`
    Rem,
    /// `&`
    And,
    /// `|`
    Or,
    /// `^`
    Xor,
    /// `<<`
    Shl,
    /// `>>`
    Shr,
    /// `<<<`
    Sshl,
    /// `>>>`
    Sshr,
    /// `<`
    Lt,
    /// `<=`
    Le,
    /// `>`
    Gt,
    /// `>=`
    Ge,
    /// `==`
    Eq,
    /// `!=`
    Ne,
    /// `&&`
    LogAnd,
    /// `||`
    LogOr,
}

/// An expression. Each `at` is the first byte of the expression's first token in the design text, and of a `Binary` that of its operator.
/// Parentheses leave no node.
#[derive(Drop)]
pub enum Expr {
    /// An integer literal.
    Num {
        lit: Literal,
        at: u32,
    },
    /// A name.
    Name {
        name: Name,
        at: u32,
    },
    /// `name[index]`
    Bit {
        name: Name,
        index: Boxed<Expr>,
        at: u32,
    },
    /// `name[high:low]`
    Part {
        name: Name,
        high: Boxed<Expr>,
        low: Boxed<Expr>,
        at: u32,
    },
    /// `{part, part}`, of one part or more, the leftmost first.
    Concat {
        parts: List<Expr>,
        at: u32,
    },
    /// An operator before one operand.
    Unary {
        op: UnOp,
        arg: Boxed<Expr>,
        at: u32,
    },
    /// An operator between two operands.
    Binary {
        op: BinOp,
        left: Boxed<Expr>,
        right: Boxed<Expr>,
        at: u32,
    },
    /// `test ? yes : no`
    Cond {
        test: Boxed<Expr>,
        yes: Boxed<Expr>,
        no: Boxed<Expr>,
        at: u32,
    },
}
