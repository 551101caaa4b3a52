//! The operators of expressions (IEEE 1800-2017, 11.3.2).
ghost use Rattle.std.specs.Prelude.{◌≡◌, ◌≤◌, ◌<◌, ℕ, true, false, IfSome, IfNone};
ghost use Rattle.cov_lexer.specs.Kinds.{code, has};
ghost use Rattle.cov_grammar.specs.Rule.{In};
ghost use Rattle.cov_grammar.specs.Operators.{level_kinds, unary_of, binary_of};
ghost use Rattle.expr_parser.specs.Operating.{AllOperate, KindAt, level_of};

use cov_grammar::{Kind, Marked};
use cov_tree::{BinOp, UnOp};

/// How many levels of operators between two operands there are.
pub(crate) const LEVELS: usize = 10;

/// The operators before one operand.
pub(crate) const UNARY: [Kind; 10] = [
    Kind::PlusSign,
    Kind::Minus,
    Kind::Bang,
    Kind::Tilde,
    Kind::Ampersand,
    Kind::Bar,
    Kind::Caret,
    Kind::TildeAnd,
    Kind::TildeOr,
    Kind::TildeCaret,
];

/// The operators of a level; those of level 0 bind strongest.
pub(crate) fn operators(level: usize) -> &'static [Kind]
    ensures { result.now ≡ level_kinds level }
{
    match level {
        0 => &[Kind::Star, Kind::Slash, Kind::Percent],
        1 => &[Kind::PlusSign, Kind::Minus],
        2 => &[
            Kind::ShiftLeft,
            Kind::ShiftRight,
            Kind::SignedLeft,
            Kind::SignedRight,
        ],
        3 => &[
            Kind::Less,
            Kind::LessEqual,
            Kind::Greater,
            Kind::GreaterEqual,
        ],
        4 => &[Kind::EqualEqual, Kind::NotEqual],
        5 => &[Kind::Ampersand],
        6 => &[Kind::Caret],
        7 => &[Kind::Bar],
        8 => &[Kind::AndAnd],
        9 => &[Kind::OrOr],
        _ => &[],
    }
}

fn code(kind: Kind) -> u8
    ensures { result ≡ code kind }
{
    kind as u8
}

/// Whether it may be an operator of an expression. These stand side by side among the kinds.
fn operates(kind: Kind) -> bool
    ensures { (kinds : _) → AllOperate kinds → has kind kinds ≡ true → result ≡ true }
{
    let found = code(kind);
    code(Kind::PlusSign) <= found && found <= code(Kind::SignedRight)
}

/// The kind of the token at this place, where it may be an operator.
pub(crate) fn operator_at(tokens: &[Marked], at: usize) -> Option<Kind>
    ensures some { IfSome result (λ kind. KindAt tokens.now at kind) }
    ensures none { IfNone result ((kinds : _) → AllOperate kinds → In tokens.now at kinds → ⊥) }
{
    if at >= tokens.len() {
        return None;
    }
    let kind = tokens[at].kind;
    if !operates(kind) {
        return None;
    }
    Some(kind)
}

/// The level of an operator between two operands; none where it is no such operator.
fn level_of(kind: Kind) -> Option<usize>
    ensures { result ≡ level_of kind }
{
    match kind {
        Kind::Star => Some(0),
        Kind::Slash => Some(0),
        Kind::Percent => Some(0),
        Kind::PlusSign => Some(1),
        Kind::Minus => Some(1),
        Kind::ShiftLeft => Some(2),
        Kind::ShiftRight => Some(2),
        Kind::SignedLeft => Some(2),
        Kind::SignedRight => Some(2),
        Kind::Less => Some(3),
        Kind::LessEqual => Some(3),
        Kind::Greater => Some(3),
        Kind::GreaterEqual => Some(3),
        Kind::EqualEqual => Some(4),
        Kind::NotEqual => Some(4),
        Kind::Ampersand => Some(5),
        Kind::Caret => Some(6),
        Kind::Bar => Some(7),
        Kind::AndAnd => Some(8),
        Kind::OrOr => Some(9),
        _ => None,
    }
}

/// The first of these levels whose operators have the token at this place.
pub(crate) fn next_level(tokens: &[Marked], at: usize, start: usize, end: usize) -> Option<usize>
    ensures inside { IfSome result (λ level. start ≤ level) }
    ensures below { IfSome result (λ level. level < end) }
    ensures before { IfSome result (λ level. (l : ℕ) → start ≤ l → l < level →
        In tokens.now at (level_kinds l) → ⊥) }
    ensures none { IfNone result ((l : ℕ) → start ≤ l → l < end →
        In tokens.now at (level_kinds l) → ⊥) }
{
    let Some(kind) = operator_at(tokens, at) else {
        return None;
    };
    let Some(level) = level_of(kind) else {
        return None;
    };
    if start <= level && level < end {
        Some(level)
    } else {
        None
    }
}

pub(crate) fn unary_op(kind: Kind) -> UnOp
    ensures { result ≡ unary_of kind }
{
    match kind {
        Kind::PlusSign => UnOp::Plus,
        Kind::Minus => UnOp::Neg,
        Kind::Bang => UnOp::LogNot,
        Kind::Tilde => UnOp::Not,
        Kind::Ampersand => UnOp::And,
        Kind::Bar => UnOp::Or,
        Kind::Caret => UnOp::Xor,
        Kind::TildeAnd => UnOp::Nand,
        Kind::TildeOr => UnOp::Nor,
        _ => UnOp::Xnor,
    }
}

pub(crate) fn binary_op(kind: Kind) -> BinOp
    ensures { result ≡ binary_of kind }
{
    match kind {
        Kind::Star => BinOp::Mul,
        Kind::Slash => BinOp::Div,
        Kind::Percent => BinOp::Rem,
        Kind::PlusSign => BinOp::Add,
        Kind::Minus => BinOp::Sub,
        Kind::ShiftLeft => BinOp::Shl,
        Kind::ShiftRight => BinOp::Shr,
        Kind::SignedLeft => BinOp::Sshl,
        Kind::SignedRight => BinOp::Sshr,
        Kind::Less => BinOp::Lt,
        Kind::LessEqual => BinOp::Le,
        Kind::Greater => BinOp::Gt,
        Kind::GreaterEqual => BinOp::Ge,
        Kind::EqualEqual => BinOp::Eq,
        Kind::NotEqual => BinOp::Ne,
        Kind::Ampersand => BinOp::And,
        Kind::Caret => BinOp::Xor,
        Kind::Bar => BinOp::Or,
        Kind::AndAnd => BinOp::LogAnd,
        _ => BinOp::LogOr,
    }
}
