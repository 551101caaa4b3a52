//! Trees from words in postfix order: a name; a literal as its width, `s`, `u`, `m` (without a size) or `x` (with free
//! bits) and its bits; `[p` and `:p` for a bit and bits of p; `{2` for a concatenation of two.
use cov_tree::{BinOp, Boxed, Expr, List, Literal, Name, UnOp};
use std::alloc::Global;

/// The tree of the words, each of whose places is the number of its word.
pub fn tree(alloc: Global, text: &str) -> Option<Expr> {
    let mut built = Vec::new(alloc);
    let mut at = 0u32;
    for word in text.split(' ') {
        add_word(alloc, word, at, &mut built)?;
        at = at.wrapping_add(1);
    }
    built.pop()
}

/// Puts the tree of a word in the place of those that it takes.
fn add_word(alloc: Global, word: &str, at: u32, built: &mut Vec<Expr>) -> Option<()> {
    let next = grown(alloc, word, at, built)?;
    built.push(next).ok()
}

/// The tree of one word and the trees before it.
fn grown(alloc: Global, word: &str, at: u32, built: &mut Vec<Expr>) -> Option<Expr> {
    if let Some(op) = unary(word) {
        return unary_tree(alloc, op, at, built);
    }
    if let Some(op) = binary(word) {
        return binary_tree(alloc, op, at, built);
    }
    match word.as_bytes() {
        [b'?'] => choice(alloc, at, built),
        [b'{', count] => concatenation(alloc, count.saturating_sub(b'0'), at, built),
        [b'[', name @ ..] => bit(alloc, name, at, built),
        [b':', name @ ..] => part(alloc, name, at, built),
        [b'0'..=b'9', ..] => Some(Expr::Num {
            lit: literal(word)?,
            at,
        }),
        name => name_tree(alloc, name, at),
    }
}

/// A name.
fn name_tree(alloc: Global, name: &[u8], at: u32) -> Option<Expr> {
    let name = Name::of(alloc, name).ok()?;
    Some(Expr::Name { name, at })
}

/// An operator before the last tree.
fn unary_tree(alloc: Global, op: UnOp, at: u32, built: &mut Vec<Expr>) -> Option<Expr> {
    let arg = last(alloc, built)?;
    Some(Expr::Unary { op, arg, at })
}

/// An operator between the last two trees.
fn binary_tree(alloc: Global, op: BinOp, at: u32, built: &mut Vec<Expr>) -> Option<Expr> {
    let right = last(alloc, built)?;
    let left = last(alloc, built)?;
    Some(Expr::Binary {
        op,
        left,
        right,
        at,
    })
}

/// `?:` of the last three trees.
fn choice(alloc: Global, at: u32, built: &mut Vec<Expr>) -> Option<Expr> {
    let no = last(alloc, built)?;
    let yes = last(alloc, built)?;
    let test = last(alloc, built)?;
    Some(Expr::Cond { test, yes, no, at })
}

/// A bit of a name, by the last tree.
fn bit(alloc: Global, name: &[u8], at: u32, built: &mut Vec<Expr>) -> Option<Expr> {
    let index = last(alloc, built)?;
    let name = Name::of(alloc, name).ok()?;
    Some(Expr::Bit { name, index, at })
}

/// Bits of a name, by the last two trees.
fn part(alloc: Global, name: &[u8], at: u32, built: &mut Vec<Expr>) -> Option<Expr> {
    let low = last(alloc, built)?;
    let high = last(alloc, built)?;
    let name = Name::of(alloc, name).ok()?;
    Some(Expr::Part {
        name,
        high,
        low,
        at,
    })
}

/// A concatenation of the last trees.
fn concatenation(alloc: Global, count: u8, at: u32, built: &mut Vec<Expr>) -> Option<Expr> {
    let mut parts = Vec::new(alloc);
    for _ in 0..count {
        parts.push(built.pop()?).ok()?;
    }
    parts.as_mut_slice().reverse();
    Some(Expr::Concat {
        parts: List::of(parts),
        at,
    })
}

/// The last tree, in a box.
fn last(alloc: Global, built: &mut Vec<Expr>) -> Option<Boxed<Expr>> {
    Boxed::of(alloc, built.pop()?).ok()
}

fn literal(word: &str) -> Option<Literal> {
    for kind in ['s', 'u', 'm', 'x'] {
        if let Some((width, bits)) = word.split_once(kind) {
            let (width, bits): (u8, u64) = (width.parse().ok()?, bits.parse().ok()?);
            let free = if kind == 'x' { bits } else { 0 };
            let signed = kind == 's' || kind == 'm';
            return Some(Literal {
                width,
                sized: kind != 'm',
                signed,
                bits,
                free,
            });
        }
    }
    None
}

fn unary(word: &str) -> Option<UnOp> {
    Some(match word {
        "plus" => UnOp::Plus,
        "neg" => UnOp::Neg,
        "~" => UnOp::Not,
        "!" => UnOp::LogNot,
        "r&" => UnOp::And,
        "r|" => UnOp::Or,
        "r^" => UnOp::Xor,
        "r~&" => UnOp::Nand,
        "r~|" => UnOp::Nor,
        "r~^" => UnOp::Xnor,
        _ => return None,
    })
}

fn binary(word: &str) -> Option<BinOp> {
    Some(match word {
        "+" => BinOp::Add,
        "-" => BinOp::Sub,
        "*" => BinOp::Mul,
        "/" => BinOp::Div,
        "%" => BinOp::Rem,
        "&" => BinOp::And,
        "|" => BinOp::Or,
        "^" => BinOp::Xor,
        "<<" => BinOp::Shl,
        ">>" => BinOp::Shr,
        "<<<" => BinOp::Sshl,
        ">>>" => BinOp::Sshr,
        "<" => BinOp::Lt,
        "<=" => BinOp::Le,
        ">" => BinOp::Gt,
        ">=" => BinOp::Ge,
        "==" => BinOp::Eq,
        "!=" => BinOp::Ne,
        "&&" => BinOp::LogAnd,
        "||" => BinOp::LogOr,
        _ => return None,
    })
}
