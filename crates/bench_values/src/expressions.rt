//! Values of expressions: `expressions ROWS` evaluates three guards on so many rows of signals, and behind each guard that
//! is true a point. It prints a checksum of the values, and how many evaluations there were.

use crate::answers::Found;
use crate::random::after;
use crate::words::number_at;
use bit_width::Width;
use const_eval::{Bound, Meaning, Scope, Typ, bind, eval};
use cov_base::Int;
use cov_tree::{BinOp, Boxed, Expr, List, Literal, Name, UnOp};
use std::alloc::Global;

/// The values so far, and how many evaluations they took.
#[derive(Clone, Copy)]
struct Total {
    checksum: u64,
    evaluations: u64,
}

/// A step that makes an expression: it takes those that were made last, and leaves one.
#[derive(Clone, Copy)]
enum Step {
    /// A literal of this width, signed or not, with these bits.
    Num(u8, bool, u64),
    /// The name of one letter.
    Name(u8),
    /// Bits of the name of one letter, from the highest to the lowest.
    Part(u8, u64, u64),
    Unary(UnOp),
    Binary(BinOp),
    /// `test ? yes : no`
    Choice,
    /// One expression before another, in braces.
    Concat,
}

/// `((a + b * 8'd3) ^ (c >> 8'd5)) < 32'd2000000000 && (d - b == c || a != 8'd7)`,
/// `b[3:0] != 4'd9 && !(d > e)`, `c[31:28] >= 4'd3 ? a > 8'd10 : b != e`
static GUARDS: [&[Step]; 3] = [
    &[
        Step::Name(b'a'),
        Step::Name(b'b'),
        Step::Num(8, false, 3),
        Step::Binary(BinOp::Mul),
        Step::Binary(BinOp::Add),
        Step::Name(b'c'),
        Step::Num(8, false, 5),
        Step::Binary(BinOp::Shr),
        Step::Binary(BinOp::Xor),
        Step::Num(32, false, 2_000_000_000),
        Step::Binary(BinOp::Lt),
        Step::Name(b'd'),
        Step::Name(b'b'),
        Step::Binary(BinOp::Sub),
        Step::Name(b'c'),
        Step::Binary(BinOp::Eq),
        Step::Name(b'a'),
        Step::Num(8, false, 7),
        Step::Binary(BinOp::Ne),
        Step::Binary(BinOp::LogOr),
        Step::Binary(BinOp::LogAnd),
    ],
    &[
        Step::Part(b'b', 3, 0),
        Step::Num(4, false, 9),
        Step::Binary(BinOp::Ne),
        Step::Name(b'd'),
        Step::Name(b'e'),
        Step::Binary(BinOp::Gt),
        Step::Unary(UnOp::LogNot),
        Step::Binary(BinOp::LogAnd),
    ],
    &[
        Step::Part(b'c', 31, 28),
        Step::Num(4, false, 3),
        Step::Binary(BinOp::Ge),
        Step::Name(b'a'),
        Step::Num(8, false, 10),
        Step::Binary(BinOp::Gt),
        Step::Name(b'b'),
        Step::Name(b'e'),
        Step::Binary(BinOp::Ne),
        Step::Choice,
    ],
];

/// `(d >>> 8'd2) + ((a & b) | c)`, `d < 12'sd0 ? -e : e - d`, `{a[7:4], c[11:0]} + (b << a[2:0])`
static POINTS: [&[Step]; 3] = [
    &[
        Step::Name(b'd'),
        Step::Num(8, false, 2),
        Step::Binary(BinOp::Sshr),
        Step::Name(b'a'),
        Step::Name(b'b'),
        Step::Binary(BinOp::And),
        Step::Name(b'c'),
        Step::Binary(BinOp::Or),
        Step::Binary(BinOp::Add),
    ],
    &[
        Step::Name(b'd'),
        Step::Num(12, true, 0),
        Step::Binary(BinOp::Lt),
        Step::Name(b'e'),
        Step::Unary(UnOp::Neg),
        Step::Name(b'e'),
        Step::Name(b'd'),
        Step::Binary(BinOp::Sub),
        Step::Choice,
    ],
    &[
        Step::Part(b'a', 7, 4),
        Step::Part(b'c', 11, 0),
        Step::Concat,
        Step::Name(b'b'),
        Step::Part(b'a', 2, 0),
        Step::Binary(BinOp::Shl),
        Step::Binary(BinOp::Add),
    ],
];

/// A literal.
fn number(width: u8, signed: bool, bits: u64) -> Expr {
    let lit = Literal {
        width,
        sized: true,
        signed,
        bits,
        free: 0,
    };
    Expr::Num { lit, at: 0 }
}

/// Keeps an expression.
fn keep(made: &mut Vec<Expr>, expr: Expr) {
    let _ = made.push(expr).ok();
}

/// The name of one letter, or one of none where memory ran out.
fn name_of(alloc: Global, letter: u8) -> Name {
    Name::of(alloc, &[letter]).unwrap_or(Name::empty())
}

/// The bits of a place, in a box.
fn place(alloc: Global, bits: u64) -> Option<Boxed<Expr>> {
    Boxed::of(alloc, number(32, true, bits)).ok()
}

/// The expression that was made last, in a box.
fn last(alloc: Global, made: &mut Vec<Expr>) -> Option<Boxed<Expr>> {
    match made.pop() {
        Some(expr) => Boxed::of(alloc, expr).ok(),
        None => None,
    }
}

fn push_name(alloc: Global, made: &mut Vec<Expr>, letter: u8) {
    let name = name_of(alloc, letter);
    keep(made, Expr::Name { name, at: 0 });
}

fn push_part(alloc: Global, made: &mut Vec<Expr>, letter: u8, high: u64, low: u64) {
    if let Some(high) = place(alloc, high)
        && let Some(low) = place(alloc, low)
    {
        let part = Expr::Part {
            name: name_of(alloc, letter),
            high,
            low,
            at: 0,
        };
        keep(made, part);
    }
}

fn push_unary(alloc: Global, made: &mut Vec<Expr>, op: UnOp) {
    if let Some(arg) = last(alloc, made) {
        keep(made, Expr::Unary { op, arg, at: 0 });
    }
}

fn push_binary(alloc: Global, made: &mut Vec<Expr>, op: BinOp) {
    if let Some(right) = last(alloc, made)
        && let Some(left) = last(alloc, made)
    {
        let both = Expr::Binary {
            op,
            left,
            right,
            at: 0,
        };
        keep(made, both);
    }
}

fn push_choice(alloc: Global, made: &mut Vec<Expr>) {
    if let Some(no) = last(alloc, made)
        && let Some(yes) = last(alloc, made)
        && let Some(test) = last(alloc, made)
    {
        let choice = Expr::Cond {
            test,
            yes,
            no,
            at: 0,
        };
        keep(made, choice);
    }
}

/// Moves the expression that was made last.
fn move_last(made: &mut Vec<Expr>, parts: &mut Vec<Expr>) {
    if let Some(part) = made.pop() {
        keep(parts, part);
    }
}

fn push_concat(alloc: Global, made: &mut Vec<Expr>) {
    let mut parts = Vec::new(alloc);
    move_last(made, &mut parts);
    move_last(made, &mut parts);
    parts.reverse();
    if parts.len() == 2 {
        let parts = List::of(parts);
        keep(made, Expr::Concat { parts, at: 0 });
    }
}

/// Takes a step. Where it can't be taken, fewer expressions are left, and in the end none.
fn take_step(alloc: Global, made: &mut Vec<Expr>, step: Step) {
    match step {
        Step::Num(width, signed, bits) => keep(made, number(width, signed, bits)),
        Step::Name(letter) => push_name(alloc, made, letter),
        Step::Part(letter, high, low) => push_part(alloc, made, letter, high, low),
        Step::Unary(op) => push_unary(alloc, made, op),
        Step::Binary(op) => push_binary(alloc, made, op),
        Step::Choice => push_choice(alloc, made),
        Step::Concat => push_concat(alloc, made),
    }
}

/// The expression of some steps, alone.
fn made_by(alloc: Global, steps: &[Step]) -> Vec<Expr> {
    let mut made = Vec::new(alloc);
    for step in steps {
        take_step(alloc, &mut made, *step);
    }
    made
}

/// Adds an expression with its names bound, if there is one alone.
fn add_bound(alloc: Global, scope: &Scope, all: &mut Vec<Bound>, made: &[Expr]) {
    if let [expr] = made
        && let Ok(bound) = bind(alloc, expr, scope)
    {
        let _ = all.push(bound);
    }
}

/// The expressions of all rows, with their names bound.
fn bounds(alloc: Global, scope: &Scope, rows: &[&[Step]]) -> Vec<Bound> {
    let mut all = Vec::new(alloc);
    for steps in rows {
        add_bound(alloc, scope, &mut all, &made_by(alloc, steps));
    }
    all
}

/// A signal's letter, its width and whether it is signed.
static SIGNALS: [(u8, u8, bool); 5] = [
    (b'a', 8, false),
    (b'b', 16, false),
    (b'c', 32, false),
    (b'd', 12, true),
    (b'e', 16, true),
];

fn declare(alloc: Global, scope: &mut Scope, index: u16, row: (u8, u8, bool)) {
    let (letter, width, signed) = row;
    if let Some(width) = Width::new(width) {
        let typ = Typ::of(width, signed);
        let meaning = Meaning::Signal { index, typ, low: 0 };
        let _ = scope.declare(name_of(alloc, letter), meaning);
    }
}

/// The signals.
fn scope(alloc: Global) -> Scope {
    let mut scope = Scope::new(alloc);
    let mut index = 0u16;
    for row in SIGNALS.iter() {
        declare(alloc, &mut scope, index, *row);
        index = index.wrapping_add(1);
    }
    scope
}

/// The values of the signals in the row of this word.
fn row(word: u64) -> [Option<Int>; 5] {
    [
        Int::new(i128::from(word >> 56)),
        Int::new(i128::from((word >> 40) & 0xffff)),
        Int::new(i128::from((word >> 8) & 0xffff_ffff)),
        Int::new(i128::from(word >> 52) - 2_048),
        Int::new(i128::from((word >> 24) & 0xffff) - 32_768),
    ]
}

/// Whether a guard is true.
fn holds(guard: &Bound, signals: &[Option<Int>]) -> bool {
    match eval(guard, signals, None) {
        Some(value) => value.get() != 0,
        None => false,
    }
}

/// The total with one more evaluation, of a point whose guard is true.
fn with_point(total: Total, point: &Bound, signals: &[Option<Int>]) -> Total {
    let Total {
        mut checksum,
        evaluations,
    } = total;
    if let Some(value) = eval(point, signals, None) {
        let low = value.get().cast_unsigned() & 0xffff_ffff_ffff_ffff;
        checksum = checksum.wrapping_mul(31).wrapping_add(low as u64);
    }
    Total {
        checksum,
        evaluations: evaluations.wrapping_add(1),
    }
}

/// The total with the values of one row.
fn counted(total: Total, guards: &[Bound], points: &[Bound], signals: &[Option<Int>]) -> Total {
    let mut total = total;
    for (guard, point) in guards.iter().zip(points) {
        total.evaluations = total.evaluations.wrapping_add(1);
        if holds(guard, signals) {
            total = with_point(total, point, signals);
        }
    }
    total
}

/// The total of so many rows.
fn summed(guards: &[Bound], points: &[Bound], rows: u32) -> Total {
    let mut total = Total {
        checksum: 0,
        evaluations: 0,
    };
    let mut word = 1u64;
    for _ in 0..rows {
        word = after(word);
        total = counted(total, guards, points, &row(word));
    }
    total
}

/// What so many rows give, from the expressions on.
fn evaluated(alloc: Global, rows: u32) -> Option<Found> {
    let scope = scope(alloc);
    let guards = bounds(alloc, &scope, &GUARDS);
    let points = bounds(alloc, &scope, &POINTS);
    if guards.len() == 3 && points.len() == 3 {
        let total = summed(&guards, &points, rows);
        Some(Found::Two(total.checksum, total.evaluations))
    } else {
        None
    }
}

/// Does the measurement of these words; None where they aren't right, something is refused, or memory ran out.
pub fn measured(alloc: Global, words: &[String]) -> Option<Found> {
    match number_at(words, 0) {
        Some(rows) => evaluated(alloc, rows),
        None => None,
    }
}
