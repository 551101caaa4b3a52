//! Expressions by their outermost form.
ghost use Rattle.std.specs.Prelude.{◌≡◌};
ghost use Rattle.const_eval.specs.Forms.{term_of_form};
ghost use Rattle.const_eval.specs.Nodes.{term_of, IsTyped};

use crate::bound::{Node, Typed};
use crate::{Bound, Meaning, Typ};
use bit_width::Width;
use cov_tree::{BinOp, UnOp};
use std::marker::Model;

/// The outermost form of an expression, with its parts.
#[derive(Drop)]
pub enum Form<E> {
    /// A number by its bits.
    Number {
        /// Its bits.
        bits: u64,
        /// Its type.
        typ: Typ,
    },
    /// The value of a name.
    Name {
        /// What it stands for.
        meaning: Meaning,
        /// Its place in the text.
        at: u32,
    },
    /// Bits of the value of a name.
    Part {
        /// What the name stands for.
        meaning: Meaning,
        /// The first of the bits; the lowest of the value is bit 0.
        skip: u8,
        /// How many bits.
        width: Width,
        /// The place of the name in the text.
        at: u32,
    },
    /// A concatenation of one part.
    Alone(E),
    /// A concatenation with one part more at the right.
    Joined(E, E),
    /// An operator before one operand.
    Unary(UnOp, E),
    /// An operator between two operands.
    Binary(BinOp, E, E),
    /// `?:`
    Choice(E, E, E),
}

/// An expression or a part of one, to be looked at. Contracts see it as that expression.
#[derive(Drop)]
pub struct Look<'a> {
    typed: &'a Typed,
}

impl<'a> Model for Look<'a> {
    ghost use Rattle.const_eval.specs.Terms.{Term};
    ghost use Rattle.const_eval.specs.Nodes.{term_of, IsTyped};
    ghost use Rattle.const_eval.specs.Code.{term_code};

    ghost Value = { Term };

    ghost coded = { term_code };

    ghost view = { λ look. term_of look.typed.now };

    ghost invariant = { λ look. IsTyped look.typed.now };
}

impl Bound {
    /// The expression, to be looked at.
    pub fn look(&self) -> Look<'_>
        ensures { result ≡ self.now }
    {
        Look {
            typed: self.typed.get(),
        }
    }
}

impl<'a> Look<'a> {
    /// A part of an expression.
    fn of(typed: &'a Typed) -> Look<'a>
        requires { IsTyped typed.now }
        ensures { result ≡ term_of typed.now }
    {
        Look { typed }
    }

    /// Its outermost form. It takes no memory.
    pub fn form(self) -> Form<Look<'a>>
        ensures { term_of_form result ≡ self.entry }
    {
        let Look { typed } = self;
        match &typed.node {
            Node::Number { bits } => Form::Number {
                bits: *bits,
                typ: typed.typ,
            },
            Node::Name { meaning, at } => Form::Name {
                meaning: *meaning,
                at: *at,
            },
            Node::Part { meaning, skip, at } => Form::Part {
                meaning: *meaning,
                skip: *skip,
                width: typed.typ.width(),
                at: *at,
            },
            Node::Alone(inner) => Form::Alone(Look::of(inner)),
            Node::Joined(front, last) => Form::Joined(Look::of(front), Look::of(last)),
            Node::Unary(op, inner) => Form::Unary(*op, Look::of(inner)),
            Node::Binary(op, left, right) => Form::Binary(*op, Look::of(left), Look::of(right)),
            Node::Cond(test, first, second) => {
                Form::Choice(Look::of(test), Look::of(first), Look::of(second))
            }
        }
    }
}
