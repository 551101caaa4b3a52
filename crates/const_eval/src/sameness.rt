//! Whether two bound expressions are the same.
ghost use Rattle.std.specs.Prelude.{◌≡◌, ◌↔◌, IsTrue};
ghost use Rattle.const_eval.specs.Nodes.{term_of};

use crate::Bound;
use crate::bound::{Node, Typed};

impl Bound {
    /// Whether the other is the same expression, at the same places of a text. It takes time linear in the expression.
    pub fn is_same(&self, other: &Bound) -> bool
        ensures { IsTrue result ↔ (self.now ≡ other.now) }
    {
        is_same(self.typed.get(), other.typed.get())
    }
}

fn is_same(first: &Typed, second: &Typed) -> bool
    ensures { IsTrue result ↔ (term_of first.now ≡ term_of second.now) }
{
    match &first.node {
        Node::Number { bits } => match &second.node {
            Node::Number { bits: other } => *bits == *other && first.typ == second.typ,
            _ => false,
        },
        Node::Name { meaning, at } => match &second.node {
            Node::Name {
                meaning: other,
                at: place,
            } => *meaning == *other && *at == *place,
            _ => false,
        },
        Node::Part { meaning, skip, at } => match &second.node {
            Node::Part {
                meaning: other,
                skip: first_bit,
                at: place,
            } => {
                first.typ.width() == second.typ.width()
                    && *meaning == *other
                    && *skip == *first_bit
                    && *at == *place
            }
            _ => false,
        },
        Node::Alone(inner) => match &second.node {
            Node::Alone(other) => is_same(inner, other),
            _ => false,
        },
        Node::Joined(front, last) => match &second.node {
            Node::Joined(other, end) => is_same(front, other) && is_same(last, end),
            _ => false,
        },
        Node::Unary(op, inner) => match &second.node {
            Node::Unary(sign, other) => *op == *sign && is_same(inner, other),
            _ => false,
        },
        Node::Binary(op, left, right) => match &second.node {
            Node::Binary(sign, other, end) => {
                *op == *sign && is_same(left, other) && is_same(right, end)
            }
            _ => false,
        },
        Node::Cond(test, yes, no) => match &second.node {
            Node::Cond(question, then, other) => {
                is_same(test, question) && is_same(yes, then) && is_same(no, other)
            }
            _ => false,
        },
    }
}
