//! Expressions whose names are replaced by what they stand for.
ghost use Rattle.std.specs.Prelude.{◌≡◌, ◌+◌, ◌≤◌, IfOk};
ghost use Rattle.cov_ground.specs.Limits.{most_bits};
ghost use Rattle.const_eval.specs.Terms as term;
ghost use Rattle.const_eval.specs.Terms.{typ_in};
ghost use Rattle.const_eval.specs.Nodes.{IsWithin, IsTyped, term_of};

use crate::typs::{common, either_typ, typ_of_binary};
use crate::{Meaning, Typ};
use bit_width::Width;
use cov_base::Memory;
use cov_tree::{BinOp, Boxed, UnOp};
use std::alloc::{AllocError, Global};
use std::marker::Model;

/// An expression with its type.
#[cycle(typed)]
#[derive(Drop)]
pub(crate) struct Typed {
    pub(crate) typ: Typ,
    pub(crate) node: Node,
}

/// An expression by its outermost form.
#[cycle(typed)]
#[derive(Drop)]
pub(crate) enum Node {
    Number { bits: u64 },
    Name { meaning: Meaning, at: u32 },
    Part { meaning: Meaning, skip: u8, at: u32 },
    Alone(Box<Typed>),
    Joined(Box<Typed>, Box<Typed>),
    Unary(UnOp, Box<Typed>),
    Binary(BinOp, Box<Typed>, Box<Typed>),
    Cond(Box<Typed>, Box<Typed>, Box<Typed>),
}

/// An expression whose names are bound: it is seen as the expression with each name replaced by its meaning. It takes one
/// word where it stands, since most bins have none. Its drop is one function, in place of the cases of a node wherever an
/// owner of it may let it go.
pub struct Bound {
    pub(crate) typed: Boxed<Typed>,
}

impl Drop for Bound {
    fn drop(self) {
        let Bound { typed } = self;
        drop(typed);
    }
}

impl Model for Bound {
    ghost use Rattle.const_eval.specs.Terms.{Term};
    ghost use Rattle.const_eval.specs.Nodes.{term_of, IsTyped};
    ghost use Rattle.const_eval.specs.Code.{term_code};

    ghost Value = { Term };

    ghost coded = { term_code };

    ghost view = { λ bound. term_of bound.typed };

    ghost invariant = { λ bound. IsTyped bound.typed };
}

impl Bound {
    /// The same expression once more.
    pub fn copy(&self, alloc: Global) -> Result<Bound, Memory>
        ensures { IfOk result (λ copy. copy ≡ self.now) }
    {
        let typed = self.typed.get().copy(alloc)?;
        Bound::of(alloc, typed.typ, typed.node)
    }

    /// The expression of this form, with its type.
    fn of(alloc: Global, typ: Typ, node: Node) -> Result<Bound, Memory>
        requires { IsTyped (record { typ = typ; node = node }) }
        ensures { IfOk result (λ bound. bound ≡ term_of (record { typ = typ; node = node })) }
    {
        let typed = Boxed::of(alloc, Typed { typ, node })?;
        Ok(Bound { typed })
    }

    /// A number of so many bits.
    pub(crate) fn number(alloc: Global, bits: u64, typ: Typ) -> Result<Bound, Memory>
        ensures { IfOk result (λ bound. bound ≡ term.number bits typ) }
    {
        Bound::of(alloc, typ, Node::Number { bits })
    }

    /// The value of a name.
    pub(crate) fn name(alloc: Global, meaning: Meaning, at: u32) -> Result<Bound, Memory>
        ensures { IfOk result (λ bound. bound ≡ term.name meaning at) }
    {
        Bound::of(alloc, meaning.typ(), Node::Name { meaning, at })
    }

    /// Bits of the value of a name.
    pub(crate) fn part(
        alloc: Global,
        meaning: Meaning,
        skip: u8,
        width: Width,
        at: u32,
    ) -> Result<Bound, Memory>
        requires { IsWithin (typ_in meaning) skip width }
        ensures { IfOk result (λ bound. bound ≡ term.part meaning skip width at) }
    {
        let typ = Typ::of(width, false);
        Bound::of(alloc, typ, Node::Part { meaning, skip, at })
    }

    /// The expression itself.
    fn into_typed(self) -> Typed
        ensures typed { IsTyped result }
        ensures term { term_of result ≡ self }
    {
        let Bound { typed } = self;
        typed.into_inner()
    }

    /// A concatenation of one part.
    pub(crate) fn alone(alloc: Global, part: Bound) -> Result<Bound, Memory>
        ensures value { IfOk result (λ bound. bound ≡ term.alone part) }
        ensures width { IfOk result (λ bound. (term.typ_of bound).width ≤ most_bits) }
    {
        let typed = part.into_typed();
        let typ = Typ::of(typed.own_typ().width(), false);
        let inner = Box::new(alloc, typed)?;
        Bound::of(alloc, typ, Node::Alone(inner))
    }

    /// A concatenation with one part more.
    pub(crate) fn joined(alloc: Global, front: Bound, part: Bound) -> Result<Bound, Memory>
        requires { (term.typ_of front).width + (term.typ_of part).width ≤ most_bits }
        ensures { IfOk result (λ bound. bound ≡ term.joined front part) }
    {
        let left = front.into_typed();
        let right = part.into_typed();
        let width = left.own_typ().width().get() + right.own_typ().width().get();
        let typ = Typ::of(Width::of(width), false);
        let left = Box::new(alloc, left)?;
        let right = Box::new(alloc, right)?;
        Bound::of(alloc, typ, Node::Joined(left, right))
    }

    /// An operator before one operand.
    pub(crate) fn unary(alloc: Global, op: UnOp, arg: Bound) -> Result<Bound, Memory>
        ensures { IfOk result (λ bound. bound ≡ term.unary op arg) }
    {
        let typed = arg.into_typed();
        let typ = either_typ(op, typed.own_typ(), Typ::truth());
        let inner = Box::new(alloc, typed)?;
        Bound::of(alloc, typ, Node::Unary(op, inner))
    }

    /// An operator between two operands.
    pub(crate) fn binary(
        alloc: Global,
        op: BinOp,
        left: Bound,
        right: Bound,
    ) -> Result<Bound, Memory>
        ensures { IfOk result (λ bound. bound ≡ term.binary op left right) }
    {
        let left = left.into_typed();
        let right = right.into_typed();
        let typ = typ_of_binary(op, left.own_typ(), right.own_typ());
        let left = Box::new(alloc, left)?;
        let right = Box::new(alloc, right)?;
        Bound::of(alloc, typ, Node::Binary(op, left, right))
    }

    /// `?:`
    pub(crate) fn choice(
        alloc: Global,
        test: Bound,
        first: Bound,
        second: Bound,
    ) -> Result<Bound, Memory>
        ensures { IfOk result (λ bound. bound ≡ term.choice test first second) }
    {
        let test = test.into_typed();
        let first = first.into_typed();
        let second = second.into_typed();
        let typ = common(first.own_typ(), second.own_typ());
        let test = Box::new(alloc, test)?;
        let first = Box::new(alloc, first)?;
        let second = Box::new(alloc, second)?;
        Bound::of(alloc, typ, Node::Cond(test, first, second))
    }
}

impl Typed {
    /// The same expression once more.
    fn copy(&self, alloc: Global) -> Result<Typed, AllocError>
        requires { IsTyped self.now }
        ensures typ { IfOk result (λ copy. copy.typ ≡ self.now.typ) }
        ensures term { IfOk result (λ copy. term_of copy ≡ term_of self.now) }
        ensures sound { IfOk result (λ copy. IsTyped copy) }
    {
        let typ = self.typ;
        match &self.node {
            Node::Number { bits } => Ok(Typed {
                typ,
                node: Node::Number { bits: *bits },
            }),
            Node::Name { meaning, at } => Ok(Typed {
                typ,
                node: Node::Name {
                    meaning: *meaning,
                    at: *at,
                },
            }),
            Node::Part { meaning, skip, at } => Ok(Typed {
                typ,
                node: Node::Part {
                    meaning: *meaning,
                    skip: *skip,
                    at: *at,
                },
            }),
            Node::Alone(inner) => {
                let inner = Box::new(alloc, inner.copy(alloc)?)?;
                Ok(Typed {
                    typ,
                    node: Node::Alone(inner),
                })
            }
            Node::Joined(front, last) => {
                let front = Box::new(alloc, front.copy(alloc)?)?;
                let last = Box::new(alloc, last.copy(alloc)?)?;
                Ok(Typed {
                    typ,
                    node: Node::Joined(front, last),
                })
            }
            Node::Unary(op, inner) => {
                let inner = Box::new(alloc, inner.copy(alloc)?)?;
                Ok(Typed {
                    typ,
                    node: Node::Unary(*op, inner),
                })
            }
            Node::Binary(op, left, right) => {
                let left = Box::new(alloc, left.copy(alloc)?)?;
                let right = Box::new(alloc, right.copy(alloc)?)?;
                Ok(Typed {
                    typ,
                    node: Node::Binary(*op, left, right),
                })
            }
            Node::Cond(test, first, second) => {
                let test = Box::new(alloc, test.copy(alloc)?)?;
                let first = Box::new(alloc, first.copy(alloc)?)?;
                let second = Box::new(alloc, second.copy(alloc)?)?;
                Ok(Typed {
                    typ,
                    node: Node::Cond(test, first, second),
                })
            }
        }
    }
}
