//! Elements of range lists.
ghost use Rattle.std.specs.Prelude.{◌≡◌};
ghost use Rattle.cov_base.specs.Sets.{written};
ghost use Rattle.elab_base.specs.Gives.{Gives, Makes};
ghost use Rattle.elab_values.specs.Listed.{pattern_of as pattern_meant, element_pattern as pattern_in, wildcard_kind as kind_in, in_elements, element_number, end_of, listed_one, element, with_element, listed_in};

use crate::domain::Domain;
use bit_width::Width;
use const_eval::Scope;
use cov_base::Int;
use cov_tree::{Elem, End, Expr, List, Literal};
use elab_base::{ElabFault, ElabKind, number_in};
use std::alloc::Global;
use wildcard_bins::Pattern;

/// An element of a range list.
#[derive(Clone, Copy, PartialEq, Eq)]
pub enum Listed {
    /// The numbers from the low to the high end; none where the ends are the wrong way round.
    Range { low: Int, high: Int },
    /// The numbers that agree with a literal that has digits x, z or `?`.
    Agreeing { pattern: Pattern },
}

/// The pattern of a literal with digits x, z or `?`.
fn pattern_of(lit: &Literal) -> Option<Pattern>
    ensures { result ≡ pattern_meant lit.now }
{
    let Some(width) = Width::new(lit.width) else {
        return None;
    };
    if lit.free == 0 {
        return None;
    }
    Some(Pattern {
        width,
        signed: lit.signed,
        bits: lit.bits,
        free: lit.free,
    })
}

/// The pattern that an element stands for.
pub fn element_pattern(wildcard: bool, expr: &Expr) -> Option<Pattern>
    ensures { result ≡ pattern_in wildcard expr.now }
{
    if !wildcard {
        return None;
    }
    match expr {
        Expr::Num { lit, .. } => pattern_of(lit),
        _ => None,
    }
}

/// What a literal with digits x, z or `?` is that isn't an element by itself.
fn wildcard_kind(wildcard: bool, kind: ElabKind) -> ElabKind
    ensures { result ≡ kind_in wildcard kind }
{
    if !wildcard {
        return kind;
    }
    match kind {
        ElabKind::UnknownLiteral => ElabKind::BadWildcard,
        kind => kind,
    }
}

/// The number of an expression among the elements of a bin.
fn number(alloc: Global, scope: &Scope, wildcard: bool, expr: &Expr) -> Result<Int, ElabFault>
    ensures { Gives result (element_number scope.now wildcard expr.now) }
{
    match number_in(alloc, scope, expr) {
        Ok(number) => Ok(number),
        Err(ElabFault::Fault { kind, at }) => Err(wildcard_kind(wildcard, kind).at(at)),
        Err(ElabFault::Memory) => Err(ElabFault::Memory),
    }
}

#[tactic(auto, unfolding(crate::specs::Listed::end_of))]
fn end(
    alloc: Global,
    scope: &Scope,
    wildcard: bool,
    dollar: Int,
    end: &End,
) -> Result<Int, ElabFault>
    ensures { Gives result (end_of scope.now wildcard dollar end.now) }
{
    match end {
        End::Value(expr) => number(alloc, scope, wildcard, expr),
        End::Dollar { .. } => Ok(dollar),
    }
}

#[tactic(auto, unfolding(crate::specs::Listed::listed_one))]
fn one(alloc: Global, scope: &Scope, wildcard: bool, expr: &Expr) -> Result<Listed, ElabFault>
    ensures { Gives result (listed_one scope.now wildcard expr.now) }
{
    match element_pattern(wildcard, expr) {
        Some(pattern) => Ok(Listed::Agreeing { pattern }),
        None => {
            let value = number(alloc, scope, wildcard, expr)?;
            Ok(Listed::Range {
                low: value,
                high: value,
            })
        }
    }
}

#[tactic(auto, unfolding(crate::specs::Listed::element))]
fn listed_element(
    alloc: Global,
    scope: &Scope,
    domain: &Domain,
    wildcard: bool,
    elem: &Elem,
) -> Result<Listed, ElabFault>
    ensures { Gives result (element scope.now domain.now wildcard elem.now) }
{
    match elem {
        Elem::One(expr) => one(alloc, scope, wildcard, expr),
        Elem::Span { low, high, .. } => {
            let low = end(alloc, scope, wildcard, domain.low, low)?;
            let high = end(alloc, scope, wildcard, domain.high, high)?;
            Ok(Listed::Range { low, high })
        }
    }
}

#[tactic(auto, unfolding(crate::specs::Listed::with_element))]
fn add_element(
    alloc: Global,
    scope: &Scope,
    domain: &Domain,
    wildcard: bool,
    elem: &Elem,
    elements: &mut List<Listed>,
) -> Result<(), ElabFault>
    ensures { Makes result elements.new (with_element scope.now domain.now wildcard elem.now elements.old) }
{
    let element = listed_element(alloc, scope, domain, wildcard, elem)?;
    elements.push(element)?;
    Ok(())
}

/// The elements of a range list, with their expressions computed.
#[tactic(auto, unfolding(crate::specs::Listed::listed_in))]
pub fn elements_of(
    alloc: Global,
    scope: &Scope,
    domain: &Domain,
    wildcard: bool,
    elems: &[Elem],
) -> Result<List<Listed>, ElabFault>
    ensures { Gives result (listed_in scope.now domain.now wildcard elems.now) }
{
    let mut elements = List::new(alloc);
    for elem in elems {
        add_element(alloc, scope, domain, wildcard, elem, &mut elements)?;
    }
    Ok(elements)
}
