//! Types.
ghost use Rattle.std.specs.Prelude.{◌≡◌, true, option_copied};
ghost use Rattle.cov_tree.specs.Widths.{bits_of};
ghost use Rattle.name_map.specs.Names.{meaning_of};
ghost use Rattle.const_eval.specs.Binding.{has_width as tests_width};
ghost use Rattle.elab_base.specs.Gives.{Gives};
ghost use Rattle.elab_decls.specs.Shapes.{is_span, span_shape, plain_shape, enumerated, named_shape, shape_of};

use crate::{Enumeration, Outside, Shape};
use bit_width::Width;
use const_eval::Typ;
use cov_ground::limits::MOST_BITS;
use cov_tree::{FixedWidth, Name, TypeText};
use elab_base::{ElabFault, ElabKind, What, number_in};
use std::alloc::Global;

/// Whether a span is one: high >= low >= 0, of 64 bits at most.
fn spans(high: i128, low: i128) -> bool
    ensures { result ≡ is_span high low }
{
    0 <= low && low <= high && low <= 255 && high - low < i128::from(MOST_BITS)
}

fn span(signed: bool, high: i128, low: i128) -> Shape
    requires { is_span high low ≡ true }
    ensures { result ≡ span_shape signed high low }
{
    Shape {
        typ: Typ::of(Width::of((high - low) as u8 + 1), signed),
        low: low as u8,
        enumeration: None,
    }
}

/// A type of so many bits without a span.
pub(crate) fn plain(width: Width, signed: bool) -> Shape
    ensures { result ≡ plain_shape width signed }
{
    Shape {
        typ: Typ::of(width, signed),
        low: 0,
        enumeration: None,
    }
}

/// Whether there are 1 to 64 bits.
pub fn has_width(width: u8) -> bool
    ensures { result ≡ tests_width width }
{
    1 <= width && width <= MOST_BITS
}

#[tactic(auto, unfolding(elab_base::specs::Gives::needs))]
fn shape_at(place: u32, found: Option<&Enumeration>, at: u32) -> Result<Shape, ElabFault>
    ensures { Gives result (enumerated place (option_copied found.entry) at) }
{
    match found {
        None => Err(ElabKind::UnknownType.at(at)),
        Some(enumeration) => {
            if !has_width(enumeration.typ.width().get()) {
                return Err(ElabKind::TooWide.at(at));
            }
            Ok(Shape {
                typ: enumeration.typ,
                low: enumeration.low,
                enumeration: Some(place),
            })
        }
    }
}

fn shape_named(outside: &Outside, what: Option<What>, at: u32) -> Result<Shape, ElabFault>
    ensures { Gives result (named_shape outside.now what at) }
{
    match what {
        Some(What::Type { enumeration }) => {
            let found = outside.enumerations.as_slice().get(enumeration as usize);
            shape_at(enumeration, found, at)
        }
        _ => Err(ElabKind::UnknownType.at(at)),
    }
}

/// The width of a type that has a name of the language's own.
#[tactic(auto, using(crate::proofs::Widths::fixed_width))]
fn width_of(width: FixedWidth) -> Width
    ensures { result ≡ bits_of width }
{
    Width::of(width.bits())
}

/// What the name of a type stands for.
fn what_is(outside: &Outside, name: &Name) -> Option<What>
    ensures { result ≡ meaning_of outside.now.names name.now }
{
    outside.names.get(name.as_slice()).copied()
}

/// A type as it is written in a declaration at `at` (IEEE 1800-2017, 6.11): its width, its sign, the low end of its span,
/// and the enumeration that it is.
#[tactic(auto, unfolding(crate::specs::Shapes::shape_of, elab_base::specs::Gives::needs))]
pub fn read_shape(
    alloc: Global,
    outside: &Outside,
    typ: &TypeText,
    at: u32,
) -> Result<Shape, ElabFault>
    ensures { Gives result (shape_of outside.now typ.now at) }
{
    match typ {
        TypeText::Vector {
            signed,
            span: None,
            ..
        } => Ok(plain(Width::of(1), *signed)),
        TypeText::Vector {
            signed,
            span: Some(ends),
            at: place,
        } => {
            let high = number_in(alloc, &outside.scope, &ends.0)?.get();
            let low = number_in(alloc, &outside.scope, &ends.1)?.get();
            if !spans(high, low) {
                return Err(ElabKind::TooWide.at(*place));
            }
            Ok(span(*signed, high, low))
        }
        TypeText::Fixed { width, signed } => Ok(plain(width_of(*width), *signed)),
        TypeText::Named { name, at: place } => {
            shape_named(outside, what_is(outside, name), *place)
        }
    }
}
