//! The curve of a ranking.
ghost use Rattle.std.specs.Prelude.{◌≡◌, [], ◌∷◌, ◌++◌, codes, IfOk, OnOk};
ghost use Rattle.markup.specs.Trees.{attributes_text, markup_text};
ghost use Rattle.page_parts.specs.Curves.{point_text, box_text as box_meant, picture_attributes, curve_attributes, drawing, axis_label, curve};

use crate::pieces::{append_digits, begin_of_class};
use appending::{append, append_number};
use cov_ground::Memory;
use itoa::Buffer;
use markup::{append_escaped, begin_tag, close, end_empty, end_line, end_tag, value};
use std::alloc::Global;

/// Adds a point to those of a curve.
#[tactic(auto, unfolding(crate::specs::Curves::point_text))]
pub fn append_point(points: &mut Vec<u8>, x: u64, y: u128) -> Result<(), Memory>
    ensures { OnOk result (points.new.items ≡ points.old.items ++ point_text x y) }
{
    append(points, b" ")?;
    append_number(points, x)?;
    append(points, b",")?;
    let mut buffer = Buffer::new();
    append(points, buffer.format(y).as_bytes())
}

fn box_text(alloc: Global, tests: u64, bins: u64) -> Result<Vec<u8>, Memory>
    ensures { IfOk result (λ text. text.items ≡ box_meant tests bins) }
{
    let mut text = Vec::new(alloc);
    append(&mut text, b"0 0 ")?;
    append_number(&mut text, tests)?;
    append(&mut text, b" ")?;
    append_number(&mut text, bins)?;
    Ok(text)
}

/// What a reader of screens hears of the curve.
#[tactic(auto, unfolding(crate::specs::Curves::picture_attributes))]
fn append_picture(text: &mut Vec<u8>) -> Result<(), Memory>
    ensures { OnOk result (text.new.items ≡ text.old.items ++ attributes_text picture_attributes) }
{
    value(text, "role", b"img")?;
    value(text, "aria-label", b"Covered bins by tests in ranked order")
}

fn append_attributes(text: &mut Vec<u8>, size: &[u8]) -> Result<(), Memory>
    ensures { OnOk result (text.new.items ≡ text.old.items ++ attributes_text (curve_attributes size.now)) }
{
    value(text, "viewBox", size)?;
    value(text, "preserveAspectRatio", b"none")?;
    append_picture(text)
}

#[tactic(auto, unfolding(crate::specs::Curves::drawing))]
fn append_drawing(text: &mut Vec<u8>, size: &[u8], points: &[u8]) -> Result<(), Memory>
    ensures { OnOk result (text.new.items ≡ text.old.items ++ markup_text (drawing size.now points.now)) }
{
    begin_tag(text, "svg")?;
    append_attributes(text, size)?;
    end_tag(text)?;
    begin_tag(text, "polyline")?;
    value(text, "points", points)?;
    end_empty(text)?;
    close(text, "svg")?;
    end_line(text)
}

#[tactic(auto, unfolding(crate::specs::Curves::axis_label))]
fn append_label(text: &mut Vec<u8>, kind: &str, amount: u64, word: &str) -> Result<(), Memory>
    ensures { OnOk result (text.new.items ≡ text.old.items ++ markup_text (axis_label kind.now amount word.now)) }
{
    begin_of_class(text, "p", kind)?;
    append_digits(text, u128::from(amount))?;
    append_escaped(text, word.as_bytes())?;
    close(text, "p")?;
    end_line(text)
}

/// The curve through points, over so many tests and as high as so many bins.
#[tactic(auto, unfolding(crate::specs::Curves::curve))]
pub fn append_curve(
    alloc: Global,
    text: &mut Vec<u8>,
    tests: u64,
    bins: u64,
    points: &[u8],
) -> Result<(), Memory>
    ensures { OnOk result (text.new.items ≡ text.old.items ++ markup_text (curve tests bins points.now)) }
{
    let size = box_text(alloc, tests, bins)?;
    begin_of_class(text, "div", "curve")?;
    append_label(text, "y", bins, " live bins")?;
    append_drawing(text, size.as_slice(), points)?;
    append_label(text, "x", tests, " tests in ranked order")?;
    close(text, "div")?;
    end_line(text)
}
