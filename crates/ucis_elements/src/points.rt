//! The first parts of points.
ghost use Rattle.std.specs.Prelude.{◌≡◌, [], ◌∷◌, ◌++◌, codes, OnOk};
ghost use Rattle.expr_text.specs.Expressions.{expr_text};
ghost use Rattle.markup.specs.Trees.{attribute, attribute_text, attributes_text, markup_text, start_text};
ghost use Rattle.ucis_elements.specs.Items.{shape_attributes, point_attributes, point_head};

use crate::options::append_point_options;
use crate::words::append_named;
use const_eval::Bound;
use cov_base::Memory;
use design_data::{ItemInfo, ItemShape, Signal};
use expr_text::append_expr;
use markup::{begin_tag, end_line, end_tag, value};
use std::alloc::Global;

/// The signals of a design, and the arguments of a sample function, that the names of an expression stand for.
#[derive(Clone, Copy)]
pub struct Names<'a> {
    /// The signals of the design.
    pub signals: &'a [Signal],
    /// The arguments of the sample function of the instance (IEEE 1800-2017, 19.8.1).
    pub arguments: &'a [Signal],
}

/// An expression.
fn append_expr_string(
    alloc: Global,
    text: &mut Vec<u8>,
    names: &Names<'_>,
    expr: &Bound,
) -> Result<(), Memory>
    ensures { OnOk result (text.new.items ≡ text.old.items ++ attribute_text
        (attribute (codes "exprString") (expr_text names.now.signals.now names.now.arguments.now expr.now))) }
{
    let mut string = Vec::new(alloc);
    append_expr(&mut string, names.signals, names.arguments, expr.look())?;
    value(text, "exprString", string.as_slice())?;
    Ok(())
}

/// What a point samples.
fn append_shape(
    alloc: Global,
    text: &mut Vec<u8>,
    names: &Names<'_>,
    shape: &ItemShape,
) -> Result<(), Memory>
    ensures { OnOk result (text.new.items ≡ text.old.items ++ attributes_text
        (shape_attributes names.now.signals.now names.now.arguments.now shape.now)) }
{
    match shape {
        ItemShape::Point(expr) => append_expr_string(alloc, text, names, expr),
        ItemShape::Cross(_) => Ok(()),
    }
}

/// The first tag of a coverpoint.
fn begin_coverpoint(
    alloc: Global,
    text: &mut Vec<u8>,
    names: &Names<'_>,
    key: u32,
    excluded: bool,
    item: &ItemInfo,
) -> Result<(), Memory>
    ensures { OnOk result (text.new.items ≡ text.old.items ++ start_text (codes "coverpoint")
        (point_attributes names.now.signals.now names.now.arguments.now key excluded item.now)) }
{
    begin_tag(text, "coverpoint")?;
    append_named(text, item.name.as_slice(), key, excluded)?;
    append_shape(alloc, text, names, &item.shape)?;
    end_tag(text)
}

/// A coverpoint, up to its bins.
pub fn begin_point(
    alloc: Global,
    text: &mut Vec<u8>,
    names: &Names<'_>,
    key: u32,
    excluded: bool,
    item: &ItemInfo,
) -> Result<(), Memory>
    ensures { OnOk result (text.new.items ≡ text.old.items ++ (start_text (codes "coverpoint")
        (point_attributes names.now.signals.now names.now.arguments.now key excluded item.now)
        ++ markup_text (point_head item.now))) }
{
    begin_coverpoint(alloc, text, names, key, excluded, item)?;
    end_line(text)?;
    append_point_options(text, item)
}
