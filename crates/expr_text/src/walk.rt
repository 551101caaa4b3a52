//! Expressions, part by part.
ghost use Rattle.std.specs.Prelude.{◌≡◌, ◌++◌, [], codes, if◌then◌else◌, OnOk};
ghost use Rattle.expr_text.specs.Expressions.{expr_text, text_of};

use crate::names::{Names, append_bits};
use crate::operators::{binary_text, unary_text};
use appending::append;
use const_eval::{Form, Look};
use cov_ground::Memory;
use design_data::Signal;

/// Adds an expression as SystemVerilog, each operation in parentheses (IEEE 1800-2017, clause 11). `signals` are those of
/// the design, and `arguments` those of the sample function of the group that the expression stands in; a name that is
/// none of them is left out.
pub fn append_expr(
    text: &mut Vec<u8>,
    signals: &[Signal],
    arguments: &[Signal],
    expr: Look<'_>,
) -> Result<(), Memory>
    ensures { OnOk result (text.new.items ≡ text.old.items ++ expr_text signals.now arguments.now expr.entry) }
{
    let names = Names { signals, arguments };
    append_parts(text, &names, expr, true)
}

/// Adds an expression. The parts of a concatenation that others follow have no braces of their own.
fn append_parts(
    text: &mut Vec<u8>,
    names: &Names<'_>,
    expr: Look<'_>,
    with_braces: bool,
) -> Result<(), Memory>
    ensures { OnOk result (text.new.items
        ≡ text.old.items ++ text_of names.now.signals.now names.now.arguments.now expr.entry with_braces) }
{
    match expr.form() {
        Form::Number { bits, typ } => append_bits(text, typ, bits),
        Form::Name { meaning, .. } => names.append_meaning(text, &meaning),
        Form::Part {
            meaning,
            skip,
            width,
            ..
        } => names.append_part(text, &meaning, skip, width),
        Form::Alone(inner) => {
            open(text, with_braces)?;
            append_parts(text, names, inner, true)?;
            close(text, with_braces)
        }
        Form::Joined(front, last) => {
            open(text, with_braces)?;
            append_parts(text, names, front, false)?;
            append(text, b", ")?;
            append_parts(text, names, last, true)?;
            close(text, with_braces)
        }
        Form::Unary(op, inner) => {
            append(text, b"(")?;
            append(text, unary_text(op).as_bytes())?;
            append_parts(text, names, inner, true)?;
            append(text, b")")
        }
        Form::Binary(op, left, right) => {
            append(text, b"(")?;
            append_parts(text, names, left, true)?;
            append(text, b" ")?;
            append(text, binary_text(op).as_bytes())?;
            append(text, b" ")?;
            append_parts(text, names, right, true)?;
            append(text, b")")
        }
        Form::Choice(test, first, second) => {
            append(text, b"(")?;
            append_parts(text, names, test, true)?;
            append(text, b" ? ")?;
            append_parts(text, names, first, true)?;
            append(text, b" : ")?;
            append_parts(text, names, second, true)?;
            append(text, b")")
        }
    }
}

fn open(text: &mut Vec<u8>, with_braces: bool) -> Result<(), Memory>
    ensures { OnOk result (text.new.items ≡ text.old.items ++ (if with_braces then codes "{" else [])) }
{
    if with_braces {
        append(text, b"{")?;
    }
    Ok(())
}

fn close(text: &mut Vec<u8>, with_braces: bool) -> Result<(), Memory>
    ensures { OnOk result (text.new.items ≡ text.old.items ++ (if with_braces then codes "}" else [])) }
{
    if with_braces {
        append(text, b"}")?;
    }
    Ok(())
}
