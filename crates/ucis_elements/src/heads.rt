//! The first parts of crosses and instances.
ghost use Rattle.std.specs.Prelude.{◌≡◌, [], ◌++◌, slice_get, codes, OnOk};
ghost use Rattle.markup.specs.Trees.{each, markup_text, start_text};
ghost use Rattle.ucis_elements.specs.Words.{named};
ghost use Rattle.ucis_elements.specs.Items.{name_of, expr_element, cross_head, group_id, instance_head};

use crate::options::{append_cross_options, append_instance_options};
use crate::words::{append_named, append_source_id};
use cov_base::Memory;
use design_data::{InstInfo, ItemInfo};
use markup::{append_escaped, begin_tag, close, end_line, end_tag, value};

/// The first tag of an element with a name.
fn begin_named(
    text: &mut Vec<u8>,
    word: &str,
    name: &[u8],
    key: u32,
    excluded: bool,
) -> Result<(), Memory>
    ensures { OnOk result (text.new.items ≡ text.old.items ++ start_text word.now (named name.now key excluded [])) }
{
    begin_tag(text, word)?;
    append_named(text, name, key, excluded)?;
    end_tag(text)
}

/// The name of a crossed point.
fn name_at(items: &[ItemInfo], axis: u32) -> &[u8]
    ensures { result.now ≡ name_of (slice_get items.now axis) }
{
    match items.get(axis as usize) {
        Some(item) => item.name.as_slice(),
        None => b"",
    }
}

/// A crossed point.
fn append_expr(text: &mut Vec<u8>, items: &[ItemInfo], axis: u32) -> Result<(), Memory>
    ensures { OnOk result (text.new.items ≡ text.old.items ++ markup_text (expr_element items.now axis)) }
{
    begin_tag(text, "crossExpr")?;
    end_tag(text)?;
    append_escaped(text, name_at(items, axis))?;
    close(text, "crossExpr")?;
    end_line(text)
}

/// The crossed points.
fn append_exprs(text: &mut Vec<u8>, items: &[ItemInfo], axes: &[u32]) -> Result<(), Memory>
    ensures { OnOk result (text.new.items ≡ text.old.items ++ markup_text (each (expr_element items.now) axes.now)) }
{
    for axis in axes {
        append_expr(text, items, *axis)?;
    }
    Ok(())
}

/// A cross of these points of an instance, up to its bins.
pub fn begin_cross(
    text: &mut Vec<u8>,
    items: &[ItemInfo],
    axes: &[u32],
    key: u32,
    excluded: bool,
    item: &ItemInfo,
) -> Result<(), Memory>
    ensures { OnOk result (text.new.items ≡ text.old.items ++ (start_text (codes "cross") (named item.now.name key excluded []) ++ markup_text (cross_head items.now axes.now item.now))) }
{
    begin_named(text, "cross", item.name.as_slice(), key, excluded)?;
    end_line(text)?;
    append_cross_options(text, item)?;
    append_exprs(text, items, axes)
}

/// Of which type an instance is.
#[tactic(auto, unfolding(crate::specs::Items::group_id))]
fn append_group_id(text: &mut Vec<u8>, group: &[u8]) -> Result<(), Memory>
    ensures { OnOk result (text.new.items ≡ text.old.items ++ markup_text (group_id group.now)) }
{
    begin_tag(text, "cgId")?;
    value(text, "cgName", group)?;
    value(text, "moduleName", b"design")?;
    end_tag(text)?;
    append_source_id(text, "cginstSourceId")?;
    append_source_id(text, "cgSourceId")?;
    close(text, "cgId")?;
    end_line(text)
}

/// An instance of a group, whose instances are merged or not, up to its points and crosses.
pub fn begin_instance(
    text: &mut Vec<u8>,
    group: &[u8],
    merge: bool,
    key: u32,
    excluded: bool,
    inst: &InstInfo,
) -> Result<(), Memory>
    ensures { OnOk result (text.new.items ≡ text.old.items ++ (start_text (codes "cgInstance") (named inst.now.name key excluded []) ++ markup_text (instance_head group.now merge inst.now))) }
{
    begin_named(text, "cgInstance", inst.name.as_slice(), key, excluded)?;
    end_line(text)?;
    append_instance_options(text, merge, inst)?;
    append_group_id(text, group)
}
