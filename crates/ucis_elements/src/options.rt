//! Options as elements.
ghost use Rattle.std.specs.Prelude.{◌≡◌, [], ◌++◌, OnOk};
ghost use Rattle.markup.specs.Trees.{attributes_text, markup_text};
ghost use Rattle.ucis_elements.specs.Items.{common_options, instance_defaults, instance_telling, point_options, cross_options, instance_options};

use cov_base::Memory;
use design_data::{InstInfo, ItemInfo, Remarks};
use markup::{begin_tag, end_empty, end_line, number, truth, value};

/// What the options of points, crosses and instances have in common.
fn append_common(
    text: &mut Vec<u8>,
    weight: u32,
    goal: u32,
    at_least: u32,
    comment: &[u8],
) -> Result<(), Memory>
    ensures { OnOk result (text.new.items ≡ text.old.items ++ attributes_text (common_options weight goal at_least comment.now [])) }
{
    number(text, "weight", u64::from(weight))?;
    number(text, "goal", u64::from(goal))?;
    value(text, "comment", comment)?;
    number(text, "at_least", u64::from(at_least))
}

/// The options of an item that a point and a cross have.
fn append_item_common(text: &mut Vec<u8>, item: &ItemInfo) -> Result<(), Memory>
    ensures { OnOk result (text.new.items ≡ text.old.items ++ attributes_text (common_options item.now.weight item.now.goal item.now.at_least item.now.remarks.comment [])) }
{
    append_common(
        text,
        item.weight,
        item.goal,
        item.at_least,
        item.remarks.comment.as_slice(),
    )
}

/// The options of a coverpoint.
#[tactic(auto, unfolding(crate::specs::Items::point_options))]
pub(crate) fn append_point_options(text: &mut Vec<u8>, item: &ItemInfo) -> Result<(), Memory>
    ensures { OnOk result (text.new.items ≡ text.old.items ++ markup_text (point_options item.now)) }
{
    begin_tag(text, "options")?;
    append_item_common(text, item)?;
    truth(text, "detect_overlap", item.remarks.detect_overlap)?;
    number(text, "auto_bin_max", u64::from(item.remarks.auto_bin_max))?;
    end_empty(text)?;
    end_line(text)
}

/// The options of a cross.
#[tactic(auto, unfolding(crate::specs::Items::cross_options))]
pub(crate) fn append_cross_options(text: &mut Vec<u8>, item: &ItemInfo) -> Result<(), Memory>
    ensures { OnOk result (text.new.items ≡ text.old.items ++ markup_text (cross_options item.now)) }
{
    begin_tag(text, "options")?;
    append_item_common(text, item)?;
    number(
        text,
        "cross_num_print_missing",
        u64::from(item.remarks.cross_num_print_missing),
    )?;
    end_empty(text)?;
    end_line(text)
}

/// The options that an instance has for the bins of its items.
fn append_defaults(text: &mut Vec<u8>, remarks: &Remarks) -> Result<(), Memory>
    ensures { OnOk result (text.new.items ≡ text.old.items ++ attributes_text (instance_defaults remarks.now [])) }
{
    truth(text, "detect_overlap", remarks.detect_overlap)?;
    number(text, "auto_bin_max", remarks.auto_bin_max as u64)?;
    number(
        text,
        "cross_num_print_missing",
        remarks.cross_num_print_missing as u64,
    )
}

/// The options of an instance that its items have too.
fn append_instance_common(text: &mut Vec<u8>, inst: &InstInfo) -> Result<(), Memory>
    ensures { OnOk result (text.new.items ≡ text.old.items ++ attributes_text (common_options inst.now.weight inst.now.goal inst.now.at_least inst.now.remarks.comment [])) }
{
    append_common(
        text,
        inst.weight,
        inst.goal,
        inst.at_least,
        inst.remarks.comment.as_slice(),
    )
}

/// How an instance is told.
fn append_telling(text: &mut Vec<u8>, merge: bool, inst: &InstInfo) -> Result<(), Memory>
    ensures { OnOk result (text.new.items ≡ text.old.items ++ attributes_text (instance_telling merge inst.now)) }
{
    truth(text, "per_instance", inst.print)?;
    truth(text, "merge_instances", merge)
}

/// The options of an instance, with whether its group's instances are merged.
#[tactic(auto, unfolding(crate::specs::Items::instance_options))]
pub(crate) fn append_instance_options(
    text: &mut Vec<u8>,
    merge: bool,
    inst: &InstInfo,
) -> Result<(), Memory>
    ensures { OnOk result (text.new.items ≡ text.old.items ++ markup_text (instance_options merge inst.now)) }
{
    begin_tag(text, "options")?;
    append_instance_common(text, inst)?;
    append_defaults(text, &inst.remarks)?;
    append_telling(text, merge, inst)?;
    end_empty(text)?;
    end_line(text)
}
