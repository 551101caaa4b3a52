//! The bins of the lists of an array.
ghost use Rattle.std.specs.Prelude.{◌≡◌, [], ◌∷◌, ◌++◌, IfOk, OnOk, drop, map};
ghost use Rattle.std.specs.List.{flat_map};
ghost use Rattle.elab_transitions.specs.Lists.{arrowed, list_name as name_of_list, item_once, seq_of_list as seq_of_values};

use crate::shown::{Values, add_value};
use cov_base::{Int, Memory};
use cov_tree::{List, Name};
use std::alloc::Global;
use trans_seq::{Item, Seq};

/// Adds the values to the text, each behind an arrow, and to the items.
fn add_values(
    alloc: Global,
    list: &[Int],
    values: &mut Values,
    text: &mut Vec<u8>,
    items: &mut Vec<Item>,
) -> Result<(), Memory>
    ensures text { OnOk result (text.new.items ≡ text.old.items ++ flat_map arrowed list.now) }
    ensures items { OnOk result (items.new.items ≡ items.old.items ++ map item_once list.now) }
{
    for value in list {
        add_value(alloc, *value, values, text, items)?;
    }
    Ok(())
}

/// The text without the arrow that it begins with.
fn without_arrow(text: &[u8]) -> &[u8]
    ensures { result.now ≡ drop 2 text.now }
{
    match text {
        [_, _, rest @ ..] => rest,
        _ => &[],
    }
}

/// `name[4=>5=>6]`, of the values behind arrows.
fn list_name(alloc: Global, name: &Name, arrows: &[u8]) -> Result<Name, Memory>
    ensures { IfOk result (λ text. text ≡ name.now ++ (91 ∷ (drop 2 arrows.now ++ 93 ∷ []))) }
{
    let values = without_arrow(arrows);
    let before = name.as_slice();
    let size = before.len().saturating_add(values.len()).saturating_add(2);
    let mut text = Vec::with_capacity(alloc, size)?;
    text.extend_from_slice(before)?;
    text.push(b'[')?;
    text.extend_from_slice(values)?;
    text.push(b']')?;
    Name::from_vec(text)
}

/// The name of a list's bin, and the sequence that has this list alone.
pub(crate) fn shown_list(
    alloc: Global,
    name: &Name,
    list: &[Int],
    values: &mut Values,
) -> Result<(Name, Seq), Memory>
    ensures name { IfOk result (λ shown. shown.0 ≡ name_of_list name.now list.now) }
    ensures seq { IfOk result (λ shown. shown.1 ≡ seq_of_values list.now) }
{
    let mut text = Vec::with_capacity(alloc, list.len().saturating_mul(4))?;
    let mut items = Vec::with_capacity(alloc, list.len())?;
    add_values(alloc, list, values, &mut text, &mut items)?;
    let name = list_name(alloc, name, text.as_slice())?;
    let seq = Seq {
        items: List::of(items),
    };
    Ok((name, seq))
}
