//! Types with their instances.
ghost use Rattle.std.specs.Prelude.{◌≡◌, ◌<◌, ◌++◌, ◌∷◌, [], All, codes, length, OnOk};
ghost use Rattle.markup.specs.Trees.{markup_text, start_text, number as number_meant};
ghost use Rattle.ucis_elements.specs.Words.{named};
ghost use Rattle.ucis_elements.specs.Items.{instance_head};
ghost use Rattle.merge_store.specs.Now.{nodes_now, excluded_now};
ghost use Rattle.merge_store.specs.Stores.{opening_of, entries_of};
ghost use Rattle.export_ucis.specs.Nodes.{instance_element, instance_of, instances_of, type_with, type_of_node, types_of};

use crate::bins::is_excluded;
use crate::items::{append_crosses, append_points};
use cov_base::Memory;
use design_data::InstInfo;
use markup::{begin_tag, close, end_line, end_tag, number};
use merge_store::Store;
use std::alloc::Global;
use store_views::{children, instance_at};
use ucis_elements::begin_instance;
use ucis_model::Node;

/// An instance of a type, which a node is, up to its items.
fn begin_instance_at(
    text: &mut Vec<u8>,
    store: &Store,
    group: &Node,
    inst: &InstInfo,
    node: u32,
) -> Result<(), Memory>
    ensures { OnOk result (text.new.items ≡ text.old.items ++ (start_text (codes "cgInstance")
        (named inst.now.name node (excluded_now store.now node) [])
        ++ markup_text (instance_head group.now.name group.now.merge inst.now))) }
{
    let excluded = is_excluded(store, node)?;
    begin_instance(
        text,
        group.name.as_slice(),
        group.merge,
        node,
        excluded,
        inst,
    )
}

/// An instance of a type, which a node is.
fn append_instance_with(
    alloc: Global,
    text: &mut Vec<u8>,
    store: &Store,
    group: &Node,
    inst: &InstInfo,
    node: u32,
) -> Result<(), Memory>
    ensures { OnOk result (text.new.items ≡ text.old.items
        ++ markup_text (instance_element (opening_of store.now) (entries_of store.now) group.now inst.now node)) }
{
    let arguments = inst.args.as_slice();
    let items = inst.items.as_slice();
    let nodes = children(store, node);
    begin_instance_at(text, store, group, inst, node)?;
    append_points(alloc, text, store, arguments, items, nodes)?;
    append_crosses(text, store, items, nodes)?;
    close(text, "cgInstance")?;
    end_line(text)
}

/// The instance of a type that a node is.
#[tactic(auto, unfolding(crate::specs::Nodes::instance_of))]
fn append_instance(
    alloc: Global,
    text: &mut Vec<u8>,
    store: &Store,
    group: &Node,
    node: u32,
) -> Result<(), Memory>
    requires { node < length (nodes_now store.now) }
    ensures { OnOk result (text.new.items ≡ text.old.items
        ++ markup_text (instance_of (opening_of store.now) (entries_of store.now) group.now node)) }
{
    match instance_at(store, node) {
        Some(inst) => append_instance_with(alloc, text, store, group, inst, node),
        None => Ok(()),
    }
}

/// The instances of a type that these nodes are.
#[tactic(auto, unfolding(crate::specs::Nodes::instances_of))]
fn append_instances(
    alloc: Global,
    text: &mut Vec<u8>,
    store: &Store,
    group: &Node,
    nodes: &[u32],
) -> Result<(), Memory>
    requires { All (λ n. n < length (nodes_now store.now)) nodes.now }
    ensures { OnOk result (text.new.items ≡ text.old.items
        ++ markup_text (instances_of (opening_of store.now) (entries_of store.now) group.now nodes.now)) }
{
    for node in nodes {
        append_instance(alloc, text, store, group, *node)?;
    }
    Ok(())
}

/// The first tag of a type.
fn begin_type(text: &mut Vec<u8>, group: &Node) -> Result<(), Memory>
    ensures { OnOk result (text.new.items ≡ text.old.items ++ start_text (codes "covergroupCoverage")
        (number_meant (codes "weight") group.now.weight ∷ [])) }
{
    begin_tag(text, "covergroupCoverage")?;
    number(text, "weight", group.weight as u64)?;
    end_tag(text)
}

/// A type, which a node is, with its instances.
fn append_type_with(
    alloc: Global,
    text: &mut Vec<u8>,
    store: &Store,
    group: &Node,
    node: u32,
) -> Result<(), Memory>
    ensures { OnOk result (text.new.items ≡ text.old.items
        ++ markup_text (type_with (opening_of store.now) (entries_of store.now) group.now node)) }
{
    let nodes = children(store, node);
    begin_type(text, group)?;
    end_line(text)?;
    append_instances(alloc, text, store, group, nodes)?;
    close(text, "covergroupCoverage")?;
    end_line(text)
}

/// The type that a node is.
#[tactic(auto, unfolding(crate::specs::Nodes::type_of_node))]
fn append_type(alloc: Global, text: &mut Vec<u8>, store: &Store, node: u32) -> Result<(), Memory>
    requires { node < length (nodes_now store.now) }
    ensures { OnOk result (text.new.items ≡ text.old.items
        ++ markup_text (type_of_node (opening_of store.now) (entries_of store.now) node)) }
{
    let group = &store.nodes()[node as usize];
    append_type_with(alloc, text, store, group, node)
}

/// The types that these nodes are.
#[tactic(auto, unfolding(crate::specs::Nodes::types_of))]
pub(crate) fn append_types(
    alloc: Global,
    text: &mut Vec<u8>,
    store: &Store,
    nodes: &[u32],
) -> Result<(), Memory>
    requires { All (λ n. n < length (nodes_now store.now)) nodes.now }
    ensures { OnOk result (text.new.items ≡ text.old.items
        ++ markup_text (types_of (opening_of store.now) (entries_of store.now) nodes.now)) }
{
    for node in nodes {
        append_type(alloc, text, store, *node)?;
    }
    Ok(())
}
