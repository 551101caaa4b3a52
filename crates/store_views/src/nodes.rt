//! The nodes right below a node, the bins under it, and the instance that it is.
ghost use Rattle.std.specs.Prelude.{◌≡◌, ◌<◌, All, length, option_copied};
ghost use Rattle.cov_history.specs.Nodes.{children as children_meant, bins_under as bins_meant};
ghost use Rattle.cov_history.specs.History.{design_of};
ghost use Rattle.merge_store.specs.Now.{nodes_now};
ghost use Rattle.merge_store.specs.Stores.{opening_of, entries_of};
ghost use Rattle.store_views.specs.Views.{instance_of as of_meant, instance_at as at_meant};

use cov_tree::Name;
use design_data::InstInfo;
use merge_store::Store;

/// The nodes right below one, in order.
pub fn children(store: &Store, node: u32) -> &[u32]
    ensures children { result.now ≡ children_meant (nodes_now store.now) node }
    ensures inside { All (λ n. n < length (nodes_now store.now)) result.now }
{
    store.children(node)
}

/// The nodes of the bins under a node, in order.
pub fn bins_under(store: &Store, node: u32) -> &[u32]
    ensures bins { result.now ≡ bins_meant (nodes_now store.now) node }
    ensures inside { All (λ n. n < length (nodes_now store.now)) result.now }
{
    store.bins_under(node)
}

/// The first of the instances that has this name.
fn instance_of<'d>(instances: &'d [InstInfo], name: &Name) -> Option<&'d InstInfo>
    ensures { option_copied result ≡ of_meant instances.now name.now }
{
    instances.iter().find(|instance| instance.name == *name)
}

/// The instance of the design that a node is: that of its name, of which there is one at most. The instances, 1,024 at
/// most, are looked through.
pub fn instance_at(store: &Store, node: u32) -> Option<&InstInfo>
    requires { node < length (nodes_now store.now) }
    ensures { option_copied result ≡ at_meant (design_of (opening_of store.now) (entries_of store.now)).instances
        (nodes_now store.now) node }
{
    instance_of(
        store.design().instances(),
        &store.nodes()[node as usize].name,
    )
}
