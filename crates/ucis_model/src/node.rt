//! A node.
use cov_tree::Name;
use design_data::BinKind;

/// What a node stands for.
#[derive(Clone, Copy, PartialEq, Eq)]
pub enum NodeKind {
    /// All that the design covers.
    Root,
    /// A covergroup that has an instance (IEEE 1800-2017, 19.3).
    CoverGroup,
    /// An instance of a covergroup.
    CoverInstance,
    /// A coverpoint of an instance (19.5).
    CoverPoint,
    /// A cross of an instance (19.6).
    Cross,
    /// A bin of an item.
    Bin(BinKind),
}

/// A node of a design.
pub struct Node {
    pub kind: NodeKind,
    /// Its own name, without those above it.
    pub name: Name,
    /// The place of the node above it among the nodes, a smaller one. The root is its own parent.
    pub parent: u32,
    /// The number of the first bin under it, or of the bin that it is; where it has none, that of the next bin.
    pub first_bin: u32,
    /// How many bins are under it; a bin counts itself.
    pub bins: u32,
    /// How much it weighs in the mean above it: `type_option.weight` of a group, `option.weight` of an instance or an
    /// item (19.7); 1 for the root and for a bin.
    pub weight: u32,
    /// `type_option.weight` of an item, which counts where instances are merged; 1 for all others.
    pub type_weight: u32,
    /// Its goal in per cent: `type_option.goal` of a group, `option.goal` of an instance or an item; 100 for the root
    /// and for a bin.
    pub goal: u32,
    /// How often a bin of the item has to be hit to be covered, and the same for its bins; 1 for all others.
    pub at_least: u32,
    /// `type_option.merge_instances` of a group; false for all others.
    pub merge: bool,
}

impl Drop for Node {
    fn drop(self) {
        let Node {
            kind: _,
            name: _,
            parent: _,
            first_bin: _,
            bins: _,
            weight: _,
            type_weight: _,
            goal: _,
            at_least: _,
            merge: _,
        } = self;
    }
}
