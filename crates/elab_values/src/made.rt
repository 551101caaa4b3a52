//! What elaboration knows of bins, points and crosses on the way.
use crate::domain::Domain;
use cov_tree::{List, Name};
use design_data::BinInfo;
use name_map::NameMap;
use trans_seq::Seq;

/// A bin on the way.
#[derive(Drop)]
pub struct Made {
    /// The bin itself.
    pub bin: BinInfo,
    /// Where its declaration stands; of an automatic bin, where its point or cross does.
    pub at: u32,
    /// The place of its declaration among those of its item; None for an automatic bin.
    pub declared: Option<u32>,
}

/// What the bins of a point depend on besides their declarations.
#[derive(Clone, Copy, PartialEq, Eq)]
pub struct Settings {
    /// The most automatic bins, 1 to 65,536.
    pub auto_bin_max: u32,
    /// Whether a filter is applied to each part of `b[n]`, after the numbers are spread.
    pub distribute_first: bool,
    /// Whether a cross of the group has `intersect` on the point, also one that stands behind it.
    pub intersected: bool,
}

/// What the declarations of a point make.
#[derive(Drop)]
pub struct PointBins {
    /// The bins that have something left, in order, automatic ones behind the declared ones.
    pub bins: List<Made>,
    /// The names of all declarations, in order.
    pub names: List<Name>,
    /// The sequences of the ignore bins, as declared.
    pub ignored: List<Seq>,
    /// The sequences of the illegal bins, as declared.
    pub illegal: List<Seq>,
}

/// What a cross has to know of the declarations of an item.
#[derive(Drop)]
pub struct ItemDecls {
    /// The names of its declarations of bins, each with its place among them.
    pub names: NameMap<u32>,
    /// For each of the item's bins the place of its declaration among these; None for an automatic one.
    pub from: List<Option<u32>>,
    /// The numbers of a point; None for a cross.
    pub domain: Option<Domain>,
}
