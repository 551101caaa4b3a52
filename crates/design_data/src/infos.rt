//! The parts of a design.

use const_eval::Bound;
use cov_base::ValueSet;
use cov_tree::{List, Name, Shared};
use cross_select::Select;
use trans_seq::Seq;
use wildcard_bins::Pattern;

/// A signal, or an argument of a group's sample function (IEEE 1800-2017, 19.8.1).
pub struct Signal {
    pub name: Name,
    /// Its bits, 1 to 64.
    pub width: u8,
    /// Whether its bits are read in two's complement.
    pub signed: bool,
}

impl Drop for Signal {
    fn drop(self) {
        let Signal {
            name: _,
            width: _,
            signed: _,
        } = self;
    }
}

/// A covergroup, with what its type options say (19.7.1).
pub struct GroupInfo {
    pub name: Name,
    /// `type_option.weight`
    pub weight: u32,
    /// `type_option.goal`, in per cent.
    pub goal: u32,
    /// `type_option.merge_instances`
    pub merge: bool,
}

impl Drop for GroupInfo {
    fn drop(self) {
        let GroupInfo {
            name: _,
            weight: _,
            goal: _,
            merge: _,
        } = self;
    }
}

/// What the options of an instance, a coverpoint or a cross say that no count depends on (19.7): for those who print.
pub struct Remarks {
    /// `option.comment`, by default empty.
    pub comment: Name,
    /// `option.detect_overlap`: whether a reader is to be warned of bins that share values. False in a cross.
    pub detect_overlap: bool,
    /// `option.auto_bin_max`: how many automatic bins a coverpoint has at most, 1 to 65,536. 64 in a cross.
    pub auto_bin_max: u32,
    /// `option.cross_num_print_missing`: how many products that aren't covered are to be printed, 0 to 2^31 - 1. 0 in a
    /// coverpoint.
    pub cross_num_print_missing: u32,
}

impl Drop for Remarks {
    fn drop(self) {
        let Remarks {
            comment: _,
            detect_overlap: _,
            auto_bin_max: _,
            cross_num_print_missing: _,
        } = self;
    }
}

/// An instance of a covergroup, with what its options say (19.7).
pub struct InstInfo {
    pub name: Name,
    /// The index of its group in the design.
    pub group: u32,
    /// `option.weight`
    pub weight: u32,
    /// `option.goal`, in per cent.
    pub goal: u32,
    /// `option.at_least`, at least 1: that of an item which says nothing else.
    pub at_least: u32,
    /// Whether it is reported by itself (`option.per_instance`).
    pub print: bool,
    /// What its options say besides, which those of its items have by default where they have such an option.
    pub remarks: Remarks,
    /// The arguments of the group's sample function, in order.
    pub args: List<Signal>,
    /// Its coverpoints and crosses, in order.
    pub items: List<ItemInfo>,
}

impl Drop for InstInfo {
    fn drop(self) {
        let InstInfo {
            name: _,
            group: _,
            weight: _,
            goal: _,
            at_least: _,
            print: _,
            remarks: _,
            args: _,
            items: _,
        } = self;
    }
}

/// A coverpoint (19.5) or a cross (19.6) of an instance.
pub struct ItemInfo {
    pub name: Name,
    /// `option.weight`
    pub weight: u32,
    /// `type_option.weight`
    pub type_weight: u32,
    /// `option.goal`, in per cent.
    pub goal: u32,
    /// How often a bin has to be hit to be covered, at least 1.
    pub at_least: u32,
    /// What its options say besides.
    pub remarks: Remarks,
    /// Its guard `iff`.
    pub guard: Option<Bound>,
    pub shape: ItemShape,
    /// The number of its first bin; the others follow.
    pub first_bin: u32,
    /// Its bins, in order.
    pub bins: List<BinInfo>,
    /// The sequences of a point's ignore bins (19.5.5), in order as declared, those of arrays not expanded.
    pub ignored: List<Seq>,
    /// The same of its illegal bins (19.5.6).
    pub illegal: List<Seq>,
}

impl Drop for ItemInfo {
    fn drop(self) {
        let ItemInfo {
            name: _,
            weight: _,
            type_weight: _,
            goal: _,
            at_least: _,
            remarks: _,
            guard: _,
            shape: _,
            first_bin: _,
            bins: _,
            ignored: _,
            illegal: _,
        } = self;
    }
}

/// What an item counts.
#[derive(Drop)]
pub enum ItemShape {
    /// The values of an expression.
    Point(Bound),
    /// Products of coverage bins of the points at these indexes of the instance.
    Cross(List<u32>),
}

/// A bin. Its drop is one function, in place of the cases of its rule wherever an owner of it may let it go.
pub struct BinInfo {
    pub name: Name,
    pub kind: BinKind,
    pub rule: BinRule,
    /// Its guard `iff`, which the bins of a declaration have in common.
    pub guard: Option<Shared<Bound>>,
}

impl Drop for BinInfo {
    fn drop(self) {
        let BinInfo {
            name,
            kind: _,
            rule,
            guard,
        } = self;
        drop(name);
        drop(rule);
        drop(guard);
    }
}

/// The kind of a bin: the word that declares it, or that it is a default bin.
#[derive(Clone, Copy, PartialEq, Eq)]
pub enum BinKind {
    /// A bin that counts for coverage.
    CvgBin,
    /// `illegal_bins` (19.5.6)
    IllegalBin,
    /// `ignore_bins` (19.5.5)
    IgnoreBin,
    /// `default` or `default sequence` under the word `bins`
    DefaultBin,
}

/// What a bin counts.
#[derive(Drop)]
pub enum BinRule {
    /// A value of this set (19.5.1), which is what removal has left.
    Values(ValueSet),
    /// A value that agrees with one of these patterns (19.5.4).
    Patterns(List<Pattern>),
    /// A window that is a list of one of these sequences (19.5.2).
    Trans(List<Seq>),
    /// `default`: a value that no set of the point lists (19.5.1).
    Default,
    /// One number of a `default` array: it isn't listed by this.
    DefaultValues(ValueSet),
    /// `default sequence`: no transition of the point ends here (19.5.2).
    DefaultSequence,
    /// A declared bin of a cross (19.6.1): the products that the selection selects.
    Picked(Select),
    /// An automatic bin of a cross (19.6): the product of the coverage bins of these numbers, one of each crossed
    /// point, counted from 0.
    Product(List<u32>),
}
