//! Covergroups (IEEE 1800-2017, clause 19). Each `at` is a byte offset in the design text.
use crate::{BinsDecl, Boxed, Elem, Expr, List, Name, OptDecl, TypeText, Word};

/// A coverpoint (IEEE 1800-2017, 19.5), at its label where it has one, else at its word.
pub struct PointDecl {
    /// Its label.
    pub label: Option<Name>,
    /// What it samples.
    pub expr: Expr,
    /// The condition behind `iff`.
    pub guard: Option<Expr>,
    /// Its options, in order.
    pub options: List<OptDecl>,
    /// Its bins, in order.
    pub bins: List<BinsDecl>,
    /// Where it begins.
    pub at: u32,
}

impl Drop for PointDecl {
    fn drop(self) {
        let PointDecl {
            label: _,
            expr: _,
            guard: _,
            options: _,
            bins: _,
            at: _,
        } = self;
    }
}

/// A selection of products of a cross (IEEE 1800-2017, 19.6.1).
#[derive(Drop)]
pub enum Sel {
    /// `binsof(point.bin) intersect {meets}`, at the word `binsof`.
    BinsOf {
        point: Name,
        bin: Option<Name>,
        meets: Option<List<Elem>>,
        at: u32,
    },
    /// `!`
    Not(Boxed<Sel>),
    /// `&&`
    And(Boxed<Sel>, Boxed<Sel>),
    /// `||`
    Or(Boxed<Sel>, Boxed<Sel>),
}

/// A declaration of a bin of a cross, at its word.
pub struct CrossBins {
    /// The word.
    pub word: Word,
    /// The name of the bin.
    pub name: Name,
    /// The products that it counts.
    pub sel: Sel,
    /// The condition behind `iff`.
    pub guard: Option<Expr>,
    /// Where it begins.
    pub at: u32,
}

impl Drop for CrossBins {
    fn drop(self) {
        let CrossBins {
            word: _,
            name: _,
            sel: _,
            guard: _,
            at: _,
        } = self;
    }
}

/// A cross of coverpoints (IEEE 1800-2017, 19.6), at its label where it has one, else at its word.
pub struct CrossDecl {
    /// Its label.
    pub label: Option<Name>,
    /// The names of its points or variables, two or more, in order.
    pub points: List<Name>,
    /// The condition behind `iff`.
    pub guard: Option<Expr>,
    /// Its options, in order.
    pub options: List<OptDecl>,
    /// Its bins, in order.
    pub bins: List<CrossBins>,
    /// Where it begins.
    pub at: u32,
}

impl Drop for CrossDecl {
    fn drop(self) {
        let CrossDecl {
            label: _,
            points: _,
            guard: _,
            options: _,
            bins: _,
            at: _,
        } = self;
    }
}

/// A member of a covergroup.
#[derive(Drop)]
pub enum Member {
    /// An option of the group.
    Opt(OptDecl),
    /// A coverpoint.
    Point(PointDecl),
    /// A cross.
    Cross(CrossDecl),
}

/// A formal of a covergroup (IEEE 1800-2017, 19.3), at its direction where it has one, else at its type.
pub struct Formal {
    /// Whether it stands for a variable. A formal without a direction has that of the formal before it, the first one `input` (13.3).
    pub by_ref: bool,
    /// Its type.
    pub typ: TypeText,
    /// Its name.
    pub name: Name,
    /// Its value where an instance gives none.
    pub default: Option<Expr>,
    /// Where it begins.
    pub at: u32,
}

impl Drop for Formal {
    fn drop(self) {
        let Formal {
            by_ref: _,
            typ: _,
            name: _,
            default: _,
            at: _,
        } = self;
    }
}

/// Which changes of a signal are a coverage event.
#[derive(Clone, Copy, Debug, PartialEq, Eq)]
pub enum EdgeKind {
    /// Any change.
    Any,
    /// `posedge`
    Pos,
    /// `negedge`
    Negative,
    /// `edge`, either of the two.
    Both,
}

/// A part of a coverage event (IEEE 1800-2017, 19.3).
pub struct EdgeText {
    /// Which changes.
    pub kind: EdgeKind,
    /// Of which signal.
    pub name: Name,
    /// The condition behind `iff`.
    pub guard: Option<Expr>,
}

impl Drop for EdgeText {
    fn drop(self) {
        let EdgeText {
            kind: _,
            name: _,
            guard: _,
        } = self;
    }
}
