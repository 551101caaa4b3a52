//! Declarations of bins (IEEE 1800-2017, 19.5). Each `at` is a byte offset in the design text.
use crate::{Expr, List, Name, Shared};

/// An end of a range.
#[derive(Drop)]
pub enum End {
    /// A number.
    Value(Expr),
    /// `$`, the least or the greatest number of the point.
    Dollar { at: u32 },
}

/// An element of a list of values.
#[derive(Drop)]
pub enum Elem {
    /// One number.
    One(Expr),
    /// `[low:high]`, at its bracket.
    Span { low: End, high: End, at: u32 },
}

/// How often the values of a step follow one another (IEEE 1800-2017, 19.5.2). A single count is both ends, and stands in the
/// tree once.
#[derive(Drop)]
pub enum Times {
    /// Once.
    Once,
    /// `[*low:high]`, one after another.
    Consec {
        low: Shared<Expr>,
        high: Shared<Expr>,
    },
    /// `[->low:high]`, with other samples before each.
    Goto {
        low: Shared<Expr>,
        high: Shared<Expr>,
    },
    /// `[=low:high]`, with other samples before each, and behind the last.
    NonConsec {
        low: Shared<Expr>,
        high: Shared<Expr>,
    },
}

/// A step of a transition, at its first token.
pub struct Step {
    /// Its values, one or more.
    pub elems: List<Elem>,
    /// How often they follow one another.
    pub times: Times,
    /// Where it begins.
    pub at: u32,
}

impl Drop for Step {
    fn drop(self) {
        let Step {
            elems: _,
            times: _,
            at: _,
        } = self;
    }
}

/// How many bins a declaration of bins has.
#[derive(Drop)]
pub enum Size {
    /// One, without brackets.
    Scalar,
    /// `[]`, one for each value or each list of values.
    Open,
    /// `[number]`
    Fixed(Expr),
}

/// What a declaration of bins counts.
#[derive(Drop)]
pub enum Right {
    /// `{elems}`, and those numbers alone for which `keep` holds where `with` stands.
    Ranges {
        elems: List<Elem>,
        keep: Option<Expr>,
    },
    /// `name with (keep)`, where the name is to be that of the point.
    Whole {
        name: Name,
        keep: Expr,
    },
    /// Sequences of steps, one or more, of one step or more each.
    Trans(List<List<Step>>),
    /// `default`
    Default,
    /// `default sequence`
    DefaultSequence,
}

/// The word that begins a declaration of bins.
#[derive(Clone, Copy, Debug, PartialEq, Eq)]
pub enum Word {
    /// `bins`
    Bins,
    /// `illegal_bins`
    Illegal,
    /// `ignore_bins`
    Ignore,
}

/// A declaration of bins of a coverpoint, at its first token.
pub struct BinsDecl {
    /// Whether `wildcard` stands.
    pub wildcard: bool,
    /// The word.
    pub word: Word,
    /// The name of its bins.
    pub name: Name,
    /// How many bins it has.
    pub size: Size,
    /// What they count.
    pub right: Right,
    /// The condition behind `iff`.
    pub guard: Option<Expr>,
    /// Where it begins.
    pub at: u32,
}

impl Drop for BinsDecl {
    fn drop(self) {
        let BinsDecl {
            wildcard: _,
            word: _,
            name: _,
            size: _,
            right: _,
            guard: _,
            at: _,
        } = self;
    }
}

/// The value of an option.
#[derive(Drop)]
pub enum OptText {
    /// A number.
    Number(Expr),
    /// What stands between the quotes of a string.
    Text(Name),
}

/// An option of a group, a point or a cross (IEEE 1800-2017, 19.7), at its first token.
pub struct OptDecl {
    /// Whether its word is `type_option`, and not `option`.
    pub on_type: bool,
    /// Which option it is.
    pub name: Name,
    /// The value that it is to have.
    pub value: OptText,
    /// Where it begins.
    pub at: u32,
}

impl Drop for OptDecl {
    fn drop(self) {
        let OptDecl {
            on_type: _,
            name: _,
            value: _,
            at: _,
        } = self;
    }
}
