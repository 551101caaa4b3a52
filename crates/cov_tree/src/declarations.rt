//! Declarations of a design text. Each `at` is a byte offset in the text.
ghost use Rattle.std.specs.Prelude.{◌≡◌};
ghost use Rattle.cov_tree.specs.Widths.{bits_of};

use crate::{EdgeText, Expr, Formal, List, Member, Name, Shared};

/// The width of a type that has always the same (IEEE 1800-2017, 6.11, table 6-8).
#[derive(Clone, Copy, Debug, PartialEq, Eq)]
pub enum FixedWidth {
    /// `byte`
    Bits8,
    /// `shortint`
    Bits16,
    /// `int` or `integer`
    Bits32,
    /// `longint`
    Bits64,
}

impl FixedWidth {
    /// How many bits it is.
    pub fn bits(self) -> u8
        ensures { result ≡ bits_of self }
    {
        match self {
            FixedWidth::Bits8 => 8,
            FixedWidth::Bits16 => 16,
            FixedWidth::Bits32 => 32,
            FixedWidth::Bits64 => 64,
        }
    }
}

/// A type as it is written (IEEE 1800-2017, 6.11).
#[derive(Drop)]
pub enum TypeText {
    /// `bit`, `logic` or `reg`, with the ends of its span, high and low, where it has one; at its word.
    Vector {
        signed: bool,
        span: Option<(Expr, Expr)>,
        at: u32,
    },
    /// `byte`, `shortint`, `int`, `longint` or `integer`, by its width.
    Fixed {
        width: FixedWidth,
        signed: bool,
    },
    /// The name of an enumeration.
    Named {
        name: Name,
        at: u32,
    },
}

/// A declaration.
#[derive(Drop)]
pub enum Decl {
    /// An enumeration with its constants in order and the values that they are given (IEEE 1800-2017, 6.19), at the word `typedef`.
    Enum {
        name: Name,
        base: Option<TypeText>,
        names: List<(Name, Option<Expr>)>,
        at: u32,
    },
    /// A variable, at its name. A declaration of several variables gives one for each, and they share its type.
    Var {
        typ: Shared<TypeText>,
        name: Name,
        at: u32,
    },
    /// A covergroup, at its word. In place of an event it may have the arguments of a sample function (IEEE 1800-2017,
    /// 19.8.1): `input` formals without a default.
    Group {
        name: Name,
        formals: List<Formal>,
        event: List<EdgeText>,
        args: List<Formal>,
        members: List<Member>,
        at: u32,
    },
    /// An instance of a covergroup, at the group's name.
    Instance {
        group: Name,
        name: Name,
        args: List<Expr>,
        at: u32,
    },
}

/// The syntax tree of a design text: its declarations in order.
pub struct DesignText {
    /// The declarations.
    pub decls: List<Decl>,
}

impl Drop for DesignText {
    fn drop(self) {
        let DesignText { decls: _ } = self;
    }
}
