//! Street: ground.
//!
//! Names, lists, literals and the syntax tree of a design text, as the other crates keep them:
//! contracts see a `Name` as a list of bytes, a `List` as a list, and a `Boxed` or a `Shared` as the value in it, so that a
//! tree is plain data.
#![tactic(auto)]

mod bins;
mod boxed;
mod declarations;
mod expr;
mod groups;
mod list;
mod literal;
mod name;
mod shared;

pub use bins::{BinsDecl, Elem, End, OptDecl, OptText, Right, Size, Step, Times, Word};
pub use boxed::Boxed;
pub use cov_ground::Memory;
pub use declarations::{Decl, DesignText, FixedWidth, TypeText};
pub use expr::{BinOp, Expr, UnOp};
pub use groups::{CrossBins, CrossDecl, EdgeKind, EdgeText, Formal, Member, PointDecl, Sel};
pub use list::List;
pub use literal::Literal;
pub use name::Name;
pub use shared::Shared;
