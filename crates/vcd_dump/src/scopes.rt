//! The scopes of a dump that stand open.
ghost use Rattle.std.specs.Prelude.{◌≡◌, ◌∷◌, ◌++◌, [], length, nat_lt, IfOk, OnOk, Some, None, reverse, if◌then◌else◌};
ghost use Rattle.vcd_dump.specs.Header.{joined, scope_name, outer};

use cov_ground::Memory;
use cov_tree::Name;
use std::alloc::Global;
use std::marker::Model;

/// The names of scopes, each with those around it. Contracts see the innermost first.
#[derive(Drop)]
pub(crate) struct Scopes {
    names: Vec<Name>,
}

impl Model for Scopes {
    ghost use Rattle.std.specs.Prelude.{List, ℕ, reverse};

    ghost Value = { List (List ℕ) };

    ghost view = { λ scopes. reverse scopes.names.items };
}

impl Scopes {
    /// No scope. It takes no memory.
    pub(crate) fn new(alloc: Global) -> Scopes
        ensures { result ≡ [] }
    {
        Scopes {
            names: Vec::new(alloc),
        }
    }

    /// Whether some scope stands open.
    pub(crate) fn is_open(&self) -> bool
        ensures { result ≡ nat_lt 0 (length self.now) }
    {
        !self.names.is_empty()
    }

    /// A scope in the innermost one.
    pub(crate) fn enter(&mut self, alloc: Global, name: &[u8]) -> Result<(), Memory>
        ensures { OnOk result (self.new ≡ joined self.old name.now ∷ self.old) }
    {
        let text = joined_name(alloc, self.names.as_slice(), name)?;
        self.names.push(text)?;
        Ok(())
    }

    /// Ends the innermost scope. Answers whether there was one.
    pub(crate) fn leave(&mut self) -> bool
        ensures { outer self.old ≡ (if result then Some self.new else None) }
    {
        self.names.pop().is_some()
    }

    /// The name of the innermost scope with those around it; a dot where there is none.
    pub(crate) fn name(&self, alloc: Global) -> Result<Name, Memory>
        ensures { IfOk result (λ name. name ≡ scope_name self.now) }
    {
        match self.names.last() {
            Some(name) => name.share(),
            None => Name::of(alloc, b"."),
        }
    }
}

/// A name behind that of the last scope and a dot.
fn joined_name(alloc: Global, scopes: &[Name], name: &[u8]) -> Result<Name, Memory>
    ensures { IfOk result (λ text. text ≡ joined (reverse scopes.now) name.now) }
{
    let mut text = Vec::new(alloc);
    if let Some(scope) = scopes.last() {
        text.extend_from_slice(scope.as_slice())?;
        text.extend_from_slice(b".")?;
    }
    text.extend_from_slice(name)?;
    Name::from_vec(text)
}
