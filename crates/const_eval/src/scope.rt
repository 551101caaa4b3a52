//! Names with what they stand for, at three levels.
ghost use Rattle.std.specs.Prelude.{◌≡◌, [], List, ℕ, is_none, IfOk, OnOk, OnErr};
ghost use Rattle.const_eval.specs.Scopes.{meaning_of, names_of, names_with, with_name, with_names, item_names, first_of};

use crate::{ITEM, Meaning, Typ};
use cov_base::Memory;
use cov_tree::{List, Name};
use name_map::NameMap;
use std::alloc::Global;
use std::marker::Model;
use std::mem;

/// Names with what they stand for: `item` of a `with`, inner names, as the formals of a group, and outer names, as those
/// of the design. An inner name hides an outer one of the same text, and `item` hides both.
#[derive(Drop)]
pub struct Scope {
    item: Option<Typ>,
    inner: NameMap<Meaning>,
    outer: NameMap<Meaning>,
}

impl Model for Scope {
    ghost use Rattle.const_eval.specs.Scopes.{Levels};

    ghost Value = { Levels };

    ghost view = { λ scope. record { item = scope.item; inner = scope.inner; outer = scope.outer } };
}

impl Scope {
    /// No names.
    pub fn new(alloc: Global) -> Scope
        ensures { result ≡ record { item = None; inner = []; outer = [] } }
    {
        Scope {
            item: None,
            inner: NameMap::new(alloc),
            outer: NameMap::new(alloc),
        }
    }

    /// The names of a list of pairs as outer names; the first pair of a name counts.
    pub fn of(alloc: Global, names: List<(Name, Meaning)>) -> Result<Scope, Memory>
        ensures value { IfOk result
            (λ scope. scope ≡ record { item = None; inner = []; outer = with_names [] names }) }
        ensures meaning { IfOk result
            (λ scope. (name : List ℕ) → meaning_of (names_of scope) name ≡ meaning_of names name) }
    {
        let outer = NameMap::of(alloc, names.into_vec())?;
        Ok(Scope {
            item: None,
            inner: NameMap::new(alloc),
            outer,
        })
    }

    /// What the name stands for. It takes no memory.
    pub fn meaning(&self, name: &[u8]) -> Option<Meaning>
        ensures { result ≡ meaning_of (names_of self.now) name.now }
    {
        self.meaning_with(self.item, name)
    }

    /// What the name stands for, where `item` has this type or is no name of its own. It takes no memory.
    #[tactic(auto, using(crate::proofs::Named::levels_meaning))]
    pub(crate) fn meaning_with(&self, item: Option<Typ>, name: &[u8]) -> Option<Meaning>
        ensures { result ≡ meaning_of (names_with item self.now) name.now }
    {
        let inner = first(found(&self.inner, name), found(&self.outer, name));
        first(item_meaning(item, name), inner)
    }

    /// The type of `item`, where it is a name of its own. It takes no memory.
    pub(crate) fn item(&self) -> Option<Typ>
        ensures { result ≡ self.now.item }
    {
        self.item
    }

    /// Adds an outer name. Answers whether it is a new one; where it isn't, the first meaning stays.
    pub fn declare(&mut self, name: Name, meaning: Meaning) -> Result<bool, Memory>
        ensures new { IfOk result (λ is_new. is_new ≡ is_none (meaning_of self.old.outer name)) }
        ensures added { OnOk result
            (self.new ≡ record self.old { outer = with_name self.old.outer name meaning }) }
        ensures err { OnErr result (self.new ≡ self.old) }
    {
        self.outer.declare(name, meaning)
    }

    /// Adds an inner name. Answers whether it is a new one among these; where it isn't, the first meaning stays.
    pub fn declare_inner(&mut self, name: Name, meaning: Meaning) -> Result<bool, Memory>
        ensures new { IfOk result (λ is_new. is_new ≡ is_none (meaning_of self.old.inner name)) }
        ensures added { OnOk result
            (self.new ≡ record self.old { inner = with_name self.old.inner name meaning }) }
        ensures err { OnErr result (self.new ≡ self.old) }
    {
        self.inner.declare(name, meaning)
    }

    /// Puts other inner names in the place of those that there are, and answers these. It takes no memory.
    pub fn replace_inner(&mut self, names: NameMap<Meaning>) -> NameMap<Meaning>
        ensures names { result ≡ self.old.inner }
        ensures scope { self.new ≡ record self.old { inner = names } }
    {
        mem::replace(&mut self.inner, names)
    }

    /// Forgets the inner names. It takes no memory.
    pub fn clear_inner(&mut self)
        ensures { self.new ≡ record self.old { inner = [] } }
    {
        self.inner.clear();
    }

    /// Says which type `item` has, or that it isn't a name of its own. It takes no memory.
    pub fn set_item(&mut self, item: Option<Typ>)
        ensures { self.new ≡ record self.old { item = item } }
    {
        self.item = item;
    }
}

/// The meaning of the name among these.
fn found(names: &NameMap<Meaning>, name: &[u8]) -> Option<Meaning>
    ensures { result ≡ meaning_of names.now name.now }
{
    names.get(name).copied()
}

/// The first of the two that is there.
fn first(meaning: Option<Meaning>, later: Option<Meaning>) -> Option<Meaning>
    ensures { result ≡ first_of meaning later }
{
    match meaning {
        Some(meaning) => Some(meaning),
        None => later,
    }
}

/// The meaning of the name, where it is `item`.
#[tactic(auto, unfolding(crate::specs::Scopes::meaning_of))]
fn item_meaning(item: Option<Typ>, name: &[u8]) -> Option<Meaning>
    ensures { result ≡ meaning_of (item_names item) name.now }
{
    let typ = item?;
    if name == b"item".as_slice() {
        Some(Meaning::Signal {
            index: ITEM,
            typ,
            low: 0,
        })
    } else {
        None
    }
}
