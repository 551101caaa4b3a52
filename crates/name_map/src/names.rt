//! Names with what they stand for, found by their bytes.
ghost use Rattle.std.specs.Cmp.Lexicographic.{pointwise, bytes_decides, nat_list_eq_equiv};
ghost use Rattle.std.specs.Hash as fed;
ghost use Rattle.std.proofs.Common.{ap};
ghost use Rattle.std.specs.Prelude.{◌≡◌, nat_eq, [], List, ℕ, length, is_none, option_copied, IfOk, OnOk, OnErr};
ghost use Rattle.name_map.specs.Names.{meaning_of, with_name, with_names};

use cov_ground::Memory;
use cov_tree::Name;
use indexmap::{Equivalent, IndexMap};
use std::alloc::Global;
use std::marker::Model;

/// Names with what they stand for, in the order in which they came. Contracts see the list of pairs; the first pair of
/// a name counts, and each name stands in one pair. Its drop is one function, in place of the parts of the map wherever
/// an owner of it may let it go.
pub struct NameMap<M> {
    map: IndexMap<Name, M>,
}

impl<M: Drop> Drop for NameMap<M> {
    fn drop(self) {
        let NameMap { map } = self;
        drop(map);
    }
}

impl<M> Model for NameMap<M> {
    ghost use Rattle.std.specs.Prelude.{List, ℕ};
    ghost use Rattle.std.specs.Coded.{coded_list, coded×, coded_ℕ};

    ghost Value = { List (List ℕ × M) };

    ghost coded = { coded_list (coded× (coded_list coded_ℕ) M.code) };

    ghost view = { λ names. names.map.entries };
}

impl<M> NameMap<M> {
    /// No names. It takes no memory.
    pub fn new(alloc: Global) -> NameMap<M>
        ensures { result ≡ [] }
    {
        NameMap {
            map: IndexMap::new(alloc),
        }
    }

    /// How many names there are.
    pub fn len(&self) -> usize
        ensures { result ≡ length self.now }
    {
        count(&self.map)
    }

    /// What the name stands for. It takes no memory.
    pub fn get(&self, name: &[u8]) -> Option<&M>
        ensures { option_copied result ≡ meaning_of self.now name.now }
    {
        found(&self.map, name)
    }
}

impl<M: Drop> NameMap<M> {
    /// The pairs, of which the first of a name counts.
    #[tactic(auto, using(crate::proofs::Named::meaning_of_pairs))]
    pub fn of(alloc: Global, pairs: Vec<(Name, M)>) -> Result<NameMap<M>, Memory>
        ensures value { IfOk result (λ names. names ≡ with_names [] pairs.items) }
        ensures meaning { IfOk result
            (λ names. (name : List ℕ) → meaning_of names name ≡ meaning_of pairs.items name) }
    {
        let mut names = NameMap::new(alloc);
        for pair in pairs {
            names.declare(pair.0, pair.1)?;
        }
        Ok(names)
    }

    /// Adds a name. Answers whether it is a new one; where it isn't, what it stood for stays.
    pub fn declare(&mut self, name: Name, meaning: M) -> Result<bool, Memory>
        ensures new { IfOk result (λ is_new. is_new ≡ is_none (meaning_of self.old name)) }
        ensures added { OnOk result (self.new ≡ with_name self.old name meaning) }
        ensures err { OnErr result (self.new ≡ self.old) }
    {
        add(&mut self.map, name, meaning)
    }

    /// Forgets all names. It takes no memory.
    pub fn clear(&mut self)
        ensures { self.new ≡ [] }
    {
        self.map.clear();
    }
}

/// The bytes by which a name is looked up.
#[derive(Clone, Copy, PartialEq, Eq, Hash)]
struct Sought<'a> {
    bytes: &'a [u8],
}

impl Equivalent<Name> for Sought<'_> {
    ghost equivalent = { λ s name. pointwise nat_eq s.bytes.now name };

    ghost respects_hash = { λ s name h. ap (fed.slice fed.u8) ((bytes_decides s.bytes.now name).0 h) };

    ghost respects_eq = { λ s x y. nat_list_eq_equiv.congr s.bytes.now x y };

    fn equivalent(&self, key: &Name) -> bool {
        self.bytes == key.as_slice()
    }
}

/// How many entries there are.
fn count<M>(map: &IndexMap<Name, M>) -> usize
    ensures { result ≡ length map.now.entries }
{
    map.len()
}

/// What the name stands for among these.
#[tactic(auto, unfolding(crate::specs::Names::meaning_of))]
fn found<'a, M>(map: &'a IndexMap<Name, M>, name: &[u8]) -> Option<&'a M>
    ensures { option_copied result ≡ meaning_of map.now.entries name.now }
{
    map.get(Sought { bytes: name })
}

/// Adds a name, unless it is there.
#[tactic(auto, unfolding(crate::specs::Names::meaning_of))]
fn add<M: Drop>(map: &mut IndexMap<Name, M>, name: Name, meaning: M) -> Result<bool, Memory>
    ensures new { IfOk result (λ is_new. is_new ≡ is_none (meaning_of map.old.entries name)) }
    ensures added { OnOk result
        (map.new.entries ≡ with_name map.old.entries name meaning) }
    ensures err { OnErr result (map.new.entries ≡ map.old.entries) }
{
    if found(map, name.as_slice()).is_some() {
        return Ok(false);
    }
    map.insert(name, meaning)?;
    Ok(true)
}
