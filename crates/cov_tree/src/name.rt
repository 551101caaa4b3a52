//! A text of bytes.
ghost use Rattle.std.specs.Prelude.{◌≡◌, ◌≤◌, ℕ, [], List, length, IfOk, nat_eq};
ghost use Rattle.std.specs.Cmp.{partial_equiv_from_equiv};
ghost use Rattle.std.specs.Cmp.Lexicographic.{pointwise, nat_list_eq_equiv, bytes_decides};
ghost use Rattle.std.specs.Hash as fed;
ghost use Rattle.std.proofs.Common.{ap};

use crate::Memory;
use std::alloc::Global;
use std::hash::{Hash, Hasher};
use std::marker::Model;
use std::sync::ArcSlice;

/// The most bytes that a name keeps in place. With them it has the size of three words.
const LIMIT: usize = 22;

/// Where the bytes of a name are.
#[derive(Drop, Debug)]
enum Bytes {
    /// In the name itself: the first `length` of these.
    Short { length: u8, bytes: [u8; LIMIT] },
    /// Once in memory, in however many places the name is shared.
    Shared(ArcSlice<u8>),
}

/// A name or another text, of any bytes and of any length. At most 22 bytes are kept in the name itself; more of them
/// stand once in memory, in however many places the name is shared.
#[derive(Debug)]
pub struct Name {
    bytes: Bytes,
}

impl Drop for Name {
    fn drop(self) {
        let Name { bytes: _ } = self;
    }
}

impl Model for Name {
    ghost use Rattle.std.specs.Prelude.{List, ℕ};
    ghost use Rattle.cov_tree.specs.Names.{bytes_of, IsKept};

    ghost Value = { List ℕ };

    ghost view = { λ name. bytes_of name.bytes };

    ghost invariant = { λ name. IsKept name.bytes };
}

/// A name of at most 22 bytes, which takes no memory.
fn short(bytes: &[u8]) -> Name
    requires { length bytes.now ≤ 22 }
    ensures { result ≡ bytes.now }
{
    let mut kept = [0; LIMIT];
    kept[..bytes.len()].copy_from_slice(bytes);
    Name {
        bytes: Bytes::Short {
            length: bytes.len() as u8,
            bytes: kept,
        },
    }
}

impl Name {
    /// The name of no bytes. It takes no memory.
    pub fn empty() -> Name
        ensures { result ≡ [] }
    {
        short(&[])
    }

    /// A copy of the bytes.
    pub fn of(alloc: Global, bytes: &[u8]) -> Result<Name, Memory>
        ensures { IfOk result (λ name. name ≡ bytes.now) }
    {
        if bytes.len() <= LIMIT {
            return Ok(short(bytes));
        }
        Ok(Name {
            bytes: Bytes::Shared(ArcSlice::from_slice(alloc, bytes)?),
        })
    }

    /// The bytes themselves. Where there are more than 22, it doesn't copy them.
    pub fn from_vec(bytes: Vec<u8>) -> Result<Name, Memory>
        ensures { IfOk result (λ name. name ≡ bytes.items) }
    {
        if bytes.len() <= LIMIT {
            return Ok(short(bytes.as_slice()));
        }
        Ok(Name {
            bytes: Bytes::Shared(ArcSlice::from_vec(bytes)?),
        })
    }

    /// The same name for a further place. It takes no memory.
    pub fn share(&self) -> Result<Name, Memory>
        ensures { IfOk result (λ name. name ≡ self.now) }
    {
        let bytes = match &self.bytes {
            Bytes::Short { length, bytes } => Bytes::Short {
                length: *length,
                bytes: *bytes,
            },
            Bytes::Shared(bytes) => Bytes::Shared(bytes.clone()?),
        };
        Ok(Name { bytes })
    }

    /// Its bytes.
    pub fn as_slice(&self) -> &[u8]
        ensures { result.now ≡ self.now }
    {
        match &self.bytes {
            Bytes::Short { length, bytes } => &bytes[..*length as usize],
            Bytes::Shared(bytes) => bytes.as_slice(),
        }
    }
}

impl PartialEq for Name {
    ghost eq = { pointwise nat_eq };

    ghost laws = { partial_equiv_from_equiv nat_list_eq_equiv };

    fn eq(&self, other: &Name) -> bool {
        self.as_slice() == other.as_slice()
    }
}

impl Eq for Name {
    ghost laws = { nat_list_eq_equiv };
}

impl Hash for Name {
    ghost hash_input = { fed.slice fed.u8 };

    ghost respects_eq = { λ x y h. ap (fed.slice fed.u8) ((bytes_decides x y).0 h) };

    fn hash<H: Hasher>(&self, state: &mut H) {
        self.as_slice().hash(state);
    }
}
