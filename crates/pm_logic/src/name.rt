//! Names of predicates and statements.

ghost use Rattle.std.specs.Prelude.{◌≡◌, IfOk};
ghost use Rattle.std.proofs.Common.{rules};
ghost use Rattle.std.specs.Cmp.Rules.{comparing, hashing};
ghost use Rattle.std.specs.Hash as fed;
ghost use Rattle.std.specs.Str.{bytes_eq};

use crate::list::{Bytes, Memory};
use std::alloc::Global;
use std::hash::{Hash, Hasher};
use std::marker::Model;

/// An identifier, which contracts see as its bytes.
#[derive(Debug, Drop)]
pub struct Name {
    text: Bytes,
}

impl Model for Name {
    ghost use Rattle.std.specs.Prelude.{List, ℕ};

    ghost Value = { List ℕ };

    ghost view = { λ it. it.text };
}

impl Name {
    /// The name that is spelled so. The error is want of memory, and then there is no name.
    pub fn new(alloc: Global, text: &str) -> Result<Name, Memory>
        ensures { IfOk result (λ name. name ≡ text.now) }
    {
        let text = Bytes::from_slice(alloc, text.as_bytes())?;
        Ok(Name { text })
    }

    /// The name of these bytes. The error is want of memory, and then there is no name.
    pub fn from_bytes(alloc: Global, text: &[u8]) -> Result<Name, Memory>
        ensures { IfOk result (λ name. name ≡ text.now) }
    {
        let text = Bytes::from_slice(alloc, text)?;
        Ok(Name { text })
    }

    /// The bytes of its spelling.
    pub fn bytes(&self) -> &[u8]
        ensures { result.now ≡ self.now }
    {
        self.text.as_slice()
    }
}

impl PartialEq for Name {
    ghost eq = { bytes_eq };

    ghost laws = { Prim.search (comparing, rules) };

    fn eq(&self, other: &Name) -> bool {
        self.bytes() == other.bytes()
    }
}

impl Eq for Name {
    ghost laws = { Prim.search (comparing, rules) };
}

impl Hash for Name {
    ghost hash_input = { fed.slice fed.u8 };

    ghost respects_eq = { Prim.search (hashing, rules) };

    fn hash<H: Hasher>(&self, state: &mut H) {
        self.bytes().hash(state);
    }
}

/// The same name once more. The error is want of memory, and then there is no copy; the name is as before.
pub fn copy_name(alloc: Global, name: &Name) -> Result<Name, Memory>
    ensures { IfOk result (λ copy. copy ≡ name.now) }
{
    let text = Bytes::from_slice(alloc, name.bytes())?;
    Ok(Name { text })
}
