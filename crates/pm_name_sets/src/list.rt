//! A list of names that finds quickly whether a name is in it.

ghost use Rattle.std.specs.Prelude.{◌≡◌, [], ◌∷◌, ◌++◌, IfOk};
ghost use Rattle.pm_name_sets.specs.Sets.{has};

use crate::set::NameSet;
use pm_logic::{List, Memory, Name};
use std::alloc::Global;
use std::marker::Model;

/// A growing list of names, which contracts see as the list. It finds by its hash whether a name is in it.
#[derive(Drop)]
pub struct NameList {
    names: List<Name>,
    set: NameSet,
}

impl Model for NameList {
    ghost use Rattle.std.specs.Prelude.{◌≡◌, List, ℕ};
    ghost use Rattle.pm_name_sets.specs.Sets.{has};

    ghost Value = { List (List ℕ) };

    ghost view = { λ list. list.names };

    ghost invariant = { λ list. (name : List ℕ) → has list.set name ≡ has list.names name };
}

impl NameList {
    /// The empty list. It takes no memory until it grows.
    pub fn new(alloc: Global) -> NameList
        ensures { result ≡ [] }
    {
        NameList {
            names: List::new(alloc),
            set: NameSet::new(alloc),
        }
    }

    /// Whether the name is in the list.
    pub fn contains(&self, name: &[u8]) -> bool
        ensures { result ≡ has self.now name.now }
    {
        self.set.contains(name)
    }

    /// The list with the name behind it. The error is want of memory, and then both are dropped.
    pub fn with(self, alloc: Global, name: Name) -> Result<NameList, Memory>
        ensures { IfOk result (λ list. list ≡ self ++ name ∷ []) }
    {
        let NameList { mut names, mut set } = self;
        set.insert(alloc, name.bytes())?;
        names.push(name)?;
        Ok(NameList { names, set })
    }

    /// The names.
    pub fn into_names(self) -> List<Name>
        ensures { result ≡ self }
    {
        let NameList { names, set } = self;
        drop(set);
        names
    }
}
