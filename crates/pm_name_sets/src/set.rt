//! A set of names.

ghost use Rattle.std.specs.Prelude.{◌≡◌, [], not, IfOk, OnOk, OnErr};
ghost use Rattle.pm_name_sets.specs.Sets.{has, Adds};

use pm_logic::Memory;
use std::alloc::Global;
use std::collections::HashSet;
use std::marker::Model;

/// A set of names, which contracts see as its names in some order. It keeps the allocator that it was made with.
#[derive(Drop)]
pub struct NameSet {
    names: HashSet<Vec<u8>>,
}

impl Model for NameSet {
    ghost use Rattle.std.specs.Prelude.{List, ℕ, map, Vec};
    ghost use Rattle.std.specs.declared.alloc.Global.{Global};

    ghost Value = { List (List ℕ) };

    ghost view = { λ set. map (λ (name : Vec ℕ Global). name.items) set.names.keys };
}

impl NameSet {
    /// The set of no names. It takes no memory until it grows.
    pub fn new(alloc: Global) -> NameSet
        ensures { result ≡ [] }
    {
        NameSet {
            names: HashSet::new(alloc),
        }
    }

    /// Whether the name is in the set.
    pub fn contains(&self, name: &[u8]) -> bool
        ensures { result ≡ has self.now name.now }
    {
        self.names.contains(name)
    }

    /// Adds a name, and answers whether it is new. The error is want of memory, and then the set is as before.
    pub fn insert(&mut self, alloc: Global, name: &[u8]) -> Result<bool, Memory>
        ensures new { IfOk result (λ is_new. is_new ≡ not (has self.old name.now)) }
        ensures ok { OnOk result (Adds self.old self.new name.now) }
        ensures err { OnErr result (self.new ≡ self.old) }
    {
        let key = Vec::from_slice(alloc, name)?;
        Ok(self.names.insert(key)?)
    }
}
