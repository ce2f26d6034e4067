//! The places of names in a list.

ghost use Rattle.std.specs.Prelude.{◌≡◌, ◌+◌, ◌<◌, ◌^◌, List, ℕ, length, IfOk, IfSome};
ghost use Rattle.std.specs.Str.{bytes_eq};
ghost use Rattle.std.specs.HashMap.{get_by};
ghost use Rattle.std.specs.List.{position_from};

use pm_logic::{Memory, Name};
use std::alloc::Global;
use std::collections::HashMap;
use std::marker::Model;

/// The names of a list, which are found by their hash. Contracts see it as the list.
#[derive(Drop)]
pub struct NameIndex<'a> {
    names: &'a [Name],
    places: HashMap<&'a [u8], usize>,
}

impl<'a> Model for NameIndex<'a> {
    ghost use Rattle.std.specs.Prelude.{List, ℕ};

    ghost Value = { List (List ℕ) };

    ghost use Rattle.std.specs.Prelude.{◌≡◌};
    ghost use Rattle.std.specs.HashMap.{get_by};
    ghost use Rattle.std.specs.List.{position_from};
    ghost use Rattle.std.specs.Str.{bytes_eq};

    ghost view = { λ index. index.names.now };

    ghost invariant = { λ index. (name : List ℕ) → get_by (λ key. bytes_eq name key.now) index.places ≡ position_from (bytes_eq name) 0 index.names.now };
}

fn places_of<'a>(alloc: Global, names: &'a [Name]) -> Result<HashMap<&'a [u8], usize>, Memory>
    ensures { IfOk result (λ places. (name : List ℕ) → get_by (λ key. bytes_eq name key.now) places ≡ position_from (bytes_eq name) 0 names.now) }
{
    let mut places = HashMap::new(alloc);
    let mut i = names.len();
    while i > 0 {
        i -= 1;
        places.insert(names[i].bytes(), i)?;
    }
    Ok(places)
}

impl<'a> NameIndex<'a> {
    /// The index of these names. The error is want of memory, and then there is no index.
    pub fn new(alloc: Global, names: &'a [Name]) -> Result<NameIndex<'a>, Memory>
        ensures { IfOk result (λ index. index ≡ names.now) }
    {
        let places = places_of(alloc, names)?;
        Ok(NameIndex { names, places })
    }

    /// The first place of the name, where the first name of the list has the place `from`, and `None` where it isn't in
    /// the list.
    pub fn place(&self, from: usize, name: &[u8]) -> Option<usize>
        requires { from + length self.now < 2 ^ 64 }
        ensures place { result ≡ position_from (bytes_eq name.now) from self.now }
        ensures within { IfSome result (λ i. i < from + length self.now) }
    {
        match self.places.get(name) {
            Some(place) => Some(from + *place),
            None => None,
        }
    }
}
