//! Names that are found by their hash.

use crate::given::names;
use pm_logic::{Memory, Name};
use pm_name_sets::{NameIndex, NameList, NameSet};
use std::alloc::Global;
use std::collections::HashSet;
use std::hash::Hash;
use std::test::Fail;

/// Whether a set of the key alone has the one that is asked for.
fn is_found<T: Eq + Hash + Drop>(alloc: Global, key: T, asked: &T) -> Result<bool, Memory> {
    let mut keys = HashSet::new(alloc);
    keys.insert(key)?;
    Ok(keys.contains(asked))
}

#[test]
fn equal_names_hash_alike(rt: HostRuntime) -> Result<(), Fail> {
    let alloc = rt.alloc();
    let asked = Name::new(alloc, "a")?;
    assert!(rt; is_found(alloc, Name::new(alloc, "a")?, &asked)?);
    assert!(rt; !is_found(alloc, Name::new(alloc, "ab")?, &asked)?);
    Ok(())
}

#[test]
fn a_set(rt: HostRuntime) -> Result<(), Fail> {
    let alloc = rt.alloc();
    let mut set = NameSet::new(alloc);
    assert!(rt; set.insert(alloc, b"a")?);
    assert!(rt; set.insert(alloc, b"b")?);
    assert!(rt; !set.insert(alloc, b"a")?);
    assert!(rt; set.contains(b"b"));
    assert!(rt; !set.contains(b"c"));
    Ok(())
}

#[test]
fn a_list(rt: HostRuntime) -> Result<(), Fail> {
    let alloc = rt.alloc();
    let list = NameList::new(alloc).with(alloc, Name::new(alloc, "a")?)?;
    let list = list.with(alloc, Name::new(alloc, "b")?)?;
    assert!(rt; list.contains(b"a"));
    assert!(rt; !list.contains(b"c"));
    let list = list.into_names();
    assert_eq!(rt; list.len(), 2);
    assert_eq!(rt; list.as_slice()[1].bytes(), b"b".as_slice());
    Ok(())
}

#[test]
fn places(rt: HostRuntime) -> Result<(), Fail> {
    let alloc = rt.alloc();
    let list = names(alloc, &["x", "y", "x"])?;
    assert_eq!(rt; list.len(), 3);
    let index = NameIndex::new(alloc, list.as_slice())?;
    assert_eq!(rt; index.place(7, b"x"), Some(7));
    assert_eq!(rt; index.place(7, b"y"), Some(8));
    assert_eq!(rt; index.place(7, b"z"), None);
    Ok(())
}
