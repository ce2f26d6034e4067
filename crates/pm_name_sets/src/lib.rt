//! Names that are looked up by their hash: a set of names, a list that tells which are in it, and the places of a list's names.
#![tactic(auto)]

mod index;
mod list;
mod set;

pub use index::NameIndex;
pub use list::NameList;
pub use set::NameSet;
