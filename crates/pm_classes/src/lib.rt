//! Classes of formulas: the parts that a formula splits into, by its form, and the proof that it does.
#![tactic(auto)]

mod binders;
mod closing;
mod combining;
mod conjoining;
mod disjoining;
mod entry;
mod existing;
mod from_pures;
mod laws;
mod persistence;
mod pures;
mod separating;
mod universal;
mod wands;

pub use combining::combine;
pub use conjoining::into_and;
pub use disjoining::into_or;
pub use entry::{One, OnePure, Pair};
pub use existing::into_exist;
pub use from_pures::from_pure;
pub use laws::{entries_are_no_larger, entries_are_scoped};
pub use persistence::into_persistent;
pub use pures::into_pure;
pub use separating::into_sep;
pub use universal::into_forall;
pub use wands::into_wand;
