//! Actions on what is in hand: each is a row of the directive table, with a proof.
#![tactic(auto)]

mod contradicting;
mod dropping;
mod holding;
mod kinds;
mod looking;
mod naming;
mod opening;
mod purity;
mod replacing;
mod steps;
mod taking;

pub use contradicting::absurd_held;
pub use dropping::drop_held;
pub use kinds::{to_int, to_spat};
pub use looking::{Lookup, look_up, without_named};
pub use naming::{name_fresh, name_held};
pub use opening::with_term;
pub use purity::{to_pure, to_pure_fresh};
pub use taking::{lend, take};
