//! Proofs of any size, and derivations of one proof alone: for tests and for measuring.
#![tactic(auto)]

mod chains;
mod stating;

pub use chains::{deep, filled};
pub use stating::{derivation, stated};
