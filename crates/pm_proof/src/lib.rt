//! Proofs: trees of rules with holes.
#![tactic(auto)]

mod branch;
mod copying;
mod copying_rules;
mod filling;
mod joining;
mod proof;

pub use branch::Branch;
pub use copying::in_order;
pub use copying_rules::copy_entail;
pub use joining::{Step, join, one_step_more};
pub use proof::{Parts, Proof, by_rule, hole};
