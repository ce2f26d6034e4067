//! Actions on a goal with nothing in hand: each is a row of the directive table, with a proof.
#![tactic(auto)]

mod changing;
mod choosing;
mod clearing;
mod concluding;
mod dealing;
mod finding;
mod generalizing;
mod indices;
mod renaming;
mod reverting;
mod rules;
mod splitting;
mod steps;

pub use choosing::{exfalso, exists, side};
pub use clearing::clear;
pub use dealing::split_at;
pub use generalizing::revert_var;
pub use renaming::rename;
pub use reverting::revert;
pub use splitting::split;
